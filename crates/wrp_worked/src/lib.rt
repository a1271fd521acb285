//! Worked towns: what the definitions and the calls of the project answer where a person knows the
//! answer. The files of `proofs/` work out lists of records by computation, and the tests call the
//! street network, rows and bounds.
#![tactic(auto)]

ghost use Rattle.std.specs.Prelude.{◌≡◌, true, List};
ghost use Rattle.wrp_town.specs.declared.town.Town.{Town};
ghost use Rattle.wrp_rules.specs.declared.record.Record.{Record};
ghost use Rattle.wrp_rules.specs.declared.record.End.TheVariants.{Optimal};
ghost use Rattle.wrp_rules.specs.Nodes.{standing};
ghost use Rattle.wrp_rules.specs.Lists.{is_valid, agrees};

#[cfg(test)]
mod row_tests;
#[cfg(test)]
mod tests;

/// The laws of valid lists speak of lists that there are: this function does nothing, and its clause
/// is one.
pub fn some_list_is_valid()
    ensures { (town : Town) × (records : List Record) × (is_valid town records ≡ true)
        × (agrees (standing town records) (Optimal 5) ≡ true) }
{}
