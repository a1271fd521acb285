//! Laws of what is reported of a list of records.
ghost use Rattle.std.specs.Prelude.{◌≡◌, true, List};
ghost use Rattle.wrp_town.specs.declared.town.Town.{Town};
ghost use Rattle.wrp_town.specs.Arcs.{is_legal, arc_of};
ghost use Rattle.std.specs.List.{list_all};
ghost use Rattle.wrp_rules.specs.declared.record.Record.{Record};
ghost use Rattle.wrp_rules.specs.declared.record.End.{End};
ghost use Rattle.wrp_rules.specs.Nodes.{standing};
ghost use Rattle.wrp_rules.specs.Lists.{is_valid, agrees};
ghost use Rattle.wrp_report.specs.Lists.{last_tour, WalksTo};

/// The last tour of a valid list is a tour of the cost that an end names which agrees with the
/// list, and its steps are legal.
pub fn last_tours_have_the_cost()
    ensures legal { (town : Town) (records : List Record) → is_valid town records ≡ true
        → list_all (λ step. is_legal town (arc_of step)) (last_tour records) ≡ true }
    ensures cost { (town : Town) (records : List Record) (end : End) → is_valid town records ≡ true
        → agrees (standing town records) end ≡ true → WalksTo town end (last_tour records) }
{}
