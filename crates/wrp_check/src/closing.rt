//! Records that bound a node or empty it.
ghost use Rattle.std.specs.Prelude.{◌≡◌, ◌^◌, ◌<◌, ◌≤◌, None, Ok, true, unsigned_abs, length, IfOk};
ghost use Rattle.wrp_sums.specs.Rounding.{ceil_div as ceil_div_of};
ghost use Rattle.wrp_rules.specs.declared.record.Record.TheVariants.{Bound, Empty};
ghost use Rattle.wrp_rules.specs.Contents.{has_number_rules};
ghost use Rattle.wrp_rules.specs.Nodes.{Standing};
ghost use Rattle.wrp_rules.specs.Rules.{first_broken};
ghost use Rattle.wrp_pool.specs.Pools.{has_rows};
ghost use Rattle.wrp_check.specs.Judging.{start_rules, IsKept, IsSound, IsIdle, Tries};

use crate::gather::gather_pairs;
use crate::kept::{Kept, Past};
use crate::work::Work;
use std::alloc::AllocError;
use wrp_num::ceil_div;
use wrp_proof::{PairsOf, Rule};
use wrp_town::Town;

/// The first of the rules of the node and of the rows that a record with multipliers breaks. Gathers
/// the multipliers.
fn broken_start(
    town: &Town,
    pairs: &mut Vec<(u32, u128)>,
    kept: &Kept,
    node: u64,
    multipliers: &PairsOf<'_>,
) -> Result<Option<Rule>, AllocError>
    requires { IsSound town.now kept.now }
    ensures rule { IfOk result (λ broken. (s : Standing) → IsKept town.now s kept.now
        → first_broken (start_rules town.now s node multipliers.now) ≡ broken) }
    ensures pairs { result ≡ Ok None → pairs.new.items ≡ multipliers.now }
    ensures there { result ≡ Ok None → node < length kept.now.nodes }
    ensures rows { result ≡ Ok None → has_rows kept.now.pool multipliers.now ≡ true }
{
    if node >= kept.nodes.len() {
        return Ok(Some(Rule::Range));
    }
    if !gather_pairs(pairs, multipliers, kept.pool.len())? {
        return Ok(Some(Rule::Range));
    }
    if !kept.nodes.is_open(node, kept.upper) {
        return Ok(Some(Rule::Closed));
    }
    Ok(None)
}

/// A value over its denominator, rounded up.
fn rounded_up(value: i128, denominator: u64) -> i128
    requires small { unsigned_abs value ≤ 2 ^ 124 }
    requires denominator { 1 ≤ denominator }
    ensures { result ≡ ceil_div_of value denominator }
{
    ceil_div(value, i128::from(denominator))
}

/// Takes a bound, or says which rule it breaks.
pub(crate) fn take_bound(
    town: &Town,
    work: &mut Work,
    kept: &mut Kept,
    node: u64,
    denominator: u64,
    multipliers: &PairsOf<'_>,
) -> Result<Option<Rule>, AllocError>
    requires idle { IsIdle town.now work.old }
    requires sound { IsSound town.now kept.old }
    requires numbers { has_number_rules (Bound node denominator multipliers.now) ≡ true }
    ensures idle { result ≡ Ok None → IsIdle town.now work.new }
    ensures tries { IfOk result (λ broken.
        Tries town.now (Bound node denominator multipliers.now) broken kept.old kept.new) }
{
    if let Some(rule) = broken_start(town, &mut work.pairs, kept, node, multipliers)? {
        return Ok(Some(rule));
    }
    let value = work.value(town, kept, node, denominator)?;
    let bound = rounded_up(value, denominator);
    if bound <= kept.nodes.bound(node) {
        return Ok(Some(Rule::Low));
    }
    kept.nodes.set_bound(node, bound);
    kept.past = Past::plain();
    Ok(None)
}

/// Takes the record that empties a node by multipliers, or says which rule it breaks.
pub(crate) fn take_empty(
    town: &Town,
    work: &mut Work,
    kept: &mut Kept,
    node: u64,
    multipliers: &PairsOf<'_>,
) -> Result<Option<Rule>, AllocError>
    requires idle { IsIdle town.now work.old }
    requires sound { IsSound town.now kept.old }
    requires numbers { has_number_rules (Empty node multipliers.now) ≡ true }
    ensures idle { result ≡ Ok None → IsIdle town.now work.new }
    ensures tries { IfOk result (λ broken.
        Tries town.now (Empty node multipliers.now) broken kept.old kept.new) }
{
    if let Some(rule) = broken_start(town, &mut work.pairs, kept, node, multipliers)? {
        return Ok(Some(rule));
    }
    let value = work.value(town, kept, node, 0)?;
    if value <= 0 {
        return Ok(Some(Rule::Low));
    }
    kept.nodes.close(node);
    kept.past = Past::plain();
    Ok(None)
}
