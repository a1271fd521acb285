//! Records of cuts: whether they keep their rules, and the rows that they add.
ghost use Rattle.std.specs.Prelude.{◌≡◌, None, Ok, true, nat_le, ◌∷◌, [], IfOk};
ghost use Rattle.std.specs.List.{list_all};
ghost use Rattle.wrp_rules.specs.declared.record.Record.TheVariants.{Conn, Odd, Round, Kc};
ghost use Rattle.wrp_rules.specs.Contents.{has_number_rules};
ghost use Rattle.wrp_rules.specs.Rules as rules;
ghost use Rattle.wrp_check.specs.Judging.{IsSound, IsIdle, Tries};

use crate::gather::{gather_numbers, gather_pairs, gather_set};
use crate::kept::{Kept, Past};
use crate::work::Work;
use std::alloc::{AllocError, Global};
use wrp_graph::Graph;
use wrp_pool::{crossing_demands, is_chain, is_parted, joining_demands};
use wrp_proof::{NumbersOf, PairsOf, Rule};
use wrp_town::Town;

/// The most cuts of one proof.
const CUT_LIMIT: u32 = 20_000;

/// Takes a connectivity cut, or says which rule it breaks.
pub(crate) fn take_conn(
    alloc: Global,
    graph: &Graph<'_>,
    work: &mut Work,
    kept: &mut Kept,
    inside: u32,
    outside: u32,
    junctions: &NumbersOf<'_>,
) -> Result<Option<Rule>, AllocError>
    requires idle { IsIdle graph.now work.old }
    requires sound { IsSound graph.now kept.old }
    requires numbers { has_number_rules (Conn inside outside junctions.now) ≡ true }
    ensures idle { result ≡ Ok None → IsIdle graph.now work.new }
    ensures tries { IfOk result (λ broken.
        Tries graph.now (Conn inside outside junctions.now) broken kept.old kept.new) }
{
    let town = graph.town();
    if !are_streets(town, inside, outside) || !gather_set(&mut work.set, junctions)? {
        return Ok(Some(Rule::Range));
    }
    if kept.cuts >= CUT_LIMIT {
        return Ok(Some(Rule::Cuts));
    }
    if !is_parted(town, inside, outside, &work.set) {
        return Ok(Some(Rule::Cross));
    }
    kept.pool.push_conn(alloc, graph, &work.set)?;
    kept.cuts += 1;
    kept.past = Past::plain();
    work.set.clear();
    Ok(None)
}

/// Whether two streets are there.
pub(crate) fn are_streets(town: &Town, one: u32, other: u32) -> bool
    ensures { result ≡ rules.streets_are_there town.now (one ∷ other ∷ []) }
{
    (one as usize) < town.streets.len() && (other as usize) < town.streets.len()
}

/// Takes an odd cut, or says which rule it breaks.
pub(crate) fn take_odd(
    alloc: Global,
    graph: &Graph<'_>,
    work: &mut Work,
    kept: &mut Kept,
    junctions: &NumbersOf<'_>,
) -> Result<Option<Rule>, AllocError>
    requires idle { IsIdle graph.now work.old }
    requires sound { IsSound graph.now kept.old }
    requires numbers { has_number_rules (Odd junctions.now) ≡ true }
    ensures idle { result ≡ Ok None → IsIdle graph.now work.new }
    ensures tries { IfOk result (λ broken.
        Tries graph.now (Odd junctions.now) broken kept.old kept.new) }
{
    if !gather_set(&mut work.set, junctions)? {
        return Ok(Some(Rule::Range));
    }
    if kept.cuts >= CUT_LIMIT {
        return Ok(Some(Rule::Cuts));
    }
    let crossing = crossing_demands(graph.town(), &work.set);
    if crossing % 2 == 0 {
        return Ok(Some(Rule::Even));
    }
    kept.pool.push_odd(alloc, graph, &work.set, crossing)?;
    kept.cuts += 1;
    kept.past = Past::plain();
    work.set.clear();
    Ok(None)
}

/// Takes a rounding, or says which rule it breaks.
pub(crate) fn take_round(
    alloc: Global,
    town: &Town,
    work: &mut Work,
    kept: &mut Kept,
    divisor: u64,
    multipliers: &PairsOf<'_>,
) -> Result<Option<Rule>, AllocError>
    requires idle { IsIdle town.now work.old }
    requires sound { IsSound town.now kept.old }
    requires numbers { has_number_rules (Round divisor multipliers.now) ≡ true }
    ensures idle { result ≡ Ok None → IsIdle town.now work.new }
    ensures tries { IfOk result (λ broken.
        Tries town.now (Round divisor multipliers.now) broken kept.old kept.new) }
{
    if !gather_pairs(&mut work.pairs, multipliers, kept.pool.len())? {
        return Ok(Some(Rule::Range));
    }
    if kept.cuts >= CUT_LIMIT {
        return Ok(Some(Rule::Cuts));
    }
    let side = kept
        .pool
        .combine(town, work.pairs.as_slice(), &mut work.tally)?;
    if !kept
        .pool
        .push_round(alloc, town, divisor, &work.tally, side)?
    {
        return Ok(Some(Rule::Wide));
    }
    kept.cuts += 1;
    kept.past = Past::plain();
    work.tally.clear(town);
    Ok(None)
}

/// Whether the sets of a K-C cut are numbered from 0 to `last`, one for each junction.
fn is_partition(town: &Town, last: u32, of: &[u32]) -> bool
    ensures { result ≡ rules.is_partition town.now last of.now }
{
    of.len() == town.junctions.len() && last >= 3 && are_at_most(of, last)
}

/// Whether no number is above a limit.
fn are_at_most(numbers: &[u32], most: u32) -> bool
    ensures { result ≡ list_all (λ i. nat_le i most) numbers.now }
{
    numbers.iter().all(|number| *number <= most)
}

/// Takes a K-C cut, or says which rule it breaks.
pub(crate) fn take_kc(
    alloc: Global,
    town: &Town,
    work: &mut Work,
    kept: &mut Kept,
    last: u32,
    of: &NumbersOf<'_>,
) -> Result<Option<Rule>, AllocError>
    requires idle { IsIdle town.now work.old }
    requires sound { IsSound town.now kept.old }
    ensures idle { result ≡ Ok None → IsIdle town.now work.new }
    ensures tries { IfOk result (λ broken.
        Tries town.now (Kc last of.now) broken kept.old kept.new) }
{
    if !gather_numbers(&mut work.numbers, of, town.junctions.len())?
        || !is_partition(town, last, work.numbers.as_slice())
    {
        return Ok(Some(Rule::Range));
    }
    if kept.cuts >= CUT_LIMIT {
        return Ok(Some(Rule::Cuts));
    }
    let sets = work.numbers.as_slice();
    let joining = joining_demands(town, last, sets);
    if !is_chain(alloc, town, last, sets, joining)? {
        return Ok(Some(Rule::Chain));
    }
    kept.pool.push_kc(alloc, town, last, sets, joining)?;
    kept.cuts += 1;
    kept.past = Past::plain();
    Ok(None)
}
