//! The conditions and the rows of K-C cuts: `of` has the number of the set of each junction, from 0
//! to `last`.
ghost use Rattle.std.specs.Prelude.{◌≡◌, ◌-◌, ◌*◌, ◌<◌, true, length, slice_index, IfOk};
ghost use Rattle.std.specs.List.{All, count_by, list_all, range_with_len};
ghost use Rattle.wrp_town.specs.Streets.{forward_arc, demands_at};
ghost use Rattle.wrp_town.specs.Arcs.{tail_of, head_of};
ghost use Rattle.wrp_rules.specs.Rules.{is_partition};
ghost use Rattle.wrp_rules.specs.Sets.{arc_at};
ghost use Rattle.wrp_rules.specs.Rows.{joins_ends, joining_demands, keeps_set};
ghost use Rattle.wrp_rules.specs.Rows as rows;
ghost use Rattle.wrp_pool.specs.Chains.{keeps_sets, mark_of, AreBare, MarksMore, MarkHolders};

use crate::demand::is_required;
use std::alloc::{AllocError, Global};
use wrp_town::{Need, Town};

/// The number of the set of the junction that an arc leaves.
pub(crate) fn tail_set(town: &Town, of: &[u32], arc: u32) -> u32
    requires there { arc < 2 * length town.now.streets }
    requires all { length of.now ≡ length town.now.junctions }
    ensures { result ≡ slice_index of.now (tail_of town.now arc) }
{
    of[town.tail(arc) as usize]
}

/// The number of the set of the junction that an arc enters.
pub(crate) fn head_set(town: &Town, of: &[u32], arc: u32) -> u32
    requires there { arc < 2 * length town.now.streets }
    requires all { length of.now ≡ length town.now.junctions }
    ensures { result ≡ slice_index of.now (head_of town.now arc) }
{
    of[town.head(arc) as usize]
}

/// Whether an arc joins the first set and the last.
pub(crate) fn joins_ends(town: &Town, last: u32, of: &[u32], arc: u32) -> bool
    requires there { arc < 2 * length town.now.streets }
    requires sets { is_partition town.now last of.now ≡ true }
    ensures { result ≡ joins_ends town.now last of.now arc }
{
    let tail = tail_set(town, of, arc);
    let head = head_set(town, of, arc);
    (tail == 0 && head == last) || (tail == last && head == 0)
}

/// Whether a street has both ends in one set.
fn keeps_set(town: &Town, of: &[u32], street: u32) -> bool
    requires there { street < length town.now.streets }
    requires all { length of.now ≡ length town.now.junctions }
    ensures { result ≡ keeps_set of.now town.now street }
{
    tail_set(town, of, 2 * street) == head_set(town, of, 2 * street)
}

/// How many demands of a street join the first set and the last.
#[tactic(auto, using(crate::proofs::Demands::joining_here))]
fn joining_at(town: &Town, last: u32, of: &[u32], street: u32, need: Need) -> u32
    requires there { street < length town.now.streets }
    requires sets { is_partition town.now last of.now ≡ true }
    ensures count { result
        ≡ count_by (λ d. joins_ends town.now last of.now (arc_at d)) (demands_at street need) }
    ensures few { result < 3 }
{
    if joins_ends(town, last, of, 2 * street) {
        need.demand_count()
    } else {
        0
    }
}

/// How many demands have a street that joins the first set and the last.
pub fn joining_demands(town: &Town, last: u32, of: &[u32]) -> u32
    requires { is_partition town.now last of.now ≡ true }
    ensures { result ≡ joining_demands town.now last of.now }
{
    let mut joining = 0;
    for (i, street) in town.streets.as_slice().iter().enumerate() {
        joining += joining_at(town, last, of, i as u32, street.need);
    }
    joining
}

/// Whether a street isn't required, joins the first set and the last, or stays in one set.
fn keeps_sets(town: &Town, last: u32, of: &[u32], street: u32) -> bool
    requires there { street < length town.now.streets }
    requires sets { is_partition town.now last of.now ≡ true }
    ensures { result ≡ keeps_sets town.now last of.now street }
{
    !is_required(town, street)
        || joins_ends(town, last, of, 2 * street)
        || keeps_set(town, of, street)
}

/// Whether no required street joins two different sets other than the first and the last.
fn streets_keep_sets(town: &Town, last: u32, of: &[u32]) -> bool
    requires { is_partition town.now last of.now ≡ true }
    ensures { result ≡ rows.streets_keep_sets town.now last of.now }
{
    for street in 0..town.streets.len() as u32 {
        if !keeps_sets(town, last, of, street) {
            return false;
        }
    }
    true
}

/// Marks the set that wholly holds a street, where that is required.
fn mark_holder(town: &Town, of: &[u32], street: u32, held: &mut [bool])
    requires there { street < length town.now.streets }
    requires all { length of.now ≡ length town.now.junctions }
    requires room { All (λ i. i < length held.old) of.now }
    ensures { MarksMore town.now of.now street held.old held.new }
{
    if is_required(town, street) && keeps_set(town, of, street) {
        held[tail_set(town, of, 2 * street) as usize] = true;
    }
}

/// Marks the sets that wholly hold a required street.
fn mark_holders(town: &Town, of: &[u32], held: &mut [bool])
    requires all { length of.now ≡ length town.now.junctions }
    requires room { All (λ i. i < length held.old) of.now }
    requires bare { AreBare held.old }
    ensures { MarkHolders town.now of.now (length town.now.streets) held.new }
{
    for street in 0..town.streets.len() as u32 {
        mark_holder(town, of, street, held);
    }
}

/// The marks of the sets that wholly hold a required street.
fn holders(alloc: Global, town: &Town, last: u32, of: &[u32]) -> Result<Vec<bool>, AllocError>
    requires { is_partition town.now last of.now ≡ true }
    ensures marks { IfOk result (λ held.
        MarkHolders town.now of.now (length town.now.streets) held.items) }
    ensures long { IfOk result (λ held. last < length held.items) }
{
    let mut held = vec![in alloc; false; last as usize + 1]?;
    mark_holders(town, of, held.as_mut_slice());
    Ok(held)
}

/// Whether each set but the first and the last is marked.
fn are_inner_marked(held: &[bool], last: u32) -> bool
    requires { last < length held.now }
    ensures { result ≡ list_all (mark_of held.now) (range_with_len 1 (last - 1)) }
{
    for i in 1..last {
        if !held[i as usize] {
            return false;
        }
    }
    true
}

/// Whether each set but the first and the last wholly holds a required street. More sets than
/// junctions never do, so that `last` may be any number.
fn inner_sets_hold(alloc: Global, town: &Town, last: u32, of: &[u32]) -> Result<bool, AllocError>
    requires { is_partition town.now last of.now ≡ true }
    ensures { IfOk result (λ hold. hold ≡ rows.inner_sets_hold town.now last of.now) }
{
    if last as usize > of.len() + 1 {
        return Ok(false);
    }
    let held = holders(alloc, town, last, of)?;
    Ok(are_inner_marked(held.as_slice(), last))
}

/// Whether the conditions of a K-C cut hold, where so many demands join the first set and the last.
///
/// # Errors
///
/// Want of memory alone.
pub fn is_chain(
    alloc: Global,
    town: &Town,
    last: u32,
    of: &[u32],
    joining: u32,
) -> Result<bool, AllocError>
    requires sets { is_partition town.now last of.now ≡ true }
    requires joining { joining ≡ joining_demands town.now last of.now }
    ensures { IfOk result (λ chain. chain ≡ rows.is_chain town.now last of.now) }
{
    let hold = inner_sets_hold(alloc, town, last, of)?;
    Ok(hold && joining % 2 == 0 && joining >= 2 && streets_keep_sets(town, last, of))
}
