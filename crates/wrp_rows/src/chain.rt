//! The conditions of K-C cuts.
ghost use Rattle.std.specs.Prelude.{◌≡◌, ℕ, ◌+◌, ◌-◌, ◌^◌, ◌<◌, ◌≤◌, true, ◌||◌, not, nat_le, length};
ghost use Rattle.std.specs.List.{list_all};
ghost use Rattle.wrp_town.specs.Streets.{forward_arc};
ghost use Rattle.wrp_town.specs.Arcs.{is_required};
ghost use Rattle.wrp_rules.specs.Rows.{joins_ends, is_held, inner_sets_hold, keeps_set, streets_keep_sets, is_chain};
ghost use Rattle.wrp_rules.specs.Rules.{is_partition};
ghost use Rattle.wrp_rows.specs.Marks.{is_marked};
ghost use Rattle.wrp_rows.specs.Chains.{holds_within};

use crate::gather::demands_by;
use crate::marks::clear;
use crate::pattern::Pattern;
use crate::sets::is_required;
use wrp_town::Town;

/// Whether there is a set number for each junction, from 0 to `k`, and `k` is at least 3.
pub(crate) fn is_partition(town: &Town, k: u32, of: &[u32]) -> bool
    ensures { result ≡ is_partition town.now k of.now }
{
    of.len() == town.junctions.len() && k >= 3 && are_at_most(of, k)
}

/// Whether no number is above `k`.
fn are_at_most(of: &[u32], k: u32) -> bool
    ensures { result ≡ list_all (λ i. nat_le i k) of.now }
{
    of.iter().all(|i| *i <= k)
}

/// Whether the sets meet the conditions of a K-C cut. What stands in `held` makes no difference.
pub(crate) fn is_chain(town: &Town, k: u32, of: &[u32], held: &mut [bool]) -> bool
    requires partition { is_partition town.now k of.now ≡ true }
    requires held { length held.old ≡ length town.now.junctions }
    ensures value { result ≡ is_chain town.now k of.now }
    ensures low { result ≡ true → k ≤ length town.now.junctions + 1 }
{
    // Each inner set has a junction, so there are no more of them than junctions.
    if (k - 1) as usize > held.len() {
        return false;
    }
    let joining = demands_by(town, Pattern::Chain { k, of });
    inner_sets_hold(town, k, of, held)
        && joining % 2 == 0
        && joining >= 2
        && streets_keep_sets(town, k, of)
}

/// Whether each set but the first and the last wholly holds a required street.
fn inner_sets_hold(town: &Town, k: u32, of: &[u32], held: &mut [bool]) -> bool
    requires of { length of.now ≡ length town.now.junctions }
    requires some { 1 ≤ k }
    requires few { k - 1 ≤ length held.old }
    ensures { result ≡ inner_sets_hold town.now k of.now }
{
    mark_held(town, of, held);
    are_marked(&held[..(k - 1) as usize])
}

/// Whether each place is marked.
fn are_marked(marks: &[bool]) -> bool
    ensures { result ≡ list_all (λ mark. mark) marks.now }
{
    marks.iter().all(|mark| *mark)
}

/// Marks at place `i` whether set `i + 1` wholly holds a required street.
fn mark_held(town: &Town, of: &[u32], held: &mut [bool])
    requires { length of.now ≡ length town.now.junctions }
    ensures { (i : ℕ) → i < length held.old
        → is_marked held.new i ≡ holds_within town.now of.now (i + 1) (length town.now.streets) }
{
    clear(held);
    for street in 0..town.streets.len() as u32 {
        mark_set(town, of, held, street);
    }
}

/// Marks the set of a street at the place before its number, where the street is required and lies
/// in one set.
fn mark_set(town: &Town, of: &[u32], held: &mut [bool], street: u32)
    requires of { length of.now ≡ length town.now.junctions }
    requires street { street < length town.now.streets }
    ensures { (i : ℕ) → i < length held.old
        → is_marked held.new i ≡ (is_marked held.old i || is_held town.now of.now (i + 1) street) }
{
    let set = of[town.tail(2 * street) as usize] as usize;
    let is_inner = 1 <= set && set <= held.len();
    if is_inner && is_required(town, street) && keeps_set(town, of, street) {
        held[set - 1] = true;
    }
}

/// Whether both ends of a street are in one set.
fn keeps_set(town: &Town, of: &[u32], street: u32) -> bool
    requires of { length of.now ≡ length town.now.junctions }
    requires street { street < length town.now.streets }
    ensures { result ≡ keeps_set of.now town.now street }
{
    of[town.tail(2 * street) as usize] == of[town.head(2 * street) as usize]
}

/// Whether no required street joins two different sets other than the first and the last.
fn streets_keep_sets(town: &Town, k: u32, of: &[u32]) -> bool
    requires partition { is_partition town.now k of.now ≡ true }
    requires few { k ≤ 2 ^ 20 }
    ensures { result ≡ streets_keep_sets town.now k of.now }
{
    for street in 0..town.streets.len() as u32 {
        if !may_join(town, k, of, street) {
            return false;
        }
    }
    true
}

/// Whether a street isn't required, joins the first and the last set, or lies in one set.
fn may_join(town: &Town, k: u32, of: &[u32], street: u32) -> bool
    requires partition { is_partition town.now k of.now ≡ true }
    requires few { k ≤ 2 ^ 20 }
    requires street { street < length town.now.streets }
    ensures { result ≡ (not (is_required town.now street)
        || joins_ends town.now k of.now (forward_arc street) || keeps_set of.now town.now street) }
{
    !is_required(town, street)
        || Pattern::Chain { k, of }.joins(town, 2 * street)
        || keeps_set(town, of, street)
}
