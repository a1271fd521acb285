//! The record that empties a node by a set that no tour within its box leaves.
ghost use Rattle.std.specs.Prelude.{◌≡◌, ℕ, ◌*◌, ◌<◌, ◌&&◌, ◌||◌, ◌==◌, not, true, false, List, [], ◌∷◌, length};
ghost use Rattle.std.specs.List.{list_all};
ghost use Rattle.wrp_town.specs.Arcs.{is_required, legal_arcs};
ghost use Rattle.wrp_rules.specs.declared.record.Record.TheVariants.{Apart};
ghost use Rattle.wrp_rules.specs.Nodes.{Node, Standing};
ghost use Rattle.wrp_rules.specs.Sets.{is_parted, leaves};
ghost use Rattle.wrp_rules.specs.Rules.{node_is_there, all_below, streets_are_there, junctions_are_there};
ghost use Rattle.wrp_rows.specs.Marks.{AreMarks, is_marked};
ghost use Rattle.wrp_rows.specs.Points.{AreBoundsOf};
ghost use Rattle.wrp_tree.specs.Keeping.{IsKept, IsSoundOf, IsDeskOf};
ghost use Rattle.wrp_tree.specs.Leaks.{stays_at};
ghost use Rattle.wrp_tree.specs.Plans.{Judged};

use crate::boxes::put_box;
use crate::desk::Desk;
use crate::kept::Kept;
use crate::plan::Plan;
use wrp_rows::Bounds;
use wrp_rules::Rule;
use wrp_town::Town;

/// Whether both streets are there.
fn has_streets(town: &Town, r1: u32, r2: u32) -> bool
    ensures { result ≡ streets_are_there town.now (r1 ∷ r2 ∷ []) }
{
    let streets = town.streets.len();
    (r1 as usize) < streets && (r2 as usize) < streets
}

/// Whether all junctions of a set are there.
fn has_junctions(town: &Town, set: &[u32]) -> bool
    ensures { result ≡ junctions_are_there town.now set.now }
{
    let junctions = town.junctions.len();
    set.iter().all(|junction| (*junction as usize) < junctions)
}

/// Whether both streets and a set are there.
fn has_streets_and_set(town: &Town, r1: u32, r2: u32, set: &[u32]) -> bool
    ensures { result
        ≡ (streets_are_there town.now (r1 ∷ r2 ∷ []) && junctions_are_there town.now set.now) }
{
    has_streets(town, r1, r2) && has_junctions(town, set)
}

/// Whether a node, both streets and a set are there.
fn is_in_range(town: &Town, kept: &Kept<'_>, node: u64, r1: u32, r2: u32, set: &[u32]) -> bool
    ensures { (s : Standing) → IsKept town.now s kept.now
        → result ≡ (node_is_there s node && streets_are_there town.now (r1 ∷ r2 ∷ [])
        && junctions_are_there town.now set.now) }
{
    kept.has_node(node) && has_streets_and_set(town, r1, r2, set)
}

/// Marks the junctions of a set, and no others.
fn mark(marks: &mut [bool], set: &[u32])
    requires { all_below (length marks.old) set.now ≡ true }
    ensures { AreMarks set.now marks.new }
{
    clear(marks);
    for junction in set {
        marks[*junction as usize] = true;
    }
}

/// Takes every mark away.
fn clear(marks: &mut [bool])
    ensures { (i : ℕ) → is_marked marks.new i ≡ false }
{
    for mark in marks.iter_mut() {
        *mark = false;
    }
}

/// Whether a street has a demand.
fn is_required(town: &Town, street: u32) -> bool
    requires { street < length town.now.streets }
    ensures { result ≡ is_required town.now street }
{
    town.streets.as_slice()[street as usize].need.demand_count() > 0
}

/// Whether both streets are required, the first with both ends in the marked set and the second
/// with none.
fn is_parted(town: &Town, marks: &[bool], r1: u32, r2: u32) -> bool
    requires marks { length marks.now ≡ length town.now.junctions }
    requires r1 { r1 < length town.now.streets }
    requires r2 { r2 < length town.now.streets }
    ensures { (set : List ℕ) → AreMarks set marks.now → result ≡ is_parted town.now r1 r2 set }
{
    is_required(town, r1)
        && is_required(town, r2)
        && marks[town.tail(2 * r1) as usize]
        && marks[town.head(2 * r1) as usize]
        && !marks[town.tail(2 * r2) as usize]
        && !marks[town.head(2 * r2) as usize]
}

/// Whether an arc doesn't leave the marked set, or can't be used.
fn stays(town: &Town, marks: &[bool], hi: &[u32], arc: u32) -> bool
    requires marks { length marks.now ≡ length town.now.junctions }
    requires hi { length hi.now ≡ 2 * length town.now.streets }
    requires arc { arc < 2 * length town.now.streets }
    ensures { result ≡ stays_at town.now marks.now hi.now arc }
{
    !(marks[town.tail(arc) as usize] && !marks[town.head(arc) as usize]) || hi[arc as usize] == 0
}

/// Whether no arc that leaves the marked set can be used.
fn is_shut(town: &Town, marks: &[bool], bounds: &Bounds) -> bool
    requires marks { length marks.now ≡ length town.now.junctions }
    requires bounds { length bounds.now.hi ≡ 2 * length town.now.streets }
    ensures { (set : List ℕ) (node : Node) → AreMarks set marks.now
        → AreBoundsOf town.now node bounds.now
        → result ≡ list_all (λ arc. not (leaves town.now set arc) || (node.hi arc == 0))
        (legal_arcs town.now) }
{
    are_shut(town, marks, bounds.hi.as_slice())
}

/// The same by the greatest numbers of uses alone.
fn are_shut(town: &Town, marks: &[bool], hi: &[u32]) -> bool
    requires marks { length marks.now ≡ length town.now.junctions }
    requires hi { length hi.now ≡ 2 * length town.now.streets }
    ensures { result ≡ list_all (stays_at town.now marks.now hi.now) (legal_arcs town.now) }
{
    let arcs = 2 * town.streets.len() as u32;
    for arc in 0..arcs {
        if town.cost(arc).is_some() && !stays(town, marks, hi, arc) {
            return false;
        }
    }
    true
}

/// Judges the record.
pub(crate) fn judge_apart(
    town: &Town,
    kept: &Kept<'_>,
    desk: &mut Desk,
    node: u64,
    r1: u32,
    r2: u32,
    set: &[u32],
) -> Result<Plan, Rule>
    requires desk { IsDeskOf town.now desk.old }
    requires kept { IsSoundOf town.now kept.now }
    ensures desk { IsDeskOf town.now desk.new }
    ensures judged { (s : Standing) → IsKept town.now s kept.now
        → Judged town.now s (Apart node r1 r2 set.now) result }
{
    if !is_in_range(town, kept, node, r1, r2, set) {
        return Err(Rule::Range);
    }
    if !kept.is_open(node) {
        return Err(Rule::Closed);
    }
    mark(&mut desk.marks, set);
    if !is_parted(town, &desk.marks, r1, r2) {
        return Err(Rule::Cross);
    }
    put_box(town, &kept.index.nodes, node, &mut desk.bounds);
    if !is_shut(town, &desk.marks, &desk.bounds) {
        return Err(Rule::Leak);
    }
    Ok(Plan::Plain)
}
