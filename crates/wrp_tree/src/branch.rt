//! Records that branch: points, blind marks and splits.
ghost use Rattle.std.specs.Prelude.{◌≡◌, ◌<◌, ◌&&◌, nat_le, nat_lt, true, length};
ghost use Rattle.std.specs.List.{list_all};
ghost use Rattle.wrp_town.specs.Arcs.{is_legal};
ghost use Rattle.wrp_rules.specs.declared.record.Record.TheVariants.{Point, Blind, Split};
ghost use Rattle.wrp_rules.specs.Contents.{has_number_rules};
ghost use Rattle.wrp_rules.specs.Nodes.{Standing, node_at};
ghost use Rattle.wrp_rules.specs.Rules.{node_is_there, parts_range};
ghost use Rattle.wrp_nodes.specs.Tables.{IsAtRest};
ghost use Rattle.wrp_tree.specs.Keeping.{IsKept, IsSoundOf, IsDeskOf};
ghost use Rattle.wrp_tree.specs.Plans.{Judged};

use crate::desk::Desk;
use crate::kept::Kept;
use crate::plan::Plan;
use wrp_nodes::{Boxes, UseRange};
use wrp_points::broken_point;
use wrp_rules::Rule;
use wrp_town::Town;

/// Whether an arc is there and legal.
pub(crate) fn is_legal(town: &Town, arc: u32) -> bool
    ensures { result ≡ is_legal town.now arc }
{
    (arc as usize) < 2 * town.streets.len() && town.cost(arc).is_some()
}

/// Whether the arc of each pair is there and legal.
fn are_legal(town: &Town, pairs: &[(u32, u128)]) -> bool
    ensures { result ≡ list_all (λ q. is_legal town.now q.0) pairs.now }
{
    pairs.iter().all(|pair| is_legal(town, pair.0))
}

/// Whether a node and an arc are there.
fn has_node_and_arc(town: &Town, kept: &Kept<'_>, node: u64, arc: u32) -> bool
    ensures { (s : Standing) → IsKept town.now s kept.now
        → result ≡ (node_is_there s node && is_legal town.now arc) }
{
    kept.has_node(node) && is_legal(town, arc)
}

/// Whether a node and the arcs of the pairs are there.
fn has_node_and_arcs(town: &Town, kept: &Kept<'_>, node: u64, pairs: &[(u32, u128)]) -> bool
    ensures { (s : Standing) → IsKept town.now s kept.now
        → result ≡ (node_is_there s node && list_all (λ q. is_legal town.now q.0) pairs.now) }
{
    kept.has_node(node) && are_legal(town, pairs)
}

/// Judges a point.
pub(crate) fn judge_point(
    town: &Town,
    kept: &Kept<'_>,
    desk: &mut Desk,
    node: u64,
    den: u64,
    numbers: &[(u32, u128)],
) -> Result<Plan, Rule>
    requires desk { IsDeskOf town.now desk.old }
    requires kept { IsSoundOf town.now kept.now }
    requires alone { length kept.now.index.nodes ≡ kept.now.index.count }
    requires numbers { has_number_rules (Point node den numbers.now) ≡ true }
    ensures desk { IsDeskOf town.now desk.new }
    ensures judged { (s : Standing) → IsKept town.now s kept.now
        → Judged town.now s (Point node den numbers.now) result }
{
    if !has_node_and_arcs(town, kept, node, numbers) {
        return Err(Rule::Range);
    }
    if !kept.is_open(node) {
        return Err(Rule::Closed);
    }
    let nodes = &kept.index.nodes;
    let broken = broken_point(
        town,
        &mut desk.boxes,
        nodes,
        node,
        den,
        numbers,
        &mut desk.tables,
    );
    match broken {
        Some(rule) => Err(rule),
        None => Ok(Plan::Plain),
    }
}

/// Judges a blind mark.
pub(crate) fn judge_blind(town: &Town, kept: &Kept<'_>, node: u64) -> Result<Plan, Rule>
    requires kept { IsSoundOf town.now kept.now }
    ensures judged { (s : Standing) → IsKept town.now s kept.now
        → Judged town.now s (Blind node) result }
{
    if !kept.has_node(node) {
        return Err(Rule::Range);
    }
    if !kept.is_open(node) {
        return Err(Rule::Closed);
    }
    Ok(Plan::Plain)
}

/// Whether a number of uses of an arc parts its range in the box of a node.
fn parts(town: &Town, kept: &Kept<'_>, boxes: &mut Boxes, node: u64, arc: u32, k: u32) -> bool
    requires rest { IsAtRest town.now boxes.old }
    requires kept { IsSoundOf town.now kept.now }
    requires there { node < kept.now.index.count }
    requires legal { is_legal town.now arc ≡ true }
    ensures rest { IsAtRest town.now boxes.new }
    ensures parts { (s : Standing) → IsKept town.now s kept.now
        → result ≡ parts_range (node_at town.now s node) arc k }
{
    boxes.enter(&kept.index.nodes, node);
    let range = boxes.range(arc);
    boxes.leave(&kept.index.nodes, node);
    is_within(range, k)
}

/// Whether a number is at least the least of a range and below the greatest.
fn is_within(range: UseRange, k: u32) -> bool
    ensures { result ≡ (nat_le range.lo k && nat_lt k range.hi) }
{
    u32::from(range.lo) <= k && k < u32::from(range.hi)
}

/// Judges a split.
pub(crate) fn judge_split(
    town: &Town,
    kept: &Kept<'_>,
    desk: &mut Desk,
    node: u64,
    arc: u32,
    k: u32,
) -> Result<Plan, Rule>
    requires desk { IsDeskOf town.now desk.old }
    requires kept { IsSoundOf town.now kept.now }
    ensures desk { IsDeskOf town.now desk.new }
    ensures judged { (s : Standing) → IsKept town.now s kept.now
        → Judged town.now s (Split node arc k) result }
{
    if !has_node_and_arc(town, kept, node, arc) {
        return Err(Rule::Range);
    }
    if !kept.is_open(node) {
        return Err(Rule::Closed);
    }
    if !kept.leads_to(node) {
        return Err(Rule::Alone);
    }
    if !parts(town, kept, &mut desk.boxes, node, arc, k) {
        return Err(Rule::Part);
    }
    Ok(Plan::Halve { node, arc, k })
}
