//! Records that bound a node or empty it by multipliers.
ghost use Rattle.std.specs.Prelude.{◌≡◌, ◌^◌, ◌<◌, true, length};
ghost use Rattle.wrp_rules.specs.declared.record.Record.TheVariants.{Bound, Empty};
ghost use Rattle.wrp_rules.specs.Contents.{has_number_rules};
ghost use Rattle.wrp_rules.specs.Ranges.{is_from_one, are_multipliers};
ghost use Rattle.wrp_rules.specs.Nodes.{Standing, node_at, bound_at, empty_value as empty_value_of};
ghost use Rattle.wrp_rows.specs.Tables.{name_rows};
ghost use Rattle.wrp_tree.specs.Keeping.{IsKept, IsSoundOf, IsDeskOf};
ghost use Rattle.wrp_tree.specs.Plans.{Judged};

use crate::boxes::put_box;
use crate::desk::Desk;
use crate::kept::Kept;
use crate::plan::Plan;
use wrp_bound::{bound_of, empty_value};
use wrp_rules::Rule;
use wrp_town::Town;

/// The bound that multipliers give a node.
fn bound_at(
    town: &Town,
    kept: &Kept<'_>,
    desk: &mut Desk,
    node: u64,
    den: u64,
    mult: &[(u32, u64)],
) -> i128
    requires desk { IsDeskOf town.now desk.old }
    requires kept { IsSoundOf town.now kept.now }
    requires there { node < kept.now.index.count }
    requires named { name_rows kept.now.rows.rows mult.now ≡ true }
    requires den { is_from_one (2 ^ 40) den ≡ true }
    requires mult { are_multipliers (2 ^ 60) mult.now ≡ true }
    ensures desk { IsDeskOf town.now desk.new }
    ensures value { (s : Standing) → IsKept town.now s kept.now
        → result ≡ bound_at town.now s node den mult.now }
{
    put_box(town, &kept.index.nodes, node, &mut desk.bounds);
    bound_of(&kept.rows, &desk.bounds, den, mult, &mut desk.sums)
}

/// The value of multipliers at a node where every cost is 0.
fn empty_at(town: &Town, kept: &Kept<'_>, desk: &mut Desk, node: u64, mult: &[(u32, u64)]) -> i128
    requires desk { IsDeskOf town.now desk.old }
    requires kept { IsSoundOf town.now kept.now }
    requires there { node < kept.now.index.count }
    requires named { name_rows kept.now.rows.rows mult.now ≡ true }
    requires mult { are_multipliers (2 ^ 60) mult.now ≡ true }
    ensures desk { IsDeskOf town.now desk.new }
    ensures value { (s : Standing) → IsKept town.now s kept.now
        → result ≡ empty_value_of town.now s.rows (node_at town.now s node) mult.now }
{
    put_box(town, &kept.index.nodes, node, &mut desk.bounds);
    empty_value(&kept.rows, &desk.bounds, mult, &mut desk.sums)
}

/// Judges a bound.
pub(crate) fn judge_bound(
    town: &Town,
    kept: &Kept<'_>,
    desk: &mut Desk,
    node: u64,
    den: u64,
    mult: &[(u32, u64)],
) -> Result<Plan, Rule>
    requires desk { IsDeskOf town.now desk.old }
    requires kept { IsSoundOf town.now kept.now }
    requires numbers { has_number_rules (Bound node den mult.now) ≡ true }
    ensures desk { IsDeskOf town.now desk.new }
    ensures judged { (s : Standing) → IsKept town.now s kept.now
        → Judged town.now s (Bound node den mult.now) result }
{
    if !kept.has_node_and_rows(node, mult) {
        return Err(Rule::Range);
    }
    if !kept.is_open(node) {
        return Err(Rule::Closed);
    }
    let bound = bound_at(town, kept, desk, node, den, mult);
    if bound <= kept.index.bound(node) {
        return Err(Rule::Low);
    }
    Ok(Plan::Raise { bound })
}

/// Judges the record that empties a node by multipliers.
pub(crate) fn judge_empty(
    town: &Town,
    kept: &Kept<'_>,
    desk: &mut Desk,
    node: u64,
    mult: &[(u32, u64)],
) -> Result<Plan, Rule>
    requires desk { IsDeskOf town.now desk.old }
    requires kept { IsSoundOf town.now kept.now }
    requires numbers { has_number_rules (Empty node mult.now) ≡ true }
    ensures desk { IsDeskOf town.now desk.new }
    ensures judged { (s : Standing) → IsKept town.now s kept.now
        → Judged town.now s (Empty node mult.now) result }
{
    if !kept.has_node_and_rows(node, mult) {
        return Err(Rule::Range);
    }
    if !kept.is_open(node) {
        return Err(Rule::Closed);
    }
    if empty_at(town, kept, desk, node, mult) <= 0 {
        return Err(Rule::Low);
    }
    Ok(Plan::Plain)
}
