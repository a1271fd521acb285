//! Whether the numbers of a point lie in the box of a node.
ghost use Rattle.std.specs.Prelude.{◌≡◌, ℕ, ◌*◌, ◌<◌, ◌≤◌, length, List, slice_index};
ghost use Rattle.std.specs.List.{list_all};
ghost use Rattle.wrp_town.specs.declared.town.Town.{Town};
ghost use Rattle.wrp_rules.specs.Nodes.{Node};
ghost use Rattle.wrp_rules.specs.Rules.{is_in_box};
ghost use Rattle.wrp_nodes.specs.Kept.{AreLinked, HasNodes, node_in};
ghost use Rattle.wrp_nodes.specs.Tables.{IsAtRest};
ghost use Rattle.wrp_points.specs.Points.{AreNumbers, HasNumbers, AreLegal};
ghost use Rattle.wrp_points.specs.Boxes.{allows, allows_at, PassAbove};

use wrp_nodes::{Boxes, Nodes, UseRange};
use wrp_town::Town;

/// Whether a number over the denominator is in a range.
fn allows(range: UseRange, denominator: u64, number: u128) -> bool
    ensures { result ≡ allows range denominator number }
{
    u128::from(range.lo) * u128::from(denominator) <= number
        && number <= u128::from(range.hi) * u128::from(denominator)
}

/// Whether the number of an arc is in its range.
fn allows_at(boxes: &Boxes, denominator: u64, table: &[u128], arc: u32) -> bool
    requires inside { arc < length boxes.now.ranges }
    requires room { length boxes.now.ranges ≤ length table.now }
    ensures { result ≡ allows_at boxes.now denominator table.now arc }
{
    allows(boxes.range(arc), denominator, table[arc as usize])
}

/// Whether the numbers of the listed arcs are in their ranges.
fn allows_listed(boxes: &Boxes, denominator: u64, numbers: &[(u32, u128)], table: &[u128]) -> bool
    requires inside { AreNumbers (length boxes.now.ranges) numbers.now }
    requires room { length boxes.now.ranges ≤ length table.now }
    ensures { result ≡ list_all (λ q. allows_at boxes.now denominator table.now q.0) numbers.now }
{
    for pair in numbers {
        if !allows_at(boxes, denominator, table, pair.0) {
            return false;
        }
    }
    true
}

/// Whether the numbers of the arcs that are cut on the way from a node to the root are in their
/// ranges.
fn allows_cut(boxes: &Boxes, nodes: &Nodes, node: u64, denominator: u64, table: &[u128]) -> bool
    requires linked { AreLinked (length boxes.now.ranges) nodes.now }
    requires there { node < length nodes.now }
    requires room { length boxes.now.ranges ≤ length table.now }
    ensures { PassAbove nodes.now node (allows_at boxes.now denominator table.now) result }
{
    let mut at = node;
    while at != 0 {
        let kept = nodes.kept(at);
        if !allows_at(boxes, denominator, table, u32::from(kept.arc)) {
            return false;
        }
        at = kept.parent;
    }
    true
}

/// Whether the numbers of a point, which stand in the table, lie in the box of a node.
pub(crate) fn is_in_box(
    town: &Town,
    boxes: &mut Boxes,
    nodes: &Nodes,
    node: u64,
    denominator: u64,
    numbers: &[(u32, u128)],
    table: &[u128],
) -> bool
    requires rest { IsAtRest town.now boxes.old }
    requires linked { AreLinked (2 * length town.now.streets) nodes.now }
    requires there { node < length nodes.now }
    requires numbers { AreNumbers (2 * length town.now.streets) numbers.now }
    requires legal { AreLegal town.now numbers.now }
    requires full { HasNumbers numbers.now table.now }
    requires room { 2 * length town.now.streets ≤ length table.now }
    ensures rest { IsAtRest town.now boxes.new }
    ensures is_in_box { (stand : List Node) → HasNodes town.now nodes.now stand
        → result ≡ is_in_box town.now (node_in town.now stand node) denominator numbers.now }
{
    boxes.enter(nodes, node);
    let allowed = allows_listed(boxes, denominator, numbers, table)
        && allows_cut(boxes, nodes, node, denominator, table);
    boxes.leave(nodes, node);
    allowed
}
