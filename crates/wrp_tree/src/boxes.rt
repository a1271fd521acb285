//! The box of a node, written into bounds.
ghost use Rattle.std.specs.Prelude.{◌≡◌, ◌*◌, ◌<◌, ◌≤◌, List, length};
ghost use Rattle.wrp_town.specs.declared.town.Town.{Town};
ghost use Rattle.wrp_town.specs.Arcs.{demands};
ghost use Rattle.wrp_rules.specs.Nodes.{Node};
ghost use Rattle.wrp_nodes.specs.Kept.{AreLinked, HasNodes, node_in};
ghost use Rattle.wrp_rows.specs.Points.{AreBounds, AreBoundsOf};
ghost use Rattle.wrp_tree.specs.Boxes.{FitBounds, IsCut, AreWhole};

use wrp_nodes::{Cut, KeptNode, Nodes};
use wrp_rows::Bounds;
use wrp_town::{Town, demand_count};

/// Every range from 0 to the number of demands, and from 0 to 0 at illegal arcs.
fn widen(town: &Town, into: &mut Bounds)
    requires { FitBounds town.now into.old }
    ensures { AreWhole town.now into.new }
{
    let most = demand_count(town) as u32;
    for arc in 0..2 * town.streets.len() {
        into.lo.set(arc, 0);
        into.hi.set(
            arc,
            if town.cost(arc as u32).is_some() {
                most
            } else {
                0
            },
        );
    }
}

/// Cuts the range of the arc of a node.
fn cut(into: &mut Bounds, kept: KeptNode)
    requires lo { kept.arc < length into.old.lo }
    requires hi { kept.arc < length into.old.hi }
    ensures { IsCut kept into.old into.new }
{
    let arc = kept.arc as usize;
    match kept.cut {
        Cut::AtLeast(k) => {
            let lo = into.lo.as_slice()[arc];
            into.lo.set(arc, lo.max(u32::from(k)));
        }
        Cut::AtMost(k) => {
            let hi = into.hi.as_slice()[arc];
            into.hi.set(arc, hi.min(u32::from(k)));
        }
    }
}

/// Puts the box of a node into bounds, along the way from it to the root.
pub(crate) fn put_box(town: &Town, nodes: &Nodes, node: u64, into: &mut Bounds)
    requires linked { AreLinked (2 * length town.now.streets) nodes.now }
    requires there { node < length nodes.now }
    requires fit { FitBounds town.now into.old }
    ensures fit { FitBounds town.now into.new }
    ensures bounds { (stand : List Node) → HasNodes town.now nodes.now stand
        → AreBounds town.now into.new }
    ensures of_node { (stand : List Node) → HasNodes town.now nodes.now stand
        → AreBoundsOf town.now (node_in town.now stand node) into.new }
{
    widen(town, into);
    let mut at = node;
    while at != 0 {
        let kept = nodes.kept(at);
        cut(into, kept);
        at = kept.parent;
    }
}
