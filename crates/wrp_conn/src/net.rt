//! The net of a point between parts.
ghost use Rattle.std.specs.Prelude.{◌≡◌, ◌*◌, ◌+◌, ◌<◌, length, IfOk, OnOk};
ghost use Rattle.wrp_flow.specs.Flows.{IsNet};
ghost use Rattle.wrp_odd.specs.Points.{numbers_of};
ghost use Rattle.wrp_conn.specs.Conns.{IsBalancedPoint};
ghost use Rattle.wrp_conn.specs.Shrunk.{AreInside, IsNetBelow, LeavesAsAt};

use std::alloc::{AllocError, Global};
use wrp_flow::Net;
use wrp_rows::Point;
use wrp_town::{List, Town};

/// The arcs with a number above 0 between the junctions that stand for their ends, where these
/// differ.
pub(crate) fn net_of(
    alloc: Global,
    town: &Town,
    nodes: &[u32],
    point: &Point,
) -> Result<Net, AllocError>
    requires point { IsBalancedPoint town.now point.now }
    requires nodes { AreInside town.now nodes.now }
    ensures net { IfOk result (λ net. IsNet net) }
    ensures nodes { IfOk result (λ net. net.nodes ≡ length town.now.junctions) }
    ensures leaves { IfOk result (λ net. LeavesAsAt town.now nodes.now (numbers_of point.now)
        (2 * length town.now.streets) net) }
{
    let mut arcs = Vec::new(alloc);
    for arc in 0..2 * town.streets.len() as u32 {
        add_arc(&mut arcs, town, nodes, point, arc)?;
    }
    Ok(Net {
        nodes: town.junctions.len() as u32,
        arcs: List::from_vec(arcs),
    })
}

/// Adds an arc, where it has a number above 0 and doesn't begin and end at one node.
fn add_arc(
    arcs: &mut Vec<(u32, u32, i128)>,
    town: &Town,
    nodes: &[u32],
    point: &Point,
    arc: u32,
) -> Result<(), AllocError>
    requires point { IsBalancedPoint town.now point.now }
    requires nodes { AreInside town.now nodes.now }
    requires there { arc < 2 * length town.now.streets }
    requires before { IsNetBelow town.now nodes.now (numbers_of point.now) arc arcs.old.items }
    ensures { OnOk result
        (IsNetBelow town.now nodes.now (numbers_of point.now) (arc + 1) arcs.new.items) }
{
    let tail = nodes[town.tail(arc) as usize];
    let head = nodes[town.head(arc) as usize];
    let number = point.at.as_slice()[arc as usize];
    if number > 0 && tail != head {
        arcs.push((tail, head, number))?;
    }
    Ok(())
}
