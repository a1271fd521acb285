//! The sides of arcs, and those that begin at each node.
ghost use Rattle.std.specs.Prelude.{◌≡◌, ◌*◌, ◌<◌, length, IfOk};
ghost use Rattle.wrp_flow.specs.Flows.{IsNet};
ghost use Rattle.wrp_flow.specs.Sides.{begin_in, end_in, twin_of, sides, IsStar};

use crate::net::Net;
use std::alloc::{AllocError, Global};

/// The last of the sides that begin at each node, and of each side the one before it that begins at
/// the same node.
#[derive(Debug, Drop)]
pub struct Star {
    pub last: Vec<Option<usize>>,
    pub before: Vec<Option<usize>>,
}

/// How many sides there are.
pub fn side_count(net: &Net) -> usize
    ensures { result ≡ sides net.now }
{
    2 * net.arcs.as_slice().len()
}

/// Where a side begins.
pub fn begin(net: &Net, side: usize) -> u32
    requires { side < sides net.now }
    ensures { result ≡ begin_in net.now side }
{
    let arc = &net.arcs.as_slice()[side / 2];
    if side % 2 == 0 { arc.0 } else { arc.1 }
}

/// Where a side ends.
pub fn end(net: &Net, side: usize) -> u32
    requires { side < sides net.now }
    ensures { result ≡ end_in net.now side }
{
    let arc = &net.arcs.as_slice()[side / 2];
    if side % 2 == 0 { arc.1 } else { arc.0 }
}

/// The other side of the same arc.
pub fn twin(net: &Net, side: usize) -> usize
    requires { side < sides net.now }
    ensures { result ≡ twin_of side }
{
    if side % 2 == 0 { side + 1 } else { side - 1 }
}

/// Sorts the sides of a net by the nodes at which they begin.
pub fn star_of(alloc: Global, net: &Net) -> Result<Star, AllocError>
    requires { IsNet net.now }
    ensures { IfOk result (λ star. IsStar net.now star) }
{
    let count = side_count(net);
    let mut last = vec![in alloc; None; net.nodes as usize]?;
    let mut before = Vec::with_capacity(alloc, count)?;
    for side in 0..count {
        let node = begin(net, side) as usize;
        before.push(last[node])?;
        last[node] = Some(side);
    }
    Ok(Star { last, before })
}
