//! The parts into which required streets join the junctions of a town.
ghost use Rattle.std.specs.Prelude.{IfOk};
ghost use Rattle.wrp_parts.specs.RequiredParts.{AreParts};

use crate::neighbours::neighbours;
use crate::traversal::number_parts;
use std::alloc::{AllocError, Global};
use wrp_graph::Graph;
use wrp_town::List;

/// The parts of a town: how many there are, and the part of each junction, `None` where no required
/// street ends.
#[derive(Debug, Drop)]
pub struct Parts {
    pub count: u32,
    pub of: List<Option<u32>>,
}

/// Finds the parts of a town, numbered by their least junctions.
///
/// # Errors
///
/// Want of memory alone.
pub fn required_parts(alloc: Global, graph: &Graph) -> Result<Parts, AllocError>
    ensures { IfOk result (λ parts. AreParts graph.now parts.count parts.of) }
{
    let town = graph.town();
    let rows = neighbours(alloc, town)?;
    let mut of = vec![in alloc; None; town.junctions.len()]?;
    let count = number_parts(alloc, &rows, of.as_mut_slice())?;
    Ok(Parts {
        count,
        of: List::from_vec(of),
    })
}
