//! What a search works with beside its list.
ghost use Rattle.std.specs.Prelude.{◌≡◌, IfOk};
ghost use Rattle.wrp_parts.specs.RequiredParts.{AreParts};
ghost use Rattle.wrp_engine.specs.Desks.{IsDesk};

use std::alloc::{AllocError, Global};
use wrp_graph::Graph;
use wrp_parts::Parts;
use wrp_rows::Bounds;
use wrp_town::List;

/// The town of a search, and room for one node.
#[derive(Drop)]
pub(crate) struct Desk<'a, 't> {
    pub(crate) graph: &'a Graph<'t>,
    pub(crate) parts: &'a Parts,
    /// The box of the node.
    pub(crate) bounds: Bounds,
    /// A number of each arc.
    pub(crate) scratch: Vec<i128>,
}

impl<'a, 't> Desk<'a, 't> {
    /// The desk of a town and its required parts.
    pub(crate) fn new(
        alloc: Global,
        graph: &'a Graph<'t>,
        parts: &'a Parts,
    ) -> Result<Desk<'a, 't>, AllocError>
        requires { AreParts graph.now parts.now.count parts.now.of }
        ensures { IfOk result (IsDesk graph.now) }
    {
        let arcs = 2 * graph.town().streets.len();
        Ok(Desk {
            graph,
            parts,
            bounds: Bounds {
                lo: List::from_vec(vec![in alloc; 0; arcs]?),
                hi: List::from_vec(vec![in alloc; 0; arcs]?),
            },
            scratch: vec![in alloc; 0; arcs]?,
        })
    }
}
