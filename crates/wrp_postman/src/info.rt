//! What is told of a town without a search.
ghost use Rattle.std.specs.Prelude.{IfOk};
ghost use Rattle.wrp_postman.specs.Runs.{TellsTour, IsInfo};

use std::alloc::{AllocError, Global};
use wrp_graph::Graph;
use wrp_parts::required_parts;
use wrp_reach::{Reach, labels};
use wrp_report::info_text;
use wrp_street::Town;

/// How large a town is, how many required parts it has, and whether it has a tour.
pub(crate) fn info_of(alloc: Global, town: &Town) -> Result<Vec<u8>, AllocError>
    ensures { IfOk result (λ text. IsInfo town.now text.items) }
{
    let graph = Graph::new(alloc, town)?;
    let parts = required_parts(alloc, &graph)?;
    let tour = has_tour(alloc, &graph)?;
    info_text(alloc, town, parts.count, tour)
}

/// Whether a town has a tour.
fn has_tour(alloc: Global, graph: &Graph) -> Result<bool, AllocError>
    ensures { IfOk result (TellsTour graph.now) }
{
    match labels(alloc, graph)? {
        Reach::Joined { .. } => Ok(true),
        Reach::Split { .. } => Ok(false),
    }
}
