//! The strongly connected components of a town, as labels of its junctions.
ghost use Rattle.std.specs.Prelude.{◌≡◌, map, IfOk};
ghost use Rattle.wrp_reach.specs.Components.{AreComponents, label_of};

use crate::search::{Mark, Search};
use std::alloc::{AllocError, Global};
use wrp_graph::Graph;

/// A label for each junction, below their count.
#[derive(Drop)]
pub(crate) struct Components {
    pub(crate) count: u32,
    pub(crate) labels: Vec<u32>,
}

/// Labels the junctions by their components, in linear time.
pub(crate) fn find_components(alloc: Global, graph: &Graph) -> Result<Components, AllocError>
    ensures { IfOk result (λ found. AreComponents graph.now found.count found.labels.items) }
{
    let town = graph.town();
    let mut search = Search::new(alloc, town)?;
    for root in 0..town.junctions.len() as u32 {
        search.reach_from(graph, root)?;
    }
    Ok(Components {
        count: search.count,
        labels: labels_of(alloc, &search.marks)?,
    })
}

/// The labels of junctions that are done.
fn labels_of(alloc: Global, marks: &[Mark]) -> Result<Vec<u32>, AllocError>
    ensures { IfOk result (λ labels. labels.items ≡ map label_of marks.now) }
{
    marks.iter().map(|mark| label_of(*mark)).collect(alloc)
}

fn label_of(mark: Mark) -> u32
    ensures { result ≡ label_of mark }
{
    match mark {
        Mark::Done { label } => label,
        _ => 0,
    }
}
