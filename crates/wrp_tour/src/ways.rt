//! Shortest walks for a search that asks of any junction and any arc.
ghost use Rattle.std.specs.Prelude.{◌≡◌, ◌*◌, nat_lt, length};

use std::alloc::{AllocError, Global};
use wrp_graph::Graph;
use wrp_paths::{Paths, shortest};
use wrp_town::{List, Step, Town};

/// What no walk costs, and no junction's number.
pub(crate) const NONE: u64 = u64::MAX;

const NOWHERE: u32 = u32::MAX;

/// Shortest walks from one junction to all others.
#[derive(Drop)]
pub(crate) struct Ways {
    paths: Paths,
    count: u32,
    ghost each: { length paths ≡ count },
}

impl Ways {
    /// The walks from a junction, where it is there.
    pub(crate) fn from(
        alloc: Global,
        graph: &Graph,
        from: u32,
    ) -> Result<Option<Ways>, AllocError> {
        let count = graph.town().junctions.len() as u32;
        if from >= count {
            return Ok(None);
        }
        let paths = shortest(alloc, graph, from)?;
        Ok(Some(Ways { paths, count }))
    }

    /// The cost of a walk to a junction, or [`NONE`].
    pub(crate) fn cost(&self, to: u32) -> u64 {
        if to < self.count {
            self.paths.dist(to).unwrap_or(NONE)
        } else {
            NONE
        }
    }

    /// A walk to a junction, where there is one.
    pub(crate) fn steps(&self, to: u32) -> Result<Option<List<Step>>, AllocError> {
        if to < self.count {
            self.paths.path(to)
        } else {
            Ok(None)
        }
    }
}

/// A place as the number of a junction or an arc, and no number where it is too large.
pub(crate) fn number(place: usize) -> u32 {
    u32::try_from(place).unwrap_or(NOWHERE)
}

/// Whether a street has the arc.
fn is_there(town: &Town, arc: u32) -> bool
    ensures { result ≡ nat_lt arc (2 * length town.now.streets) }
{
    (arc as usize) < 2 * town.streets.len()
}

/// The ends of an arc, and its cost, [`NONE`] where it is illegal.
pub(crate) fn tail(town: &Town, arc: u32) -> u32 {
    if is_there(town, arc) {
        town.tail(arc)
    } else {
        NOWHERE
    }
}

pub(crate) fn head(town: &Town, arc: u32) -> u32 {
    if is_there(town, arc) {
        town.head(arc)
    } else {
        NOWHERE
    }
}

pub(crate) fn cost(town: &Town, arc: u32) -> u64 {
    if is_there(town, arc) {
        match town.cost(arc) {
            Some(cost) => u64::from(cost),
            None => NONE,
        }
    } else {
        NONE
    }
}
