//! Shortest walks from one junction to every other.
ghost use Rattle.std.specs.Prelude.{◌≡◌, ◌<◌, length, IfOk};
ghost use Rattle.std.specs.Option.{option_map};
ghost use Rattle.wrp_paths.specs.Distances.{way_to};
ghost use Rattle.wrp_paths.specs.Arrivals.{steps_to};

use crate::arrival::{Arrival, entry};
use std::alloc::{AllocError, Global};
use std::marker::Model;
use wrp_town::{List, Step};

/// Shortest walks from one junction. Contracts see, for each junction to which one leads, its cost
/// and its steps.
#[derive(Debug, Drop)]
pub struct Paths {
    alloc: Global,
    table: Vec<Option<Arrival>>,
}

impl Model for Paths {
    ghost use Rattle.wrp_paths.specs.Distances.{Ways};
    ghost use Rattle.wrp_paths.specs.Arrivals.{ways_of};

    ghost Value = { Ways };

    ghost view = { λ paths. ways_of paths.table.items };
}

impl Paths {
    ghost use Rattle.wrp_paths.specs.Arrivals.{ways_of};

    /// The walks of a table.
    pub(crate) fn from_table(alloc: Global, table: Vec<Option<Arrival>>) -> Paths
        ensures { result ≡ ways_of table.items }
    {
        Paths { alloc, table }
    }

    /// The cost of a shortest walk to a junction, and `None` where none leads there.
    pub fn dist(&self, j: u32) -> Option<u64>
        requires { j < length self.now }
        ensures { result ≡ option_map (λ way. way.0) (way_to self.now j) }
    {
        entry(&self.table, j).map(|walk| walk.cost)
    }

    /// A shortest walk to a junction, and `None` where none leads there.
    ///
    /// # Errors
    ///
    /// Want of memory alone.
    pub fn path(&self, j: u32) -> Result<Option<List<Step>>, AllocError>
        requires { j < length self.now }
        ensures { IfOk result (λ found. found ≡ option_map (λ way. way.1) (way_to self.now j)) }
    {
        match entry(&self.table, j) {
            Some(walk) => Ok(Some(read_back(self.alloc, &self.table, j, walk.hops)?)),
            None => Ok(None),
        }
    }
}

/// The last steps of the walk to a junction, as many as there are hops. Each entry names the
/// junction before, so they are read from the last one back.
fn read_back(
    alloc: Global,
    table: &[Option<Arrival>],
    j: u32,
    hops: u32,
) -> Result<List<Step>, AllocError>
    ensures { IfOk result (λ steps. steps ≡ steps_to table.now hops j) }
{
    let mut steps = Vec::with_capacity(alloc, hops as usize)?;
    let mut at = j;
    for _ in 0..hops {
        if let Some(walk) = entry(table, at) {
            steps.push(walk.step())?;
            at = walk.before;
        }
    }
    steps.reverse();
    Ok(List::from_vec(steps))
}
