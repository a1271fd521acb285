//! Walks to a junction, and tables of them.
ghost use Rattle.std.specs.Prelude.{◌≡◌, ◌*◌, ◌^◌, ◌<◌, ◌≤◌, true};
ghost use Rattle.wrp_town.specs.Arcs.{is_legal, step_along};
ghost use Rattle.wrp_paths.specs.Arrivals.{start_at, along, entry_at};

use wrp_town::{Step, Town};

/// A walk to a junction, of which the last arc alone is kept. Of two walks the one of less cost is
/// the lesser.
#[derive(Clone, Copy, Debug, PartialEq, Eq, PartialOrd, Ord)]
pub struct Arrival {
    pub cost: u64,
    /// The number of steps. Where it is 0, no last arc is there to be read.
    pub hops: u32,
    /// Where the walk ends.
    pub junction: u32,
    /// Where its last arc begins.
    pub before: u32,
    pub arc: u32,
}

impl Arrival {
    /// The walk of no steps at a junction.
    pub fn start(junction: u32) -> Arrival
        ensures { result ≡ start_at junction }
    {
        Arrival {
            cost: 0,
            hops: 0,
            junction,
            before: junction,
            arc: 0,
        }
    }

    /// The walk that goes on along a legal arc.
    pub fn along(self, town: &Town, arc: u32) -> Arrival
        requires legal { is_legal town.now arc ≡ true }
        requires few { self.hops < 2000 }
        requires cheap { self.cost ≤ 1000000000 * self.hops }
        ensures { result ≡ along town.now self arc }
    {
        Arrival {
            cost: self.cost + u64::from(town.cost(arc).unwrap_or(0)),
            hops: self.hops + 1,
            junction: town.head(arc),
            before: self.junction,
            arc,
        }
    }

    /// The last step of a walk that has one.
    pub fn step(self) -> Step
        ensures { result ≡ step_along self.arc }
    {
        Step::along(self.arc)
    }
}

/// What a table of walks holds of a junction.
pub fn entry(table: &[Option<Arrival>], j: u32) -> Option<Arrival>
    ensures { result ≡ entry_at table.now j }
{
    match table.get(j as usize) {
        Some(entry) => *entry,
        None => None,
    }
}
