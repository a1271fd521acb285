//! The turns that no ban forbids.
ghost use Rattle.std.specs.Prelude.{◌≡◌, ◌*◌, ◌<◌, ◌≤◌, ◌==◌, length, true, IfOk};
ghost use Rattle.std.specs.List.{list_any};
ghost use Rattle.wrp_town.specs.Arcs.{is_legal};
ghost use Rattle.wrp_graph.specs.Sorted.{buckets_of};
ghost use Rattle.wrp_turn.specs.Turns.{are_bans, is_banned};
ghost use Rattle.wrp_turn.specs.TurnTowns.{seconds_of, turns_of, arc_limit};

use std::alloc::{AllocError, Global};
use wrp_graph::{Buckets, Graph};

/// The turns of a town under bans, which are gathered by their first arcs.
#[derive(Drop)]
pub(crate) struct Turns<'a, 't> {
    pub(crate) graph: &'a Graph<'t>,
    pub(crate) bans: &'a [(u32, u32)],
    by_first: Buckets,
    ghost gathered: { by_first ≡ buckets_of (2 * length graph.now.streets) bans.now },
}

impl<'a, 't> Turns<'a, 't> {
    /// The turns of a graph's town under these bans.
    pub(crate) fn new(
        alloc: Global,
        graph: &'a Graph<'t>,
        bans: &'a [(u32, u32)],
    ) -> Result<Turns<'a, 't>, AllocError>
        requires { are_bans graph.now bans.now ≡ true }
        ensures town { IfOk result (λ turns. turns.graph.now ≡ graph.now) }
        ensures bans { IfOk result (λ turns. turns.bans.now ≡ bans.now) }
    {
        let count = 2 * graph.town().streets.len();
        let by_first = Buckets::new(alloc, count, bans)?;
        Ok(Turns {
            graph,
            bans,
            by_first,
        })
    }

    /// Whether a ban forbids the turn from one arc to another.
    fn is_banned(&self, first: u32, second: u32) -> bool
        requires { first < 2 * length self.now.graph.now.streets }
        ensures { result ≡ is_banned self.now.bans.now first second }
    {
        has(self.by_first.bucket(first as usize), second)
    }

    /// The arcs to which a turn goes from a legal arc, ascending.
    pub(crate) fn seconds(&self, alloc: Global, first: u32) -> Result<Vec<u32>, AllocError>
        requires arc { first < 2 * length self.now.graph.now.streets }
        requires legal { is_legal self.now.graph.now first ≡ true }
        ensures { IfOk result (λ seconds. seconds.items
            ≡ seconds_of self.now.graph.now self.now.bans.now first) }
    {
        let mut seconds = Vec::new(alloc);
        for second in self.graph.out_of(self.graph.town().head(first)) {
            if !self.is_banned(first, *second) {
                seconds.push(*second)?;
            }
        }
        Ok(seconds)
    }

    /// How many turns there are.
    pub(crate) fn count(&self, alloc: Global) -> Result<u64, AllocError>
        ensures count { IfOk result (λ count. count
            ≡ length (turns_of self.now.graph.now self.now.bans.now)) }
        ensures small { IfOk result (λ count. count ≤ arc_limit * arc_limit) }
    {
        let town = self.graph.town();
        let mut count = 0;
        for first in 0..2 * town.streets.len() as u32 {
            if town.cost(first).is_some() {
                count += self.seconds(alloc, first)?.len() as u64;
            }
        }
        Ok(count)
    }
}

/// Whether an arc is one of these.
fn has(arcs: &[u32], arc: u32) -> bool
    ensures { result ≡ list_any (λ other. other == arc) arcs.now }
{
    arcs.iter().any(|other| *other == arc)
}
