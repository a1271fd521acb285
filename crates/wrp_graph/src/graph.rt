//! The arcs at each junction of a town.
ghost use Rattle.std.specs.Prelude.{◌≡◌, ◌<◌, length, IfOk};
ghost use Rattle.wrp_graph.specs.Stars.{out_of, into};

use crate::buckets::Buckets;
use crate::ends::Ends;
use std::alloc::{AllocError, Global};
use std::marker::Model;
use wrp_town::Town;

/// A town with the legal arcs at each of its junctions. Contracts see the town.
#[derive(Debug, Drop)]
pub struct Graph<'a> {
    town: &'a Town,
    leaving: Buckets,
    entering: Buckets,
}

impl<'a> Model for Graph<'a> {
    ghost use Rattle.std.specs.Prelude.{◌≡◌, map};
    ghost use Rattle.wrp_town.specs.declared.town.Town.{Town};
    ghost use Rattle.wrp_town.specs.Arcs.{junctions};
    ghost use Rattle.wrp_graph.specs.Stars.{out_of, into};

    ghost Value = { Town };

    ghost view = { λ g. g.town.now };

    ghost invariant = { λ g. (g.leaving ≡ map (out_of g.town.now) (junctions g.town.now))
        × (g.entering ≡ map (into g.town.now) (junctions g.town.now)) };
}

impl<'a> Graph<'a> {
    /// Sorts the legal arcs of a town by tail and by head.
    ///
    /// # Errors
    ///
    /// Want of memory alone.
    pub fn new(alloc: Global, town: &'a Town) -> Result<Graph<'a>, AllocError>
        ensures { IfOk result (λ g. g ≡ town.now) }
    {
        let ends = Ends::of_town(alloc, town)?;
        let count = town.junctions.len();
        let leaving = Buckets::new(alloc, count, ends.tails.as_slice())?;
        let entering = Buckets::new(alloc, count, ends.heads.as_slice())?;
        Ok(Graph {
            town,
            leaving,
            entering,
        })
    }

    /// The town of which the graph was made.
    pub fn town(&self) -> &Town
        ensures { result.now ≡ self.now }
    {
        self.town
    }

    /// The legal arcs that leave a junction, ascending.
    #[tactic(auto, using(crate::proofs::Rows::row_there, crate::proofs::Rows::row_at))]
    pub fn out_of(&self, j: u32) -> &[u32]
        requires { j < length self.now.junctions }
        ensures { result.now ≡ out_of self.now j }
    {
        self.leaving.bucket(j as usize)
    }

    /// The legal arcs that enter a junction, ascending.
    #[tactic(auto, using(crate::proofs::Rows::row_there, crate::proofs::Rows::row_at))]
    pub fn into(&self, j: u32) -> &[u32]
        requires { j < length self.now.junctions }
        ensures { result.now ≡ into self.now j }
    {
        self.entering.bucket(j as usize)
    }
}
