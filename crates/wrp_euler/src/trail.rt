//! A trail: a walk that goes on while arcs are left, and is else taken back to where some are.
ghost use Rattle.std.specs.Prelude.{◌≡◌, ℕ, ◌+◌, ◌-◌, ◌*◌, ◌<◌, ◌≤◌, List, [], ◌∷◌, ◌++◌, length, IfOk, OnOk, MatchOption, slice_index, slice_set};
ghost use Rattle.wrp_town.specs.Arcs.{arc_of, is_legal, tail_of, head_of};
ghost use Rattle.wrp_graph.specs.Stars.{out_of};
ghost use Rattle.wrp_graph.specs.Balances.{AreBalanced, leaving};
ghost use Rattle.wrp_euler.specs.Circuits.{AreCounts};
ghost use Rattle.wrp_euler.specs.Trails.{IsOpen, ArePlaces, IsTrail, IsStart, GoesOn, GoesBack, Turns, IsPiece};

use std::alloc::{AllocError, Global};
use wrp_graph::Graph;
use wrp_town::Step;

/// A trail that began at a junction, the base.
#[derive(Drop)]
pub(crate) struct Trail {
    /// How many traversals of each arc are left.
    pub(crate) left: Vec<u32>,
    /// For each junction a place among the arcs that leave it. No arc before it is left.
    next: Vec<usize>,
    base: u32,
    /// The steps from the base to the current junction.
    path: Vec<Step>,
    at: u32,
    /// The steps that were taken back: the circuit's, from its last on.
    pub(crate) done: Vec<Step>,
}

impl Trail {
    /// The trail of no steps.
    fn new(alloc: Global, graph: &Graph, counts: &[u32], base: u32) -> Result<Trail, AllocError>
        requires there { base < length graph.now.junctions }
        requires counts { length counts.now ≡ 2 * length graph.now.streets }
        ensures { IfOk result (λ trail. IsStart graph.now counts.now base trail) }
    {
        Ok(Trail {
            left: counts.to_vec(alloc)?,
            next: vec![in alloc; 0usize; graph.town().junctions.len()]?,
            base,
            path: Vec::new(alloc),
            at: base,
            done: Vec::new(alloc),
        })
    }

    /// The first arc that is left at the current junction, whose place moves there.
    fn open_arc(&mut self, graph: &Graph) -> Option<u32>
        requires { IsTrail graph.now self.old }
        ensures kept { self.new ≡ record self.old { next = self.new.next } }
        ensures places { ArePlaces graph.now self.new.left.items self.new.next.items }
        ensures arc { MatchOption result (leaving graph.now self.new.left.items self.new.at ≡ 0)
            (λ arc. IsOpen graph.now self.new.left.items self.new.at arc) }
    {
        let arcs = graph.out_of(self.at);
        let place = first_left(arcs, self.left.as_slice(), self.next[self.at as usize]);
        self.next[self.at as usize] = place;
        if place < arcs.len() {
            Some(arcs[place])
        } else {
            None
        }
    }

    /// Goes along an arc that is left.
    fn go_on(&mut self, graph: &Graph, arc: u32) -> Result<(), AllocError>
        requires trail { IsTrail graph.now self.old }
        requires arc { IsOpen graph.now self.old.left.items self.old.at arc }
        ensures { OnOk result (GoesOn graph.now self.old self.new) }
    {
        self.left[arc as usize] -= 1;
        self.path.push(Step::along(arc))?;
        self.at = graph.town().head(arc);
        Ok(())
    }

    /// Takes the last step of the path back, and answers whether there was one.
    fn go_back(&mut self, graph: &Graph) -> Result<bool, AllocError>
        requires trail { IsTrail graph.now self.old }
        requires stuck { leaving graph.now self.old.left.items self.old.at ≡ 0 }
        ensures { IfOk result (λ went. Turns graph.now self.old self.new went) }
    {
        match self.path.pop() {
            Some(step) => {
                self.done.push(step)?;
                self.at = graph.town().tail(step.arc());
                Ok(true)
            }
            None => Ok(false),
        }
    }

    /// Goes on where an arc is left, and else back. The answer is false where the trail ends.
    fn turn(&mut self, graph: &Graph) -> Result<bool, AllocError>
        requires { IsTrail graph.now self.old }
        ensures { IfOk result (λ went. Turns graph.now self.old self.new went) }
    {
        match self.open_arc(graph) {
            Some(arc) => {
                self.go_on(graph, arc)?;
                Ok(true)
            }
            None => self.go_back(graph),
        }
    }

    /// The trail that traverses all that can be traversed from a junction, at its end.
    pub(crate) fn run(
        alloc: Global,
        graph: &Graph,
        counts: &[u32],
        base: u32,
    ) -> Result<Trail, AllocError>
        requires there { base < length graph.now.junctions }
        requires counts { AreCounts graph.now counts.now }
        requires balanced { AreBalanced graph.now counts.now }
        ensures { IfOk result (λ trail. IsPiece graph.now counts.now base
            trail.left.items trail.done.items) }
    {
        let mut trail = Trail::new(alloc, graph, counts, base)?;
        while trail.turn(graph)? {}
        Ok(trail)
    }
}

/// The first place from one on at which an arc is left, and the number of the arcs where there is
/// none.
fn first_left(arcs: &[u32], left: &[u32], from: usize) -> usize
    requires inside { (k : ℕ) → k < length arcs.now → slice_index arcs.now k < length left.now }
    requires from { from ≤ length arcs.now }
    ensures from { from ≤ result }
    ensures within { result ≤ length arcs.now }
    ensures passed { (k : ℕ) → from ≤ k → k < result
        → slice_index left.now (slice_index arcs.now k) ≡ 0 }
    ensures found { result < length arcs.now
        → 0 < slice_index left.now (slice_index arcs.now result) }
{
    for place in from..arcs.len() {
        if left[arcs[place] as usize] > 0 {
            return place;
        }
    }
    arcs.len()
}
