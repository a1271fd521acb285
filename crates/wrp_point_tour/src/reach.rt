//! The junctions to which the arcs lead that are used, from a base.
ghost use Rattle.std.specs.Prelude.{◌≡◌, ℕ, ◌*◌, ◌<◌, [], ◌∷◌, length, IfOk, OnOk, slice_index};
ghost use Rattle.wrp_point_tour.specs.Search.{IsReach, IsVisit, heads_of_used};

use std::alloc::{AllocError, Global};
use wrp_graph::Graph;
use wrp_town::Town;

/// The junctions that were met, and those of them that wait for a visit.
#[derive(Drop)]
struct Search {
    marks: Vec<bool>,
    stack: Vec<u32>,
}

/// Marks what arcs that are used lead to from a base.
pub(crate) fn reached(
    alloc: Global,
    graph: &Graph,
    counts: &[u32],
    base: u32,
) -> Result<Vec<bool>, AllocError>
    requires base { base < length graph.now.junctions }
    requires counts { length counts.now ≡ 2 * length graph.now.streets }
    ensures long { IfOk result (λ marks. length marks.items ≡ length graph.now.junctions) }
    ensures reach { IfOk result (λ marks. IsReach graph.now counts.now base marks.items) }
{
    let mut found = Search {
        marks: vec![in alloc; false; graph.town().junctions.len()]?,
        stack: Vec::new(alloc),
    };
    found.meet(base)?;
    while let Some(j) = found.stack.pop() {
        found.visit(graph.town(), counts, graph.out_of(j))?;
    }
    Ok(found.marks)
}

impl Search {
    /// Meets the heads of those of some arcs that are used.
    fn visit(&mut self, town: &Town, counts: &[u32], arcs: &[u32]) -> Result<(), AllocError>
        requires counts { length counts.now ≡ 2 * length town.now.streets }
        requires marks { length self.old.marks.items ≡ length town.now.junctions }
        requires arcs { (k : ℕ) → k < length arcs.now
            → slice_index arcs.now k < 2 * length town.now.streets }
        ensures { OnOk result (IsVisit (heads_of_used town.now counts.now arcs.now)
            self.old.marks.items self.old.stack.items self.new.marks.items self.new.stack.items) }
    {
        for arc in arcs {
            if counts[*arc as usize] > 0 {
                self.meet(town.head(*arc))?;
            }
        }
        Ok(())
    }

    /// Marks a junction and puts it on the stack, where it is not marked yet.
    fn meet(&mut self, j: u32) -> Result<(), AllocError>
        requires { j < length self.old.marks.items }
        ensures { OnOk result (IsVisit (j ∷ [])
            self.old.marks.items self.old.stack.items self.new.marks.items self.new.stack.items) }
    {
        if self.marks[j as usize] {
            return Ok(());
        }
        self.marks[j as usize] = true;
        self.stack.push(j)?;
        Ok(())
    }
}
