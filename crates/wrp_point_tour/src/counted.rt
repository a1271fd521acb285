//! Tours with given counts.
ghost use Rattle.std.specs.Prelude.{◌≡◌, ℕ, length, IsSome, IfOk, IfSome};
ghost use Rattle.wrp_graph.specs.Balances.{AreBalanced};
ghost use Rattle.wrp_tour.specs.Tours.{IsLeanTour};
ghost use Rattle.wrp_euler.specs.Circuits.{AreCounts, AreOnePiece, IsCircuit};
ghost use Rattle.wrp_point_tour.specs.Counts.{AreFew, AreServed};

use std::alloc::{AllocError, Global};
use wrp_euler::{CircuitFault, circuit};
use wrp_graph::Graph;
use wrp_town::{List, Step, is_tour};

/// A tour that uses each arc as often as its count, where there is one.
pub(crate) fn tour_with(
    alloc: Global,
    graph: &Graph,
    counts: &[u32],
) -> Result<Option<List<Step>>, AllocError>
    requires counts { AreCounts graph.now counts.now }
    requires few { AreFew graph.now counts.now }
    ensures lean { IfOk result (λ found. IfSome found (λ steps. IsLeanTour graph.now steps)) }
    ensures counted { IfOk result (λ found. IfSome found
        (λ steps. IsCircuit graph.now counts.now steps)) }
    ensures found { IfOk result (λ found. AreBalanced graph.now counts.now
        → AreOnePiece graph.now counts.now → AreServed graph.now counts.now → IsSome found) }
{
    match circuit(alloc, graph, counts) {
        Ok(steps) => {
            if is_tour(graph.town(), steps.as_slice()) {
                Ok(Some(steps))
            } else {
                Ok(None)
            }
        }
        Err(CircuitFault::Memory) => Err(AllocError),
        Err(_) => Ok(None),
    }
}
