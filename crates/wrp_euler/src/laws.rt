//! A law of counts and circuits, in a function that does nothing.
ghost use Rattle.std.specs.Prelude.{ℕ, List, ◌↔◌};
ghost use Rattle.wrp_town.specs.declared.town.Town.{Town};
ghost use Rattle.wrp_graph.specs.Balances.{AreBalanced};
ghost use Rattle.wrp_euler.specs.Circuits.{AreCounts, AreOnePiece, HasCircuit};

/// Counts have a circuit exactly where every junction is balanced and the arcs that are traversed
/// are one piece.
pub fn circuit_laws()
    ensures { (town : Town) (counts : List ℕ) → AreCounts town counts
        → (HasCircuit town counts ↔ (AreBalanced town counts × AreOnePiece town counts)) }
{}
