//! Laws of runs and of the systems on their way, in functions that do nothing.

ghost use Rattle.std.specs.Prelude.{◌≡◌, ℕ, suc, ◌+◌, ◌<◌, ◌≤◌, ℤ, pos, ◌*ℤ◌, ◌≤ℤ◌, List, length, take, All};
ghost use Rattle.wrp_tableau.specs.declared.line.Line.{Line};
ghost use Rattle.wrp_tableau.specs.Systems.{System, variables, row, start_of, scale, value};
ghost use Rattle.wrp_tableau.specs.Solutions.{Solves, IsSolution};
ghost use Rattle.wrp_tableau.specs.Soundness.{IsSound};
ghost use Rattle.wrp_simplex.specs.declared.end.RunEnd.{RunEnd};
ghost use Rattle.wrp_simplex.specs.Steps.{IsBroken, IsFeasible, IsDualFeasible, HasNoStep, IsNext, IsRun, after_steps};
ghost use Rattle.wrp_simplex.specs.Ends.{EndsSo, IsWholeRun};
ghost use Rattle.wrp_simplex.specs.Candidates.{signed_entry};
ghost use Rattle.wrp_simplex.specs.Lines.{line_at, line_sum, HaveWidth, IsCombination, IsPriced};
ghost use Rattle.wrp_simplex.specs.Follows.{Follows};
ghost use Rattle.wrp_simplex.specs.BasicSolutions.{IsBasicSolution};

/// There is but one run: each step is the only next one, a shorter run is the beginning of a longer
/// one, and of those within a limit the one that ends there is the longest, and ends in one way.
pub fn run_laws()
    ensures step { (s : System) (n : ℕ) (a b : ℕ × ℕ) → IsSound s
        → IsNext s n a → IsNext s n b → a ≡ b }
    ensures begins { (s : System) (a b : List (ℕ × ℕ)) → IsSound s → IsRun s a → IsRun s b
        → length a ≤ length b → a ≡ take (length a) b }
    ensures longest { (s : System) (limit : ℕ) (a b : List (ℕ × ℕ)) (end : RunEnd) → IsSound s
        → IsWholeRun s limit a end → IsRun s b → length b ≤ limit → length b ≤ length a }
    ensures only { (s : System) (limit : ℕ) (a b : List (ℕ × ℕ)) (one other : RunEnd) → IsSound s
        → IsWholeRun s limit a one → IsWholeRun s limit b other → a ≡ b }
    ensures end { (s : System) (limit steps : ℕ) (one other : RunEnd) → IsSound s
        → EndsSo s limit steps one → EndsSo s limit steps other → one ≡ other }
    ensures follows { (s : System) (steps : List (ℕ × ℕ)) → IsSound s → IsRun s steps
        → Follows s (after_steps s steps) }
{}

/// Where a broken row has no dual simplex step, none of its entries has the sign of its right side.
pub fn stuck_laws()
    ensures { (s : System) (r : ℕ) → IsSound s → IsBroken s r → IsDualFeasible s → HasNoStep s r
        → (j : ℕ) → j < variables s → signed_entry s r j ≤ℤ pos 0 }
{}

/// The basic solution over any denominator solves each equation. Its cost is the value over the
/// scale, and where no row is broken, none of its numbers is below 0.
pub fn basic_laws()
    ensures solves { (s : System) (d : ℤ) (x : ℕ → ℤ) → IsSound s → IsBasicSolution s d x
        → IsSolution s d x }
    ensures costs { (s : System) (d : ℤ) (x : ℕ → ℤ) → IsSound s → IsBasicSolution s d x
        → Solves (suc (variables s)) d x s.cost → scale s *ℤ x (variables s) ≡ d *ℤ value s }
    ensures at_least { (s : System) (d : ℕ) (x : ℕ → ℤ) → IsSound s → IsBasicSolution s (pos d) x
        → 0 < d → IsFeasible s → (j : ℕ) → j < variables s → pos 0 ≤ℤ x j }
{}

/// A start of lines with costs that aren't below 0 has no reduced cost below 0. After any pivots
/// each row is a sum of the lines; the reduced costs of the slacks make the value of the right sides
/// of the lines, and the other reduced costs of their coefficients.
pub fn combination_laws()
    ensures dual { (width : ℕ) (lines : List Line) (costs : List ℤ) → length costs ≡ width
        → All (λ z. pos 0 ≤ℤ z) costs → IsDualFeasible (start_of width lines costs) }
    ensures rows { (width : ℕ) (lines : List Line) (costs : List ℤ) (t : System) (r : ℕ)
        → HaveWidth width lines → length costs ≡ width → Follows (start_of width lines costs) t
        → r < length t.rows → IsCombination width lines (row t r) }
    ensures cost { (width : ℕ) (lines : List Line) (costs : List ℤ) (t : System)
        → HaveWidth width lines → length costs ≡ width → Follows (start_of width lines costs) t
        → IsPriced width lines costs t }
    ensures meets { (width : ℕ) (lines : List Line) (costs : List ℤ) (d : ℤ) (x : ℕ → ℤ) (i : ℕ)
        → HaveWidth width lines → IsSolution (start_of width lines costs) d x
        → i < length lines → pos 0 ≤ℤ x (width + i)
        → (d *ℤ (line_at lines i).rhs) ≤ℤ line_sum width (line_at lines i).coefs x }
{}
