//! The row that leaves.

ghost use Rattle.std.specs.Prelude.{◌≡◌, ◌<◌, length, IfSome, MatchOption};
ghost use Rattle.wrp_tableau.specs.Soundness.{IsSound};
ghost use Rattle.wrp_tableau.specs.Kept.{system};
ghost use Rattle.wrp_simplex.specs.Steps.{IsBroken, IsFeasible, IsLeaving};
ghost use Rattle.wrp_simplex.specs.Candidates.{IsSized, IsBrokenRow};

use crate::candidate::{Candidate, first_of};
use wrp_tableau::Tableau;

/// From so many steps on the basic values no longer count.
const STEPS_BY_VALUE: u32 = 10_000;

/// A row as a candidate with its basic value, where it is broken.
fn broken_row(tableau: &Tableau, row: u32) -> Option<Candidate>
    requires sound { IsSound (system tableau.now) }
    requires there { row < length tableau.now.rows }
    ensures is { MatchOption result (IsBroken (system tableau.now) row → ⊥)
        (IsBrokenRow (system tableau.now) row) }
    ensures sized { IfSome result IsSized }
{
    let right = tableau.right(row);
    if right == 0 {
        return None;
    }
    let variable = tableau.basic(row);
    let entry = tableau.entry(row, variable);
    if (entry < 0) == (right < 0) {
        return None;
    }
    Some(Candidate {
        place: row,
        variable,
        numerator: -right.abs(),
        denominator: entry.abs(),
    })
}

/// The row that leaves after so many steps; `None` where no row is broken.
pub fn leaving_row(tableau: &Tableau, rows: u32, steps: u32) -> Option<u32>
    requires sound { IsSound (system tableau.now) }
    requires rows { rows ≡ length tableau.now.rows }
    ensures { MatchOption result (IsFeasible (system tableau.now))
        (IsLeaving (system tableau.now) steps) }
{
    let by_value = steps < STEPS_BY_VALUE;
    let mut best = None;
    for row in 0..rows {
        best = first_of(by_value, best, broken_row(tableau, row));
    }
    match best {
        None => None,
        Some(first) => Some(first.place),
    }
}
