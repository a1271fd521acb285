//! The column that enters.

ghost use Rattle.std.specs.Prelude.{◌≡◌, ◌^◌, ◌≤◌, unsigned_abs, ℤ, pos, ◌*ℤ◌, ◌<ℤ◌, IfSome, MatchOption};
ghost use Rattle.wrp_tableau.specs.Equations.{sign_of};
ghost use Rattle.wrp_tableau.specs.Soundness.{IsSound};
ghost use Rattle.wrp_tableau.specs.Kept.{system};
ghost use Rattle.wrp_simplex.specs.Steps.{IsBroken, IsDualFeasible, HasNoStep, IsEntering};
ghost use Rattle.wrp_simplex.specs.Candidates.{IsSized, IsSizedColumn};

use crate::candidate::{Candidate, first_of};
use wrp_tableau::Tableau;

/// An entry with the sign of a right side.
fn signed(right: i128, entry: i128) -> i128
    requires { unsigned_abs entry ≤ 2 ^ 60 }
    ensures value { result ≡ sign_of right *ℤ entry }
    ensures small { unsigned_abs result ≤ 2 ^ 60 }
{
    if right < 0 { -entry } else { entry }
}

/// A column as a candidate with its reduced cost over the size of its entry, where that is above 0.
fn sized_column(tableau: &Tableau, column: u32, size: i128) -> Option<Candidate>
    requires { unsigned_abs size ≤ 2 ^ 60 }
    ensures is { MatchOption result (pos 0 <ℤ size → ⊥)
        (IsSizedColumn (system tableau.now) column size) }
    ensures sized { IfSome result IsSized }
{
    if size <= 0 {
        return None;
    }
    Some(Candidate {
        place: column,
        variable: column,
        numerator: tableau.reduced(column),
        denominator: size,
    })
}

/// The least column with which a pivot in a broken row is a dual simplex step: of the entries with
/// the sign of the right side, one with the least reduced cost over its size.
pub fn entering_column(tableau: &Tableau, row: u32) -> Option<u32>
    requires sound { IsSound (system tableau.now) }
    requires broken { IsBroken (system tableau.now) row }
    requires dual { IsDualFeasible (system tableau.now) }
    ensures { MatchOption result (HasNoStep (system tableau.now) row)
        (IsEntering (system tableau.now) row) }
{
    let right = tableau.right(row);
    let mut best = None;
    for (column, entry) in tableau.row(row) {
        let size = signed(right, *entry);
        best = first_of(true, best, sized_column(tableau, *column, size));
    }
    match best {
        None => None,
        Some(first) => Some(first.place),
    }
}
