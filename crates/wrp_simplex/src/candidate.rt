//! Rows and columns that may be chosen, and which of them comes first.

ghost use Rattle.std.specs.Prelude.{◌≡◌, true, false, Option, IfSome};
ghost use Rattle.wrp_simplex.specs.Candidates.{IsSized, IsNoLater, IsFirstOf};

/// A row or a column with its variable and a fraction, whose denominator is above 0.
#[derive(Debug, Drop, Clone, Copy)]
pub struct Candidate {
    pub place: u32,
    pub variable: u32,
    pub numerator: i128,
    pub denominator: i128,
}

/// Whether a candidate comes before another: its fraction is less, where that counts, or else its
/// variable has the lesser number.
fn precedes(by_fraction: bool, one: Candidate, other: Candidate) -> bool
    requires one { IsSized one }
    requires other { IsSized other }
    ensures yes { result ≡ true → IsNoLater by_fraction one other }
    ensures no { result ≡ false → IsNoLater by_fraction other one }
{
    if by_fraction {
        let left = one.numerator * other.denominator;
        let right = other.numerator * one.denominator;
        if left != right {
            return left < right;
        }
    }
    one.variable < other.variable
}

/// The first of two candidates, of which each may be missing.
pub fn first_of(
    by_fraction: bool,
    best: Option<Candidate>,
    next: Option<Candidate>,
) -> Option<Candidate>
    requires best { IfSome best IsSized }
    requires next { IfSome next IsSized }
    ensures first { IsFirstOf by_fraction best next result }
    ensures sized { IfSome result IsSized }
{
    let Some(one) = best else {
        return next;
    };
    let Some(other) = next else {
        return Some(one);
    };
    if precedes(by_fraction, other, one) {
        Some(other)
    } else {
        Some(one)
    }
}
