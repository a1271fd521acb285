//! One row of a tableau.

ghost use Rattle.std.specs.Prelude.{◌≡◌, ◌≤◌, ◌^◌, unsigned_abs};
ghost use Rattle.wrp_sums.specs.Sums.{coef_at};
ghost use Rattle.wrp_tableau.specs.Sparse.{IsSparse};

use wrp_town::List;

/// An equation: the entries that aren't 0, each with its variable, ascending, and the right side.
#[derive(Debug, Drop)]
pub struct Row {
    pub terms: List<(u32, i128)>,
    pub right: i128,
}

/// The entry at a number.
pub fn entry_of(terms: &[(u32, i128)], number: u32) -> i128
    requires { IsSparse (2 ^ 60) terms.now }
    ensures value { result ≡ coef_at terms.now number }
    ensures small { unsigned_abs result ≤ 2 ^ 60 }
{
    let at = terms.partition_point(|term| term.0 < number);
    if at < terms.len() && terms[at].0 == number {
        terms[at].1
    } else {
        0
    }
}
