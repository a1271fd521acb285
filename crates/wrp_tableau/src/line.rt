//! The lines of which a tableau is made.

use wrp_town::List;

/// A line: `coefs * x >= rhs` over `x >= 0`.
#[derive(Debug, Drop)]
pub struct Line {
    pub coefs: List<i128>,
    pub rhs: i128,
}
