/// How a run of dual simplex steps ends.
#[derive(Debug, Drop, Clone, Copy, PartialEq, Eq)]
pub enum RunEnd {
    /// No row is broken.
    Optimal,
    /// The leaving row, which is named, has no dual simplex step.
    Empty { row: u32 },
    /// The next step would be refused as wide.
    Wide,
    /// The limit of steps is reached, and a row is still broken.
    Pivots,
}
