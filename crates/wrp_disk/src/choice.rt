// Which image of a disk in memory is asked for.

/// One image of those that a crash may leave.
#[derive(Clone, Copy, Debug, PartialEq, Eq)]
pub enum Choice {
    /// No pending write took place.
    Old,
    /// All took place.
    New,
    /// Each pending byte is 1, and the length is the longest.
    Ones,
    /// Each pending byte within the old length is 1, and the length is the old one.
    Short,
}
