//! What a round leaves.
use wrp_rows::Point;

/// What the last round of a turn leaves.
#[derive(Drop)]
pub(crate) struct Left {
    /// The point of its relaxation, where that has one.
    pub(crate) point: Option<Point>,
    /// The point breaks cuts for which the list has no room.
    pub(crate) full: bool,
}

/// How a round ended.
pub(crate) enum RoundEnd {
    /// It added cuts.
    Cut,
    /// It added none.
    Last { left: Left },
}
