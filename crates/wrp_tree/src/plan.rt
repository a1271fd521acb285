//! What is made ready for a record before it is added.
ghost use Rattle.std.specs.Prelude.{◌≡◌};
ghost use Rattle.wrp_tree.specs.Plans.{planned_bound};

/// What a record needs to be added.
#[derive(Clone, Copy, Debug, PartialEq, Eq)]
pub(crate) enum Plan {
    /// Nothing but room in the list.
    Plain,
    /// A row, which is prepared.
    Row,
    /// The new bound of its node.
    Raise { bound: i128 },
    /// The two nodes of a split.
    Halve { node: u64, arc: u32, k: u32 },
}

impl Plan {
    /// The new bound, and 0 where there is none.
    pub(crate) fn bound(self) -> i128
        ensures { result ≡ planned_bound self }
    {
        match self {
            Plan::Raise { bound } => bound,
            _ => 0,
        }
    }
}
