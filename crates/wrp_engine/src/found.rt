/// What a search found.
#[derive(Clone, Copy, Debug, PartialEq, Eq)]
pub enum Found {
    /// No node is open: the cheapest tour has this cost.
    Optimal {
        cost: u64,
    },
    /// A node is open, and the budget is spent: each tour costs at least `low`, and the cheapest
    /// one so far `high`. So many nodes were done before, and are done after.
    Unfinished {
        low: u64,
        high: u64,
        before: u64,
        after: u64,
    },
}
