//! Nets, and what a search for a least cut answers.

use wrp_town::List;

/// A net: nodes below a number, and arcs, each with its tail, its head and its capacity.
#[derive(Debug, Drop)]
pub struct Net {
    pub nodes: u32,
    pub arcs: List<(u32, u32, i128)>,
}

/// A least cut between two nodes: its value, a flow of that value as a number of each arc, and the
/// nodes on the side of the source, ascending.
#[derive(Debug, Drop)]
pub struct Cut {
    pub value: i128,
    pub flow: List<i128>,
    pub set: List<u32>,
}

/// A least cut with the least side of the source, and the nodes on the least side of the sink,
/// ascending. What isn't on that side is another least cut.
#[derive(Debug, Drop)]
pub struct BothCuts {
    pub cut: Cut,
    pub sink_side: List<u32>,
}
