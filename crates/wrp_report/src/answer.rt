use wrp_rules::End;
use wrp_town::{List, Step};

/// What a search found: its end, the numbers of nodes, of nodes that aren't open, of cut records
/// and of blind records in its list, and the walk of its last tour.
#[derive(Debug, Drop)]
pub struct Answer {
    pub end: End,
    pub nodes: u64,
    pub done: u64,
    pub cuts: u32,
    pub blind: u64,
    pub steps: List<Step>,
}
