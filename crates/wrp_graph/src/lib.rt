//! The street network as a graph: the legal arcs at each junction. Making it takes memory, and what
//! it lends takes none.
#![tactic(auto)]

mod buckets;
mod ends;
mod graph;

pub use buckets::Buckets;
pub use graph::Graph;
