//! Shortest walks over the legal arcs of a town.
#![tactic(auto)]

mod arrival;
mod paths;
mod search;

pub use paths::Paths;
pub use search::shortest;
