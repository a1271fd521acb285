//! The state of a search: a valid list of records, with its rows, its nodes, and the open nodes by
//! their bounds.
#![tactic(auto)]

mod adding;
mod apart;
mod boxes;
mod branch;
mod closing;
mod desk;
mod entries;
mod fault;
mod index;
mod judge;
mod kept;
mod plan;
mod tour;
mod tree;

pub use fault::{ApplyFault, PrepareFault};
pub use tree::Tree;
