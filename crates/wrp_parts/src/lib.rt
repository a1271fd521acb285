//! The parts of a town: the pieces into which its required streets join the junctions.
#![tactic(auto)]

mod neighbours;
mod parts;
mod traversal;

pub use parts::{Parts, required_parts};
