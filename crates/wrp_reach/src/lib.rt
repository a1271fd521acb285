//! Whether a town has a tour, by the strongly connected components of its street network.
#![tactic(auto)]

mod components;
mod reach;
mod search;

pub use reach::{Reach, labels};
