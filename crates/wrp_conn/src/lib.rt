//! The connectivity cuts that a point breaks, found by least cuts between parts: none is missed
//! where all are met.
#![tactic(auto)]

mod found;
mod net;
mod pairs;
mod search;
mod shrunk;
mod side;
#[cfg(test)]
mod tests;

pub use search::{all_violated, violated};
