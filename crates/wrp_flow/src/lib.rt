//! Flows in nets, and least cuts.
#![tactic(auto)]

mod cut;
mod net;
mod push;
mod reach;
mod star;
#[cfg(test)]
mod tests;

pub use cut::{min_cut, min_cut_below};
pub use net::{BothCuts, Cut, Net};
