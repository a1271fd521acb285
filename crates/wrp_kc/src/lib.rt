//! K-C cuts that a point breaks, among those that are known by a junction.
#![tactic(auto)]

mod candidates;
mod chain;
mod sets;
#[cfg(test)]
mod tests;

pub use candidates::kc_candidates;
