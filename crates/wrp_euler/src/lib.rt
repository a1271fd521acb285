//! Closed walks with given counts of traversals.
#![tactic(auto)]

mod circuits;
mod laws;
mod trail;

pub use circuits::{CircuitFault, circuit};
pub use laws::circuit_laws;
