//! The relaxation of a part of the search, solved exactly in whole numbers.
#![tactic(auto)]

mod laws;
mod lines;
mod lp;
mod reading;
mod relaxation;
#[cfg(test)]
mod tests;
mod wholes;

pub use laws::{node_laws, zero_laws};
pub use lp::Lp;
pub use relaxation::relax;
