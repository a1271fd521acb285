//! The dual simplex method over a tableau in whole numbers.
#![tactic(auto)]

mod candidate;
mod dual_simplex;
mod end;
mod entering;
mod laws;
mod leaving;

pub use dual_simplex::run;
pub use end::RunEnd;
pub use laws::{basic_laws, combination_laws, run_laws, stuck_laws};
