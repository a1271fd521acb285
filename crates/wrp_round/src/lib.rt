//! Roundings that a point breaks: those that the rows of its tableau name, and the Round form of an
//! odd cut.
#![tactic(auto)]

mod candidates;
mod judging;
mod laws;
mod naming;
mod odd_form;
#[cfg(test)]
mod tests;

pub use candidates::round_candidates;
pub use laws::{base_row_laws, cut_laws, optimum_laws};
pub use odd_form::round_of_odd;
