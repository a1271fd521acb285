//! Odd cuts that a point breaks: of single junctions, of components of the streets with much spare,
//! and of any set, as Odd records or in the form of roundings.
#![tactic(auto)]

mod candidates;
mod found;
mod merging;
mod tally;

pub use candidates::odd_candidates;
pub use merging::own_labels;
pub use tally::{Tally, denominator, tallies, tally_of};
