//! The rows that records stand for: those of a town, and one for each cut. Each is kept as its
//! coefficients that aren't 0, in one table.
//!
//! Making rows takes memory. Committing a row that is prepared and reading rows take none.
#![tactic(auto)]

mod base;
mod bench;
mod chain;
mod combine;
mod fault;
mod gather;
mod laws;
mod making;
mod marks;
mod pattern;
mod point;
mod rounding;
mod rows;
mod sets;
mod table;
#[cfg(test)]
mod tests;

pub use fault::RowFault;
pub use laws::{rows_laws, terms_laws};
pub use point::{Bounds, Point};
pub use rows::{MOST_CUTS, Rows};
