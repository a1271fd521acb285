//! Safe bounds: what multipliers of rows say of each tour within bounds, in whole numbers.
#![tactic(auto)]

mod mult;
#[cfg(test)]
mod tests;
mod value;

pub use mult::{Mult, to_mult};
pub use value::{bound_of, empty_value};
