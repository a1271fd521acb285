//! The parts of a line: numbers, steps, pairs and sets, read without copying, and the places where
//! a line leaves the shape or the number rules of its kind. Nothing here takes memory.
#![tactic(auto)]

mod contents;
mod faults;
mod labels;
mod laws;
mod numbers;
mod parts;
mod place;
mod ranges;
mod text;

pub use contents::{ContentOf, ItemsOf, Leading, read_content};
pub use faults::{form_place, number_place};
pub use laws::{place_laws, word_laws};
pub use numbers::NumbersOf;
pub use parts::{PairsOf, StepsOf};
pub use text::{goes_on_with_space, read_count};
