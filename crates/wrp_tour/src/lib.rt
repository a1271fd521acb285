//! Tours: a first one, and a better one.
//!
//! How good a tour is rests on no proof: what a heuristic finds is taken where it is tested to be a
//! tour. Else a plain tour stands in its place.
#![tactic(auto)]

mod laws;
mod lean;
mod moves;
mod order;
mod plain;
mod sides;
mod table;
mod thinning;
mod tours;
mod ways;

pub use laws::lean_tours_are_short;
pub use tours::{first_tour, improve};
