//! A tour read off a point of the relaxation.
//!
//! Where the point is whole and connected, the tour is its own and costs no more. For other points
//! nothing is proved of how good a tour is: what a heuristic finds is taken where it is tested to be
//! a tour.
#![tactic(auto)]

mod balancing;
mod counted;
mod joining;
mod near;
mod reach;
mod tours;
mod whole;

pub use tours::tour_of_point;
