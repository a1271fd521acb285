//! The odd cuts that a point breaks, found by least cuts: none is missed where all are met.
#![tactic(auto)]

mod look;
mod pairs;
mod search;
mod sides;
mod web_net;

pub use search::{broken_odd_sets, min_odd};
