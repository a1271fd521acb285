//! The checker: reads a proof line by line and says whether it proves its end.
//!
//! It holds one line and its own numbers, never the whole proof.
#![tactic(auto)]

mod apart;
mod branch;
mod closing;
mod cuts;
mod gather;
mod judge;
mod kept;
mod lines;
mod pass;
mod tour;
mod value;
mod work;

pub use pass::{CheckFault, check, verdict_laws};
