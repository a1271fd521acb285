//! The state of a search together with the log that acknowledges its records.
#![tactic(auto)]

mod appending;
mod fault;
mod keep;
mod lines;
mod reading;
mod reopening;
mod starting;
#[cfg(test)]
mod tests;

pub use fault::{AddFault, FlushFault, ReopenFault, StageFault, StartFault};
pub use keep::Keep;
