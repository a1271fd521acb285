//! A log of payloads on a disk, each of them on the disk before it is acknowledged.
#![tactic(auto)]

mod block;
mod fault;
mod log;
mod opening;
mod replaying;
mod step;
#[cfg(test)]
mod tests;

pub use fault::{AppendFault, OpenFault};
pub use log::Log;
