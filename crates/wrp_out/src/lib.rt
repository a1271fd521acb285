//! Sources of bytes and sinks of bytes, with counts of what failed, over memory and over files.
#![tactic(auto)]

mod file;
mod front;
mod mem;
mod sink;
mod source;
mod steady;
#[cfg(test)]
mod tests;

pub use file::{FileSink, FileSource, StdoutSink};
pub use mem::{MemSink, MemSource};
pub use sink::{Sink, write_all};
pub use source::{Failed, Source};
pub use steady::{SteadySink, SteadySource};
