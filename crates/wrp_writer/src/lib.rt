//! Proofs as texts: the lines of records and of ends, their lengths, and which records may be
//! written. Only what writes takes memory.
#![tactic(auto)]

mod content;
mod laws;
mod lengths;
mod limits;
mod part;
mod parts;
mod whole;
mod writing;

pub use laws::line_laws;
pub use limits::writable;
pub use whole::proof_text;
pub use writing::{write_end, write_record};
