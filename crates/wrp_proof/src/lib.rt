//! Proofs as texts: the lines of records and ends, read without copying and
//! written. Nothing takes memory but `read_record`, `to_record` and what writes.
#![tactic(auto)]

mod end;
mod fault;
mod kinds;
mod laws;
mod owned;
mod reading;
mod records;
#[cfg(test)]
mod tests;
mod views;

pub use end::read_end;
pub use fault::LineFault;
pub use laws::{end_laws, line_laws};
pub use owned::read_record;
pub use reading::view;
pub use records::to_record;
pub use views::{View, ViewFault};
pub use wrp_grammar::{NumbersOf, PairsOf, StepsOf};
pub use wrp_rules::{End, Record, Rule};
pub use wrp_writer::{proof_text, writable, write_end, write_record};
