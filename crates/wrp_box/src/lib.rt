//! The box of one node: what the relaxation over it shows, where it is split, and what is known of a
//! box that holds one point.
#![tactic(auto)]

mod branch;
mod records;
mod relaxing;
mod single;
#[cfg(test)]
mod tests;

pub use branch::{Branch, branch_of};
pub use records::{point_record, shown_record};
pub use relaxing::{all_rows, relax_box};
pub use single::{Single, only_point};
