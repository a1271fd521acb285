//! The records of a proof and its ends, how their lines are written, what they stand for, and the
//! rules that a valid list of records keeps.
#![tactic(auto)]

mod layout;
mod record;
mod rule;
mod table;

pub use layout::{Kind, Range, Tail};
pub use record::{End, Record};
pub use rule::Rule;
pub use table::{LONGEST_LINE, Layout, MOST_MULTIPLIERS, layout_of};
