//! Records of a text with commas: read from bytes, with the blanks of a field trimmed, and written
//! as lines.
#![tactic(auto)]

mod fields;
mod lines;
mod records;

pub use crate::fields::{is_text, trim};
pub use crate::lines::push_line;
pub use crate::records::{Records, field_count, text_at};
pub use csv::ByteRecord;

#[cfg(test)]
mod tests;
