//! What the program prints of towns and of what was found for them.
#![tactic(auto)]

mod answer;
mod grid;
mod info;
mod laws;
mod lines;
mod reports;

pub use answer::Answer;
pub use grid::town_of;
pub use info::info_text;
pub use laws::last_tours_have_the_cost;
pub use reports::{report, summary, turns_report, visit_report};
