//! Turn bans: a closed walk may be forbidden to go from one step directly to another. A town and
//! its bans make a larger town of the same kind, whose tours stand for the tours that keep the bans.
#![tactic(auto)]

mod arcs;
mod bans;
mod dropped;
mod expansion;
mod fault;
mod laws;
mod names;
mod streets;
mod turns;

pub use arcs::arcs_of;
pub use bans::{Bans, read_bans};
pub use dropped::drop_turns;
pub use expansion::turn_town;
pub use fault::TurnFault;
pub use laws::{bans_are_texts, tours_keep_bans, turn_towns_are_towns, turns_cost_alike};

#[cfg(test)]
mod tests;
