//! Towns: junctions and streets, the steps of a walk over them, and what a tour of a town is.
//!
//! Streets and junctions are numbered from 0. Street `s` gives the arcs `2 * s` (from its first end
//! to its second) and `2 * s + 1` (back). An arc is legal exactly where its cost stands.
//!
//! Names, lists that grow and clones take memory; no other call does.
#![tactic(auto)]

mod class;
mod limits;
mod list;
mod name;
mod size;
mod street;
mod town;
mod walk;

pub use class::{Class, class_of};
pub use limits::{COST_LIMIT, DEMAND_LIMIT, JUNCTION_LIMIT, STREET_LIMIT};
pub use list::List;
pub use name::Name;
pub use size::{demand_count, small};
pub use street::{Need, Step, Street};
pub use town::Town;
pub use walk::{is_closed_walk, is_tour, leads, serves, serves_all, walk_cost};
