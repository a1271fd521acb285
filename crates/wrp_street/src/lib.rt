//! Reads a street table into a town, and writes a town as one.
#![tactic(auto)]

mod cost;
mod header;
mod junctions;
mod laws;
mod reader;
mod row;
mod table;
mod writer;

pub use laws::table_laws;
pub use reader::{TableReader, read_town};
pub use row::Row;
pub use table::TableFault;
pub use writer::canonical;
pub use wrp_town::{
    Class, List, Name, Need, Step, Street, Town, class_of, demand_count, is_closed_walk, is_tour,
    leads, serves, serves_all, small, walk_cost,
};

#[cfg(test)]
mod tests;
