//! The tableau of the dual simplex method, in whole numbers with sparse rows.
//!
//! Each equation is kept as the ascending list of its entries that aren't 0. A pivot rewrites only
//! the rows with an entry in its column.
#![tactic(auto)]

mod change;
mod line;
mod merge;
mod reduce;
mod row;
mod start;
mod tableau;

pub use line::Line;
pub use tableau::{PivotFault, Tableau};
