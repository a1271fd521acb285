//! The tables that the checker works on while it judges a line. Between two lines they are empty.
ghost use Rattle.std.specs.Prelude.{IfOk};
ghost use Rattle.wrp_check.specs.Judging.{IsIdle};

use std::alloc::{AllocError, Global};
use wrp_nodes::Boxes;
use wrp_points::Tables;
use wrp_pool::{JunctionSet, Tally};
use wrp_town::Town;

#[derive(Debug, Drop)]
pub(crate) struct Work {
    /// The coefficients of combined rows.
    pub(crate) tally: Tally,
    /// The set of junctions of a line.
    pub(crate) set: JunctionSet,
    /// The box of a node.
    pub(crate) boxes: Boxes,
    /// The numbers of a point.
    pub(crate) tables: Tables,
    /// For each arc whether a tour uses it.
    pub(crate) used: Vec<bool>,
    /// The lists of a line. What is left in them makes no difference.
    pub(crate) pairs: Vec<(u32, u128)>,
    pub(crate) numbers: Vec<u32>,
    pub(crate) streets: Vec<u32>,
}

impl Work {
    /// Empty tables for a town.
    pub(crate) fn new(alloc: Global, town: &Town) -> Result<Work, AllocError>
        ensures { IfOk result (IsIdle town.now) }
    {
        Ok(Work {
            tally: Tally::new(alloc, town)?,
            set: JunctionSet::new(alloc, town.junctions.len())?,
            boxes: Boxes::new(alloc, town)?,
            tables: Tables::new(alloc, town)?,
            used: vec![in alloc; false; 2 * town.streets.len()]?,
            pairs: Vec::new(alloc),
            numbers: Vec::new(alloc),
            streets: Vec::new(alloc),
        })
    }
}
