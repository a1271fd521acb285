//! Room for judging records.
ghost use Rattle.std.specs.Prelude.{IfOk};

use std::alloc::{AllocError, Global};
use wrp_nodes::Boxes;
use wrp_points::Tables;
use wrp_rows::Bounds;
use wrp_town::{List, Town};

/// Room for judging records. Only the box and the tables of points are at rest between two of them.
#[derive(Debug, Drop)]
pub(crate) struct Desk {
    pub(crate) boxes: Boxes,
    pub(crate) tables: Tables,
    pub(crate) bounds: Bounds,
    /// A sum for each arc.
    pub(crate) sums: Vec<i128>,
    /// A mark for each junction.
    pub(crate) marks: Vec<bool>,
}

impl Desk {
    ghost use Rattle.wrp_tree.specs.Keeping.{IsDeskOf};

    /// A desk for the records of a town.
    pub(crate) fn new(alloc: Global, town: &Town) -> Result<Desk, AllocError>
        ensures { IfOk result (IsDeskOf town.now) }
    {
        let arcs = 2 * town.streets.len();
        let bounds = Bounds {
            lo: List::from_vec(vec![in alloc; 0; arcs]?),
            hi: List::from_vec(vec![in alloc; 0; arcs]?),
        };
        Ok(Desk {
            boxes: Boxes::new(alloc, town)?,
            tables: Tables::new(alloc, town)?,
            bounds,
            sums: vec![in alloc; 0; arcs]?,
            marks: vec![in alloc; false; town.junctions.len()]?,
        })
    }
}
