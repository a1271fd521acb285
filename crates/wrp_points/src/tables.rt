//! The tables that a point is judged with.
ghost use Rattle.std.specs.Prelude.{IfOk};

use crate::service::{Demand, demand_list};
use std::alloc::{AllocError, Global};
use wrp_town::{List, Town};

/// A number for each arc and a surplus for each junction, all of them 0 at rest, and the demands.
#[derive(Debug, Drop)]
pub struct Tables {
    pub(crate) numbers: Vec<u128>,
    pub(crate) surplus: Vec<i128>,
    pub(crate) demands: List<Demand>,
}

impl Tables {
    ghost use Rattle.wrp_points.specs.Tables.{AreClear};

    /// At rest.
    ///
    /// # Errors
    ///
    /// Want of memory alone.
    pub fn new(alloc: Global, town: &Town) -> Result<Tables, AllocError>
        ensures { IfOk result (AreClear town.now) }
    {
        Ok(Tables {
            numbers: vec![in alloc; 0u128; 2 * town.streets.len()]?,
            surplus: vec![in alloc; 0i128; town.junctions.len()]?,
            demands: demand_list(alloc, town)?,
        })
    }
}
