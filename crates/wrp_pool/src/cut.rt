//! The rows of connectivity and odd cuts.
ghost use Rattle.std.specs.Prelude.{◌≡◌, OnOk};
ghost use Rattle.wrp_rules.specs.Sets.{crossing_demands};
ghost use Rattle.wrp_rules.specs.Rows.{conn_row, odd_row};
ghost use Rattle.wrp_pool.specs.Cuts.{IsSetOf, Gains};

use crate::border::{push_inward, push_outward};
use crate::members::JunctionSet;
use crate::row::Pool;
use std::alloc::{AllocError, Global};
use wrp_graph::Graph;

impl Pool {
    /// Adds the row of a connectivity cut: what leaves the set is at least 1.
    ///
    /// # Errors
    ///
    /// Want of memory alone.
    pub fn push_conn(
        &mut self,
        alloc: Global,
        graph: &Graph<'_>,
        set: &JunctionSet,
    ) -> Result<(), AllocError>
        requires { IsSetOf graph.now set.now }
        ensures { OnOk result (Gains graph.now (conn_row graph.now set.now.set) self.old self.new) }
    {
        let mut terms = Vec::new(alloc);
        push_outward(graph, set, &mut terms)?;
        self.push_row(terms, 1)
    }

    /// Adds the row of an odd cut: what crosses the border of the set, which `crossing` demands do,
    /// is at least one more.
    ///
    /// # Errors
    ///
    /// Want of memory alone.
    pub fn push_odd(
        &mut self,
        alloc: Global,
        graph: &Graph<'_>,
        set: &JunctionSet,
        crossing: u32,
    ) -> Result<(), AllocError>
        requires set { IsSetOf graph.now set.now }
        requires crossing { crossing ≡ crossing_demands graph.now set.now.set }
        ensures { OnOk result (Gains graph.now (odd_row graph.now set.now.set) self.old self.new) }
    {
        let mut terms = Vec::new(alloc);
        push_outward(graph, set, &mut terms)?;
        push_inward(graph, set, &mut terms)?;
        self.push_row(terms, crossing as i32 + 1)
    }
}
