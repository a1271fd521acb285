//! The relaxation over all rows and the box of a node.
ghost use Rattle.std.specs.Prelude.{◌≡◌, IfOk};
ghost use Rattle.wrp_rules.specs.Nodes.{Node, Standing};
ghost use Rattle.wrp_rows.specs.Pools.{HasRowsOf};
ghost use Rattle.wrp_rows.specs.Points.{AreBounds, AreBoundsOf};
ghost use Rattle.wrp_box.specs.Relaxing.{all_rows as all_rows_of, IsRelaxed, ShowsNode};

use std::alloc::{AllocError, Global};
use wrp_lp::{Lp, relax};
use wrp_rows::{Bounds, Rows};

/// The numbers of all rows.
///
/// # Errors
///
/// Want of memory alone.
pub fn all_rows(alloc: Global, rows: &Rows<'_>) -> Result<Vec<u32>, AllocError>
    ensures { IfOk result (λ chosen. chosen.items ≡ all_rows_of rows.now) }
{
    let mut chosen = Vec::with_capacity(alloc, rows.len() as usize)?;
    for row in 0..rows.len() {
        chosen.push(row)?;
    }
    Ok(chosen)
}

/// The relaxation over all rows within the bounds of a node, with at most so many pivots.
///
/// # Errors
///
/// Want of memory alone.
pub fn relax_box(
    alloc: Global,
    rows: &Rows<'_>,
    chosen: &[u32],
    bounds: &Bounds,
    pivots: u32,
) -> Result<Lp, AllocError>
    requires all { chosen.now ≡ all_rows_of rows.now }
    requires bounds { AreBounds rows.now.town bounds.now }
    ensures relaxed { IfOk result (IsRelaxed rows.now bounds.now pivots) }
    ensures shows { (s : Standing) (node : Node) → HasRowsOf s rows.now
        → AreBoundsOf rows.now.town node bounds.now
        → IfOk result (ShowsNode rows.now.town s node) }
{
    relax(alloc, rows, chosen, bounds, pivots)
}
