//! The lines and the costs of a relaxation.

ghost use Rattle.std.specs.Prelude.{◌≡◌, ◌≤◌, ◌<◌, ◌^◌, ◌++◌, unsigned_abs, length, slice_index, All, IfOk, OnOk};
ghost use Rattle.wrp_rows.specs.Pools.{sparse_at};
ghost use Rattle.wrp_rows.specs.Points.{AreBounds};
ghost use Rattle.wrp_rows.specs.Sizes.{AreSmallTerms};
ghost use Rattle.wrp_tableau.specs.Starts.{IsLine};
ghost use Rattle.wrp_lp.specs.Relaxed as relaxed;
ghost use Rattle.wrp_lp.specs.Relaxed.{width};
ghost use Rattle.wrp_lp.specs.Building.{coefs_of, lines_at};

use std::alloc::{AllocError, Global};
use wrp_rows::{Bounds, Rows};
use wrp_tableau::Line;
use wrp_town::{List, Town};

/// The coefficients that terms give the arcs, 0 where an arc is illegal.
fn coefs_of(alloc: Global, town: &Town, terms: &[(u32, i64)]) -> Result<List<i128>, AllocError>
    requires { AreSmallTerms (width town.now) terms.now }
    ensures { IfOk result (λ coefs. coefs ≡ coefs_of town.now terms.now) }
{
    let mut coefs = vec![in alloc; 0i128; 2 * town.streets.len()]?;
    for (arc, coef) in terms {
        if town.cost(*arc).is_some() {
            coefs[*arc as usize] = i128::from(*coef);
        }
    }
    Ok(List::from_vec(coefs))
}

/// A row as a line.
fn row_line(alloc: Global, rows: &Rows<'_>, row: u32) -> Result<Line, AllocError>
    requires { row < length rows.now.rows }
    ensures line { IfOk result (λ line. line
        ≡ relaxed.row_line rows.now.town (sparse_at rows.now.rows row)) }
    ensures fits { IfOk result (IsLine (width rows.now.town)) }
{
    Ok(Line {
        coefs: coefs_of(alloc, rows.town(), rows.terms(row))?,
        rhs: i128::from(rows.rhs(row)),
    })
}

/// A coefficient at one arc alone.
fn arc_line(alloc: Global, town: &Town, arc: u32, coef: i128, rhs: i128) -> Result<Line, AllocError>
    requires there { arc < width town.now }
    requires coef_small { unsigned_abs coef ≤ 2 ^ 60 }
    requires rhs_small { unsigned_abs rhs ≤ 2 ^ 60 }
    ensures line { IfOk result (λ line. line ≡ relaxed.arc_line town.now arc coef rhs) }
    ensures fits { IfOk result (IsLine (width town.now)) }
{
    let mut coefs = vec![in alloc; 0i128; 2 * town.streets.len()]?;
    coefs[arc as usize] = coef;
    Ok(Line {
        coefs: List::from_vec(coefs),
        rhs,
    })
}

/// Adds the two lines of an arc, where it is legal.
fn push_arc(
    alloc: Global,
    town: &Town,
    arc: u32,
    lo: u32,
    hi: u32,
    lines: &mut Vec<Line>,
) -> Result<(), AllocError>
    requires there { arc < width town.now }
    requires fit { All (IsLine (width town.now)) lines.old.items }
    ensures lines { OnOk result (lines.new.items ≡ lines.old.items
        ++ lines_at town.now lo hi arc) }
    ensures fit { OnOk result (All (IsLine (width town.now)) lines.new.items) }
{
    if town.cost(arc).is_none() {
        return Ok(());
    }
    lines.push(arc_line(alloc, town, arc, 1, i128::from(lo))?)?;
    lines.push(arc_line(alloc, town, arc, -1, -i128::from(hi))?)?;
    Ok(())
}

/// Adds the two lines of each legal arc.
fn push_bounds(
    alloc: Global,
    town: &Town,
    bounds: &Bounds,
    lines: &mut Vec<Line>,
) -> Result<(), AllocError>
    requires bounds { AreBounds town.now bounds.now }
    requires fit { All (IsLine (width town.now)) lines.old.items }
    ensures lines { OnOk result (lines.new.items ≡ lines.old.items
        ++ relaxed.bound_lines town.now (slice_index bounds.now.lo) (slice_index bounds.now.hi)) }
    ensures fit { OnOk result (All (IsLine (width town.now)) lines.new.items) }
{
    let lo = bounds.lo.as_slice();
    let hi = bounds.hi.as_slice();
    for arc in 0..2 * town.streets.len() as u32 {
        push_arc(alloc, town, arc, lo[arc as usize], hi[arc as usize], lines)?;
    }
    Ok(())
}

/// The lines of a relaxation: the chosen rows in order, and then the bounds.
pub fn lines_of(
    alloc: Global,
    rows: &Rows<'_>,
    chosen: &[u32],
    bounds: &Bounds,
) -> Result<Vec<Line>, AllocError>
    requires there { All (λ i. i < length rows.now.rows) chosen.now }
    requires bounds { AreBounds rows.now.town bounds.now }
    ensures lines { IfOk result (λ lines. lines.items
        ≡ relaxed.lines_of rows.now.town rows.now.rows chosen.now
        (slice_index bounds.now.lo) (slice_index bounds.now.hi)) }
    ensures fit { IfOk result (λ lines. All (IsLine (width rows.now.town)) lines.items) }
{
    let mut lines = Vec::new(alloc);
    for row in chosen {
        lines.push(row_line(alloc, rows, *row)?)?;
    }
    push_bounds(alloc, rows.town(), bounds, &mut lines)?;
    Ok(lines)
}

/// The cost of each arc, 0 where it is illegal.
pub fn costs_of(alloc: Global, town: &Town) -> Result<Vec<i128>, AllocError>
    ensures costs { IfOk result (λ costs. costs.items ≡ relaxed.costs_of town.now) }
    ensures small { IfOk result (λ costs. All (λ z. unsigned_abs z ≤ 2 ^ 60) costs.items) }
{
    let mut costs = Vec::new(alloc);
    for arc in 0..2 * town.streets.len() as u32 {
        costs.push(i128::from(town.cost(arc).unwrap_or(0)))?;
    }
    Ok(costs)
}
