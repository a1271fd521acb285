//! The relaxation of a part of the search.

ghost use Rattle.std.specs.Prelude.{◌≡◌, ◌+◌, ◌*◌, ◌≤◌, ◌<◌, ◌^◌, ℕ, List, length, slice_index, All, AllPairs, IfOk};
ghost use Rattle.wrp_rows.specs.Points.{AreBounds};
ghost use Rattle.wrp_rows.specs.Stores.{most_rows};
ghost use Rattle.wrp_tableau.specs.Kept.{system};
ghost use Rattle.wrp_tableau.specs.Soundness.{IsSound};
ghost use Rattle.wrp_tableau.specs.Solutions.{HasCosts};
ghost use Rattle.wrp_simplex.specs.Steps.{IsFeasible, IsDualFeasible, after_steps};
ghost use Rattle.wrp_simplex.specs.Runs.{IsRunFrom};
ghost use Rattle.wrp_lp.specs.Relaxed.{width, costs_of, relaxation};
ghost use Rattle.wrp_lp.specs.Answers.{relaxed, steps_of, IsRunWithin, EndsAt, Shows};

use crate::lines::{costs_of, lines_of};
use crate::lp::Lp;
use crate::reading::{empty_mult, optimal_mult, point_numbers};
use crate::wholes::least_den;
use std::alloc::{AllocError, Global};
use wrp_rows::{Bounds, Point, Rows};
use wrp_simplex::{RunEnd, run};
use wrp_tableau::Tableau;
use wrp_town::List;

/// The tableau that a relaxation starts from.
fn start(
    alloc: Global,
    rows: &Rows<'_>,
    chosen: &[u32],
    bounds: &Bounds,
) -> Result<Tableau, AllocError>
    requires there { All (λ i. i < length rows.now.rows) chosen.now }
    requires bounds { AreBounds rows.now.town bounds.now }
    ensures start { IfOk result (λ t. system t ≡ relaxed rows.now chosen.now bounds.now) }
    ensures costs { IfOk result (λ t. HasCosts (costs_of rows.now.town) (system t)) }
    ensures dual { IfOk result (λ t. IsDualFeasible (system t)) }
{
    let town = rows.town();
    let lines = lines_of(alloc, rows, chosen, bounds)?;
    let costs = costs_of(alloc, town)?;
    Tableau::start(
        alloc,
        2 * town.streets.len() as u32,
        lines.as_slice(),
        costs.as_slice(),
    )
}

/// What is read off a tableau without a broken row.
fn optimal(
    alloc: Global,
    table: Tableau,
    width: u32,
    count: u32,
    chosen: &[u32],
    taken: List<(u32, u32)>,
) -> Result<Lp, AllocError>
    requires width { width ≡ (system table).width }
    requires count { count ≡ length chosen.now }
    requires few { width + count < 2 ^ 32 }
    requires feasible { IsFeasible (system table) }
    ensures end { (limit : ℕ) → IfOk result (EndsAt (system table) chosen.now limit) }
    ensures steps { IfOk result (λ lp. steps_of lp ≡ taken) }
{
    let Some(den) = least_den(&table, width, count) else {
        return Ok(Lp::Wide { taken });
    };
    let at = point_numbers(alloc, &table, width, den)?;
    let mult = optimal_mult(alloc, &table, width, chosen, den)?;
    Ok(Lp::Optimal {
        point: Point { den, at },
        mult,
        table,
        taken,
    })
}

/// The number of chosen rows.
fn count_of(rows: &Rows<'_>, chosen: &[u32]) -> u32
    requires ascending { AllPairs (λ i j. i < j) chosen.now }
    requires there { All (λ i. i < length rows.now.rows) chosen.now }
    ensures value { result ≡ length chosen.now }
    ensures few { result ≤ most_rows }
{
    let most = rows.len();
    prove!(chosen.len() <= most as usize);
    chosen.len() as u32
}

/// The cheapest point within bounds that meets the chosen rows, by the dual simplex method with at
/// most so many pivots.
///
/// # Errors
///
/// Want of memory alone.
pub fn relax(
    alloc: Global,
    rows: &Rows<'_>,
    chosen: &[u32],
    bounds: &Bounds,
    pivots: u32,
) -> Result<Lp, AllocError>
    requires ascending { AllPairs (λ i j. i < j) chosen.now }
    requires there { All (λ i. i < length rows.now.rows) chosen.now }
    requires bounds { AreBounds rows.now.town bounds.now }
    ensures run { IfOk result (λ lp.
        IsRunWithin (relaxed rows.now chosen.now bounds.now) pivots (steps_of lp)) }
    ensures end { IfOk result (λ lp.
        EndsAt (after_steps (relaxed rows.now chosen.now bounds.now) (steps_of lp))
        chosen.now pivots lp) }
    ensures shows { IfOk result (Shows rows.now bounds.now) }
{
    let width = 2 * rows.town().streets.len() as u32;
    let count = count_of(rows, chosen);
    let mut table = start(alloc, rows, chosen, bounds)?;
    let mut taken = Vec::new(alloc);
    let end = run(&mut table, pivots, &mut taken)?;
    let taken = List::from_vec(taken);
    match end {
        RunEnd::Optimal => optimal(alloc, table, width, count, chosen, taken),
        RunEnd::Empty { row } => Ok(Lp::Empty {
            mult: empty_mult(alloc, &table, width, chosen, row)?,
            taken,
        }),
        RunEnd::Wide => Ok(Lp::Wide { taken }),
        RunEnd::Pivots => Ok(Lp::Pivots { taken }),
    }
}
