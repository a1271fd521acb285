//! The roundings that the rows of a tableau name, those that are valid and broken.
ghost use Rattle.std.specs.Prelude.{◌≡◌, ℕ, ◌*◌, ◌<◌, ◌≤◌, map, length, Contains, IfOk, OnOk};
ghost use Rattle.std.specs.List.{All};
ghost use Rattle.wrp_rules.specs.declared.record.Record.{Record};
ghost use Rattle.wrp_rules.specs.Nodes.{Standing};
ghost use Rattle.wrp_rows.specs.Pools.{HasRowsOf};
ghost use Rattle.wrp_rows.specs.Points.{IsPoint};
ghost use Rattle.wrp_tableau.specs.Kept.{system};
ghost use Rattle.wrp_tableau.specs.Soundness.{IsSound};
ghost use Rattle.wrp_odd.specs.Points.{HasNumbers};
ghost use Rattle.wrp_round.specs.Roundings.{NamesRounding, rounding_of};
ghost use Rattle.wrp_round.specs.Optima.{IsOptimumOver, point_of, system_of};
ghost use Rattle.wrp_round.specs.Broken.{IsBrokenRounding, AreFound};
ghost use Rattle.wrp_round.specs.Gathering.{records_of as the_records, IsAdded, IsRowAdded, IsGathered};

use crate::judging::{divisor_of, size_if_broken};
use crate::naming::named;
use std::alloc::{AllocError, Global};
use wrp_lp::Lp;
use wrp_rows::{Point, Rows};
use wrp_rules::Record;
use wrp_tableau::Tableau;

/// A rounding, with its divisor and the greatest size of a number of its row.
#[derive(Drop)]
pub(crate) struct Candidate {
    pub(crate) item: Record,
    pub(crate) divisor: u64,
    pub(crate) size: u128,
}

/// The roundings that the rows of an optimum's tableau name, those that are valid and that its
/// point breaks. Those whose largest number is least come first, and of these those with the least
/// divisor.
///
/// # Errors
///
/// Want of memory alone.
pub fn round_candidates(
    alloc: Global,
    rows: &Rows<'_>,
    chosen: &[u32],
    lp: &Lp,
) -> Result<Vec<Record>, AllocError>
    requires { IsOptimumOver rows.now chosen.now lp.now }
    ensures broken { (s : Standing) → HasRowsOf s rows.now → IfOk result (λ found.
        All (IsBrokenRounding rows.now.town s (point_of lp.now)) found.items) }
    ensures named { (s : Standing) → HasRowsOf s rows.now → IfOk result (λ found.
        AreFound rows.now.town s (point_of lp.now) (system_of lp.now) chosen.now found.items) }
{
    match lp {
        Lp::Optimal { point, table, .. } => candidates_of(alloc, rows, chosen, point, table),
        _ => unreachable!(),
    }
}

/// The same for a point and a tableau.
fn candidates_of(
    alloc: Global,
    rows: &Rows<'_>,
    chosen: &[u32],
    point: &Point,
    table: &Tableau,
) -> Result<Vec<Record>, AllocError>
    requires width { (system table.now).width ≡ 2 * length rows.now.town.streets }
    requires point { IsPoint rows.now.town point.now }
    requires numbers { HasNumbers point.now }
    ensures broken { (s : Standing) → HasRowsOf s rows.now → IfOk result (λ found.
        All (IsBrokenRounding rows.now.town s point.now) found.items) }
    ensures named { (s : Standing) → HasRowsOf s rows.now → IfOk result (λ found.
        AreFound rows.now.town s point.now (system table.now) chosen.now found.items) }
{
    let mut found = gather(alloc, rows, chosen, point, table)?;
    found.sort_unstable_by_key(|candidate| (candidate.size, candidate.divisor));
    records_of(alloc, found)
}

/// The records of candidates.
fn records_of(alloc: Global, found: Vec<Candidate>) -> Result<Vec<Record>, AllocError>
    ensures { IfOk result (λ records. records.items ≡ the_records found.items) }
{
    found
        .into_iter()
        .map(|candidate| candidate.item)
        .collect(alloc)
}

/// The candidates of all rows of a tableau.
fn gather(
    alloc: Global,
    rows: &Rows<'_>,
    chosen: &[u32],
    point: &Point,
    table: &Tableau,
) -> Result<Vec<Candidate>, AllocError>
    requires width { (system table.now).width ≡ 2 * length rows.now.town.streets }
    requires point { IsPoint rows.now.town point.now }
    requires numbers { HasNumbers point.now }
    ensures { (s : Standing) → HasRowsOf s rows.now → IfOk result (λ found.
        IsGathered rows.now.town s point.now (system table.now) chosen.now
        (length table.now.rows) found.items) }
{
    let mut room = vec![in alloc; 0i128; 2 * rows.town().streets.len()]?;
    let sums = room.as_mut_slice();
    let mut found = Vec::new(alloc);
    for r in 0..table.rows() {
        add_row(alloc, rows, chosen, point, table, r, sums, &mut found)?;
    }
    Ok(found)
}

/// Adds the rounding that a row names, where it is valid and the point breaks it.
fn add_row(
    alloc: Global,
    rows: &Rows<'_>,
    chosen: &[u32],
    point: &Point,
    table: &Tableau,
    r: u32,
    sums: &mut [i128],
    found: &mut Vec<Candidate>,
) -> Result<(), AllocError>
    requires width { (system table.now).width ≡ 2 * length rows.now.town.streets }
    requires sound { IsSound (system table.now) }
    requires there { r < length table.now.rows }
    requires sums { length sums.old ≡ 2 * length rows.now.town.streets }
    requires point { IsPoint rows.now.town point.now }
    requires numbers { HasNumbers point.now }
    ensures { (s : Standing) → HasRowsOf s rows.now → OnOk result
        (IsRowAdded rows.now.town s point.now (system table.now) chosen.now r
        found.old.items found.new.items) }
{
    let width = 2 * rows.town().streets.len() as u32;
    match named(alloc, table, width, chosen, r)? {
        Some(item) => add(rows, point, sums, item, found),
        None => Ok(()),
    }
}

/// Adds a record, where it is a valid rounding that the point breaks.
fn add(
    rows: &Rows<'_>,
    point: &Point,
    sums: &mut [i128],
    item: Record,
    found: &mut Vec<Candidate>,
) -> Result<(), AllocError>
    requires sums { length sums.old ≡ 2 * length rows.now.town.streets }
    requires point { IsPoint rows.now.town point.now }
    requires numbers { HasNumbers point.now }
    ensures { (s : Standing) → HasRowsOf s rows.now → OnOk result
        (IsAdded rows.now.town s point.now item found.old.items found.new.items) }
{
    if let Some(size) = size_if_broken(rows, point, sums, &item) {
        let divisor = divisor_of(&item);
        found.push(Candidate {
            item,
            divisor,
            size,
        })?;
    }
    Ok(())
}
