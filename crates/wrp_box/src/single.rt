//! A box that holds one point.
ghost use Rattle.std.specs.Prelude.{◌≡◌, ℕ, ◌*◌, ◌<◌, None, map, length, pos, int_lt, ◌<ℤ◌, ◌≤ℤ◌, IfOk, IfSome};
ghost use Rattle.wrp_rules.specs.Nodes.{Node, Standing, empty_value};
ghost use Rattle.wrp_rows.specs.Pools.{HasRowsOf};
ghost use Rattle.wrp_rows.specs.Points.{AreBounds, AreBoundsOf};
ghost use Rattle.wrp_box.specs.Branching.{HoldOne};
ghost use Rattle.wrp_box.specs.Points.{alone, IsLowest, TellsOfNode};

use std::alloc::{AllocError, Global};
use wrp_bound::empty_value;
use wrp_rows::{Bounds, Point, Rows};
use wrp_town::List;

/// What is known of the only point of a box.
#[derive(Debug, Drop)]
pub enum Single {
    /// It breaks this row.
    Broken { row: u32 },
    /// It meets all rows.
    Met { point: Point },
}

/// What is known of the only point of a box. The scratch is as for `empty_value`.
///
/// # Errors
///
/// Want of memory alone.
pub fn only_point(
    alloc: Global,
    rows: &Rows<'_>,
    bounds: &Bounds,
    scratch: &mut [i128],
) -> Result<Single, AllocError>
    requires bounds { AreBounds rows.now.town bounds.now }
    requires one { HoldOne rows.now.town bounds.now }
    requires scratch { length scratch.old ≡ 2 * length rows.now.town.streets }
    ensures { IfOk result (TellsOfNode rows.now bounds.now) }
{
    match emptying_row(rows, bounds, scratch) {
        Some(row) => Ok(Single::Broken { row }),
        None => Ok(Single::Met {
            point: lowest_point(alloc, bounds)?,
        }),
    }
}

/// The first row whose multiplier alone empties the box.
fn emptying_row(rows: &Rows<'_>, bounds: &Bounds, scratch: &mut [i128]) -> Option<u32>
    requires bounds { AreBounds rows.now.town bounds.now }
    requires scratch { length scratch.old ≡ 2 * length rows.now.town.streets }
    ensures there { IfSome result (λ row. row < length rows.now.rows) }
    ensures some { (s : Standing) (node : Node) → HasRowsOf s rows.now
        → AreBoundsOf rows.now.town node bounds.now
        → IfSome result (λ row. pos 0 <ℤ empty_value rows.now.town s.rows node (alone row)) }
    ensures none { (s : Standing) (node : Node) (i : ℕ) → HasRowsOf s rows.now
        → AreBoundsOf rows.now.town node bounds.now → result ≡ None → i < length rows.now.rows
        → empty_value rows.now.town s.rows node (alone i) ≤ℤ pos 0 }
{
    for row in 0..rows.len() {
        if empties(rows, bounds, row, scratch) {
            return Some(row);
        }
    }
    None
}

/// Whether the multiplier of a row alone empties the box.
fn empties(rows: &Rows<'_>, bounds: &Bounds, row: u32, scratch: &mut [i128]) -> bool
    requires bounds { AreBounds rows.now.town bounds.now }
    requires row { row < length rows.now.rows }
    requires scratch { length scratch.old ≡ 2 * length rows.now.town.streets }
    ensures { (s : Standing) (node : Node) → HasRowsOf s rows.now
        → AreBoundsOf rows.now.town node bounds.now
        → result ≡ int_lt (pos 0) (empty_value rows.now.town s.rows node (alone row)) }
{
    empty_value(rows, bounds, [(row, 1)].as_slice(), scratch) > 0
}

/// The point with the least number of each range.
fn lowest_point(alloc: Global, bounds: &Bounds) -> Result<Point, AllocError>
    ensures { IfOk result (IsLowest bounds.now) }
{
    let at = signed(alloc, bounds.lo.as_slice())?;
    Ok(Point {
        den: 1,
        at: List::from_vec(at),
    })
}

/// Numbers as those of a point.
fn signed(alloc: Global, numbers: &[u32]) -> Result<Vec<i128>, AllocError>
    ensures { IfOk result (λ at. at.items ≡ map (λ n. pos n) numbers.now) }
{
    numbers.iter().map(|number| widened(*number)).collect(alloc)
}

fn widened(number: u32) -> i128
    ensures { result ≡ pos number }
{
    i128::from(number)
}
