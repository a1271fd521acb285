//! What a pivot makes of each row.

ghost use Rattle.std.specs.Prelude.{◌≡◌, ◌≢◌, ◌≤◌, ◌<◌, ◌^◌, ℤ, pos, neg_ℤ, ◌*ℤ◌, unsigned_abs, length, IfOk, IfSome, None};
ghost use Rattle.wrp_tableau.specs.declared.change.Change.TheVariants.{Becomes};
ghost use Rattle.wrp_tableau.specs.Equations.{sign_of};
ghost use Rattle.wrp_tableau.specs.Rows.{equation, IsStored, row_without, HasEntry};
ghost use Rattle.wrp_tableau.specs.Changes.{changed, changed_rows, row_at, TakesOut, IsWideWithout, CanPivot, AreChanges, IsChangeAt, IsWideAt, IsSomeWide};

use crate::merge::{merged, weighted};
use crate::reduce::reduced_row;
use crate::row::{Row, entry_of};
use std::alloc::{AllocError, Global};

/// What becomes of a row.
#[derive(Debug, Drop)]
pub enum Change {
    Stays,
    Becomes(Row),
}

/// The multiplier of the pivot's row: the entry that is to go, with the sign of the pivot turned.
fn turned(pivot: i128, entry: i128) -> i128
    requires small { unsigned_abs entry ≤ 2 ^ 60 }
    ensures value { result ≡ neg_ℤ (sign_of pivot *ℤ entry) }
    ensures small { unsigned_abs result ≤ 2 ^ 60 }
{
    if pivot < 0 { entry } else { -entry }
}

/// A row without its entry at `c`, by means of a row with an entry there, divided by its greatest
/// common factor. `None` where it is wide then.
fn combined_row(alloc: Global, row: &Row, by: &Row, c: u32) -> Result<Option<Row>, AllocError>
    requires row_stored { IsStored row.now }
    requires by_stored { IsStored by.now }
    requires some { HasEntry (row_without c by.now row.now) }
    ensures ok { IfOk result (λ found. IfSome found (λ new.
        TakesOut c by.now row.now (Becomes new))) }
    ensures stored { IfOk result (λ found. IfSome found (λ new. IsStored new)) }
    ensures wide { IfOk result (λ found. found ≡ None → IsWideWithout c by.now row.now) }
{
    let pivot = entry_of(by.terms.as_slice(), c);
    let entry = entry_of(row.terms.as_slice(), c);
    let size = pivot.abs();
    let other = turned(pivot, entry);
    let right = weighted(size, row.right, other, by.right);
    let terms = merged(
        alloc,
        size,
        row.terms.as_slice(),
        other,
        by.terms.as_slice(),
    )?;
    let Some(new) = reduced_row(terms, right) else {
        return Ok(None);
    };
    Ok(Some(new))
}

/// What a pivot at column `c` of the row `by` makes of another row: one without an entry there
/// stays. `None` where the new row is wide.
pub fn change_of(alloc: Global, row: &Row, by: &Row, c: u32) -> Result<Option<Change>, AllocError>
    requires row_stored { IsStored row.now }
    requires by_stored { IsStored by.now }
    requires pivot { (equation by.now).entry c ≢ pos 0 }
    requires some { HasEntry (row_without c by.now row.now) }
    ensures ok { IfOk result (λ found. IfSome found (λ next. TakesOut c by.now row.now next)) }
    ensures stored { IfOk result (λ found. IfSome found (λ next.
        IsStored (changed row.now next))) }
    ensures wide { IfOk result (λ found. found ≡ None → IsWideWithout c by.now row.now) }
{
    if entry_of(row.terms.as_slice(), c) == 0 {
        return Ok(Some(Change::Stays));
    }
    let Some(new) = combined_row(alloc, row, by, c)? else {
        return Ok(None);
    };
    Ok(Some(Change::Becomes(new)))
}

/// What a pivot in row `r` at column `c` makes of row `k`.
fn change_in(
    alloc: Global,
    rows: &[Row],
    r: usize,
    c: u32,
    k: usize,
) -> Result<Option<Change>, AllocError>
    requires pivot { CanPivot c r rows.now }
    requires there { k < length rows.now }
    ensures ok { IfOk result (λ found. IfSome found (λ next. IsChangeAt c r rows.now k next)) }
    ensures wide { IfOk result (λ found. found ≡ None → IsWideAt c r rows.now k) }
{
    if k == r {
        return Ok(Some(Change::Stays));
    }
    let Some(change) = change_of(alloc, &rows[k], &rows[r], c)? else {
        return Ok(None);
    };
    Ok(Some(change))
}

/// What a pivot in row `r` at column `c` makes of the rows. `None` where a new row is wide.
pub fn changes_of(
    alloc: Global,
    rows: &[Row],
    r: usize,
    c: u32,
) -> Result<Option<Vec<Change>>, AllocError>
    requires { CanPivot c r rows.now }
    ensures ok { IfOk result (λ found. IfSome found (λ changes.
        AreChanges c r rows.now (length rows.now) changes.items)) }
    ensures wide { IfOk result (λ found. found ≡ None → IsSomeWide c r rows.now) }
{
    let mut changes = Vec::with_capacity(alloc, rows.len())?;
    for k in 0..rows.len() {
        let Some(change) = change_in(alloc, rows, r, c, k)? else {
            return Ok(None);
        };
        changes.push(change)?;
    }
    Ok(Some(changes))
}

/// Puts what becomes of a row in its place.
pub fn apply(row: &mut Row, change: Change)
    ensures { row.new ≡ changed row.old change }
{
    match change {
        Change::Stays => {}
        Change::Becomes(new) => *row = new,
    }
}

/// Puts what becomes of each row in its place.
pub fn apply_all(rows: &mut Vec<Row>, changes: Vec<Change>)
    requires { length changes.items ≡ length rows.old.items }
    ensures { rows.new.items ≡ changed_rows rows.old.items changes.items }
{
    for (k, change) in changes.into_iter().enumerate() {
        apply(&mut rows[k], change);
    }
}
