//! The search for broken connectivity cuts.
ghost use Rattle.std.specs.Prelude.{◌≡◌, ◌↔◌, [], IfOk, IfSome, None};
ghost use Rattle.wrp_parts.specs.RequiredParts.{AreParts};
ghost use Rattle.wrp_webs.specs.TownWebs.{IsBalanced};
ghost use Rattle.wrp_rows.specs.Points.{IsPoint};
ghost use Rattle.wrp_odd.specs.Points.{HasNumbers, numbers_of};
ghost use Rattle.wrp_conn.specs.Conns.{IsBalancedPoint, IsConnected, IsBrokenConn, AreBrokenConns};
ghost use Rattle.wrp_conn.specs.Founds.{AreFound};

use crate::found::{Broken, items_of};
use crate::pairs::{see_others, see_pairs};
use crate::shrunk::{Shrunk, part_streets, streets_in};
use std::alloc::{AllocError, Global};
use wrp_parts::Parts;
use wrp_rows::{Point, Rows};
use wrp_rules::Record;
use wrp_town::Town;

/// A broken connectivity cut, where there is one: of those that the search meets, one whose set the
/// least leaves.
///
/// # Errors
///
/// Want of memory alone.
pub fn violated(
    alloc: Global,
    parts: &Parts,
    rows: &Rows,
    point: &Point,
) -> Result<Option<Record>, AllocError>
    requires parts { AreParts rows.now.town parts.now.count parts.now.of }
    requires point { IsPoint rows.now.town point.now }
    requires numbers { HasNumbers point.now }
    requires balanced { IsBalanced rows.now.town (numbers_of point.now) }
    ensures none { IfOk result (λ found. (found ≡ None) ↔ IsConnected rows.now.town point.now) }
    ensures some { IfOk result (λ found. IfSome found (IsBrokenConn rows.now.town point.now)) }
{
    let found = all_violated(alloc, parts, rows, point)?;
    let first = found.into_iter().next();
    Ok(first)
}

/// The broken connectivity cuts that the search meets, each set once, those first whose sets the
/// least leaves.
///
/// # Errors
///
/// Want of memory alone.
pub fn all_violated(
    alloc: Global,
    parts: &Parts,
    rows: &Rows,
    point: &Point,
) -> Result<Vec<Record>, AllocError>
    requires parts { AreParts rows.now.town parts.now.count parts.now.of }
    requires point { IsPoint rows.now.town point.now }
    requires numbers { HasNumbers point.now }
    requires balanced { IsBalanced rows.now.town (numbers_of point.now) }
    ensures none { IfOk result (λ found. (found.items ≡ []) ↔ IsConnected rows.now.town point.now) }
    ensures broken { IfOk result (λ found. AreBrokenConns rows.now.town point.now found.items) }
{
    let found = search(alloc, rows.town(), parts, point)?;
    let items = items_of(alloc, found)?;
    Ok(items)
}

/// The cuts that are found between the first part and each other one, and, where there are any,
/// those between the others.
fn search(
    alloc: Global,
    town: &Town,
    parts: &Parts,
    point: &Point,
) -> Result<Vec<Broken>, AllocError>
    requires parts { AreParts town.now parts.now.count parts.now.of }
    requires point { IsBalancedPoint town.now point.now }
    ensures found { IfOk result (λ cuts. AreFound town.now point.now cuts.items) }
    ensures none { IfOk result (λ cuts. cuts.items ≡ [] → IsConnected town.now point.now) }
{
    let streets = part_streets(alloc, town, parts)?;
    let shrunk = Shrunk::new(alloc, town, parts, point, streets.as_slice())?;
    let streets = streets_in(alloc, streets.as_slice())?;
    let mut cuts = Vec::new(alloc);
    if let Some((first, others)) = streets.as_slice().split_first() {
        see_others(alloc, town, point, &shrunk, *first, others, &mut cuts)?;
        if !cuts.is_empty() {
            see_pairs(alloc, town, point, &shrunk, others, &mut cuts)?;
        }
    }
    Ok(cuts)
}
