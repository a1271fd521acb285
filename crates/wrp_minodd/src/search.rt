//! The search for broken odd cuts.
ghost use Rattle.std.specs.Prelude.{◌≡◌, ◌↔◌, ℕ, List, [], IfOk, IfSome, None};
ghost use Rattle.wrp_rows.specs.Points.{IsPoint};
ghost use Rattle.wrp_webs.specs.TownWebs.{MeetsServices};
ghost use Rattle.wrp_odd.specs.Points.{HasNumbers, denominator_of, numbers_of};
ghost use Rattle.wrp_odd.specs.Found.{IsBrokenOddCut};
ghost use Rattle.wrp_webs.specs.Searching.{IsSearch};
ghost use Rattle.wrp_minodd.specs.Looks.{web_of, AreBrokenOnce};
ghost use Rattle.wrp_minodd.specs.Answers.{MeetsOdd};

use crate::look::{Look, look_at};
use crate::sides::{odd_nodes, shrunk};
use std::alloc::{AllocError, Global};
use wrp_odd::own_labels;
use wrp_rows::{Point, Rows};
use wrp_rules::Record;
use wrp_town::{List, Town};

/// A broken odd cut, where there is one.
///
/// # Errors
///
/// Want of memory alone.
pub fn min_odd(alloc: Global, rows: &Rows, point: &Point) -> Result<Option<Record>, AllocError>
    requires point { IsPoint rows.now.town point.now }
    requires numbers { HasNumbers point.now }
    requires services { MeetsServices rows.now.town (denominator_of point.now)
        (numbers_of point.now) }
    ensures none { IfOk result (λ found. (found ≡ None) ↔ MeetsOdd rows.now.town point.now) }
    ensures some { IfOk result (λ found. IfSome found (IsBrokenOddCut rows.now.town point.now)) }
{
    let mut found = broken_odd_sets(alloc, rows, point)?;
    let first = found.pop();
    Ok(first)
}

/// The broken odd cuts that the search meets.
///
/// # Errors
///
/// Want of memory alone.
pub fn broken_odd_sets(alloc: Global, rows: &Rows, point: &Point) -> Result<Vec<Record>, AllocError>
    requires point { IsPoint rows.now.town point.now }
    requires numbers { HasNumbers point.now }
    requires services { MeetsServices rows.now.town (denominator_of point.now)
        (numbers_of point.now) }
    ensures none { IfOk result (λ found. (found.items ≡ []) ↔ MeetsOdd rows.now.town point.now) }
    ensures broken { IfOk result (λ found. AreBrokenOnce rows.now.town point.now found.items) }
{
    let found = search(alloc, rows.town(), point)?;
    Ok(found)
}

/// The same for a town: webs are looked at until one shows broken odd cuts, or none awaits the
/// search.
fn search(alloc: Global, town: &Town, point: &Point) -> Result<Vec<Record>, AllocError>
    requires point { IsPoint town.now point.now }
    requires numbers { HasNumbers point.now }
    requires services { MeetsServices town.now (denominator_of point.now) (numbers_of point.now) }
    ensures none { IfOk result (λ found. (found.items ≡ []) ↔ MeetsOdd town.now point.now) }
    ensures broken { IfOk result (λ found. AreBrokenOnce town.now point.now found.items) }
{
    let mut pending = first_webs(alloc, town, point)?;
    while let Some(map) = pending.pop() {
        match look_at(alloc, town, point, map.as_slice())? {
            Look::Far => {}
            Look::Found { records } => return Ok(records),
            Look::Split { inside, s, t } => {
                let one = shrunk(alloc, map.as_slice(), inside.as_slice(), 1, t)?;
                let two = shrunk(alloc, map.as_slice(), inside.as_slice(), 0, s)?;
                pending.push(one)?;
                pending.push(two)?;
            }
        }
    }
    Ok(Vec::new(alloc))
}

/// The whole web, where it has an odd node.
fn first_webs(alloc: Global, town: &Town, point: &Point) -> Result<Vec<List<u32>>, AllocError>
    requires point { IsPoint town.now point.now }
    requires numbers { HasNumbers point.now }
    ensures { IfOk result (λ pending.
        IsSearch (web_of town.now point.now) (denominator_of point.now) pending.items) }
{
    let mut pending = Vec::new(alloc);
    let own = own_labels(alloc, town.junctions.len() as u32)?;
    let nodes = odd_nodes(alloc, town, point, own.as_slice())?;
    if !nodes.is_empty() {
        pending.push(List::from_vec(own))?;
    }
    Ok(pending)
}
