//! The candidates among K-C cuts.
ghost use Rattle.std.specs.Prelude.{◌≡◌, ◌<◌, ◌≤◌, length, Some, IfOk, OnOk};
ghost use Rattle.std.specs.List.{All};
ghost use Rattle.wrp_parts.specs.RequiredParts.{AreParts, part_at};
ghost use Rattle.wrp_rows.specs.Points.{IsPoint};
ghost use Rattle.wrp_odd.specs.Points.{HasNumbers};
ghost use Rattle.wrp_kc.specs.Candidates.{IsBrokenKc, candidate, HasCandidates, IsAdded};

use crate::chain::chain_of;
use crate::sets::sets_for;
use std::alloc::{AllocError, Global};
use wrp_odd::denominator;
use wrp_parts::Parts;
use wrp_rows::{Point, Rows};
use wrp_rules::Record;
use wrp_town::Town;

/// The K-C cuts that the point breaks, of those in which a junction with a part is the first set,
/// the other parts are the inner sets in their order, and all other junctions the last set.
///
/// # Errors
///
/// Want of memory alone.
pub fn kc_candidates(
    alloc: Global,
    parts: &Parts,
    rows: &Rows,
    point: &Point,
) -> Result<Vec<Record>, AllocError>
    requires parts { AreParts rows.now.town parts.now.count parts.now.of }
    requires point { IsPoint rows.now.town point.now }
    requires numbers { HasNumbers point.now }
    ensures broken { IfOk result (λ found. All (IsBrokenKc rows.now.town point.now) found.items) }
    ensures all { IfOk result (λ found. HasCandidates rows.now.town point.now parts.now.count
        parts.now.of (length rows.now.town.junctions) found.items) }
{
    let found = candidates_of(alloc, rows.town(), parts, point)?;
    Ok(found)
}

/// The same for a town.
fn candidates_of(
    alloc: Global,
    town: &Town,
    parts: &Parts,
    point: &Point,
) -> Result<Vec<Record>, AllocError>
    requires parts { AreParts town.now parts.now.count parts.now.of }
    requires point { IsPoint town.now point.now }
    requires numbers { HasNumbers point.now }
    ensures broken { IfOk result (λ found. All (IsBrokenKc town.now point.now) found.items) }
    ensures all { IfOk result (λ found. HasCandidates town.now point.now parts.now.count
        parts.now.of (length town.now.junctions) found.items) }
{
    let mut found = Vec::new(alloc);
    for u in 0..town.junctions.len() as u32 {
        if let Some(own) = parts.of.as_slice()[u as usize] {
            add(alloc, town, parts, point, own, u, &mut found)?;
        }
    }
    Ok(found)
}

/// Adds the record of a junction, where it is valid and broken.
fn add(
    alloc: Global,
    town: &Town,
    parts: &Parts,
    point: &Point,
    own: u32,
    u: u32,
    found: &mut Vec<Record>,
) -> Result<(), AllocError>
    requires parts { AreParts town.now parts.now.count parts.now.of }
    requires point { IsPoint town.now point.now }
    requires numbers { HasNumbers point.now }
    requires there { u < length town.now.junctions }
    requires own { part_at parts.now.of u ≡ Some own }
    ensures { OnOk result (IsAdded town.now point.now
        (candidate town.now parts.now.count parts.now.of own u) found.old.items found.new.items) }
{
    let k = parts.count;
    let of = sets_for(alloc, town, parts, own, u)?;
    if k >= 3 && chain_of(town, point, k, of.as_slice()).is_broken(k, denominator(point)) {
        found.push(Record::Kc { k, of })?;
    }
    Ok(())
}
