//! The tour of a whole point: a circuit of the piece that holds the demands.
ghost use Rattle.std.specs.Prelude.{◌≡◌, ℕ, ◌*◌, ◌<◌, ◌≤◌, true, false, pos, ◌≤ℤ◌, length, IfOk, IfSome, IsSomeAnd, MatchOption, unsigned_abs};
ghost use Rattle.wrp_town.specs.Arcs.{demands, is_required};
ghost use Rattle.wrp_euler.specs.Circuits.{AreCounts};
ghost use Rattle.wrp_tour.specs.Tours.{IsLeanTour};
ghost use Rattle.wrp_rows.specs.Points.{IsPoint};
ghost use Rattle.wrp_point_tour.specs.PointTours.{IsWhole, IsTourPoint, CostsAtMost};
ghost use Rattle.wrp_point_tour.specs.Counts.{AreTimes, AreFew, AreTourCounts, AreKept, UsesAtMost, IsRequiredStreet};

use crate::counted::tour_with;
use crate::reach::reached;
use std::alloc::{AllocError, Global};
use wrp_graph::Graph;
use wrp_rows::Point;
use wrp_town::{List, Step, Town, demand_count};

/// The tour of a whole point of a town that has demands, where the point is one of a tour.
pub(crate) fn whole_tour(
    alloc: Global,
    graph: &Graph,
    point: &Point,
) -> Result<Option<List<Step>>, AllocError>
    requires point { IsPoint graph.now point.now }
    requires some { 0 < length (demands graph.now) }
    ensures lean { IfOk result (λ found. IfSome found (λ steps. IsLeanTour graph.now steps)) }
    ensures whole { IfOk result (λ found. IsTourPoint graph.now point.now
        → IsSomeAnd found (λ steps. CostsAtMost graph.now point.now steps)) }
{
    match whole_counts(alloc, point, demand_count(graph.town()))? {
        Some(counts) => tour_of_piece(alloc, graph, &counts),
        None => Ok(None),
    }
}

/// How often each number is the denominator, where all are whole numbers of times, at most `most`.
fn whole_counts(alloc: Global, point: &Point, most: u32) -> Result<Option<Vec<u32>>, AllocError>
    requires { pos 1 ≤ℤ point.now.den }
    ensures long { IfOk result (λ found. IfSome found
        (λ counts. length counts.items ≡ length point.now.at)) }
    ensures times { IfOk result (λ found. MatchOption found (IsWhole point.now most → ⊥)
        (λ counts. AreTimes point.now most counts.items)) }
{
    let mut counts = Vec::with_capacity(alloc, point.at.len())?;
    for number in point.at.as_slice() {
        match times(*number, point.den, most) {
            Some(count) => counts.push(count)?,
            None => return Ok(None),
        }
    }
    Ok(Some(counts))
}

/// How often a number is the denominator, where that is a whole number of times, at most `most`.
fn times(number: i128, den: i128, most: u32) -> Option<u32>
    requires { pos 1 ≤ℤ den }
    ensures { MatchOption result
        ((k : ℕ) → k ≤ most → number ≡ pos (k * unsigned_abs den) → ⊥)
        (λ k. (k ≤ most) × (number ≡ pos (k * unsigned_abs den))) }
{
    let size = number.unsigned_abs();
    let den = den.unsigned_abs();
    if number < 0 {
        return None;
    }
    if size % den != 0 {
        return None;
    }
    if size / den > u128::from(most) {
        return None;
    }
    Some((size / den) as u32)
}

/// A circuit of the piece of the arcs that are used in which the least required street lies.
fn tour_of_piece(
    alloc: Global,
    graph: &Graph,
    counts: &[u32],
) -> Result<Option<List<Step>>, AllocError>
    requires counts { AreCounts graph.now counts.now }
    requires few { AreFew graph.now counts.now }
    requires some { 0 < length (demands graph.now) }
    ensures lean { IfOk result (λ found. IfSome found (λ steps. IsLeanTour graph.now steps)) }
    ensures whole { IfOk result (λ found. AreTourCounts graph.now counts.now
        → IsSomeAnd found (λ steps. UsesAtMost counts.now steps)) }
{
    let town = graph.town();
    match first_required(town) {
        Some(street) => {
            let marks = reached(alloc, graph, counts, town.tail(2 * street))?;
            let kept = kept_counts(alloc, town, counts, &marks)?;
            tour_with(alloc, graph, &kept)
        }
        None => Ok(None),
    }
}

/// The first required street.
fn first_required(town: &Town) -> Option<u32>
    ensures { MatchOption result ((street : ℕ) → is_required town.now street ≡ false)
        (λ street. IsRequiredStreet town.now street) }
{
    for street in 0..town.streets.len() as u32 {
        if is_required(town, street) {
            return Some(street);
        }
    }
    None
}

/// Whether a street has a demand.
fn is_required(town: &Town, street: u32) -> bool
    requires { street < length town.now.streets }
    ensures { result ≡ is_required town.now street }
{
    town.streets.as_slice()[street as usize].need.demand_count() > 0
}

/// The counts of the arcs that begin at a marked junction.
fn kept_counts(
    alloc: Global,
    town: &Town,
    counts: &[u32],
    marks: &[bool],
) -> Result<Vec<u32>, AllocError>
    requires counts { length counts.now ≡ 2 * length town.now.streets }
    requires marks { length marks.now ≡ length town.now.junctions }
    ensures long { IfOk result (λ kept. length kept.items ≡ length counts.now) }
    ensures kept { IfOk result (λ kept. AreKept town.now marks.now counts.now kept.items) }
{
    let mut kept = Vec::with_capacity(alloc, counts.len())?;
    for (arc, count) in counts.iter().enumerate() {
        let is_marked = marks[town.tail(arc as u32) as usize];
        kept.push(if is_marked { *count } else { 0 })?;
    }
    Ok(kept)
}
