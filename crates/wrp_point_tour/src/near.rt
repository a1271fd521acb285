//! A tour near a point that is not whole. Counts of uses are read off the point, cheapest walks
//! balance them and join their pieces, and a circuit of them is a tour where it is tested to be one.
//!
//! Nothing is proved of how good it is.
ghost use Rattle.std.specs.Prelude.{◌≡◌, ◌*◌, ◌<◌, pos, ◌≤ℤ◌, length, IfOk, IfSome, IsTrue};
ghost use Rattle.wrp_euler.specs.Circuits.{AreCounts};
ghost use Rattle.wrp_tour.specs.Tours.{IsLeanTour};
ghost use Rattle.wrp_rows.specs.Points.{IsPoint};
ghost use Rattle.wrp_point_tour.specs.Counts.{AreFew};

use crate::balancing::balance;
use crate::counted::tour_with;
use crate::joining::join_pieces;
use std::alloc::{AllocError, Global};
use wrp_graph::Graph;
use wrp_rows::Point;
use wrp_town::{List, Need, Step, Town, demand_count};

/// A tour near a point, where one is found.
pub(crate) fn tour_near(
    alloc: Global,
    graph: &Graph,
    point: &Point,
) -> Result<Option<List<Step>>, AllocError>
    requires { IsPoint graph.now point.now }
    ensures { IfOk result (λ found. IfSome found (λ steps. IsLeanTour graph.now steps)) }
{
    let town = graph.town();
    let mut counts = counts_near(alloc, point, demand_count(town))?;
    serve_streets(town, point, &mut counts);
    balance(alloc, graph, &mut counts)?;
    join_pieces(alloc, graph, &mut counts)?;
    if are_counts(town, &counts) {
        tour_with(alloc, graph, &counts)
    } else {
        Ok(None)
    }
}

/// The nearest number of uses of each arc.
fn counts_near(alloc: Global, point: &Point, most: u32) -> Result<Vec<u32>, AllocError>
    requires { pos 1 ≤ℤ point.now.den }
    ensures { IfOk result (λ counts. length counts.items ≡ length point.now.at) }
{
    let mut counts = Vec::with_capacity(alloc, point.at.len())?;
    for number in point.at.as_slice() {
        counts.push(nearest_count(number.unsigned_abs(), point.den.unsigned_abs(), most))?;
    }
    Ok(counts)
}

/// The whole number that is nearest to a number over a denominator, a half rounded up, at most
/// `most`.
fn nearest_count(number: u128, den: u128, most: u32) -> u32
    requires { 0 < den }
{
    let rest = number % den;
    let more = if rest >= den - rest { 1 } else { 0 };
    match u32::try_from((number / den).saturating_add(more)) {
        Ok(count) => count.min(most),
        Err(_) => most,
    }
}

/// Serves each demand.
fn serve_streets(town: &Town, point: &Point, counts: &mut [u32])
    requires point { IsPoint town.now point.now }
    requires long { length counts.old ≡ 2 * length town.now.streets }
{
    for (street, item) in town.streets.as_slice().iter().enumerate() {
        serve_street(town, point, street as u32, item.need, counts);
    }
}

/// Serves the demands of a street. Where either direction serves, it is the one of the larger
/// number, and the other is used as often as the sum of both asks for beyond that.
fn serve_street(town: &Town, point: &Point, street: u32, need: Need, counts: &mut [u32])
    requires point { IsPoint town.now point.now }
    requires street { street < length town.now.streets }
    requires long { length counts.old ≡ 2 * length town.now.streets }
{
    let forward = 2 * street;
    let backward = forward + 1;
    match need {
        Need::No => {}
        Need::Either => {
            if is_backward(town, point, street) {
                serve_either(point, backward, forward, counts);
            } else {
                serve_either(point, forward, backward, counts);
            }
        }
        Need::Forward => use_once(counts, forward),
        Need::Backward => use_once(counts, backward),
        Need::Both => {
            use_once(counts, forward);
            use_once(counts, backward);
        }
    }
}

/// Uses an arc at least once.
fn use_once(counts: &mut [u32], arc: u32)
    requires { arc < length counts.old }
{
    counts[arc as usize] = counts[arc as usize].max(1);
}

/// Whether a street is better driven from its second end to its first.
fn is_backward(town: &Town, point: &Point, street: u32) -> bool
    requires point { IsPoint town.now point.now }
    requires street { street < length town.now.streets }
{
    let numbers = point.at.as_slice();
    let forward = 2 * street;
    let backward = forward + 1;
    match (town.cost(forward), town.cost(backward)) {
        (Some(there), Some(back)) => {
            numbers[backward as usize] > numbers[forward as usize]
                || (numbers[backward as usize] == numbers[forward as usize] && back < there)
        }
        (None, _) => true,
        (_, None) => false,
    }
}

/// Serves a demand by the first arc.
fn serve_either(point: &Point, first: u32, second: u32, counts: &mut [u32])
    requires den { pos 1 ≤ℤ point.now.den }
    requires first { first < length counts.old }
    requires second { second < length counts.old }
    requires long { length counts.old ≡ length point.now.at }
{
    use_once(counts, first);
    let numbers = point.at.as_slice();
    let sum = numbers[first as usize]
        .unsigned_abs()
        .saturating_add(numbers[second as usize].unsigned_abs());
    let total = nearest_count(sum, point.den.unsigned_abs(), u32::MAX);
    let other = total.saturating_sub(counts[first as usize]);
    counts[second as usize] = counts[second as usize].min(other);
}

/// Whether these are counts of which a tour may be asked.
pub(crate) fn are_counts(town: &Town, counts: &[u32]) -> bool
    requires { length counts.now ≡ 2 * length town.now.streets }
    ensures counts { IsTrue result → AreCounts town.now counts.now }
    ensures few { IsTrue result → AreFew town.now counts.now }
{
    let most = demand_count(town);
    for (arc, count) in counts.iter().enumerate() {
        if *count > most || (*count > 0 && town.cost(arc as u32).is_none()) {
            return false;
        }
    }
    true
}
