//! Tests of what the searches for cuts ask of a point.
ghost use Rattle.std.specs.Prelude.{◌≡◌, ℕ, ◌*◌, ◌^◌, ◌<◌, ◌≤◌, cond, false, pos, ◌≤ℤ◌, length, slice_index_or, All, IsTrue, IfOk};
ghost use Rattle.wrp_town.specs.Arcs.{is_legal, tail_of, head_of};
ghost use Rattle.wrp_rules.specs.Rows.{balance_row};
ghost use Rattle.wrp_laws.specs.Meets.{sum_of_counts};
ghost use Rattle.wrp_webs.specs.Nets.{sum_at_end};
ghost use Rattle.wrp_webs.specs.TownWebs.{IsBalanced, MeetsServices};
ghost use Rattle.wrp_rows.specs.Points.{IsPoint};
ghost use Rattle.wrp_odd.specs.Points.{HasNumbers, denominator_of, numbers_of, most_number};
ghost use Rattle.wrp_trials.specs.Served.{IsEnough};

use std::alloc::{AllocError, Global};
use wrp_odd::denominator;
use wrp_rows::Point;
use wrp_street::{List, Need, Town};

/// The most of a denominator, and of a number.
const MOST_DENOMINATOR: i128 = 1 << 60;

const MOST_NUMBER: i128 = 1 << 72;

/// These numbers over a denominator.
pub(crate) fn point_of(alloc: Global, den: i128, at: &[i128]) -> Result<Point, AllocError> {
    Ok(Point {
        den,
        at: List::from_vec(Vec::from_slice(alloc, at)?),
    })
}

/// Whether this is a point that serves each demand.
pub(crate) fn is_serving(town: &Town, point: &Point) -> bool
    ensures point { IsTrue result → IsPoint town.now point.now }
    ensures numbers { IsTrue result → HasNumbers point.now }
    ensures services { IsTrue result
        → MeetsServices town.now (denominator_of point.now) (numbers_of point.now) }
{
    is_point(town, point) && is_served(town, point)
}

/// Whether this is a point that is balanced at each junction.
pub(crate) fn is_balanced(town: &Town, point: &Point) -> bool
    ensures point { IsTrue result → IsPoint town.now point.now }
    ensures numbers { IsTrue result → HasNumbers point.now }
    ensures balanced { IsTrue result → IsBalanced town.now (numbers_of point.now) }
{
    is_point(town, point) && are_even(town, point)
}

/// Whether these are numbers of the arcs of a town.
pub(crate) fn is_point(town: &Town, point: &Point) -> bool
    ensures { IsTrue result → IsPoint town.now point.now × HasNumbers point.now }
{
    let at = point.at.as_slice();
    1 <= point.den
        && point.den <= MOST_DENOMINATOR
        && at.len() == 2 * town.streets.len()
        && are_in_range(at)
        && are_on_legal_arcs(town, at)
}

/// Whether each number is one that a point may have.
fn are_in_range(at: &[i128]) -> bool
    ensures { IsTrue result
        → All (λ z. (pos 0 ≤ℤ z) × (z ≤ℤ pos most_number)) at.now }
{
    at.iter().all(|z| 0 <= *z && *z <= MOST_NUMBER)
}

/// Whether no illegal arc has a number.
fn are_on_legal_arcs(town: &Town, at: &[i128]) -> bool
    requires { length at.now ≡ 2 * length town.now.streets }
    ensures { IsTrue result → (arc : ℕ) → is_legal town.now arc ≡ false
        → slice_index_or at.now arc (pos 0) ≡ pos 0 }
{
    for (arc, number) in at.iter().enumerate() {
        if *number != 0 && town.cost(arc as u32).is_none() {
            return false;
        }
    }
    true
}

/// Whether the point serves each demand.
fn is_served(town: &Town, point: &Point) -> bool
    requires point { IsPoint town.now point.now }
    requires numbers { HasNumbers point.now }
    ensures { IsTrue result
        → MeetsServices town.now (denominator_of point.now) (numbers_of point.now) }
{
    for (s, street) in town.streets.as_slice().iter().enumerate() {
        let forward = number_at(point, 2 * s);
        let backward = number_at(point, 2 * s + 1);
        if !is_enough(street.need, denominator(point), forward, backward) {
            return false;
        }
    }
    true
}

/// Whether the numbers of both ways are enough for a street.
fn is_enough(need: Need, den: u128, forward: u128, backward: u128) -> bool
    requires forward { forward ≤ 2 ^ 72 }
    requires backward { backward ≤ 2 ^ 72 }
    ensures { IsTrue result → IsEnough need den forward backward }
{
    match need {
        Need::No => true,
        Need::Either => den <= forward + backward,
        Need::Forward => den <= forward,
        Need::Backward => den <= backward,
        Need::Both => den <= forward && den <= backward,
    }
}

/// The number of an arc.
fn number_at(point: &Point, arc: usize) -> u128
    requires arc { arc < length point.now.at }
    requires numbers { HasNumbers point.now }
    ensures value { result ≡ numbers_of point.now arc }
    ensures small { result ≤ 2 ^ 72 }
{
    point.at.as_slice()[arc].unsigned_abs()
}

/// Whether as much leaves each junction as enters it.
fn are_even(town: &Town, point: &Point) -> bool
    requires point { IsPoint town.now point.now }
    requires numbers { HasNumbers point.now }
    ensures { IsTrue result → IsBalanced town.now (numbers_of point.now) }
{
    for j in 0..town.junctions.len() as u32 {
        if !is_even(town, point, j) {
            return false;
        }
    }
    true
}

/// Whether as much leaves a junction as enters it.
fn is_even(town: &Town, point: &Point, j: u32) -> bool
    requires point { IsPoint town.now point.now }
    requires numbers { HasNumbers point.now }
    ensures { IsTrue result → sum_of_counts town.now (numbers_of point.now)
        (balance_row town.now j).coef ≡ pos 0 }
{
    leaving(town, point, j) == entering(town, point, j)
}

/// A number that counts, or 0.
fn counted(counts: bool, number: u128) -> u128
    ensures value { result ≡ cond counts number 0 }
    ensures small { result ≤ number }
{
    if counts { number } else { 0 }
}

/// The sum of the numbers of the arcs that leave a junction.
fn leaving(town: &Town, point: &Point, j: u32) -> u128
    requires point { IsPoint town.now point.now }
    requires numbers { HasNumbers point.now }
    ensures { result ≡ sum_at_end (2 * length town.now.streets) (tail_of town.now)
        (numbers_of point.now) j }
{
    let mut sum = 0;
    for arc in 0..2 * town.streets.len() as u32 {
        sum += counted(town.tail(arc) == j, number_at(point, arc as usize));
    }
    sum
}

/// The same of those that enter it.
fn entering(town: &Town, point: &Point, j: u32) -> u128
    requires point { IsPoint town.now point.now }
    requires numbers { HasNumbers point.now }
    ensures { result ≡ sum_at_end (2 * length town.now.streets) (head_of town.now)
        (numbers_of point.now) j }
{
    let mut sum = 0;
    for arc in 0..2 * town.streets.len() as u32 {
        sum += counted(town.head(arc) == j, number_at(point, arc as usize));
    }
    sum
}
