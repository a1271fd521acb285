//! A tour by counts: each demand is served on its cheaper side, the required parts are joined by
//! cheapest walks, and then walks from the junctions that are entered too often to those that are
//! left too often balance the counts.
//!
//! Nothing is proved of how good it is, nor that it is a tour: its callers test that.
ghost use Rattle.std.specs.Prelude.{◌≡◌, ℕ, ◌*◌, ◌^◌, ◌≤◌, false, IsTrue, length, sum, slice_index};
ghost use Rattle.wrp_town.specs.Arcs.{is_legal};
ghost use Rattle.wrp_euler.specs.Circuits.{AreCounts};

use crate::ways::{NONE, Ways, cost, head, number, tail};
use std::alloc::{AllocError, Global};
use wrp_euler::{CircuitFault, circuit};
use wrp_graph::Graph;
use wrp_parts::Parts;
use wrp_town::{List, Need, Step, Town};

/// The most traversals of which a circuit is asked.
const MOST_TRAVERSALS: u64 = 1 << 25;

/// A tour by counts, or any other steps where none was found.
pub(crate) fn balanced_tour(
    alloc: Global,
    graph: &Graph,
    parts: &Parts,
) -> Result<List<Step>, AllocError> {
    let town = graph.town();
    let mut counts = vec![in alloc; 0u32; 2 * town.streets.len()]?;
    choose_sides(town, &mut counts);
    join_parts(alloc, graph, parts, &mut counts)?;
    balance(alloc, graph, &mut counts)?;
    joined_circuit(alloc, graph, parts.count, &mut counts)
}

/// Counts one more use of an arc.
fn add(counts: &mut [u32], arc: u32) {
    if let Some(count) = counts.get_mut(arc as usize) {
        *count = count.saturating_add(1);
    }
}

/// Counts one more use of each step's arc.
fn add_steps(counts: &mut [u32], steps: &[Step]) {
    for step in steps {
        add(
            counts,
            step.street
                .saturating_mul(2)
                .saturating_add(u32::from(step.back)),
        );
    }
}

/// Serves each demand on its cheaper side.
fn choose_sides(town: &Town, counts: &mut [u32]) {
    for (street, item) in town.streets.as_slice().iter().enumerate() {
        choose_side(town, number(street), item.need, counts);
    }
}

fn choose_side(town: &Town, street: u32, need: Need, counts: &mut [u32]) {
    let forward = street.saturating_mul(2);
    let backward = forward.saturating_add(1);
    match need {
        Need::No => {}
        Need::Either => {
            if cost(town, backward) < cost(town, forward) {
                add(counts, backward);
            } else {
                add(counts, forward);
            }
        }
        Need::Forward => add(counts, forward),
        Need::Backward => add(counts, backward),
        Need::Both => {
            add(counts, forward);
            add(counts, backward);
        }
    }
}

/// Joins each part, but for the first, to the nearest junction of a part before it.
fn join_parts(
    alloc: Global,
    graph: &Graph,
    parts: &Parts,
    counts: &mut [u32],
) -> Result<(), AllocError> {
    let of = parts.of.as_slice();
    let mut next = 1;
    for (j, part) in of.iter().enumerate() {
        if *part == Some(next) {
            join_part(alloc, graph, of, number(j), next, counts)?;
            next = next.saturating_add(1);
        }
    }
    Ok(())
}

/// Joins the part of a junction to one before it.
fn join_part(
    alloc: Global,
    graph: &Graph,
    of: &[Option<u32>],
    from: u32,
    part: u32,
    counts: &mut [u32],
) -> Result<(), AllocError> {
    if let Some(ways) = Ways::from(alloc, graph, from)? {
        let to = nearest_earlier(&ways, of, part);
        if let Some(steps) = ways.steps(to)? {
            add_steps(counts, steps.as_slice());
        }
    }
    Ok(())
}

/// The nearest junction of an earlier part.
fn nearest_earlier(ways: &Ways, of: &[Option<u32>], part: u32) -> u32 {
    let mut best = NONE;
    let mut nearest = u32::MAX;
    for (j, other) in of.iter().enumerate() {
        let cost = ways.cost(number(j));
        if is_earlier(*other, part) && cost < best {
            best = cost;
            nearest = number(j);
        }
    }
    nearest
}

fn is_earlier(other: Option<u32>, part: u32) -> bool {
    match other {
        Some(other) => other < part,
        None => false,
    }
}

/// How much oftener each junction is entered than left.
fn surpluses(alloc: Global, town: &Town, counts: &[u32]) -> Result<Vec<i64>, AllocError> {
    let mut surplus = vec![in alloc; 0i64; town.junctions.len()]?;
    for (arc, count) in counts.iter().enumerate() {
        change(&mut surplus, head(town, number(arc)), i64::from(*count));
        change(&mut surplus, tail(town, number(arc)), -i64::from(*count));
    }
    Ok(surplus)
}

fn change(surplus: &mut [i64], j: u32, by: i64) {
    if let Some(at) = surplus.get_mut(j as usize) {
        *at = at.saturating_add(by);
    }
}

/// Balances the counts by cheapest walks, one junction after the other.
fn balance(alloc: Global, graph: &Graph, counts: &mut [u32]) -> Result<(), AllocError> {
    let mut surplus = surpluses(alloc, graph.town(), counts)?;
    for j in 0..surplus.len() {
        if surplus[j] > 0 {
            drain(alloc, graph, number(j), &mut surplus, counts)?;
        }
    }
    Ok(())
}

/// Sends the surplus of a junction to the nearest junctions that are left too often.
fn drain(
    alloc: Global,
    graph: &Graph,
    j: u32,
    surplus: &mut [i64],
    counts: &mut [u32],
) -> Result<(), AllocError> {
    if let Some(ways) = Ways::from(alloc, graph, j)? {
        for _ in 0..surplus.len() {
            let to = nearest_wanting(&ways, surplus);
            let amount = amount_between(surplus, j, to);
            if amount <= 0 {
                return Ok(());
            }
            send(&ways, to, amount, counts)?;
            change(surplus, j, amount.saturating_neg());
            change(surplus, to, amount);
        }
    }
    Ok(())
}

/// The nearest junction that is left oftener than entered.
fn nearest_wanting(ways: &Ways, surplus: &[i64]) -> u32 {
    let mut best = NONE;
    let mut nearest = u32::MAX;
    for (j, at) in surplus.iter().enumerate() {
        let cost = ways.cost(number(j));
        if *at < 0 && cost < best {
            best = cost;
            nearest = number(j);
        }
    }
    nearest
}

/// How much goes from one junction to another.
fn amount_between(surplus: &[i64], from: u32, to: u32) -> i64 {
    match (surplus.get(from as usize), surplus.get(to as usize)) {
        (Some(more), Some(less)) => (*more).min(less.saturating_neg()),
        _ => 0,
    }
}

/// Counts a walk to a junction a number of times.
fn send(ways: &Ways, to: u32, amount: i64, counts: &mut [u32]) -> Result<(), AllocError> {
    if let Some(steps) = ways.steps(to)? {
        for _ in 0..amount {
            add_steps(counts, steps.as_slice());
        }
    }
    Ok(())
}

/// A circuit with the counts. Where they are in pieces, walks there and back join them.
fn joined_circuit(
    alloc: Global,
    graph: &Graph,
    pieces: u32,
    counts: &mut [u32],
) -> Result<List<Step>, AllocError> {
    for _ in 0..pieces {
        match pieces_of(alloc, graph, counts) {
            Ok(steps) => return Ok(steps),
            Err(Some((first, other))) => join_pieces(alloc, graph, first, other, counts)?,
            Err(None) => return Ok(List::new(alloc)),
        }
    }
    Ok(List::new(alloc))
}

/// A circuit with the counts, or an arc of each of two pieces.
fn pieces_of(
    alloc: Global,
    graph: &Graph,
    counts: &[u32],
) -> Result<List<Step>, Option<(u32, u32)>> {
    if !are_counts(graph.town(), counts) {
        return Err(None);
    }
    match circuit(alloc, graph, counts) {
        Ok(steps) => Ok(steps),
        Err(CircuitFault::Apart { first, other }) => Err(Some((first, other))),
        Err(_) => Err(None),
    }
}

/// Counts walks between two arcs, there and back.
fn join_pieces(
    alloc: Global,
    graph: &Graph,
    first: u32,
    other: u32,
    counts: &mut [u32],
) -> Result<(), AllocError> {
    let town = graph.town();
    let (here, there) = (tail(town, first), tail(town, other));
    add_walk(alloc, graph, here, there, counts)?;
    add_walk(alloc, graph, there, here, counts)
}

/// Counts a shortest walk.
fn add_walk(
    alloc: Global,
    graph: &Graph,
    from: u32,
    to: u32,
    counts: &mut [u32],
) -> Result<(), AllocError> {
    if let Some(ways) = Ways::from(alloc, graph, from)? {
        if let Some(steps) = ways.steps(to)? {
            add_steps(counts, steps.as_slice());
        }
    }
    Ok(())
}

/// Whether these are counts of which a circuit may be asked.
fn are_counts(town: &Town, counts: &[u32]) -> bool
    ensures counts { IsTrue result → AreCounts town.now counts.now }
    ensures sum { IsTrue result → sum counts.now ≤ 2 ^ 25 }
{
    counts.len() == 2 * town.streets.len() && are_on_legal_arcs(town, counts) && are_few(counts)
}

/// Whether the sum of the counts is small enough.
fn are_few(counts: &[u32]) -> bool
    ensures { IsTrue result → sum counts.now ≤ 2 ^ 25 }
{
    let mut total = 0;
    for count in counts {
        total += u64::from(*count);
        if total > MOST_TRAVERSALS {
            return false;
        }
    }
    true
}

/// Whether no illegal arc has a count.
fn are_on_legal_arcs(town: &Town, counts: &[u32]) -> bool
    requires { length counts.now ≡ 2 * length town.now.streets }
    ensures { IsTrue result
        → (arc : ℕ) → is_legal town.now arc ≡ false → slice_index counts.now arc ≡ 0 }
{
    for (arc, count) in counts.iter().enumerate() {
        if *count > 0 && town.cost(arc as u32).is_none() {
            return false;
        }
    }
    true
}
