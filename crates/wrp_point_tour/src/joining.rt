//! The pieces of balanced counts are joined by cheapest walks there and back, and those that hold no
//! demand are left out.
ghost use Rattle.std.specs.Prelude.{◌≡◌, ◌*◌, ◌<◌, length, IfOk, IfSome};

use crate::balancing::add_steps;
use crate::near::are_counts;
use crate::reach::reached;
use std::alloc::{AllocError, Global};
use wrp_euler::{CircuitFault, circuit};
use wrp_graph::Graph;
use wrp_paths::{Paths, shortest};
use wrp_town::Town;

/// An arc of each of two pieces.
#[derive(Clone, Copy)]
struct Pair {
    first: u32,
    other: u32,
}

/// Joins the pieces of counts.
pub(crate) fn join_pieces(
    alloc: Global,
    graph: &Graph,
    counts: &mut [u32],
) -> Result<(), AllocError>
    requires { length counts.old ≡ 2 * length graph.now.streets }
{
    for _ in 0..counts.len() {
        match two_pieces(alloc, graph, counts)? {
            Some(pair) => join(alloc, graph, pair, counts)?,
            None => return Ok(()),
        }
    }
    Ok(())
}

/// An arc of each of two pieces into which balanced counts fall.
fn two_pieces(alloc: Global, graph: &Graph, counts: &[u32]) -> Result<Option<Pair>, AllocError>
    requires { length counts.now ≡ 2 * length graph.now.streets }
    ensures { IfOk result (λ found. IfSome found
        (λ pair. (pair.first < length counts.now) × (pair.other < length counts.now))) }
{
    if !are_counts(graph.town(), counts) {
        return Ok(None);
    }
    match circuit(alloc, graph, counts) {
        Err(CircuitFault::Apart { first, other }) => Ok(Some(Pair { first, other })),
        Err(CircuitFault::Memory) => Err(AllocError),
        _ => Ok(None),
    }
}

/// Leaves out the piece of one of the two arcs, where it holds no demand. Else joins the second
/// piece to another.
fn join(alloc: Global, graph: &Graph, pair: Pair, counts: &mut [u32]) -> Result<(), AllocError>
    requires long { length counts.old ≡ 2 * length graph.now.streets }
    requires first { pair.first < length counts.old }
    requires other { pair.other < length counts.old }
{
    let town = graph.town();
    let marks = reached(alloc, graph, counts, town.tail(pair.first))?;
    if is_idle(town, counts, &marks) {
        leave_out(town, &marks, counts);
        return Ok(());
    }
    let marks = reached(alloc, graph, counts, town.tail(pair.other))?;
    if is_idle(town, counts, &marks) {
        leave_out(town, &marks, counts);
        return Ok(());
    }
    join_piece(alloc, graph, town.tail(pair.other), &marks, counts)
}

/// Whether no arc that is used in a piece is of a required street.
fn is_idle(town: &Town, counts: &[u32], marks: &[bool]) -> bool
    requires counts { length counts.now ≡ 2 * length town.now.streets }
    requires marks { length marks.now ≡ length town.now.junctions }
{
    for (arc, count) in counts.iter().enumerate() {
        let is_required = town.streets.as_slice()[arc / 2].need.demand_count() > 0;
        if *count > 0 && is_required && marks[town.tail(arc as u32) as usize] {
            return false;
        }
    }
    true
}

/// Uses no arc of a piece.
fn leave_out(town: &Town, marks: &[bool], counts: &mut [u32])
    requires counts { length counts.old ≡ 2 * length town.now.streets }
    requires marks { length marks.now ≡ length town.now.junctions }
{
    for arc in 0..counts.len() {
        if marks[town.tail(arc as u32) as usize] {
            counts[arc] = 0;
        }
    }
}

/// Counts cheapest walks from a junction of a piece to the nearest one of another, and back.
fn join_piece(
    alloc: Global,
    graph: &Graph,
    from: u32,
    marks: &[bool],
    counts: &mut [u32],
) -> Result<(), AllocError>
    requires counts { length counts.old ≡ 2 * length graph.now.streets }
    requires marks { length marks.now ≡ length graph.now.junctions }
    requires from { from < length graph.now.junctions }
{
    let there = shortest(alloc, graph, from)?;
    if let Some(to) = nearest_outside(graph.town(), &there, marks, counts) {
        if let Some(steps) = there.path(to)? {
            add_steps(counts, steps.as_slice(), 1);
        }
        if let Some(steps) = shortest(alloc, graph, to)?.path(from)? {
            add_steps(counts, steps.as_slice(), 1);
        }
    }
    Ok(())
}

/// The nearest junction outside a piece at which an arc begins that is used.
fn nearest_outside(town: &Town, paths: &Paths, marks: &[bool], counts: &[u32]) -> Option<u32>
    requires counts { length counts.now ≡ 2 * length town.now.streets }
    requires marks { length marks.now ≡ length town.now.junctions }
    requires paths { length paths.now ≡ length town.now.junctions }
    ensures { IfSome result (λ j. j < length town.now.junctions) }
{
    let mut nearest = None;
    let mut least = u64::MAX;
    for (arc, count) in counts.iter().enumerate() {
        let tail = town.tail(arc as u32);
        if let Some(dist) = paths.dist(tail) {
            if *count > 0 && !marks[tail as usize] && dist < least {
                least = dist;
                nearest = Some(tail);
            }
        }
    }
    nearest
}
