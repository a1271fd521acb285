//! Counts of uses are balanced by cheapest walks from the junctions that are entered too often to
//! those that are left too often.
ghost use Rattle.std.specs.Prelude.{◌≡◌, ◌*◌, ◌^◌, ◌<◌, length, IfOk, IfSome};

use std::alloc::{AllocError, Global};
use wrp_graph::Graph;
use wrp_paths::{Paths, shortest};
use wrp_town::{Step, Town};

/// Balances counts.
pub(crate) fn balance(alloc: Global, graph: &Graph, counts: &mut [u32]) -> Result<(), AllocError>
    requires { length counts.old ≡ 2 * length graph.now.streets }
{
    let mut surplus = surpluses(alloc, graph.town(), counts)?;
    for j in 0..graph.town().junctions.len() as u32 {
        if surplus[j as usize] > 0 {
            drain(alloc, graph, j, &mut surplus, counts)?;
        }
    }
    Ok(())
}

/// How much oftener each junction is entered than left.
fn surpluses(alloc: Global, town: &Town, counts: &[u32]) -> Result<Vec<i64>, AllocError>
    requires { length counts.now ≡ 2 * length town.now.streets }
    ensures { IfOk result (λ surplus. length surplus.items ≡ length town.now.junctions) }
{
    let mut surplus = vec![in alloc; 0i64; town.junctions.len()]?;
    for (arc, count) in counts.iter().enumerate() {
        let (head, tail) = (
            town.head(arc as u32) as usize,
            town.tail(arc as u32) as usize,
        );
        surplus[head] = surplus[head].saturating_add(i64::from(*count));
        surplus[tail] = surplus[tail].saturating_sub(i64::from(*count));
    }
    Ok(surplus)
}

/// Sends what a junction is entered too often to the nearest junctions that are left too often.
fn drain(
    alloc: Global,
    graph: &Graph,
    from: u32,
    surplus: &mut [i64],
    counts: &mut [u32],
) -> Result<(), AllocError>
    requires from { from < length surplus.old }
    requires surplus { length surplus.old ≡ length graph.now.junctions }
{
    let paths = shortest(alloc, graph, from)?;
    for _ in 0..surplus.len() {
        let to = match nearest_wanting(&paths, surplus) {
            Some(to) if surplus[from as usize] > 0 => to,
            _ => return Ok(()),
        };
        let amount = surplus[from as usize].min(surplus[to as usize].saturating_neg());
        send(&paths, to, amount, counts)?;
        surplus[from as usize] = surplus[from as usize].saturating_sub(amount);
        surplus[to as usize] = surplus[to as usize].saturating_add(amount);
    }
    Ok(())
}

/// The nearest junction that is left too often.
fn nearest_wanting(paths: &Paths, surplus: &[i64]) -> Option<u32>
    requires long { length surplus.now ≡ length paths.now }
    requires few { length surplus.now < 2 ^ 32 }
    ensures { IfSome result (λ j. j < length surplus.now) }
{
    let mut nearest = None;
    let mut least = u64::MAX;
    for (j, at) in surplus.iter().enumerate() {
        if let Some(dist) = paths.dist(j as u32) {
            if *at < 0 && dist < least {
                least = dist;
                nearest = Some(j as u32);
            }
        }
    }
    nearest
}

/// Counts a walk a number of times.
fn send(paths: &Paths, to: u32, amount: i64, counts: &mut [u32]) -> Result<(), AllocError>
    requires { to < length paths.now }
{
    if let Some(steps) = paths.path(to)? {
        add_steps(counts, steps.as_slice(), u32::try_from(amount).unwrap_or(0));
    }
    Ok(())
}

/// Counts the arcs of steps a number of times.
pub(crate) fn add_steps(counts: &mut [u32], steps: &[Step], times: u32) {
    for step in steps {
        let arc = step.street as usize * 2 + usize::from(step.back);
        if let Some(count) = counts.get_mut(arc) {
            *count = count.saturating_add(times);
        }
    }
}
