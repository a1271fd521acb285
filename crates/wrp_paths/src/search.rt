//! The search for shortest walks: the junctions are settled in the order of their distances.
ghost use Rattle.std.specs.Prelude.{◌≡◌, ℕ, ◌*◌, ◌<◌, ◌≤◌, true, None, [], ◌∷◌, ◌++◌, length, replicate, All, IfOk, OnOk};
ghost use Rattle.std.specs.List.Sorted.{IsPermutation};
ghost use Rattle.std.specs.BinaryHeap.{IsHeap, KeepsHeap, heap_items};
ghost use Rattle.wrp_town.specs.Arcs.{is_legal};
ghost use Rattle.wrp_paths.specs.Arrivals.{entry_at};
ghost use Rattle.wrp_paths.specs.Distances.{AreShortest};
ghost use Rattle.wrp_paths.specs.Search.{IsSearch, dearer_first, onward, work_left};

use crate::arrival::{Arrival, entry};
use crate::paths::Paths;
use std::alloc::{AllocError, Global};
use std::cmp::Reverse;
use std::collections::BinaryHeap;
use wrp_graph::Graph;
use wrp_town::Town;

/// Walks that wait to be settled. One of the least cost comes first.
type Queue = BinaryHeap<Reverse<Arrival>>;

/// A shortest walk from a junction to every junction to which one leads.
///
/// # Errors
///
/// Want of memory alone.
pub fn shortest(alloc: Global, graph: &Graph, from: u32) -> Result<Paths, AllocError>
    requires { from < length graph.now.junctions }
    ensures { IfOk result (λ paths. AreShortest graph.now from paths) }
{
    let mut table = unsettled(alloc, graph.town().junctions.len())?;
    let mut queue = BinaryHeap::new(alloc);
    queue.push(Reverse(Arrival::start(from)))?;
    settle_all(graph, &mut table, &mut queue)?;
    Ok(Paths::from_table(alloc, table))
}

/// A table in which no junction is settled.
fn unsettled(alloc: Global, count: usize) -> Result<Vec<Option<Arrival>>, AllocError>
    ensures { IfOk result (λ table. table.items ≡ replicate count None) }
{
    vec![in alloc; None; count]
}

/// Settles every junction to which a walk leads.
fn settle_all(
    graph: &Graph,
    table: &mut [Option<Arrival>],
    queue: &mut Queue,
) -> Result<(), AllocError>
    ghost from: { ℕ }
    requires search { IsSearch graph.now from table.old (heap_items queue.old) }
    requires order { IsHeap dearer_first (heap_items queue.old) }
    ensures { OnOk result (IsSearch graph.now from table.new []) }
{
    while let Some(Reverse(walk)) = queue.pop() {
        if entry(table, walk.junction).is_none() {
            settle(graph, table, queue, walk)?;
        }
    }
    Ok(())
}

/// Settles a junction by the walk that came first out of the queue.
fn settle(
    graph: &Graph,
    table: &mut [Option<Arrival>],
    queue: &mut Queue,
    walk: Arrival,
) -> Result<(), AllocError>
    ghost from: { ℕ }
    requires search { IsSearch graph.now from table.old
        (record { 0 = walk } ∷ heap_items queue.old) }
    requires least { All (λ q. walk.cost ≤ q.0.cost) (heap_items queue.old) }
    requires fresh { entry_at table.old walk.junction ≡ None }
    ensures search { OnOk result (IsSearch graph.now from table.new (heap_items queue.new)) }
    ensures order { OnOk result
        (KeepsHeap dearer_first (heap_items queue.old) (heap_items queue.new)) }
    ensures work { OnOk result (work_left graph.now table.new (heap_items queue.new)
        < work_left graph.now table.old (record { 0 = walk } ∷ heap_items queue.old)) }
{
    table[walk.junction as usize] = Some(walk);
    go_on(
        graph.town(),
        table,
        walk,
        graph.out_of(walk.junction),
        queue,
    )
}

/// Puts the walks into the queue that go on from a walk, along one of the arcs, to a junction that
/// isn't settled.
fn go_on(
    town: &Town,
    table: &[Option<Arrival>],
    walk: Arrival,
    arcs: &[u32],
    queue: &mut Queue,
) -> Result<(), AllocError>
    requires legal { All (λ arc. is_legal town.now arc ≡ true) arcs.now }
    requires few { walk.hops < 2000 }
    requires cheap { walk.cost ≤ 1000000000 * walk.hops }
    ensures queued { OnOk result (IsPermutation
        (heap_items queue.old ++ onward town.now table.now walk arcs.now) (heap_items queue.new)) }
    ensures order { OnOk result
        (KeepsHeap dearer_first (heap_items queue.old) (heap_items queue.new)) }
{
    for arc in arcs {
        let next = walk.along(town, *arc);
        if entry(table, next.junction).is_none() {
            queue.push(Reverse(next))?;
        }
    }
    Ok(())
}
