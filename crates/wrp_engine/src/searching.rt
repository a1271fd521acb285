//! The search for the cheapest tour.
ghost use Rattle.std.specs.Prelude.{◌≡◌, ◌≤◌, ◌+◌, ◌*◌, true, None, [], IsSome, IfOk, OnOk};
ghost use Rattle.wrp_rules.specs.Nodes.{standing};
ghost use Rattle.wrp_rules.specs.Lists.{is_valid};
ghost use Rattle.wrp_parts.specs.RequiredParts.{AreParts};
ghost use Rattle.wrp_keep.specs.Keeps.{staged};
ghost use Rattle.wrp_tour.specs.Tours.{HasTour};
ghost use Rattle.wrp_engine.specs.Searches.{search_of, IsGoing, Leaves, now};
ghost use Rattle.wrp_engine.specs.Desks.{IsDesk};
ghost use Rattle.wrp_engine.specs.Additions.{Adds};
ghost use Rattle.wrp_engine.specs.Forced.{AddsForced, above_done, EndsOptimal};
ghost use Rattle.wrp_engine.specs.Found.{IsFound, HasWorked, FindsSince};

use crate::desk::Desk;
use crate::fault::SearchFault;
use crate::found::Found;
use crate::tours::begin;
use crate::turn::turn;
use std::alloc::Global;
use wrp_disk::Disk;
use wrp_graph::Graph;
use wrp_keep::Keep;
use wrp_parts::{Parts, required_parts};
use wrp_tree::Tree;

/// Searches for the cheapest tour of a town that has one, until it is found and proved, or so many
/// nodes more are done. The list of the keep goes on, and what was staged is acknowledged. A budget
/// of `2 * (m + 1)^a`, for m demands and a legal arcs, is never spent.
///
/// # Errors
///
/// What the log or its disk refuses, or want of memory. The records that were added stand.
pub fn search<D: Disk>(
    alloc: Global,
    graph: &Graph<'_>,
    keep: &mut Keep<'_>,
    disk: &mut D,
    budget: u64,
) -> Result<Found, SearchFault>
    requires going { IsGoing (search_of keep.old (D.meaning disk.old)) }
    requires graph { graph.now ≡ keep.old.town }
    requires tour { HasTour keep.old.town }
    requires none_staged { staged keep.old ≡ [] }
    ensures leaves { Leaves (search_of keep.old (D.meaning disk.old))
        (search_of keep.new (D.meaning disk.new)) result }
    ensures untouched { keep.old.log ≡ None → disk.new ≡ disk.old }
    ensures forced { AddsForced budget keep.old keep.new }
    ensures found { IfOk result (IsFound budget keep.old keep.new) }
    ensures ends { above_done keep.old.town ≤ budget → IfOk result EndsOptimal }
    ensures settled { OnOk result (staged keep.new ≡ []) }
{
    let before = keep.tree().done();
    let parts = required_parts(alloc, graph)?;
    work(alloc, graph, &parts, keep, disk, budget)?;
    Ok(found(keep.tree(), before))
}

/// A first tour where none stands, and turns.
fn work<D: Disk>(
    alloc: Global,
    graph: &Graph<'_>,
    parts: &Parts,
    keep: &mut Keep<'_>,
    disk: &mut D,
    budget: u64,
) -> Result<(), SearchFault>
    requires going { IsGoing (search_of keep.old (D.meaning disk.old)) }
    requires graph { graph.now ≡ keep.old.town }
    requires parts { AreParts graph.now parts.now.count parts.now.of }
    requires tour { HasTour keep.old.town }
    requires none_staged { staged keep.old ≡ [] }
    ensures leaves { Leaves (search_of keep.old (D.meaning disk.old))
        (search_of keep.new (D.meaning disk.new)) result }
    ensures untouched { keep.old.log ≡ None → disk.new ≡ disk.old }
    ensures adds { Adds (4 * budget + 1) (2 * budget + 1) keep.old keep.new }
    ensures upper { OnOk result (IsSome (now keep.new).upper) }
    ensures worked { OnOk result (HasWorked budget keep.old keep.new) }
    ensures settled { OnOk result (staged keep.new ≡ []) }
{
    let mut desk = Desk::new(alloc, graph, parts)?;
    begin(alloc, graph, parts, keep, disk)?;
    turns(alloc, &mut desk, keep, disk, budget)
}

/// So many turns, or those until no node is open.
fn turns<D: Disk>(
    alloc: Global,
    desk: &mut Desk<'_, '_>,
    keep: &mut Keep<'_>,
    disk: &mut D,
    budget: u64,
) -> Result<(), SearchFault>
    requires going { IsGoing (search_of keep.old (D.meaning disk.old)) }
    requires tour { HasTour keep.old.town }
    requires desk { IsDesk keep.old.town desk.old }
    requires none_staged { staged keep.old ≡ [] }
    ensures leaves { Leaves (search_of keep.old (D.meaning disk.old))
        (search_of keep.new (D.meaning disk.new)) result }
    ensures untouched { keep.old.log ≡ None → disk.new ≡ disk.old }
    ensures adds { Adds (4 * budget) (2 * budget) keep.old keep.new }
    ensures worked { OnOk result (HasWorked budget keep.old keep.new) }
    ensures settled { OnOk result (staged keep.new ≡ []) }
{
    for _ in 0..budget {
        let Some(node) = keep.tree().open_node() else {
            return Ok(());
        };
        turn(alloc, desk, keep, disk, node)?;
    }
    Ok(())
}

/// What a list says in which a tour stands, after work that began with so many nodes done.
fn found(tree: &Tree<'_>, before: u64) -> Found
    requires valid { is_valid tree.now.town tree.now.records ≡ true }
    requires upper { IsSome (standing tree.now.town tree.now.records).upper }
    ensures { FindsSince before tree.now.town tree.now.records result }
{
    let high = tree.upper().unwrap_or(0);
    match tree.open_node() {
        None => Found::Optimal { cost: high },
        Some(_) => Found::Unfinished {
            low: tree.lower().unwrap_or(0).unsigned_abs() as u64,
            high,
            before,
            after: tree.done(),
        },
    }
}
