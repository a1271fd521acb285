//! One turn of a search.
ghost use Rattle.std.specs.Prelude.{◌≡◌, ◌<◌, ◌^◌, None, [], OnOk};
ghost use Rattle.wrp_keep.specs.Keeps.{staged};
ghost use Rattle.wrp_tour.specs.Tours.{HasTour};
ghost use Rattle.wrp_engine.specs.Searches.{search_of, IsGoing, Leaves, IsOpenAt, IsDoneAt};
ghost use Rattle.wrp_engine.specs.Desks.{IsDesk, IsDeskOf};
ghost use Rattle.wrp_engine.specs.Additions.{Adds, AddsWhere};
ghost use Rattle.wrp_engine.specs.Turns.{IsLeft, IsRoundedLeft};

use crate::close::close;
use crate::desk::Desk;
use crate::fault::SearchFault;
use crate::left::Left;
use crate::offer::settle;
use crate::rounds::rounds;
use crate::split::{leave_of, split};
use std::alloc::Global;
use wrp_box::branch_of;
use wrp_disk::Disk;
use wrp_keep::Keep;

/// One turn at an open node, which is done afterwards; its records are acknowledged.
pub(crate) fn turn<D: Disk>(
    alloc: Global,
    desk: &mut Desk<'_, '_>,
    keep: &mut Keep<'_>,
    disk: &mut D,
    node: u64,
) -> Result<(), SearchFault>
    requires going { IsGoing (search_of keep.old (D.meaning disk.old)) }
    requires tour { HasTour keep.old.town }
    requires desk { IsDesk keep.old.town desk.old }
    requires opened { IsOpenAt keep.old node }
    ensures leaves { Leaves (search_of keep.old (D.meaning disk.old))
        (search_of keep.new (D.meaning disk.new)) result }
    ensures untouched { keep.old.log ≡ None → disk.new ≡ disk.old }
    ensures adds { Adds 4 2 keep.old keep.new }
    ensures desk { IsDesk keep.old.town desk.new }
    ensures done { OnOk result (IsDoneAt keep.new node) }
    ensures settled { OnOk result (staged keep.new ≡ []) }
{
    do_node(alloc, desk, keep, disk, node)?;
    settle(keep, disk)
}

/// Rounds, until one adds no cut, and then the node is closed or split.
fn do_node<D: Disk>(
    alloc: Global,
    desk: &mut Desk<'_, '_>,
    keep: &mut Keep<'_>,
    disk: &mut D,
    node: u64,
) -> Result<(), SearchFault>
    requires going { IsGoing (search_of keep.old (D.meaning disk.old)) }
    requires tour { HasTour keep.old.town }
    requires desk { IsDesk keep.old.town desk.old }
    requires opened { IsOpenAt keep.old node }
    ensures leaves { Leaves (search_of keep.old (D.meaning disk.old))
        (search_of keep.new (D.meaning disk.new)) result }
    ensures untouched { keep.old.log ≡ None → disk.new ≡ disk.old }
    ensures adds { Adds 4 2 keep.old keep.new }
    ensures desk { IsDesk keep.old.town desk.new }
    ensures done { OnOk result (IsDoneAt keep.new node) }
{
    // No memory holds so many nodes.
    if node >= 1 << 63 {
        return Err(SearchFault::Memory);
    }
    keep.tree().box_of(node, &mut desk.bounds);
    let left = rounds(alloc, desk, keep, disk, node)?;
    finish(alloc, desk, keep, disk, node, left)
}

/// Splits a node that is open still, or closes it where its box holds one point.
fn finish<D: Disk>(
    alloc: Global,
    desk: &mut Desk<'_, '_>,
    keep: &mut Keep<'_>,
    disk: &mut D,
    node: u64,
    left: Left,
) -> Result<(), SearchFault>
    requires going { IsGoing (search_of keep.old (D.meaning disk.old)) }
    requires tour { HasTour keep.old.town }
    requires desk { IsDeskOf keep.old.town keep.old.records node desk.old }
    requires small { node < 2 ^ 63 }
    requires left { IsOpenAt keep.old node → IsLeft keep.old node left }
    ensures leaves { Leaves (search_of keep.old (D.meaning disk.old))
        (search_of keep.new (D.meaning disk.new)) result }
    ensures untouched { keep.old.log ≡ None → disk.new ≡ disk.old }
    ensures adds { AddsWhere (IsRoundedLeft keep.old node left) 2 1 keep.old keep.new }
    ensures desk { IsDesk keep.old.town desk.new }
    ensures done { OnOk result (IsDoneAt keep.new node) }
{
    if !keep.tree().is_open(node) {
        return Ok(());
    }
    match branch_of(desk.graph.town(), &desk.bounds, left.point.as_ref()) {
        Some(branch) => {
            let leave = leave_of(alloc, node, branch, &left)?;
            split(keep, disk, node, branch, leave)
        }
        None => close(alloc, desk, keep, disk, node),
    }
}
