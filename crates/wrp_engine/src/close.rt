//! An open node whose box holds one point is closed.
ghost use Rattle.std.specs.Prelude.{◌≡◌, ◌<◌, ◌^◌, None, [], OnOk};
ghost use Rattle.wrp_rules.specs.declared.record.Record.TheVariants.{Bound};
ghost use Rattle.wrp_tour.specs.Tours.{HasTour};
ghost use Rattle.wrp_box.specs.Branching.{HoldOne};
ghost use Rattle.wrp_engine.specs.Searches.{search_of, IsGoing, Leaves, IsOpenAt, IsDoneAt};
ghost use Rattle.wrp_engine.specs.Desks.{IsDesk, IsDeskOf};
ghost use Rattle.wrp_engine.specs.Additions.{Adds};
ghost use Rattle.wrp_engine.specs.Closing.{IsOnlyPoint, EmptiesNode, IsEnding, IsConn, apart_of};

use crate::desk::Desk;
use crate::fault::SearchFault;
use crate::offer::{add, offer};
use crate::tours::offer_tour;
use std::alloc::Global;
use wrp_box::{Single, only_point};
use wrp_conn::violated;
use wrp_disk::Disk;
use wrp_keep::Keep;
use wrp_point_tour::tour_of_point;
use wrp_rows::Point;
use wrp_rules::Record;
use wrp_town::{List, Step};

/// Closes an open node whose box holds one point: that breaks a row, or its arcs leave some
/// required street alone, or it holds a tour.
pub(crate) fn close<D: Disk>(
    alloc: Global,
    desk: &mut Desk<'_, '_>,
    keep: &mut Keep<'_>,
    disk: &mut D,
    node: u64,
) -> Result<(), SearchFault>
    requires going { IsGoing (search_of keep.old (D.meaning disk.old)) }
    requires tour { HasTour keep.old.town }
    requires desk { IsDeskOf keep.old.town keep.old.records node desk.old }
    requires opened { IsOpenAt keep.old node }
    requires small { node < 2 ^ 63 }
    requires one { HoldOne keep.old.town desk.old.bounds }
    ensures leaves { Leaves (search_of keep.old (D.meaning disk.old))
        (search_of keep.new (D.meaning disk.new)) result }
    ensures untouched { keep.old.log ≡ None → disk.new ≡ disk.old }
    ensures adds { Adds 2 1 keep.old keep.new }
    ensures done { OnOk result (IsDoneAt keep.new node) }
    ensures desk { IsDesk keep.old.town desk.new }
{
    let single = only_point(
        alloc,
        keep.tree().rows(),
        &desk.bounds,
        desk.scratch.as_mut_slice(),
    )?;
    match single {
        Single::Broken { row } => close_empty(alloc, keep, disk, node, row),
        Single::Met { point } => close_met(alloc, desk, keep, disk, node, &point),
    }
}

/// The same where the point breaks a row.
fn close_empty<D: Disk>(
    alloc: Global,
    keep: &mut Keep<'_>,
    disk: &mut D,
    node: u64,
    row: u32,
) -> Result<(), SearchFault>
    requires going { IsGoing (search_of keep.old (D.meaning disk.old)) }
    requires tour { HasTour keep.old.town }
    requires opened { IsOpenAt keep.old node }
    requires small { node < 2 ^ 63 }
    requires empties { EmptiesNode keep.old node row }
    ensures leaves { Leaves (search_of keep.old (D.meaning disk.old))
        (search_of keep.new (D.meaning disk.new)) result }
    ensures untouched { keep.old.log ≡ None → disk.new ≡ disk.old }
    ensures adds { Adds 1 0 keep.old keep.new }
    ensures done { OnOk result (IsDoneAt keep.new node) }
{
    let mult = List::from_vec(vec![in alloc; (row, 1); 1]?);
    add(keep, disk, Record::Empty { node, mult })
}

/// The same where the point meets all rows.
fn close_met<D: Disk>(
    alloc: Global,
    desk: &Desk<'_, '_>,
    keep: &mut Keep<'_>,
    disk: &mut D,
    node: u64,
    point: &Point,
) -> Result<(), SearchFault>
    requires going { IsGoing (search_of keep.old (D.meaning disk.old)) }
    requires tour { HasTour keep.old.town }
    requires desk { IsDesk keep.old.town desk.now }
    requires opened { IsOpenAt keep.old node }
    requires small { node < 2 ^ 63 }
    requires point { IsOnlyPoint keep.old node point.now }
    ensures leaves { Leaves (search_of keep.old (D.meaning disk.old))
        (search_of keep.new (D.meaning disk.new)) result }
    ensures untouched { keep.old.log ≡ None → disk.new ≡ disk.old }
    ensures adds { Adds 2 1 keep.old keep.new }
    ensures done { OnOk result (IsDoneAt keep.new node) }
{
    match violated(alloc, desk.parts, keep.tree().rows(), point)? {
        Some(cut) => add(keep, disk, apart_of(node, cut)),
        None => {
            let steps = tour_of_point(alloc, desk.graph, desk.parts, point)?;
            close_by_tour(alloc, keep, disk, node, steps)
        }
    }
}

/// The same where a tour costs no more than the point.
fn close_by_tour<D: Disk>(
    alloc: Global,
    keep: &mut Keep<'_>,
    disk: &mut D,
    node: u64,
    steps: List<Step>,
) -> Result<(), SearchFault>
    requires going { IsGoing (search_of keep.old (D.meaning disk.old)) }
    requires tour { HasTour keep.old.town }
    requires opened { IsOpenAt keep.old node }
    requires small { node < 2 ^ 63 }
    requires ends { IsEnding keep.old node steps }
    ensures leaves { Leaves (search_of keep.old (D.meaning disk.old))
        (search_of keep.new (D.meaning disk.new)) result }
    ensures untouched { keep.old.log ≡ None → disk.new ≡ disk.old }
    ensures adds { Adds 2 1 keep.old keep.new }
    ensures done { OnOk result (IsDoneAt keep.new node) }
{
    offer_tour(keep, disk, steps)?;
    offer(keep, disk, bare_bound(alloc, node))?;
    Ok(())
}

/// The bound of no multipliers.
fn bare_bound(alloc: Global, node: u64) -> Record
    ensures { result ≡ Bound node 1 [] }
{
    Record::Bound {
        node,
        den: 1,
        mult: List::new(alloc),
    }
}

/// What a connectivity cut says of a node in which no arc leaves its set.
fn apart_of(node: u64, cut: Record) -> Record
    requires { IsConn cut }
    ensures { result ≡ apart_of node cut }
{
    match cut {
        Record::Conn { r1, r2, set } => Record::Apart { node, r1, r2, set },
        _ => unreachable!(),
    }
}
