//! What a round tells of its node.
ghost use Rattle.std.specs.Prelude.{◌≡◌, None, IfOk, IfSome, OnOk};
ghost use Rattle.std.specs.Option.{option_map};
ghost use Rattle.wrp_rows.specs.Points.{IsPoint};
ghost use Rattle.wrp_tour.specs.Tours.{HasTour, IsLeanTour};
ghost use Rattle.wrp_point_tour.specs.PointTours.{IsTourPoint, CostsAtMost};
ghost use Rattle.wrp_box.specs.Records.{IsShownRecord};
ghost use Rattle.wrp_box.specs.Relaxing.{IsPointIn};
ghost use Rattle.wrp_engine.specs.Searches.{search_of, IsGoing, Leaves, IsOpenAt, now, at_node};
ghost use Rattle.wrp_engine.specs.Desks.{IsDesk};
ghost use Rattle.wrp_engine.specs.Offers.{AddsTourAtMost};
ghost use Rattle.wrp_engine.specs.Additions.{AddsCuts};
ghost use Rattle.wrp_engine.specs.Turns.{HasTourNear};
ghost use Rattle.wrp_engine.specs.Sights.{KeepsBox, IsShownOf, IsTold};

use crate::desk::Desk;
use crate::fault::SearchFault;
use crate::offer::tell;
use crate::tours::offer_tour;
use std::alloc::{AllocError, Global};
use wrp_disk::Disk;
use wrp_keep::Keep;
use wrp_point_tour::tour_of_point;
use wrp_rows::Point;
use wrp_rules::Record;
use wrp_tour::improve;
use wrp_town::{List, Step};

/// Offers what a relaxation shows of an open node, and a tour near its point.
pub(crate) fn show<D: Disk>(
    alloc: Global,
    desk: &Desk<'_, '_>,
    keep: &mut Keep<'_>,
    disk: &mut D,
    node: u64,
    shown: Option<Record>,
    point: Option<&Point>,
) -> Result<(), SearchFault>
    requires going { IsGoing (search_of keep.old (D.meaning disk.old)) }
    requires tour { HasTour keep.old.town }
    requires desk { IsDesk keep.old.town desk.now }
    requires opened { IsOpenAt keep.old node }
    requires written { IfSome shown (IsShownRecord node) }
    requires told { IsShownOf keep.old.town (now keep.old) node (option_map (λ p. p.now) point) shown }
    requires within { IfSome point (λ p.
        IsPointIn keep.old.town (now keep.old) (at_node keep.old node) p.now) }
    ensures leaves { Leaves (search_of keep.old (D.meaning disk.old))
        (search_of keep.new (D.meaning disk.new)) result }
    ensures untouched { keep.old.log ≡ None → disk.new ≡ disk.old }
    ensures adds { AddsCuts 0 2 1 keep.old keep.new }
    ensures stays { KeepsBox keep.old.town node (now keep.old) (now keep.new) }
    ensures told { OnOk result (IsOpenAt keep.new node
        → IsTold keep.new node (option_map (λ p. p.now) point.entry)) }
{
    tell(keep, disk, shown)?;
    match point {
        Some(point) => offer_near(alloc, desk, keep, disk, point),
        None => Ok(()),
    }
}

/// Offers a tour near a point.
fn offer_near<D: Disk>(
    alloc: Global,
    desk: &Desk<'_, '_>,
    keep: &mut Keep<'_>,
    disk: &mut D,
    point: &Point,
) -> Result<(), SearchFault>
    requires going { IsGoing (search_of keep.old (D.meaning disk.old)) }
    requires tour { HasTour keep.old.town }
    requires desk { IsDesk keep.old.town desk.now }
    requires point { IsPoint keep.old.town point.now }
    ensures leaves { Leaves (search_of keep.old (D.meaning disk.old))
        (search_of keep.new (D.meaning disk.new)) result }
    ensures untouched { keep.old.log ≡ None → disk.new ≡ disk.old }
    ensures adds { AddsTourAtMost keep.old keep.new }
    ensures near { OnOk result (HasTourNear keep.new point.now) }
{
    let steps = tour_near(alloc, desk, point)?;
    offer_tour(keep, disk, steps)
}

/// A tour near a point: no dearer than the point, where its numbers are those of a tour.
fn tour_near(alloc: Global, desk: &Desk<'_, '_>, point: &Point) -> Result<List<Step>, AllocError>
    requires tour { HasTour desk.now.graph.now }
    requires point { IsPoint desk.now.graph.now point.now }
    ensures lean { IfOk result (IsLeanTour desk.now.graph.now) }
    ensures near { IfOk result (λ steps. IsTourPoint desk.now.graph.now point.now
        → CostsAtMost desk.now.graph.now point.now steps) }
{
    let found = tour_of_point(alloc, desk.graph, desk.parts, point)?;
    improve(alloc, desk.graph, found.as_slice())
}
