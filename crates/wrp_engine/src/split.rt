//! An open node is split.
ghost use Rattle.std.specs.Prelude.{◌≡◌, ◌<◌, ◌^◌, ◌%◌, ◌==◌, not, true, None, pos, ◌≤ℤ◌, length, IfOk, IfSome, OnOk};
ghost use Rattle.wrp_town.specs.declared.town.Town.{Town};
ghost use Rattle.wrp_town.specs.Arcs.{is_legal};
ghost use Rattle.wrp_rules.specs.Rules.{parts_range};
ghost use Rattle.wrp_rows.specs.Points.{most_denominator};
ghost use Rattle.wrp_odd.specs.Points.{denominator_of, numbers_of};
ghost use Rattle.wrp_tour.specs.Tours.{HasTour};
ghost use Rattle.wrp_engine.specs.Searches.{search_of, IsGoing, Leaves, IsOpenAt, IsDoneAt, at_node};
ghost use Rattle.wrp_engine.specs.Additions.{Adds, AddsWhere};
ghost use Rattle.wrp_engine.specs.Splits.{MaySplit, IsRoundedLeave, LeadsBy, IsSplitPoint, HasLeave};

use crate::fault::SearchFault;
use crate::left::Left;
use crate::offer::{add, tell};
use std::alloc::{AllocError, Global};
use wrp_box::{Branch, point_record};
use wrp_disk::Disk;
use wrp_keep::Keep;
use wrp_odd::denominator;
use wrp_rows::Point;
use wrp_rules::Record;

/// Splits an open node: behind a Point of it, where one is given and may stand, else blindly.
pub(crate) fn split<D: Disk>(
    keep: &mut Keep<'_>,
    disk: &mut D,
    node: u64,
    branch: Branch,
    leave: Option<Record>,
) -> Result<(), SearchFault>
    requires going { IsGoing (search_of keep.old (D.meaning disk.old)) }
    requires tour { HasTour keep.old.town }
    requires opened { IsOpenAt keep.old node }
    requires small { node < 2 ^ 63 }
    requires legal { is_legal keep.old.town branch.arc ≡ true }
    requires parts { parts_range (at_node keep.old node) branch.arc branch.k ≡ true }
    requires leave { MaySplit keep.old node branch leave }
    ensures leaves { Leaves (search_of keep.old (D.meaning disk.old))
        (search_of keep.new (D.meaning disk.new)) result }
    ensures untouched { keep.old.log ≡ None → disk.new ≡ disk.old }
    ensures adds { AddsWhere (IsRoundedLeave keep.old node leave) 2 0 keep.old keep.new }
    ensures done { OnOk result (IsDoneAt keep.new node) }
{
    give_leave(keep, disk, node, branch, leave)?;
    let Branch { arc, k } = branch;
    add(keep, disk, Record::Split { node, arc, k })
}

/// Adds leave to split an open node: a Point of it, where one is given and may stand, else a Blind.
fn give_leave<D: Disk>(
    keep: &mut Keep<'_>,
    disk: &mut D,
    node: u64,
    branch: Branch,
    leave: Option<Record>,
) -> Result<(), SearchFault>
    requires going { IsGoing (search_of keep.old (D.meaning disk.old)) }
    requires tour { HasTour keep.old.town }
    requires opened { IsOpenAt keep.old node }
    requires small { node < 2 ^ 63 }
    requires leave { MaySplit keep.old node branch leave }
    ensures leaves { Leaves (search_of keep.old (D.meaning disk.old))
        (search_of keep.new (D.meaning disk.new)) result }
    ensures untouched { keep.old.log ≡ None → disk.new ≡ disk.old }
    ensures adds { Adds 1 0 keep.old keep.new }
    ensures leads { OnOk result (LeadsBy node leave keep.old keep.new) }
{
    if tell(keep, disk, leave)? {
        return Ok(());
    }
    add(keep, disk, Record::Blind { node })
}

/// The Point that is to stand before a split: the one that the last round left, where no cut cuts
/// it off and the branch parts it.
pub(crate) fn leave_of(
    alloc: Global,
    node: u64,
    branch: Branch,
    left: &Left,
) -> Result<Option<Record>, AllocError>
    requires small { node < 2 ^ 63 }
    requires point { IfSome left.now.point (λ p. (town : Town) × IsSplitPoint town branch p) }
    ensures { IfOk result (HasLeave node branch left.now) }
{
    let Some(point) = &left.point else {
        return Ok(None);
    };
    if left.full || !is_part(point, branch.arc) {
        return Ok(None);
    }
    Ok(Some(point_record(alloc, node, point)?))
}

/// Whether the number of an arc isn't whole.
fn is_part(point: &Point, arc: u32) -> bool
    requires arc { arc < length point.now.at }
    requires positive { pos 1 ≤ℤ point.now.den }
    requires low { point.now.den ≤ℤ pos most_denominator }
    ensures { result ≡ not (numbers_of point.now arc % denominator_of point.now == 0) }
{
    point.at.as_slice()[arc as usize].unsigned_abs() % denominator(point) != 0
}
