//! The cuts of a round join the list.
ghost use Rattle.std.specs.Prelude.{◌≡◌, ◌<◌, ◌≤◌, None, length, IfOk};
ghost use Rattle.wrp_tour.specs.Tours.{HasTour};
ghost use Rattle.wrp_progress.specs.Progress.{node_count};
ghost use Rattle.wrp_licence.specs.Causes.{most_round_cuts};
ghost use Rattle.wrp_engine.specs.Searches.{search_of, IsGoing, Leaves, IsOpenAt, now};
ghost use Rattle.wrp_engine.specs.Additions.{AddsOnlyCuts};
ghost use Rattle.wrp_engine.specs.Sights.{IsSeen, IsTold, AreCuts, EndsCutting, EndsOffering};

use crate::fault::SearchFault;
use crate::left::{Left, RoundEnd};
use crate::offer::offer;
use wrp_disk::Disk;
use wrp_keep::Keep;
use wrp_rows::Point;
use wrp_rules::Record;

/// Offers cuts where the node is open still.
pub(crate) fn cut<D: Disk>(
    keep: &mut Keep<'_>,
    disk: &mut D,
    node: u64,
    round: u32,
    cuts: Vec<Record>,
    point: Option<Point>,
) -> Result<RoundEnd, SearchFault>
    requires going { IsGoing (search_of keep.old (D.meaning disk.old)) }
    requires tour { HasTour keep.old.town }
    requires there { node < node_count keep.old.town keep.old.records }
    requires few { length cuts.items ≤ most_round_cuts }
    requires seen { IsSeen keep.old.town (now keep.old) node round point cuts.items }
    requires told { IsOpenAt keep.old node → IsTold keep.old node point }
    ensures leaves { Leaves (search_of keep.old (D.meaning disk.old))
        (search_of keep.new (D.meaning disk.new)) result }
    ensures untouched { keep.old.log ≡ None → disk.new ≡ disk.old }
    ensures adds { AddsOnlyCuts 0 keep.old keep.new }
    ensures ends { IfOk result (EndsCutting keep.old keep.new node round) }
{
    let full = !cuts.is_empty();
    if keep.tree().is_open(node) && offer_all(keep, disk, cuts)? {
        return Ok(RoundEnd::Cut);
    }
    Ok(RoundEnd::Last {
        left: Left { point, full },
    })
}

/// Offers cuts that a point of an open node breaks, and tells whether one joined the list.
fn offer_all<D: Disk>(
    keep: &mut Keep<'_>,
    disk: &mut D,
    items: Vec<Record>,
) -> Result<bool, SearchFault>
    requires going { IsGoing (search_of keep.old (D.meaning disk.old)) }
    requires tour { HasTour keep.old.town }
    requires few { length items.items ≤ most_round_cuts }
    requires cuts { AreCuts keep.old items.items }
    ensures leaves { Leaves (search_of keep.old (D.meaning disk.old))
        (search_of keep.new (D.meaning disk.new)) result }
    ensures untouched { keep.old.log ≡ None → disk.new ≡ disk.old }
    ensures adds { AddsOnlyCuts 0 keep.old keep.new }
    ensures ends { IfOk result (EndsOffering keep.old keep.new items.items) }
{
    let mut joined = false;
    for item in items {
        joined |= offer(keep, disk, item)?;
    }
    Ok(joined)
}
