//! The rounds of a turn.
ghost use Rattle.std.specs.Prelude.{◌≡◌, ◌<◌, ◌^◌, None, IfOk};
ghost use Rattle.wrp_tour.specs.Tours.{HasTour};
ghost use Rattle.wrp_engine.specs.Searches.{search_of, IsGoing, Leaves, IsOpenAt};
ghost use Rattle.wrp_engine.specs.Desks.{IsDeskOf};
ghost use Rattle.wrp_engine.specs.Additions.{Adds, AddsCuts};
ghost use Rattle.wrp_engine.specs.Turns.{EndsRounds};
ghost use Rattle.wrp_engine.specs.Sights.{EndsRound};

use crate::cut::cut;
use crate::desk::Desk;
use crate::fault::SearchFault;
use crate::left::{Left, RoundEnd};
use crate::show::show;
use crate::sight::{Sight, look};
use std::alloc::Global;
use wrp_disk::Disk;
use wrp_keep::Keep;

/// Each round of a turn but the last adds a cut, and there is room for 20,000.
const MOST_ROUNDS: u32 = 20_001;

/// The rounds of a turn at an open node, until one adds no cut.
pub(crate) fn rounds<D: Disk>(
    alloc: Global,
    desk: &Desk<'_, '_>,
    keep: &mut Keep<'_>,
    disk: &mut D,
    node: u64,
) -> Result<Left, SearchFault>
    requires going { IsGoing (search_of keep.old (D.meaning disk.old)) }
    requires tour { HasTour keep.old.town }
    requires desk { IsDeskOf keep.old.town keep.old.records node desk.now }
    requires opened { IsOpenAt keep.old node }
    requires small { node < 2 ^ 63 }
    ensures leaves { Leaves (search_of keep.old (D.meaning disk.old))
        (search_of keep.new (D.meaning disk.new)) result }
    ensures untouched { keep.old.log ≡ None → disk.new ≡ disk.old }
    ensures adds { Adds 2 1 keep.old keep.new }
    ensures ends { IfOk result (EndsRounds keep.old keep.new node) }
{
    for number in 1..=MOST_ROUNDS {
        match round(alloc, desk, keep, disk, node, number)? {
            RoundEnd::Cut => {}
            RoundEnd::Last { left } => return Ok(left),
        }
    }
    unreachable!()
}

/// One round of a turn at an open node: it looks at the node, offers what that shows and a tour
/// near its point, and its cuts while the node is open.
fn round<D: Disk>(
    alloc: Global,
    desk: &Desk<'_, '_>,
    keep: &mut Keep<'_>,
    disk: &mut D,
    node: u64,
    number: u32,
) -> Result<RoundEnd, SearchFault>
    requires going { IsGoing (search_of keep.old (D.meaning disk.old)) }
    requires tour { HasTour keep.old.town }
    requires desk { IsDeskOf keep.old.town keep.old.records node desk.now }
    requires opened { IsOpenAt keep.old node }
    requires small { node < 2 ^ 63 }
    ensures leaves { Leaves (search_of keep.old (D.meaning disk.old))
        (search_of keep.new (D.meaning disk.new)) result }
    ensures untouched { keep.old.log ≡ None → disk.new ≡ disk.old }
    ensures adds { AddsCuts 0 2 1 keep.old keep.new }
    ensures ends { IfOk result (EndsRound keep.old keep.new node number) }
{
    let sight = look(alloc, desk, keep.tree(), node, number)?;
    let Sight { shown, point, cuts } = sight;
    show(alloc, desk, keep, disk, node, shown, point.as_ref())?;
    cut(keep, disk, node, number, cuts, point)
}
