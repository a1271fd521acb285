//! Tours are offered to the list of a search.
ghost use Rattle.std.specs.Prelude.{◌≡◌, None, [], IsSome, OnOk};
ghost use Rattle.wrp_town.specs.Walks.{walk_cost as walk_cost_of};
ghost use Rattle.wrp_parts.specs.RequiredParts.{AreParts};
ghost use Rattle.wrp_keep.specs.Keeps.{staged};
ghost use Rattle.wrp_tour.specs.Tours.{HasTour, IsLeanTour};
ghost use Rattle.wrp_engine.specs.Searches.{search_of, IsGoing, Leaves, now};
ghost use Rattle.wrp_engine.specs.Offers.{HasUpper, AddsTourAtMost};

use crate::fault::SearchFault;
use crate::offer::{offer, settle};
use std::alloc::Global;
use wrp_disk::Disk;
use wrp_graph::Graph;
use wrp_keep::Keep;
use wrp_parts::Parts;
use wrp_rules::Record;
use wrp_tour::{first_tour, improve};
use wrp_town::{List, Step, walk_cost};

/// Offers a tour, which joins the list where it is cheaper than those that stand.
pub(crate) fn offer_tour<D: Disk>(
    keep: &mut Keep<'_>,
    disk: &mut D,
    steps: List<Step>,
) -> Result<(), SearchFault>
    requires going { IsGoing (search_of keep.old (D.meaning disk.old)) }
    requires lean { IsLeanTour keep.old.town steps }
    ensures leaves { Leaves (search_of keep.old (D.meaning disk.old))
        (search_of keep.new (D.meaning disk.new)) result }
    ensures untouched { keep.old.log ≡ None → disk.new ≡ disk.old }
    ensures adds { AddsTourAtMost keep.old keep.new }
    ensures upper { OnOk result (HasUpper (walk_cost_of keep.old.town steps) keep.new) }
{
    let cost = walk_cost(keep.tree().rows().town(), steps.as_slice()).unwrap_or(0);
    offer(keep, disk, Record::Tour { cost, steps })?;
    Ok(())
}

/// Adds a first tour where none stands, as a payload of its own.
pub(crate) fn begin<D: Disk>(
    alloc: Global,
    graph: &Graph<'_>,
    parts: &Parts,
    keep: &mut Keep<'_>,
    disk: &mut D,
) -> Result<(), SearchFault>
    requires going { IsGoing (search_of keep.old (D.meaning disk.old)) }
    requires graph { graph.now ≡ keep.old.town }
    requires parts { AreParts graph.now parts.now.count parts.now.of }
    requires tour { HasTour keep.old.town }
    requires none_staged { staged keep.old ≡ [] }
    ensures leaves { Leaves (search_of keep.old (D.meaning disk.old))
        (search_of keep.new (D.meaning disk.new)) result }
    ensures untouched { keep.old.log ≡ None → disk.new ≡ disk.old }
    ensures adds { AddsTourAtMost keep.old keep.new }
    ensures upper { OnOk result (IsSome (now keep.new).upper) }
    ensures settled { OnOk result (staged keep.new ≡ []) }
{
    if keep.tree().upper().is_some() {
        return Ok(());
    }
    let first = first_tour(alloc, graph, parts)?;
    let steps = improve(alloc, graph, first.as_slice())?;
    settle_tour(keep, disk, steps)
}

/// Offers a tour, and acknowledges what is staged.
fn settle_tour<D: Disk>(
    keep: &mut Keep<'_>,
    disk: &mut D,
    steps: List<Step>,
) -> Result<(), SearchFault>
    requires going { IsGoing (search_of keep.old (D.meaning disk.old)) }
    requires lean { IsLeanTour keep.old.town steps }
    ensures leaves { Leaves (search_of keep.old (D.meaning disk.old))
        (search_of keep.new (D.meaning disk.new)) result }
    ensures untouched { keep.old.log ≡ None → disk.new ≡ disk.old }
    ensures adds { AddsTourAtMost keep.old keep.new }
    ensures upper { OnOk result (IsSome (now keep.new).upper) }
    ensures settled { OnOk result (staged keep.new ≡ []) }
{
    offer_tour(keep, disk, steps)?;
    settle(keep, disk)
}
