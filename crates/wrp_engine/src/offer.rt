//! Records are offered to the list of a search.
ghost use Rattle.std.specs.Prelude.{◌≡◌, true, None, [], IfOk, IfSome, OnOk};
ghost use Rattle.wrp_writer.specs.Limits.{is_writable};
ghost use Rattle.wrp_keep.specs.Keeps.{broken_by, staged};
ghost use Rattle.wrp_engine.specs.Searches.{search_of, IsGoing, Leaves};
ghost use Rattle.wrp_engine.specs.Offers.{Offers, Joins, AddsAtMost, AddsAtMostSome, OffersSome};

use crate::fault::SearchFault;
use wrp_disk::Disk;
use wrp_keep::{Keep, StageFault};
use wrp_rules::Record;

/// Stages a record that may break a rule, and tells whether it joined the list. The staged records
/// are acknowledged first where their payload would be too long with it.
pub(crate) fn offer<D: Disk>(
    keep: &mut Keep<'_>,
    disk: &mut D,
    item: Record,
) -> Result<bool, SearchFault>
    requires writable { is_writable item ≡ true }
    requires going { IsGoing (search_of keep.old (D.meaning disk.old)) }
    ensures leaves { Leaves (search_of keep.old (D.meaning disk.old))
        (search_of keep.new (D.meaning disk.new)) result }
    ensures untouched { keep.old.log ≡ None → disk.new ≡ disk.old }
    ensures offers { IfOk result (Offers item keep.old keep.new) }
    ensures at_most { AddsAtMost item keep.old keep.new }
{
    match keep.stage(item) {
        Ok(()) => Ok(true),
        Err(StageFault::Refused { .. }) => Ok(false),
        Err(StageFault::Long { item, .. }) => stage_alone(keep, disk, item),
        Err(StageFault::Memory) => Err(SearchFault::Memory),
    }
}

/// Stages a record that breaks no rule, after the staged ones are acknowledged.
fn stage_alone<D: Disk>(
    keep: &mut Keep<'_>,
    disk: &mut D,
    item: Record,
) -> Result<bool, SearchFault>
    requires writable { is_writable item ≡ true }
    requires going { IsGoing (search_of keep.old (D.meaning disk.old)) }
    requires valid { broken_by item keep.old ≡ None }
    ensures leaves { Leaves (search_of keep.old (D.meaning disk.old))
        (search_of keep.new (D.meaning disk.new)) result }
    ensures untouched { keep.old.log ≡ None → disk.new ≡ disk.old }
    ensures offers { IfOk result (Offers item keep.old keep.new) }
    ensures at_most { AddsAtMost item keep.old keep.new }
{
    settle(keep, disk)?;
    match keep.stage(item) {
        Ok(()) => Ok(true),
        Err(StageFault::Memory) => Err(SearchFault::Memory),
        Err(_) => unreachable!(),
    }
}

/// Acknowledges the staged records.
pub(crate) fn settle<D: Disk>(keep: &mut Keep<'_>, disk: &mut D) -> Result<(), SearchFault>
    requires going { IsGoing (search_of keep.old (D.meaning disk.old)) }
    ensures leaves { Leaves (search_of keep.old (D.meaning disk.old))
        (search_of keep.new (D.meaning disk.new)) result }
    ensures untouched { keep.old.log ≡ None → disk.new ≡ disk.old }
    ensures same { keep.new.records ≡ keep.old.records }
    ensures settled { OnOk result (staged keep.new ≡ []) }
{
    keep.flush(disk)?;
    Ok(())
}

/// Adds a record that breaks no rule.
pub(crate) fn add<D: Disk>(
    keep: &mut Keep<'_>,
    disk: &mut D,
    item: Record,
) -> Result<(), SearchFault>
    requires writable { is_writable item ≡ true }
    requires going { IsGoing (search_of keep.old (D.meaning disk.old)) }
    requires valid { broken_by item keep.old ≡ None }
    ensures leaves { Leaves (search_of keep.old (D.meaning disk.old))
        (search_of keep.new (D.meaning disk.new)) result }
    ensures untouched { keep.old.log ≡ None → disk.new ≡ disk.old }
    ensures joins { OnOk result (Joins item keep.old keep.new) }
    ensures at_most { AddsAtMost item keep.old keep.new }
{
    offer(keep, disk, item)?;
    Ok(())
}

/// Offers a record, where there is one, and tells whether it joined the list.
pub(crate) fn tell<D: Disk>(
    keep: &mut Keep<'_>,
    disk: &mut D,
    item: Option<Record>,
) -> Result<bool, SearchFault>
    requires going { IsGoing (search_of keep.old (D.meaning disk.old)) }
    requires writable { IfSome item (λ r. is_writable r ≡ true) }
    ensures leaves { Leaves (search_of keep.old (D.meaning disk.old))
        (search_of keep.new (D.meaning disk.new)) result }
    ensures untouched { keep.old.log ≡ None → disk.new ≡ disk.old }
    ensures offers { IfOk result (OffersSome item keep.old keep.new) }
    ensures at_most { AddsAtMostSome item keep.old keep.new }
{
    match item {
        Some(item) => offer(keep, disk, item),
        None => Ok(false),
    }
}
