// Opening a log again: its table, and its records.
ghost use Rattle.std.specs.Prelude.{◌≡◌, ◌<◌, ◌≤◌, ◌+◌, ◌-◌, ◌^◌, [], true, false, length, IfOk, IfErr, IfSome, OnOk};
ghost use Rattle.wrp_disk.specs.Disks.{AtEachMoment, Looks};
ghost use Rattle.std.specs.List.{slice_get};
ghost use Rattle.wrp_log.specs.Payloads.{list_of};
ghost use Rattle.wrp_log.specs.Logs.{IsOn};
ghost use Rattle.wrp_keep.specs.Starts.{fault_of};
ghost use Rattle.wrp_keep.specs.Reopens.{AreWritable, IsReplayedTo, IsOneOn, ChecksTable, ReadsNext, ReadsFrom, ReopenFails, ReopenIs, IsReady};

use crate::fault::ReopenFault;
use crate::reading::{RecordFault, add_lines, common_front};
use std::alloc::Global;
use wrp_disk::Disk;
use wrp_log::Log;
use wrp_tree::Tree;

/// Compares the first payload of a log with the table.
fn check_table<D: Disk>(log: &mut Log, disk: &mut D, table: &[u8]) -> Result<(), ReopenFault>
    requires ready { IsReplayedTo 0 log.old (D.meaning disk.old) }
    requires some { 0 < log.old.count }
    ensures checks { IfSome (D.meaning disk.old).told
        (λ bytes. ChecksTable table.now (list_of bytes) (fault_of result)) }
    ensures replayed { OnOk result (IsReplayedTo 1 log.new (D.meaning disk.new)) }
    ensures count { OnOk result (log.new.count ≡ log.old.count) }
    ensures looks { Looks (D.meaning disk.old) (D.meaning disk.new) }
    ensures fails { IfErr result (ReopenFails (D.meaning disk.old) (D.meaning disk.new)) }
{
    match log.replay(disk) {
        Ok(Some(first)) if first == table => Ok(()),
        Ok(Some(first)) => Err(ReopenFault::OtherTable {
            at: common_front(first, table) as u64,
        }),
        Ok(None) => Err(ReopenFault::NoRecords),
        Err(_) => Err(ReopenFault::Disk),
    }
}

/// Adds the records of the next payload, and answers whether there is one.
fn read_next<D: Disk>(
    alloc: Global,
    log: &mut Log,
    disk: &mut D,
    tree: &mut Tree<'_>,
) -> Result<bool, ReopenFault>
    requires on { IsOn log.old (D.meaning disk.old) }
    requires going { log.old.stopped ≡ false }
    ensures reads { IfSome (D.meaning disk.old).told (λ bytes.
        ReadsNext tree.old.town (slice_get (list_of bytes) log.old.replayed)
        tree.old.records tree.new.records result) }
    ensures town { tree.new.town ≡ tree.old.town }
    ensures writable { AreWritable tree.old.records → AreWritable tree.new.records }
    ensures log { IfOk result (λ more. IsOneOn more log.old log.new) }
    ensures on { OnOk result (IsOn log.new (D.meaning disk.new)) }
    ensures looks { Looks (D.meaning disk.old) (D.meaning disk.new) }
    ensures fails { IfErr result (ReopenFails (D.meaning disk.old) (D.meaning disk.new)) }
{
    match log.replay(disk) {
        Ok(Some(payload)) => match add_lines(alloc, tree, payload) {
            Ok(()) => Ok(true),
            Err(RecordFault::Broken { rule }) => Err(ReopenFault::BadRecord {
                index: tree.records().len() as u64 + 1,
                rule,
            }),
            Err(RecordFault::Memory) => Err(ReopenFault::Memory),
        },
        Ok(None) => Ok(false),
        Err(_) => Err(ReopenFault::Disk),
    }
}

/// Adds the records of all payloads behind the first.
fn read_records<D: Disk>(
    alloc: Global,
    log: &mut Log,
    disk: &mut D,
    tree: &mut Tree<'_>,
) -> Result<(), ReopenFault>
    requires ready { IsReplayedTo 1 log.old (D.meaning disk.old) }
    requires some { 0 < log.old.count }
    ensures reads { IfSome (D.meaning disk.old).told (λ bytes. ReadsFrom 1 tree.old.town
        (list_of bytes) tree.old.records tree.new.records (fault_of result)) }
    ensures town { tree.new.town ≡ tree.old.town }
    ensures writable { AreWritable tree.old.records → AreWritable tree.new.records }
    ensures begun { OnOk result (log.new.fresh ≡ false) }
    ensures going { OnOk result (log.new.stopped ≡ false) }
    ensures on { OnOk result (IsOn log.new (D.meaning disk.new)) }
    ensures looks { Looks (D.meaning disk.old) (D.meaning disk.new) }
    ensures fails { IfErr result (ReopenFails (D.meaning disk.old) (D.meaning disk.new)) }
{
    for _ in 1..log.count() {
        if !read_next(alloc, log, disk, tree)? {
            return Ok(());
        }
    }
    Ok(())
}

/// Opens the log of a disk, whose first payload is the table, and adds its records to an empty
/// list.
pub(crate) fn reopened_log<D: Disk>(
    alloc: Global,
    disk: &mut D,
    table: &[u8],
    tree: &mut Tree<'_>,
) -> Result<Log, ReopenFault>
    requires { tree.old.records ≡ [] }
    ensures exact { IfSome (D.meaning disk.old).told (λ bytes.
        ReopenIs tree.old.town table.now bytes tree.new.records (fault_of result)) }
    ensures town { tree.new.town ≡ tree.old.town }
    ensures writable { AreWritable tree.old.records → AreWritable tree.new.records }
    ensures ready { IfOk result (λ log. IsReady log (D.meaning disk.new)) }
    ensures told { (D.meaning disk.new).told ≡ (D.meaning disk.old).told }

    // A crash at any moment of the call leaves what a crash before it leaves.
    ensures any_moment { AtEachMoment (D.meaning disk.old).image
        (D.meaning disk.old) (D.meaning disk.new) }
    ensures fails { IfErr result (ReopenFails (D.meaning disk.old) (D.meaning disk.new)) }
{
    let mut log = Log::open(alloc, disk)?;
    if log.fresh() || log.count() == 0 {
        return Err(ReopenFault::NoRecords);
    }
    check_table(&mut log, disk, table)?;
    read_records(alloc, &mut log, disk, tree)?;
    Ok(log)
}
