// The first payload of a log: the table of its town.
ghost use Rattle.std.specs.Prelude.{◌≡◌, ◌≤◌, ◌^◌, [], false, length, IfOk, IfSome, IsSome, IfErr};
ghost use Rattle.wrp_disk.specs.Disks.{AtEachMoment, Lasts};
ghost use Rattle.wrp_log.specs.Payloads.{StandsFor};
ghost use Rattle.wrp_log.specs.Logs.{IsOn, IsBeforeOrAfter};
ghost use Rattle.wrp_keep.specs.Starts.{Begins, Puts, IsStarted, fault_of, Starts, StartFails};

use crate::fault::StartFault;
use std::alloc::Global;
use wrp_disk::Disk;
use wrp_log::{AppendFault, Log};

/// Begins a log with no payload, where it is fresh.
fn begin_fresh<D: Disk>(log: &mut Log, disk: &mut D) -> Result<(), AppendFault>
    requires on { IsOn log.old (D.meaning disk.old) }
    requires going { log.old.stopped ≡ false }
    requires none { log.old.count ≡ 0 }
    ensures begins { Begins log.old log.new (D.meaning disk.old) (D.meaning disk.new) result }
    ensures any_moment { IsSome (D.meaning disk.old).told
        → AtEachMoment (StandsFor []) (D.meaning disk.old) (D.meaning disk.new) }
    ensures lasts { Lasts (D.meaning disk.old) (D.meaning disk.new) }
{
    if !log.fresh() {
        return Ok(());
    }
    log.begin(disk)
}

/// Puts the table into a log with no payload.
fn put_table<D: Disk>(log: &mut Log, disk: &mut D, table: &[u8]) -> Result<(), AppendFault>
    requires on { IsOn log.old (D.meaning disk.old) }
    requires going { log.old.stopped ≡ false }
    requires none { log.old.count ≡ 0 }
    requires short { length table.now ≤ 2 ^ 24 }
    ensures puts { Puts table.now log.old log.new
        (D.meaning disk.old) (D.meaning disk.new) result }
    ensures any_moment { IsSome (D.meaning disk.old).told
        → AtEachMoment (IsBeforeOrAfter [] table.now) (D.meaning disk.old) (D.meaning disk.new) }
    ensures lasts { Lasts (D.meaning disk.old) (D.meaning disk.new) }
{
    begin_fresh(log, disk)?;
    log.append(disk, table)
}

/// Opens the log of a disk, which has no payload, and puts the table into it.
pub(crate) fn started_log<D: Disk>(
    alloc: Global,
    disk: &mut D,
    table: &[u8],
) -> Result<Log, StartFault>
    requires { length table.now ≤ 2 ^ 24 }
    ensures started { IfOk result (λ log. IsStarted table.now log (D.meaning disk.new)) }
    ensures starts { IfSome (D.meaning disk.old).told (λ bytes.
        Starts table.now bytes (D.meaning disk.old) (D.meaning disk.new) (fault_of result)) }
    ensures lasts { Lasts (D.meaning disk.old) (D.meaning disk.new) }
    ensures fails { IfErr result (StartFails (D.meaning disk.old) (D.meaning disk.new)) }
{
    let mut log = Log::open(alloc, disk)?;
    let count = log.count();
    if count > 0 {
        return Err(StartFault::HasRecords { count });
    }
    put_table(&mut log, disk, table)?;
    Ok(log)
}
