// Adding a payload to a log, where there is one, and the change of its version.
ghost use Rattle.std.specs.Prelude.{◌≡◌, IfSome, IsNone};
ghost use Rattle.wrp_rules.specs.Lines.{line_of};
ghost use Rattle.wrp_keep.specs.Appends.{MayAppend, AppendsTo, NeedsNoDisk, MayUpgrade, UpgradesTo};
ghost use Rattle.wrp_keep.specs.Calls.{of_add, IsUnrefused};

use crate::fault::AddFault;
use std::alloc::Global;
use wrp_disk::Disk;
use wrp_log::{AppendFault, Log};
use wrp_out::Failed;
use wrp_rules::Record;
use wrp_writer::write_record;

/// Adds a payload to the log, where there is one.
pub(crate) fn append_to<D: Disk>(
    log: &mut Option<Log>,
    disk: &mut D,
    payload: &[u8],
) -> Result<(), AppendFault>
    requires { MayAppend payload.now log.old (D.meaning disk.old) }
    ensures appends { AppendsTo payload.now log.old log.new
        (D.meaning disk.old) (D.meaning disk.new) result }
    ensures untouched { NeedsNoDisk payload.now log.old → disk.new ≡ disk.old }
{
    match log {
        Some(log) => log.append(disk, payload),
        None => Ok(()),
    }
}

/// Adds the line of a record to the log, where there is one. The record breaks no rule.
pub(crate) fn append_line<D: Disk>(
    alloc: Global,
    log: &mut Option<Log>,
    disk: &mut D,
    item: &Record,
) -> Result<(), AddFault>
    requires { MayAppend (line_of item.now) log.old (D.meaning disk.old) }
    ensures appends { IfSome (of_add result) (AppendsTo (line_of item.now) log.old log.new
        (D.meaning disk.old) (D.meaning disk.new)) }
    ensures unasked { IsNone (of_add result) → (log.new ≡ log.old) × (disk.new ≡ disk.old) }
    ensures untouched { NeedsNoDisk (line_of item.now) log.old → disk.new ≡ disk.old }
    ensures unrefused { IsUnrefused result }
{
    if log.is_none() {
        return Ok(());
    }
    let line = write_record(alloc, item)?;
    append_to(log, disk, &line)?;
    Ok(())
}

/// Makes the log, which is there, one of version 2.
pub(crate) fn upgrade_in<D: Disk>(log: &mut Option<Log>, disk: &mut D) -> Result<(), Failed>
    requires { MayUpgrade log.old (D.meaning disk.old) }
    ensures { UpgradesTo log.old log.new (D.meaning disk.old) (D.meaning disk.new) result }
{
    match log {
        Some(log) => log.upgrade(disk),
        None => unreachable!(),
    }
}
