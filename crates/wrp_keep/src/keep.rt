//! The state of a search together with its log.
ghost use Rattle.std.specs.Prelude.{◌≡◌, ◌<◌, ◌≤◌, false, true, [], length, None, Ok, IfOk, IfSome, IsNone, IfErr, OnOk, OnErr};
ghost use Rattle.wrp_log.specs.Payloads.{IsVersion, payload_limit};
ghost use Rattle.wrp_rules.specs.Lines.{line_of};
ghost use Rattle.wrp_rules.specs.Lists.{is_valid};
ghost use Rattle.wrp_writer.specs.Limits.{is_writable};
ghost use Rattle.wrp_keep.specs.Keeps.{staged, joined, is_stopped, version, IsHeld};
ghost use Rattle.wrp_keep.specs.Appends.{AppendsTo, NeedsNoDisk, UpgradesTo};
ghost use Rattle.wrp_disk.specs.Disks.{AtEachMoment, Lasts};
ghost use Rattle.wrp_keep.specs.Reopens.{ReopenIs, ReopenFails, IsReopened, records_in};
ghost use Rattle.wrp_street.specs.Canonical.{canonical_of};
ghost use Rattle.wrp_keep.specs.Starts.{fault_of, Starts, StartFails, IsNew};
ghost use Rattle.wrp_keep.specs.Calls.{Extends, SameAcknowledged, with_staged, Stages, Flushes, of_flush, Adds, Judges, of_add};

use crate::appending::{append_line, append_to, upgrade_in};
use crate::fault::{AddFault, FlushFault, ReopenFault, StageFault, StartFault};
use crate::lines::{LineFault, join_line};
use crate::reopening::reopened_log;
use crate::starting::started_log;
use std::alloc::{AllocError, Global};
use std::marker::Model;
use wrp_disk::Disk;
use wrp_log::Log;
use wrp_out::Failed;
use wrp_rules::Record;
use wrp_street::canonical;
use wrp_town::Town;
use wrp_tree::{PrepareFault, Tree};

/// A valid list of records, some of which are acknowledged and the others staged. Where there is a
/// log, its disk holds those that are acknowledged. Contracts see the town, the list, how many of
/// its records are acknowledged, and where the log stands.
#[derive(Debug, Drop)]
pub struct Keep<'t> {
    alloc: Global,
    tree: Tree<'t>,
    log: Option<Log>,
    /// The lines of the staged records, each behind a line feed.
    lines: Vec<u8>,
    acknowledged: u64,
}

impl<'t> Model for Keep<'t> {
    ghost use Rattle.wrp_keep.specs.Keeps.{KeepState, keep_of, IsKeep};

    ghost Value = { KeepState };

    ghost view = { λ k. keep_of k.tree k.acknowledged k.log };

    ghost invariant = { λ k. IsKeep (keep_of k.tree k.acknowledged k.log) k.lines.items };
}

/// The greatest length of a payload in a log of a version.
fn payload_limit(version: u8) -> u64
    ensures { result ≡ payload_limit version }
{
    if version == 2 { 1 << 28 } else { 1 << 24 }
}

impl<'t> Keep<'t> {
    /// A keep without a log. Its calls never call a disk.
    ///
    /// # Errors
    ///
    /// Want of memory alone.
    pub fn bare(alloc: Global, town: &'t Town) -> Result<Keep<'t>, AllocError>
        ensures { IfOk result (λ keep. keep ≡ record {
          town = town.now;
          records = [];
          acknowledged = 0;
          log = None;
        }) }
    {
        Ok(Keep {
            alloc,
            tree: Tree::new(alloc, town)?,
            log: None,
            lines: Vec::new(alloc),
            acknowledged: 0,
        })
    }

    /// A keep whose log is new: its first payload is the table of the town.
    ///
    /// # Errors
    ///
    /// That the bytes of the disk are not a log, that the log is broken or has payloads already, or
    /// that there is no room, in this order; that the disk failed; or want of memory.
    pub fn start<D: Disk>(
        alloc: Global,
        town: &'t Town,
        disk: &mut D,
    ) -> Result<Keep<'t>, StartFault>
        ensures new { IfOk result (IsNew town.now (D.meaning disk.new)) }

        // The answer, what a crash leaves at any moment of the call, and what it leaves.
        ensures starts { IfSome (D.meaning disk.old).told (λ bytes. Starts (canonical_of town.now)
            bytes (D.meaning disk.old) (D.meaning disk.new) (fault_of result)) }
        ensures lasts { Lasts (D.meaning disk.old) (D.meaning disk.new) }
        ensures fails { IfErr result (StartFails (D.meaning disk.old) (D.meaning disk.new)) }
    {
        let table = canonical(alloc, town)?;
        let tree = Tree::new(alloc, town)?;
        let log = started_log(alloc, disk, &table)?;
        Ok(Keep {
            alloc,
            tree,
            log: Some(log),
            lines: Vec::new(alloc),
            acknowledged: 0,
        })
    }

    /// A keep of the records of a log, whose first payload is the table of the town.
    ///
    /// # Errors
    ///
    /// That the bytes of the disk are not a log, that the log is broken or has no records, that it
    /// is of another table, or the first bad record, in this order; that the disk failed; or want
    /// of memory.
    pub fn reopen<D: Disk>(
        alloc: Global,
        town: &'t Town,
        disk: &mut D,
    ) -> Result<Keep<'t>, ReopenFault>
        ensures exact { IfSome (D.meaning disk.old).told (λ bytes. ReopenIs town.now
            (canonical_of town.now) bytes (records_in result) (fault_of result)) }
        ensures reopened { IfOk result (IsReopened town.now (D.meaning disk.new)) }
        ensures told { (D.meaning disk.new).told ≡ (D.meaning disk.old).told }

        // A crash at any moment of the call leaves what a crash before it leaves.
        ensures any_moment { AtEachMoment (D.meaning disk.old).image
            (D.meaning disk.old) (D.meaning disk.new) }
        ensures fails { IfErr result (ReopenFails (D.meaning disk.old) (D.meaning disk.new)) }
    {
        let table = canonical(alloc, town)?;
        let mut tree = Tree::new(alloc, town)?;
        let log = reopened_log(alloc, disk, &table, &mut tree)?;
        let acknowledged = tree.records().len() as u64;
        Ok(Keep {
            alloc,
            tree,
            log: Some(log),
            lines: Vec::new(alloc),
            acknowledged,
        })
    }

    /// Lends the state of the search.
    pub fn tree(&self) -> &Tree<'t>
        ensures town { result.now.town ≡ self.now.town }
        ensures records { result.now.records ≡ self.now.records }
        ensures valid { is_valid self.now.town self.now.records ≡ true }
    {
        &self.tree
    }

    /// Whether the keep is given up, since a call of its disk failed.
    pub fn stopped(&self) -> bool
        ensures { result ≡ is_stopped self.now }
    {
        match &self.log {
            Some(log) => log.stopped(),
            None => false,
        }
    }

    /// The version of the log, 1 or 2. That of a keep without a log is 2.
    pub fn version(&self) -> u8
        ensures value { result ≡ version self.now }
        ensures known { IsVersion result }
    {
        match &self.log {
            Some(log) => log.version(),
            None => 2,
        }
    }

    /// The number of staged records.
    pub fn staged(&self) -> u64
        ensures { result ≡ length (staged self.now) }
    {
        self.tree.records().len() as u64 - self.acknowledged
    }

    /// The number of acknowledged records. They stand before the staged ones.
    pub fn acknowledged(&self) -> u64
        ensures value { result ≡ self.now.acknowledged }
        ensures within { result ≤ length self.now.records }
    {
        self.acknowledged
    }

    /// Adds a record at the end of the list, and stages it. After an error the list and the staged
    /// records are as before.
    ///
    /// # Errors
    ///
    /// `Refused` with the record and the first rule that it breaks after the list; else `Long` with
    /// the record, where the payload of all staged lines would be too long; or want of memory.
    pub fn stage(&mut self, item: Record) -> Result<(), StageFault>
        requires writable { is_writable item ≡ true }
        requires going { is_stopped self.old ≡ false }
        ensures judged { Stages item self.old result }
        ensures staged { OnOk result (self.new ≡ with_staged item self.old) }
        ensures kept { OnErr result (self.new ≡ self.old) }
        ensures extends { Extends self.old self.new }
        ensures acknowledged { SameAcknowledged self.old self.new }
    {
        let most = payload_limit(self.version());
        match self.tree.prepare(&item) {
            Ok(()) => {}
            Err(PrepareFault::Refused { rule }) => return Err(StageFault::Refused { item, rule }),
            Err(PrepareFault::Memory) => return Err(StageFault::Memory),
        }
        match join_line(self.alloc, &mut self.lines, &item, most) {
            Ok(()) => {}
            Err(LineFault::Long { length }) => return Err(StageFault::Long { item, length }),
            Err(LineFault::Memory) => return Err(StageFault::Memory),
        }
        self.tree.commit(item);
        Ok(())
    }

    /// Acknowledges the staged records, by one payload where there is a log. Takes no memory. After
    /// `Full` all is as before; after `Disk` the keep is given up.
    pub fn flush<D: Disk>(&mut self, disk: &mut D) -> Result<(), FlushFault>
        requires going { is_stopped self.old ≡ false }
        requires held { IsHeld self.old (D.meaning disk.old) }
        ensures flushed { Flushes self.old self.new result }
        ensures extends { Extends self.old self.new }

        // Where nothing is staged, nothing happens.
        ensures idle { staged self.old ≡ []
            → (result ≡ Ok tt) × (self.new ≡ self.old) × (disk.new ≡ disk.old) }

        // What the log does with the lines of the staged records. Without one, nothing is done.
        ensures appends { 0 < length (staged self.old)
            → AppendsTo (joined (staged self.old)) self.old.log self.new.log
            (D.meaning disk.old) (D.meaning disk.new) (of_flush result) }
        ensures untouched { NeedsNoDisk (joined (staged self.old)) self.old.log
            → disk.new ≡ disk.old }
        ensures held { is_stopped self.new ≡ false → IsHeld self.new (D.meaning disk.new) }
    {
        if self.staged() == 0 {
            return Ok(());
        }
        append_to(&mut self.log, disk, &self.lines[1..])?;
        self.lines.clear();
        self.acknowledged = self.tree.records().len() as u64;
        Ok(())
    }

    /// Adds a record at the end of the list, and acknowledges it, by one payload where there is a
    /// log. After an error the list is as before; after `Disk` the keep is given up.
    ///
    /// # Errors
    ///
    /// `Refused` with the record and the first rule that it breaks after the list; what the log or
    /// its disk refuses; or want of memory.
    pub fn add<D: Disk>(&mut self, disk: &mut D, item: Record) -> Result<(), AddFault>
        requires writable { is_writable item ≡ true }
        requires going { is_stopped self.old ≡ false }
        requires none_staged { staged self.old ≡ [] }
        requires short { length (line_of item) ≤ payload_limit (version self.old) }
        requires held { IsHeld self.old (D.meaning disk.old) }
        ensures judged { Judges item self.old result }
        ensures added { Adds item self.old self.new result }
        ensures extends { Extends self.old self.new }

        // What the log does with the line. Without one, nothing is done.
        ensures appends { IfSome (of_add result) (AppendsTo (line_of item) self.old.log self.new.log
            (D.meaning disk.old) (D.meaning disk.new)) }
        ensures unasked { IsNone (of_add result)
            → (self.new ≡ self.old) × (disk.new ≡ disk.old) }
        ensures untouched { NeedsNoDisk (line_of item) self.old.log → disk.new ≡ disk.old }
        ensures held { is_stopped self.new ≡ false → IsHeld self.new (D.meaning disk.new) }
    {
        match self.tree.prepare(&item) {
            Ok(()) => {}
            Err(PrepareFault::Refused { rule }) => return Err(AddFault::Refused { item, rule }),
            Err(PrepareFault::Memory) => return Err(AddFault::Memory),
        }
        append_line(self.alloc, &mut self.log, disk, &item)?;
        self.tree.commit(item);
        self.acknowledged = self.tree.records().len() as u64;
        Ok(())
    }

    /// Makes the log one of version 2. Takes no memory. After an error the keep is given up.
    ///
    /// # Errors
    ///
    /// The disk failed.
    pub fn upgrade<D: Disk>(&mut self, disk: &mut D) -> Result<(), Failed>
        requires first_version { version self.old ≡ 1 }
        requires going { is_stopped self.old ≡ false }
        requires none_staged { staged self.old ≡ [] }
        requires held { IsHeld self.old (D.meaning disk.old) }
        ensures stays { self.new ≡ record self.old { log = self.new.log } }
        ensures upgraded { UpgradesTo self.old.log self.new.log
            (D.meaning disk.old) (D.meaning disk.new) result }
        ensures held { OnOk result (IsHeld self.new (D.meaning disk.new)) }
    {
        upgrade_in(&mut self.log, disk)
    }
}
