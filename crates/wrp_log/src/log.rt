// A log on its disk.
ghost use Rattle.std.specs.Prelude.{◌≡◌, ◌<◌, ◌≤◌, ◌+◌, ◌^◌, ◌++◌, [], ◌∷◌, List, Err, None, true, false, length, min, option_copied, IfSome, IsSome, IfOk, OnOk, OnErr, IsErrOf};
ghost use Rattle.std.specs.List.{slice_get};
ghost use Rattle.std.specs.Option.{option_map};
ghost use Rattle.std.specs.Vec.{vec_capacity};
ghost use Rattle.wrp_out.specs.Counts.{Rose};
ghost use Rattle.wrp_disk.specs.Disks.{AtEachMoment, Looks, Lasts};
ghost use Rattle.wrp_log.specs.Payloads.{IsVersion, payload_limit, head_size, StandsFor, list_of};
ghost use Rattle.wrp_log.specs.Steps.{OpenIs};
ghost use Rattle.wrp_log.specs.Logs.{IsBeforeOrAfter, IsOn, Began, Added, Upgraded, GivenUp, length_with};
ghost use Rattle.std.specs.Borrow.{sem};
ghost use Rattle.std.specs.Io.BufRead.{Rests};
ghost use Rattle.wrp_log.specs.Replays.{IsReplayed};
ghost use Rattle.wrp_log.specs.contracts.log.Log.{the_row};

use crate::block::{add_block, fill_block, write_head, write_version};
use crate::opening::{limit_of, read_place};
use crate::replaying::read_payload;
use crate::{AppendFault, OpenFault};
use std::alloc::Global;
use std::marker::Model;
use wrp_disk::Disk;
use wrp_out::Failed;

/// The size of a log with no payload.
const HEAD_SIZE: u64 = 9;

/// The place of the first gate.
pub(crate) const FIRST_GATE: u64 = 8;

/// The greatest length of a payload in any version.
const PAYLOAD_LIMIT: u64 = 1 << 28;

/// A log on a disk. Contracts see where it stands.
#[derive(Debug, Drop)]
pub struct Log {
    fresh: bool,
    stopped: bool,
    version: u8,
    count: u64,
    gate: u64,
    limit: u64,
    replayed: u64,
    next: u64,
    buffer: Vec<u8>,
}

impl Model for Log {
    ghost use Rattle.std.specs.Prelude.{◌≡◌, ◌+◌, ◌≤◌, ◌<◌, min, true, false};
    ghost use Rattle.std.specs.Vec.{vec_capacity};
    ghost use Rattle.wrp_disk.specs.Disks.{greatest_limit};
    ghost use Rattle.wrp_log.specs.Payloads.{IsVersion, first_gate, payload_limit};
    ghost use Rattle.wrp_log.specs.Logs.{Place};

    ghost Value = { Place };

    ghost view = { λ l. record {
      fresh = l.fresh;
      stopped = l.stopped;
      version = l.version;
      count = l.count;
      gate = l.gate;
      limit = l.limit;
      replayed = l.replayed;
      next = l.next;
    } };

    ghost invariant = { λ l. IsVersion l.version
        × (first_gate ≤ l.gate) × (l.gate ≤ greatest_limit) × (l.count ≤ l.gate)
        × (l.replayed ≤ l.next) × (l.next ≤ l.gate) × (l.fresh ≡ false → l.gate < l.limit)
        × (l.fresh ≡ true → l.replayed ≡ l.count)
        × (min l.limit (payload_limit 2) + 5 ≤ vec_capacity l.buffer) };
}

impl Log {
    /// Whether the log isn't begun yet.
    pub fn fresh(&self) -> bool
        ensures { result ≡ self.now.fresh }
    {
        self.fresh
    }

    /// Whether the log is given up, since a call of the disk failed.
    pub fn stopped(&self) -> bool
        ensures { result ≡ self.now.stopped }
    {
        self.stopped
    }

    /// The number of payloads.
    pub fn count(&self) -> u64
        ensures { result ≡ self.now.count }
    {
        self.count
    }

    /// The version, 1 or 2.
    pub fn version(&self) -> u8
        ensures value { result ≡ self.now.version }
        ensures known { IsVersion result }
    {
        self.version
    }

    /// Opens the log of a disk. It writes nothing.
    pub fn open<D: Disk>(alloc: Global, disk: &mut D) -> Result<Log, OpenFault>
        ensures on { IfOk result (λ log. IsOn log (D.meaning disk.new)) }
        ensures going { IfOk result (λ log. log.stopped ≡ false) }
        ensures exact { IfSome (D.meaning disk.old).told (OpenIs result) }
        ensures told { (D.meaning disk.new).told ≡ (D.meaning disk.old).told }

        // A crash at any moment of the call leaves what a crash before it leaves.
        ensures any_moment { AtEachMoment (D.meaning disk.old).image
            (D.meaning disk.old) (D.meaning disk.new) }
        ensures failed { IsErrOf result OpenFault.Disk
            → Rose (D.meaning disk.old).faults (D.meaning disk.new).faults }
    {
        disk.sync()?;
        let limit = disk.limit();
        let buffer = Vec::with_capacity(alloc, limit.min(PAYLOAD_LIMIT) as usize + 5)?;
        let total = disk.len()?;
        if total <= HEAD_SIZE {
            return Ok(Log {
                fresh: true,
                stopped: false,
                version: 2,
                count: 0,
                gate: FIRST_GATE,
                limit,
                replayed: 0,
                next: FIRST_GATE,
                buffer,
            });
        }
        let (version, count, gate) = read_place(disk, total)?;
        Ok(Log {
            fresh: false,
            stopped: false,
            version,
            count,
            gate,
            limit,
            replayed: 0,
            next: FIRST_GATE,
            buffer,
        })
    }

    /// Begins a log on a fresh disk. After `Disk` the log is given up.
    pub fn begin<D: Disk>(&mut self, disk: &mut D) -> Result<(), AppendFault>
        requires on { IsOn self.old (D.meaning disk.old) }
        requires fresh { self.old.fresh ≡ true }
        requires going { self.old.stopped ≡ false }

        ensures begun { OnOk result (Began self.old self.new (D.meaning disk.new)) }
        ensures lasts { Lasts (D.meaning disk.old) (D.meaning disk.new) }

        // A crash at any moment of the call leaves no payloads.
        ensures any_moment { IsSome (D.meaning disk.old).told
            → AtEachMoment (StandsFor []) (D.meaning disk.old) (D.meaning disk.new) }

        // Where there is no room the disk isn't touched.
        ensures full { self.old.limit < head_size
            → (result ≡ Err (AppendFault.Full head_size self.old.limit))
            × (disk.new ≡ disk.old) × (self.new ≡ self.old) }
        ensures failed { head_size ≤ self.old.limit → OnErr result (
            (result ≡ Err AppendFault.Disk)
            × GivenUp self.old self.new (D.meaning disk.old) (D.meaning disk.new)) }
    {
        let limit = disk.limit();
        if limit < HEAD_SIZE {
            return Err(AppendFault::Full {
                length: HEAD_SIZE,
                limit,
            });
        }
        match write_head(disk) {
            Ok(()) => {
                self.fresh = false;
                self.version = 2;
                self.count = 0;
                self.gate = FIRST_GATE;
                self.replayed = 0;
                self.next = FIRST_GATE;
                Ok(())
            }
            Err(_) => {
                self.stopped = true;
                Err(AppendFault::Disk)
            }
        }
    }

    /// Adds a payload. At `Ok` it is acknowledged: from then on each crash leaves it. After `Disk`
    /// the log is given up.
    pub fn append<D: Disk>(&mut self, disk: &mut D, payload: &[u8]) -> Result<(), AppendFault>
        requires on { IsOn self.old (D.meaning disk.old) }
        requires begun { self.old.fresh ≡ false }
        requires going { self.old.stopped ≡ false }
        requires fits { length payload.now ≤ payload_limit self.old.version }

        ensures added { OnOk result
            (Added payload.now self.old self.new (D.meaning disk.old) (D.meaning disk.new)) }
        ensures lasts { Lasts (D.meaning disk.old) (D.meaning disk.new) }

        // A crash at any moment of the call leaves the payloads from before it, or those and this
        // one.
        ensures any_moment { IfSome (D.meaning disk.old).told (λ bytes.
            AtEachMoment (IsBeforeOrAfter (list_of bytes) payload.now)
            (D.meaning disk.old) (D.meaning disk.new)) }

        // Where there is no room the disk isn't touched.
        ensures full { self.old.limit < length_with payload.now self.old
            → (result ≡ Err (AppendFault.Full (length_with payload.now self.old) self.old.limit))
            × (disk.new ≡ disk.old) × (self.new ≡ self.old) }
        ensures failed { length_with payload.now self.old ≤ self.old.limit → OnErr result (
            (result ≡ Err AppendFault.Disk)
            × GivenUp self.old self.new (D.meaning disk.old) (D.meaning disk.new)) }
    {
        let limit = disk.limit();
        let length = self.gate + 6 + payload.len() as u64;
        if length > limit {
            return Err(AppendFault::Full { length, limit });
        }
        fill_block(&mut self.buffer, payload);
        match add_block(disk, self.gate, &self.buffer) {
            Ok(()) => {
                self.gate = self.gate + 5 + payload.len() as u64;
                self.count += 1;
                Ok(())
            }
            Err(_) => {
                self.stopped = true;
                Err(AppendFault::Disk)
            }
        }
    }

    /// Lends the next payload, or None after the last. After an error the log is given up.
    pub fn replay<D: Disk>(&mut self, disk: &mut D) -> Result<Option<&[u8]>, Failed>
        requires on { IsOn self.old (D.meaning disk.old) }
        requires going { self.old.stopped ≡ false }

        ensures lent { IfOk result (λ payload. IfSome (D.meaning disk.old).told (λ bytes.
            option_copied payload ≡ slice_get (list_of bytes) self.old.replayed)) }
        ensures short { IfOk result (λ payload. IfSome payload
            (λ bytes. length bytes.now ≤ payload_limit self.old.version)) }
        ensures looks { Looks (D.meaning disk.old) (D.meaning disk.new) }
        ensures failed { OnErr result
            (Rose (D.meaning disk.old).faults (D.meaning disk.new).faults) }

        // The log after the payload is given back.
        ensures* after_borrow { sem 𝓛 (Rests the_row self.entry
            (IsReplayed result (D.meaning disk.new) self.old)) }
    {
        if self.replayed == self.count {
            return Ok(None);
        }
        let most = limit_of(self.version);
        match read_payload(disk, self.next, self.gate, most, &mut self.buffer) {
            Ok(true) => {
                self.replayed += 1;
                self.next = self.next + 5 + self.buffer.len() as u64;
                Ok(Some(&self.buffer))
            }
            Ok(false) => Ok(None),
            Err(failed) => {
                self.stopped = true;
                Err(failed)
            }
        }
    }

    /// Makes a log of version 1 one of version 2. After an error the log is given up.
    pub fn upgrade<D: Disk>(&mut self, disk: &mut D) -> Result<(), Failed>
        requires on { IsOn self.old (D.meaning disk.old) }
        requires first_version { self.old.version ≡ 1 }
        requires begun { self.old.fresh ≡ false }
        requires going { self.old.stopped ≡ false }

        ensures upgraded { OnOk result
            (Upgraded self.old self.new (D.meaning disk.old) (D.meaning disk.new)) }
        ensures lasts { Lasts (D.meaning disk.old) (D.meaning disk.new) }

        // A crash at any moment of the call leaves the payloads from before it.
        ensures any_moment { IfSome (D.meaning disk.old).told (λ bytes.
            AtEachMoment (StandsFor (list_of bytes)) (D.meaning disk.old) (D.meaning disk.new)) }
        ensures failed { OnErr result
            (GivenUp self.old self.new (D.meaning disk.old) (D.meaning disk.new)) }
    {
        prove!(self.gate < self.limit);
        match write_version(disk) {
            Ok(()) => {
                self.version = 2;
                Ok(())
            }
            Err(fault) => {
                self.stopped = true;
                Err(fault)
            }
        }
    }
}
