// A disk in memory that fails at chosen calls, and knows what a crash may have left of it at each
// moment, for tests of what stands on it.
ghost use Rattle.std.specs.Prelude.{◌≡◌, ◌≤◌, ◌+◌, ◌++◌, [], ◌∷◌, None, Some, length, take, drop, Contains, IsTrue, ◌↔◌, ◌⊎◌, true, false, IfOk, IfSome, OnOk, OnErr};
ghost use Rattle.wrp_out.specs.Counts.{Rose, one_more};
ghost use Rattle.wrp_disk.specs.Disks.{Looks, Syncs, Writes, Fails, put_at, greatest_limit};
ghost use Rattle.wrp_disk.specs.Changes.{Wrote, Tore, Synced, image_of, bytes_after, IsImage};
ghost use Rattle.wrp_disk.specs.Memory.{change_of, changes_of, meaning_of, lawful_memory, IsPast, LooksAsNamed, WritesAsNamed, SyncsAsNamed};

use crate::change::MemChange;
use crate::image::image_after;
use crate::put::{copy_from, put};
use crate::{Choice, Disk};
use std::alloc::{AllocError, Global};
use std::marker::Model;
use wrp_out::Failed;

/// A disk that keeps its bytes and each change of them. It fails at the named calls, counted from
/// 1, past its stop, and where it finds no memory.
#[derive(Debug, Drop)]
pub struct MemDisk {
    alloc: Global,
    first: Vec<u8>,
    bytes: Vec<u8>,
    changes: Vec<MemChange>,
    limit: u64,
    calls: u64,
    faults: u64,
    starved: u64,
    named: Vec<u64>,
    stop: Option<u64>,
}

impl Model for MemDisk {
    ghost use Rattle.std.specs.Prelude.{◌≡◌, ◌≤◌, length};
    ghost use Rattle.wrp_disk.specs.Disks.{greatest_limit};
    ghost use Rattle.wrp_disk.specs.Changes.{bytes_after};
    ghost use Rattle.wrp_disk.specs.Memory.{Memory, changes_of};

    ghost Value = { Memory };

    ghost view = { λ d. record {
      first = d.first.items;
      changes = changes_of d.changes.items;
      limit = d.limit;
      calls = d.calls;
      faults = d.faults;
      starved = d.starved;
      named = d.named.items;
      stop = d.stop;
    } };

    ghost invariant = { λ d.
        (d.bytes.items ≡ bytes_after d.first.items (changes_of d.changes.items))
        × (length d.bytes.items ≤ d.limit) × (d.limit ≤ greatest_limit) };
}

impl MemDisk {
    /// A disk of these bytes, all of them synced. No call of it fails by name.
    pub fn new(alloc: Global, bytes: &[u8], limit: u64) -> Result<MemDisk, AllocError>
        requires range { limit ≤ greatest_limit }
        requires fits { length bytes.now ≤ limit }
        ensures { IfOk result (λ disk. disk ≡ record {
          first = bytes.now;
          changes = [];
          limit = limit;
          calls = 0;
          faults = 0;
          starved = 0;
          named = [];
          stop = None;
        }) }
    {
        Ok(MemDisk {
            alloc,
            first: Vec::from_slice(alloc, bytes)?,
            bytes: Vec::from_slice(alloc, bytes)?,
            changes: Vec::new(alloc),
            limit,
            calls: 0,
            faults: 0,
            starved: 0,
            named: Vec::new(alloc),
            stop: None,
        })
    }

    /// Lets the calls with these numbers fail too. They are counted from 1 since the disk was made,
    /// but for calls of `limit`.
    pub fn fail_calls(&mut self, numbers: &[u64]) -> Result<(), AllocError>
        ensures ok { OnOk result (self.new ≡ record self.old {
          named = self.old.named ++ numbers.now;
        }) }
        ensures err { OnErr result (self.new ≡ self.old) }
    {
        self.named.extend_from_slice(numbers)
    }

    /// Lets every call after this number fail, counted in the same way. The last stop holds.
    pub fn stop_after(&mut self, calls: u64)
        ensures { self.new ≡ record self.old { stop = Some calls } }
    {
        self.stop = Some(calls);
    }

    /// How often a growth found no memory. It stays at `u64::MAX`.
    pub fn starved(&self) -> u64
        ensures { result ≡ self.now.starved }
    {
        self.starved
    }

    /// One of the images that a crash at this moment may leave.
    pub fn image(&self, choice: Choice) -> Result<Vec<u8>, AllocError>
        ensures chosen { IfOk result (λ bytes.
            bytes.items ≡ image_of choice self.now.first self.now.changes) }
        ensures image { IfOk result (λ bytes.
            IsImage self.now.first self.now.changes bytes.items) }
    {
        image_after(self.alloc, &self.first, &self.changes, choice)
    }

    /// Counts a call, which fails where it is named or stands past the stop.
    fn count_call(&mut self) -> Result<(), Failed>
        ensures named { LooksAsNamed self.old self.new result }
        ensures looks { Looks (meaning_of self.old) (meaning_of self.new) }
    {
        let fails = fails_next(&self.named, self.stop, self.calls);
        self.calls = self.calls.saturating_add(1);
        if fails {
            self.faults = self.faults.saturating_add(1);
            return Err(Failed);
        }
        Ok(())
    }

    /// Counts a call as failed since a growth found no memory.
    fn starve(&mut self) -> Failed
        ensures starved { self.new ≡ record self.old {
          faults = one_more self.old.faults;
          starved = one_more self.old.starved;
        } }
        ensures looks { Looks (meaning_of self.old) (meaning_of self.new) }
    {
        self.starved = self.starved.saturating_add(1);
        self.faults = self.faults.saturating_add(1);
        Failed
    }

    /// Keeps a write that failed, where there is memory for it.
    fn tear(&mut self, at: u64, count: usize)
        ensures torn { (self.new ≡ record self.old { changes = Tore at count ∷ self.old.changes })
            ⊎ (self.new ≡ record self.old { starved = one_more self.old.starved }) }
        ensures fails { Fails at count (meaning_of self.old) (meaning_of self.new) }
    {
        if !keep(&mut self.changes, MemChange::Tore { at, count }) {
            self.starved = self.starved.saturating_add(1);
        }
    }
}

/// Whether the call after this many fails.
fn fails_next(named: &[u64], stop: Option<u64>, calls: u64) -> bool
    ensures { IsTrue result ↔ (Contains named.now (calls + 1) ⊎ IsPast stop calls) }
{
    if let Some(stop) = stop
        && stop <= calls
    {
        return true;
    }
    match calls.checked_add(1) {
        Some(number) => named.contains(&number),
        None => false,
    }
}

impl Disk for MemDisk {
    ghost meaning = { meaning_of };

    ghost lawful = { lawful_memory };

    fn limit(&self) -> u64 {
        self.limit
    }

    fn len(&mut self) -> Result<u64, Failed>
        ensures named { LooksAsNamed self.old self.new result }

        // What any disk ensures.
        ensures bytes { IfOk result (λ count.
            IfSome (meaning_of self.old).told (λ bytes. count ≡ length bytes)) }
        ensures most { IfOk result (λ count. count ≤ (meaning_of self.old).limit) }
        ensures looks { Looks (meaning_of self.old) (meaning_of self.new) }
        ensures failed { OnErr result
            (Rose (meaning_of self.old).faults (meaning_of self.new).faults) }
    {
        self.count_call()?;
        Ok(self.bytes.len() as u64)
    }

    fn read(&mut self, at: u64, into: &mut [u8]) -> Result<usize, Failed>
        ensures named { LooksAsNamed self.old self.new result }

        // What any disk ensures.
        ensures fits { IfOk result (λ count. count ≤ length into.old) }
        ensures bytes { IfOk result (λ count. IfSome (meaning_of self.old).told
            (λ bytes. take count into.new ≡ take (length into.old) (drop at bytes))) }
        ensures others { IfOk result (λ count. IfSome (meaning_of self.old).told
            (λ bytes. drop count into.new ≡ drop count into.old)) }
        ensures looks { Looks (meaning_of self.old) (meaning_of self.new) }
        ensures failed { OnErr result
            (Rose (meaning_of self.old).faults (meaning_of self.new).faults) }
    {
        self.count_call()?;
        Ok(copy_from(&self.bytes, at, into))
    }

    fn write_at(&mut self, at: u64, bytes: &[u8]) -> Result<(), Failed>
        requires fits { at + length bytes.now ≤ (meaning_of self.old).limit }
        requires no_gap { IfSome (meaning_of self.old).told (λ before. at ≤ length before) }
        ensures named { WritesAsNamed at bytes.now self.old self.new result }

        // What any disk ensures.
        ensures writes { OnOk result
            (Writes at bytes.now (meaning_of self.old) (meaning_of self.new)) }
        ensures tears { OnErr result
            (Fails at (length bytes.now) (meaning_of self.old) (meaning_of self.new)) }
        ensures failed { OnErr result
            (Rose (meaning_of self.old).faults (meaning_of self.new).faults) }
    {
        if self.count_call().is_err() {
            self.tear(at, bytes.len());
            return Err(Failed);
        }
        match write_kept(self.alloc, &mut self.bytes, &mut self.changes, at, bytes) {
            Ok(()) => Ok(()),
            Err(_) => Err(self.starve()),
        }
    }

    fn sync(&mut self) -> Result<(), Failed>
        ensures named { SyncsAsNamed self.old self.new result }

        // What any disk ensures.
        ensures syncs { OnOk result (Syncs (meaning_of self.old) (meaning_of self.new)) }
        ensures looks { OnErr result (Looks (meaning_of self.old) (meaning_of self.new)) }
        ensures failed { OnErr result
            (Rose (meaning_of self.old).faults (meaning_of self.new).faults) }
    {
        self.count_call()?;
        if !keep(&mut self.changes, MemChange::Synced) {
            return Err(self.starve());
        }
        Ok(())
    }
}

/// Writes a piece at a place, and keeps the change. Without memory nothing happens.
fn write_kept(
    alloc: Global,
    bytes: &mut Vec<u8>,
    changes: &mut Vec<MemChange>,
    at: u64,
    piece: &[u8],
) -> Result<(), AllocError>
    ensures ok { OnOk result (bytes.new.items ≡ put_at at piece.now bytes.old.items) }
    ensures err { OnErr result (bytes.new.items ≡ bytes.old.items) }
    ensures changes { OnOk result
        (changes_of changes.new.items ≡ Wrote at piece.now ∷ changes_of changes.old.items) }
    ensures changes_err { OnErr result (changes.new.items ≡ changes.old.items) }
{
    let copy = Vec::from_slice(alloc, piece)?;
    changes.try_reserve(1)?;
    put(bytes, at, piece)?;
    match changes.push(MemChange::Wrote { at, bytes: copy }) {
        Ok(()) => Ok(()),
        Err(_) => unreachable!(),
    }
}

/// Keeps a change behind the others, and answers whether there was memory for it.
fn keep(changes: &mut Vec<MemChange>, change: MemChange) -> bool
    ensures kept { result ≡ true
        → changes_of changes.new.items ≡ change_of change ∷ changes_of changes.old.items }
    ensures lost { result ≡ false → changes.new.items ≡ changes.old.items }
{
    changes.push(change).is_ok()
}
