// A disk in memory that never fails, and tells nothing of its bytes. It takes its memory when it is
// made.
ghost use Rattle.std.specs.Prelude.{◌≡◌, ◌≤◌, ◌+◌, Ok, length, max, IfOk, IfSome, OnOk};
ghost use Rattle.std.specs.Vec.{vec_capacity};
ghost use Rattle.wrp_disk.specs.Disks.{Looks, Syncs, Writes};
ghost use Rattle.wrp_disk.specs.Silent.{silent, lawful_silent, file_limit};

use crate::Disk;
use crate::put::{add, copy_from, put_over};
use std::alloc::{AllocError, Global};
use std::marker::Model;
use wrp_out::Failed;

/// A disk of a fixed limit that never fails. Contracts see the limit.
#[derive(Debug, Drop)]
pub struct SteadyDisk {
    bytes: Vec<u8>,
    limit: u64,
}

impl Model for SteadyDisk {
    ghost use Rattle.std.specs.Prelude.{ℕ, ◌≤◌, length};
    ghost use Rattle.std.specs.Vec.{vec_capacity};
    ghost use Rattle.wrp_disk.specs.Silent.{file_limit};

    ghost Value = { ℕ };

    ghost view = { λ d. d.limit };

    ghost invariant = { λ d. (length d.bytes.items ≤ d.limit)
        × (d.limit ≤ vec_capacity d.bytes) × (d.limit ≤ file_limit) };
}

impl SteadyDisk {
    /// An empty disk of this limit.
    pub fn new(alloc: Global, limit: u64) -> Result<SteadyDisk, AllocError>
        requires { limit ≤ file_limit }
        ensures { IfOk result (λ disk. disk ≡ limit) }
    {
        Ok(SteadyDisk {
            bytes: Vec::with_capacity(alloc, limit as usize)?,
            limit,
        })
    }
}

/// Adds zeros up to a place.
fn fill_gap(bytes: &mut Vec<u8>, at: usize)
    requires { at ≤ vec_capacity bytes.old }
    ensures reaches { at ≤ length bytes.new.items }
    ensures size { length bytes.new.items ≤ max (length bytes.old.items) at }
    ensures capacity { vec_capacity bytes.old ≤ vec_capacity bytes.new }
{
    while bytes.len() < at {
        add(bytes, &[0]);
    }
}

/// Writes over what is there, and past the end. A gap is filled with zeros.
fn write_within(bytes: &mut Vec<u8>, at: usize, piece: &[u8])
    requires { at + length piece.now ≤ vec_capacity bytes.old }
    ensures size { length bytes.new.items ≤ max (length bytes.old.items) (at + length piece.now) }
    ensures capacity { vec_capacity bytes.old ≤ vec_capacity bytes.new }
{
    fill_gap(bytes, at);
    put_over(bytes, at, piece);
}

impl Disk for SteadyDisk {
    ghost meaning = { silent 0 };

    ghost lawful = { lawful_silent 0 };

    fn limit(&self) -> u64 {
        self.limit
    }

    fn len(&mut self) -> Result<u64, Failed> {
        Ok(self.bytes.len() as u64)
    }

    fn read(&mut self, at: u64, into: &mut [u8]) -> Result<usize, Failed> {
        Ok(copy_from(&self.bytes, at, into))
    }

    fn write_at(&mut self, at: u64, bytes: &[u8]) -> Result<(), Failed> {
        write_within(&mut self.bytes, at as usize, bytes);
        Ok(())
    }

    fn sync(&mut self) -> Result<(), Failed> {
        Ok(())
    }
}
