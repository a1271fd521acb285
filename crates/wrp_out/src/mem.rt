// A source and a sink over memory that fail at chosen calls, for tests of what stands on them.
ghost use Rattle.std.specs.Prelude.{◌≡◌, ◌<◌, ◌≤◌, ◌↔◌, [], Some, length, take, drop, IsTrue, IfOk, OnErr};
ghost use Rattle.wrp_out.specs.Outside.{Input, Output, Took, ReadFailed, IsZeroAtEnd, Gained, WriteFailed, EmptyTake};
ghost use Rattle.wrp_out.specs.Faulty.{FailsNext, ReadAsNamed, WroteAsNamed, input_of, output_of};

use crate::front::copy_front;
use crate::{Failed, Sink, Source};
use std::alloc::{AllocError, Global};
use std::marker::Model;

/// A source that owns its bytes and fails at the named calls, counted from 1.
#[derive(Debug, Drop)]
pub struct MemSource {
    bytes: Vec<u8>,
    at: usize,
    fail: Vec<u64>,
    calls: u64,
    faults: u64,
}

impl Model for MemSource {
    ghost use Rattle.std.specs.Prelude.{◌≤◌, length, drop};
    ghost use Rattle.wrp_out.specs.Faulty.{Reading};

    ghost Value = { Reading };

    ghost view = { λ s. record {
      left = drop s.at s.bytes.items;
      fail = s.fail.items;
      calls = s.calls;
      faults = s.faults;
    } };

    ghost invariant = { λ s. s.at ≤ length s.bytes.items };
}

impl MemSource {
    /// A source of a copy of these bytes, of which the calls with these numbers fail.
    pub fn new(alloc: Global, bytes: &[u8], fail: &[u64]) -> Result<MemSource, AllocError>
        ensures { IfOk result (λ source. source ≡ record {
          left = bytes.now;
          fail = fail.now;
          calls = 0;
          faults = 0;
        }) }
    {
        Ok(MemSource {
            bytes: Vec::from_slice(alloc, bytes)?,
            at: 0,
            fail: Vec::from_slice(alloc, fail)?,
            calls: 0,
            faults: 0,
        })
    }
}

impl Source for MemSource {
    ghost input = { λ s. input_of s };

    /// Takes as many bytes as are left and `into` has room for, in each call that isn't named.
    fn read(&mut self, into: &mut [u8]) -> Result<usize, Failed>
        requires { 0 < length into.old }
        ensures named { ReadAsNamed self.old self.new (length into.old) result }

        // What any source ensures.
        ensures fits { IfOk result (λ count. count ≤ length into.old) }
        ensures took { IfOk result (λ count.
            Took (input_of self.old) (input_of self.new) (take count into.new)) }
        ensures others { IfOk result (λ count. drop count into.new ≡ drop count into.old) }
        ensures end { IfOk result (λ count. IsZeroAtEnd (input_of self.old) count) }
        ensures failed { OnErr result (ReadFailed (input_of self.old) (input_of self.new)) }
    {
        let fails = is_named(&self.fail, self.calls);
        self.calls = self.calls.saturating_add(1);
        if fails {
            self.faults = self.faults.saturating_add(1);
            return Err(Failed);
        }
        let count = copy_front(&self.bytes[self.at..], into);
        self.at += count;
        Ok(count)
    }
}

/// A sink that keeps its bytes. It fails at the named calls, counted from 1, and where it finds no
/// memory.
#[derive(Debug, Drop)]
pub struct MemSink {
    bytes: Vec<u8>,
    fail: Vec<u64>,
    calls: u64,
    faults: u64,
    starved: u64,
}

impl Model for MemSink {
    ghost use Rattle.wrp_out.specs.Faulty.{Writing};

    ghost Value = { Writing };

    ghost view = { λ s. record {
      written = s.bytes.items;
      fail = s.fail.items;
      calls = s.calls;
      faults = s.faults;
      starved = s.starved;
    } };
}

impl MemSink {
    /// An empty sink, of which the calls with these numbers fail.
    pub fn new(alloc: Global, fail: &[u64]) -> Result<MemSink, AllocError>
        ensures { IfOk result (λ sink. sink ≡ record {
          written = [];
          fail = fail.now;
          calls = 0;
          faults = 0;
          starved = 0;
        }) }
    {
        Ok(MemSink {
            bytes: Vec::new(alloc),
            fail: Vec::from_slice(alloc, fail)?,
            calls: 0,
            faults: 0,
            starved: 0,
        })
    }

    /// The bytes that were written.
    pub fn bytes(&self) -> &[u8]
        ensures { result.now ≡ self.now.written }
    {
        &self.bytes
    }

    /// How often a growth found no memory. It stays at `u64::MAX`.
    pub fn starved(&self) -> u64
        ensures { result ≡ self.now.starved }
    {
        self.starved
    }
}

impl Sink for MemSink {
    ghost output = { λ s. output_of s };

    /// Takes the whole piece, in each call that isn't named and finds memory.
    fn write(&mut self, bytes: &[u8]) -> Result<usize, Failed>
        ensures named { WroteAsNamed self.old self.new bytes.now result }

        // What any sink ensures.
        ensures fits { IfOk result (λ count. count ≤ length bytes.now) }
        ensures gained { IfOk result (λ count.
            Gained (output_of self.old) (output_of self.new) (take count bytes.now)) }
        ensures empty { IfOk result (λ count. count ≡ 0 → 0 < length bytes.now
            → EmptyTake (output_of self.old) (output_of self.new)) }
        ensures failed { OnErr result (WriteFailed (output_of self.old) (output_of self.new)) }
    {
        let named = is_named(&self.fail, self.calls);
        self.calls = self.calls.saturating_add(1);
        if named {
            self.faults = self.faults.saturating_add(1);
            return Err(Failed);
        }
        match self.bytes.extend_from_slice(bytes) {
            Ok(()) => Ok(bytes.len()),
            Err(_) => {
                self.starved = self.starved.saturating_add(1);
                self.faults = self.faults.saturating_add(1);
                Err(Failed)
            }
        }
    }
}

/// Whether the call after this many is one that fails.
fn is_named(fail: &[u64], calls: u64) -> bool
    ensures { IsTrue result ↔ FailsNext fail.now calls }
{
    match calls.checked_add(1) {
        Some(number) => fail.contains(&number),
        None => false,
    }
}
