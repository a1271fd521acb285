// A source and a sink over memory that never fail. Both take their memory when they are made.
ghost use Rattle.std.specs.Prelude.{◌≡◌, ◌<◌, ◌≤◌, [], Some, Ok, min, length, take, drop, IfOk};
ghost use Rattle.wrp_out.specs.Outside.{Input, Output, Took, IsZeroAtEnd, Gained, EmptyTake};
ghost use Rattle.wrp_out.specs.Steady.{room_in, filled_by, input_of, output_of};

use crate::front::copy_front;
use crate::{Failed, Sink, Source};
use std::alloc::{AllocError, Global};
use std::marker::Model;

/// A source that owns its bytes and never fails. Contracts see it as the bytes that are left.
#[derive(Debug, Drop)]
pub struct SteadySource {
    bytes: Vec<u8>,
    at: usize,
}

impl Model for SteadySource {
    ghost use Rattle.std.specs.Prelude.{List, ℕ, ◌≤◌, length, drop};

    ghost Value = { List ℕ };

    ghost view = { λ s. drop s.at s.bytes.items };

    ghost invariant = { λ s. s.at ≤ length s.bytes.items };
}

impl SteadySource {
    /// A source of a copy of these bytes.
    pub fn new(alloc: Global, bytes: &[u8]) -> Result<SteadySource, AllocError>
        ensures { IfOk result (λ source. source ≡ bytes.now) }
    {
        Ok(SteadySource {
            bytes: Vec::from_slice(alloc, bytes)?,
            at: 0,
        })
    }
}

impl Source for SteadySource {
    ghost input = { λ left. input_of left };

    /// Takes as many bytes as are left and `into` has room for.
    fn read(&mut self, into: &mut [u8]) -> Result<usize, Failed>
        requires { 0 < length into.old }
        ensures most { result ≡ Ok (min (length into.old) (length self.old)) }
        ensures fits { IfOk result (λ count. count ≤ length into.old) }
        ensures took { IfOk result (λ count.
            Took (input_of self.old) (input_of self.new) (take count into.new)) }
        ensures others { IfOk result (λ count. drop count into.new ≡ drop count into.old) }
        ensures end { IfOk result (λ count. IsZeroAtEnd (input_of self.old) count) }
    {
        let count = copy_front(&self.bytes[self.at..], into);
        self.at += count;
        Ok(count)
    }
}

/// A sink of a fixed capacity that never fails. Once it is full it takes nothing.
#[derive(Debug, Drop)]
pub struct SteadySink {
    bytes: Vec<u8>,
    capacity: usize,
    empties: u64,
}

impl Model for SteadySink {
    ghost use Rattle.std.specs.Prelude.{◌≤◌, vec_len};
    ghost use Rattle.std.specs.Vec.{vec_capacity};
    ghost use Rattle.wrp_out.specs.Steady.{Filled};

    ghost Value = { Filled };

    ghost view = { λ s. record {
      written = s.bytes.items;
      capacity = s.capacity;
      empties = s.empties;
    } };

    ghost invariant = { λ s. (vec_len s.bytes ≤ s.capacity) × (s.capacity ≤ vec_capacity s.bytes) };
}

impl SteadySink {
    /// An empty sink that has room for this many bytes.
    pub fn new(alloc: Global, capacity: usize) -> Result<SteadySink, AllocError>
        ensures { IfOk result (λ sink. sink ≡ record {
          written = [];
          capacity = capacity;
          empties = 0;
        }) }
    {
        Ok(SteadySink {
            bytes: Vec::with_capacity(alloc, capacity)?,
            capacity,
            empties: 0,
        })
    }

    /// The bytes that were written.
    pub fn bytes(&self) -> &[u8]
        ensures { result.now ≡ self.now.written }
    {
        &self.bytes
    }
}

impl Sink for SteadySink {
    ghost output = { λ s. output_of s };

    /// Takes as many bytes of the piece as there is room for.
    fn write(&mut self, bytes: &[u8]) -> Result<usize, Failed>
        ensures most { result ≡ Ok (room_in self.old (length bytes.now)) }
        ensures filled { IfOk result (λ count. self.new ≡ filled_by self.old count bytes.now) }
        ensures fits { IfOk result (λ count. count ≤ length bytes.now) }
        ensures gained { IfOk result (λ count.
            Gained (output_of self.old) (output_of self.new) (take count bytes.now)) }
        ensures empty { IfOk result (λ count. count ≡ 0 → 0 < length bytes.now
            → EmptyTake (output_of self.old) (output_of self.new)) }
    {
        let count = bytes.len().min(self.capacity - self.bytes.len());
        if count == 0 && !bytes.is_empty() {
            self.empties = self.empties.saturating_add(1);
        }
        match self.bytes.extend_from_slice(&bytes[..count]) {
            Ok(()) => Ok(count),
            Err(_) => unreachable!(),
        }
    }
}
