// The records of a table's bytes, one after the other.

ghost use Rattle.std.specs.Prelude.{◌≡◌, ◌++◌, ◌∷◌, [], ℕ, List, Bool, true, false, length, if◌then◌else◌, IfOk, OnErr};
ghost use Rattle.std.specs.List.{slice_index_or};
ghost use Rattle.wrp_records.specs.Streams.{fields_of, records_of, left_in, CanRead};

use csv::{ByteRecord, ErrorKind, Reader, ReaderBuilder};
use std::alloc::{AllocError, Global};
use std::marker::Model;

/// A reader of a table's records. In a clause it is the list of the records that it has left.
#[derive(Drop)]
pub struct Records<'a> {
    reader: Reader<&'a [u8]>,
    is_done: bool,
}

impl<'a> Model for Records<'a> {
    ghost Value = { List (List (List ℕ)) };

    ghost view = { λ r. left_in r.is_done r.reader };

    ghost invariant = { λ r. CanRead r.is_done r.reader };
}

impl<'a> Records<'a> {
    /// A reader of the records of `bytes`, a mark at their start apart. A record may have any
    /// number of fields, and the first one is a record too.
    pub fn new(alloc: Global, bytes: &'a [u8]) -> Records<'a>
        ensures { result ≡ records_of bytes.now }
    {
        let reader = ReaderBuilder::new()
            .has_headers(false)
            .flexible(true)
            .from_reader(alloc, bytes);
        Records {
            reader,
            is_done: false,
        }
    }

    /// Puts the next record into `line`, and says whether there was one. Out of memory ends the
    /// records.
    pub fn next(&mut self, line: &mut ByteRecord) -> Result<bool, AllocError>
        ensures found { IfOk result (λ found.
            self.old ≡ (if found then fields_of line.new ∷ self.new else [])) }
        ensures end { IfOk result (λ found. found ≡ false → self.new ≡ []) }
        ensures err { OnErr result (self.new ≡ []) }
    {
        if self.is_done {
            return Ok(false);
        }
        match self.reader.read_byte_record(line) {
            Ok(true) => Ok(true),
            Ok(false) => {
                self.is_done = true;
                Ok(false)
            }
            Err(error) => {
                self.is_done = true;
                match error.kind() {
                    ErrorKind::Io(_) | ErrorKind::OutOfMemory => Err(AllocError),
                    _ => unreachable!(),
                }
            }
        }
    }
}

/// How many fields a record has.
pub fn field_count(line: &ByteRecord) -> usize
    ensures { result ≡ length (fields_of line.now) }
{
    line.len()
}

/// The field at `index`, counted from 0. It is empty where the record has no such field.
pub fn text_at(line: &ByteRecord, index: usize) -> &[u8]
    ensures { result.now ≡ slice_index_or (fields_of line.now) index [] }
{
    match line.get(index) {
        Some(text) => text,
        None => &[],
    }
}
