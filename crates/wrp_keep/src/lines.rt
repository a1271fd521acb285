// The lines of the staged records, each behind a line feed.
ghost use Rattle.std.specs.Prelude.{◌≡◌, ◌∷◌, ◌++◌, OnOk, OnErr};
ghost use Rattle.wrp_rules.specs.Lines.{line_of};
ghost use Rattle.wrp_keep.specs.Joins.{with_line, Joins};

use std::alloc::{AllocError, Global};
use wrp_rules::Record;
use wrp_writer::write_record;

/// Why a line isn't joined.
#[derive(Clone, Copy, Debug, PartialEq, Eq)]
pub(crate) enum LineFault {
    Long { length: u64 },
    Memory,
}

impl From<AllocError> for LineFault {
    ghost use Rattle.std.specs.Prelude.{◌≡◌};
    ghost use Rattle.wrp_keep.specs.declared.lines.LineFault.TheVariants.{Memory};

    ghost from_gives = { λ _ fault. fault ≡ Memory };

    fn from(_: AllocError) -> LineFault {
        LineFault::Memory
    }
}

/// Adds the line of a record, where all then have at most so many bytes without their first line
/// feed.
pub(crate) fn join_line(
    alloc: Global,
    lines: &mut Vec<u8>,
    item: &Record,
    most: u64,
) -> Result<(), LineFault>
    ensures { Joins most (line_of item.now) lines.old.items lines.new.items result }
{
    let line = write_record(alloc, item)?;
    let length = lines.len() as u64 + line.len() as u64;
    if length > most {
        return Err(LineFault::Long { length });
    }
    push_line(lines, &line)?;
    Ok(())
}

/// Adds a line behind a line feed.
fn push_line(lines: &mut Vec<u8>, line: &[u8]) -> Result<(), AllocError>
    ensures ok { OnOk result (lines.new.items ≡ with_line line.now lines.old.items) }
    ensures err { OnErr result (lines.new.items ≡ lines.old.items) }
{
    lines.reserve(line.len() + 1)?;
    lines.push_reserved(b'\n');
    match lines.extend_from_slice(line) {
        Ok(()) => Ok(()),
        Err(_) => unreachable!(),
    }
}
