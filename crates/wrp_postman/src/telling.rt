//! Tells a status, and writes texts.
ghost use Rattle.std.specs.Prelude.{◌≡◌, ◌⊎◌, Some, IfOk};
ghost use Rattle.std.specs.Option.{option_map};
ghost use Rattle.std.specs.String.{string_bytes};
ghost use Rattle.wrp_postman.specs.declared.status.Status.TheVariants as answers;
ghost use Rattle.wrp_postman.specs.Statuses.{status_line};
ghost use Rattle.wrp_postman.specs.Outsides.{Writes};
ghost use Rattle.wrp_postman.specs.Runs.{after_cut, Told};

use crate::status::Status;
use crate::text::status_text;
use std::alloc::{AllocError, Global};
use wrp_out::{Sink, write_all};

/// The line of a status. `None` where it has none.
fn line_of(alloc: Global, status: Status) -> Result<Option<String>, AllocError>
    ensures { IfOk result (λ line. option_map string_bytes line ≡ status_line status) }
{
    let Some(mut line) = status_text(alloc, status)? else {
        return Ok(None);
    };
    line.push('\n')?;
    Ok(Some(line))
}

/// The status where its line was not written whole: an accepted proof ends in `WriteFault`.
fn cut_status(status: Status) -> Status
    ensures { result ≡ after_cut status }
{
    match status {
        Status::Accepted { .. } => Status::WriteFault,
        _ => status,
    }
}

/// Writes the line of a status.
fn put<O: Sink>(out: &mut O, line: &[u8], status: Status) -> Status
    requires { status_line status ≡ Some line.now }
    ensures { Told status result (O.output out.old) (O.output out.new) }
{
    match write_all(out, line) {
        Ok(()) => status,
        Err(_) => cut_status(status),
    }
}

/// Writes the line of a status that has one, or that there is no memory for it.
pub(crate) fn tell<O: Sink>(alloc: Global, out: &mut O, status: Status) -> Status
    ensures { Told status result (O.output out.old) (O.output out.new)
        ⊎ Told answers.Memory result (O.output out.old) (O.output out.new) }
{
    match line_of(alloc, status) {
        Ok(Some(line)) => put(out, line.as_bytes(), status),
        Ok(None) => status,
        Err(AllocError) => put(out, b"no memory\n", Status::Memory),
    }
}

/// Writes a text.
pub(crate) fn put_text<O: Sink>(out: &mut O, text: &[u8]) -> Status
    ensures { Writes text.now result (O.output out.old) (O.output out.new) }
{
    match write_all(out, text) {
        Ok(()) => Status::Done,
        Err(_) => Status::WriteFault,
    }
}
