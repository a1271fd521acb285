//! Writes the lines of records and of ends.
ghost use Rattle.std.specs.Prelude.{◌≡◌, IfOk};
ghost use Rattle.wrp_rules.specs.Lines.{line_of, end_line as line_of_end, line_with};
ghost use Rattle.wrp_writer.specs.Seen.{content_seen};

use crate::content::{Content, content_of, content_of_end};
use std::alloc::{AllocError, Global};
use wrp_rules::{End, Record, layout_of};

/// The line of a record, without a line feed.
///
/// # Errors
///
/// Want of memory alone.
pub fn write_record(alloc: Global, item: &Record) -> Result<Vec<u8>, AllocError>
    ensures { IfOk result (λ line. line.items ≡ line_of item.now) }
{
    write_line(alloc, &content_of(item))
}

/// The line of an end, without a line feed.
///
/// # Errors
///
/// Want of memory alone.
pub fn write_end(alloc: Global, end: &End) -> Result<Vec<u8>, AllocError>
    ensures { IfOk result (λ line. line.items ≡ line_of_end end.now) }
{
    write_line(alloc, &content_of_end(end))
}

/// The line with this content: its word, and each part behind a space.
fn write_line(alloc: Global, content: &Content<'_>) -> Result<Vec<u8>, AllocError>
    ensures { IfOk result (λ line. line.items ≡ line_with (content_seen content.now)) }
{
    let mut line = layout_of(content.kind).word.to_vec(alloc)?;
    for at in 0..content.len() {
        line.push(b' ')?;
        line.extend_from_slice(content.part(at).text(alloc)?.as_bytes())?;
    }
    Ok(line)
}
