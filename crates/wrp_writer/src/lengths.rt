//! The length of a line, which is not written for it.
ghost use Rattle.std.specs.Prelude.{◌≡◌, ◌≤◌, length};
ghost use Rattle.std.specs.Fmt.{decimal};
ghost use Rattle.wrp_rules.specs.Lines.{line_with};
ghost use Rattle.wrp_writer.specs.Seen.{content_seen};

use crate::content::Content;
use wrp_rules::layout_of;

/// The number of bytes in the line with this content, without a line feed.
pub(crate) fn line_len(content: &Content<'_>) -> u128
    ensures { result ≡ length (line_with (content_seen content.now)) }
{
    let mut len = layout_of(content.kind).word.len() as u128;
    for at in 0..content.len() {
        len += 1 + content.part(at).len();
    }
    len
}

/// The number of digits that a number is written with.
pub(crate) fn digits(number: u128) -> u128
    ensures value { result ≡ length (decimal number) }
    ensures few { result ≤ 40 }
{
    let mut count = 1;
    let mut rest = number;
    while rest >= 10 {
        rest /= 10;
        count += 1;
    }
    count
}
