//! The lines of a text file, lent one by one. Nothing here takes memory.
#![tactic(auto)]

ghost use Rattle.std.specs.Prelude.{◌≡◌, ◌<◌, ◌==◌, [], ◌∷◌, length, position, IfSome, IfNone};
ghost use Rattle.std.specs.Str.Lines.{lines, strip_carriage_return};

/// The first line of these bytes and what is left behind it, or `None` where nothing is left.
///
/// A line ends with LF, and a CR right before it is no part of the line. The last line may lack its
/// LF, and keeps a CR then.
pub fn split_line(bytes: &[u8]) -> Option<(&[u8], &[u8])>
    ensures lines { IfSome result (λ x. lines bytes.now ≡ x.0.now ∷ lines x.1.now) }
    ensures shorter { IfSome result (λ x. length x.1.now < length bytes.now) }
    ensures none { IfNone result (bytes.now ≡ []) }
{
    if bytes.is_empty() {
        return None;
    }
    match feed_at(bytes) {
        Some(at) => Some((without_return(&bytes[..at]), &bytes[at + 1..])),
        None => Some((bytes, &[])),
    }
}

/// Where the first line feed stands.
fn feed_at(bytes: &[u8]) -> Option<usize>
    ensures { result ≡ position (λ byte. byte == 10) bytes.now }
{
    bytes.iter().position(|byte| *byte == b'\n')
}

/// The line without a CR at its end.
fn without_return(line: &[u8]) -> &[u8]
    ensures { result.now ≡ strip_carriage_return line.now }
{
    match line.split_last() {
        Some((b'\r', others)) => others,
        _ => line,
    }
}

#[cfg(test)]
mod tests {
    use super::*;
    use std::test::Fail;

    #[test]
    fn lines_end_with_line_feeds(rt: HostRuntime) -> Result<(), Fail> {
        let mut left = b"a\r\n\nb\r\r\nc\r".as_slice();
        for want in [b"a".as_slice(), b"", b"b\r", b"c\r"] {
            let (line, others) = split_line(left).unwrap_or((b"no line", b""));
            assert_eq!(rt; line, want);
            left = others;
        }
        assert!(rt; split_line(left).is_none());
        Ok(())
    }
}
