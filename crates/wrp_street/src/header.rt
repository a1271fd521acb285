// The header of a table.

ghost use Rattle.std.specs.Prelude.{◌≡◌, codes, [], ◌==◌, ◌&&◌, length};
ghost use Rattle.std.specs.List.{slice_index_or};
ghost use Rattle.std.specs.Str.{bytes_eq};
ghost use Rattle.wrp_records.specs.Streams.{fields_of};
ghost use Rattle.wrp_records.specs.Fields.{trimmed};
ghost use Rattle.wrp_street.specs.Headers.{is_header as is_header_record};

use wrp_records::{ByteRecord, field_count, is_text, text_at, trim};

// Whether the field at `index`, without blanks at its ends, is this word.
fn is_named(line: &ByteRecord, index: usize, word: &[u8]) -> bool
    ensures { result
        ≡ bytes_eq (trimmed (slice_index_or (fields_of line.now) index [])) word.now }
{
    is_text(trim(text_at(line, index)), word)
}

/// Whether a record has the six column names, in order, blanks at the ends of a field apart.
#[tactic(auto, using(crate::proofs::SixFields::header_by_fields))]
pub fn is_header(line: &ByteRecord) -> bool
    ensures { result ≡ is_header_record (fields_of line.now) }
{
    field_count(line) == 6
        && is_named(line, 0, b"street")
        && is_named(line, 1, b"from")
        && is_named(line, 2, b"to")
        && is_named(line, 3, b"forward")
        && is_named(line, 4, b"backward")
        && is_named(line, 5, b"need")
}
