// The plain readings of one field.

ghost use Rattle.std.specs.Prelude.{◌≡◌};
ghost use Rattle.std.specs.Str.{bytes_eq};
ghost use Rattle.wrp_records.specs.Fields.{is_blank as is_blank_byte, trim_start as start_trimmed, trim_end as end_trimmed, trimmed};

fn is_blank(byte: u8) -> bool
    ensures { result ≡ is_blank_byte byte }
{
    byte == b' ' || byte == b'\t'
}

// The field without the blanks at its start.
#[tactic(auto, unfolding(crate::specs::Fields::trim_start))]
fn trim_start(field: &[u8]) -> &[u8]
    ensures { result.now ≡ start_trimmed field.now }
{
    let mut rest = field;
    while let Some((first, others)) = rest.split_first() {
        if !is_blank(*first) {
            return rest;
        }
        rest = others;
    }
    rest
}

// The field without the blanks at its end.
#[tactic(auto, using(crate::proofs::Trimming::at_end), unfolding(crate::specs::Fields::trim_end))]
fn trim_end(field: &[u8]) -> &[u8]
    ensures { result.now ≡ end_trimmed field.now }
{
    let mut rest = field;
    while let Some((last, others)) = rest.split_last() {
        if !is_blank(*last) {
            return rest;
        }
        rest = others;
    }
    rest
}

/// The field without the spaces and tabs at both ends.
pub fn trim(field: &[u8]) -> &[u8]
    ensures { result.now ≡ trimmed field.now }
{
    trim_end(trim_start(field))
}

/// Whether the field is this very word, byte for byte.
pub fn is_text(field: &[u8], word: &[u8]) -> bool
    ensures { result ≡ bytes_eq field.now word.now }
{
    field == word
}
