// Writing records as lines of text. After want of memory a part of what is written may stand.

ghost use Rattle.std.specs.Prelude.{◌≡◌, ◌++◌, ◌∷◌, [], OnOk};
ghost use Rattle.std.specs.List.{list_any};
ghost use Rattle.wrp_records.specs.Lines.{after_commas, doubled, field_text, is_mark, line_text, texts_of};

use std::alloc::AllocError;

fn needs_quotes(field: &[u8]) -> bool
    ensures { result ≡ list_any is_mark field.now }
{
    field.iter().any(|byte| *byte == b',' || *byte == b'"')
}

// Writes a field with each double quote doubled.
fn push_doubled(out: &mut Vec<u8>, field: &[u8]) -> Result<(), AllocError>
    ensures { OnOk result (out.new.items ≡ out.old.items ++ doubled field.now) }
{
    for byte in field {
        if *byte == b'"' {
            out.push(b'"')?;
        }
        out.push(*byte)?;
    }
    Ok(())
}

// Writes a field, in double quotes where it holds a comma or a double quote.
#[tactic(auto, unfolding(crate::specs::Lines::field_text))]
fn push_field(out: &mut Vec<u8>, field: &[u8]) -> Result<(), AllocError>
    ensures { OnOk result (out.new.items ≡ out.old.items ++ field_text field.now) }
{
    if !needs_quotes(field) {
        out.extend_from_slice(field)?;
        return Ok(());
    }
    out.push(b'"')?;
    push_doubled(out, field)?;
    out.push(b'"')?;
    Ok(())
}

// Writes fields, each after a comma.
fn push_after_commas(out: &mut Vec<u8>, fields: &[&[u8]]) -> Result<(), AllocError>
    ensures { OnOk result (out.new.items ≡ out.old.items ++ after_commas (texts_of fields.now)) }
{
    for field in fields {
        out.push(b',')?;
        push_field(out, field)?;
    }
    Ok(())
}

/// Writes a record as a line: its fields with commas between them, each in double quotes exactly
/// where it holds a comma or a double quote, and LF. After want of memory a part of it may stand.
#[tactic(auto, unfolding(crate::specs::Lines::line_text))]
pub fn push_line(out: &mut Vec<u8>, fields: &[&[u8]]) -> Result<(), AllocError>
    ensures { OnOk result (out.new.items ≡ out.old.items ++ line_text (texts_of fields.now)) }
{
    if let Some((first, others)) = fields.split_first() {
        push_field(out, first)?;
        push_after_commas(out, others)?;
    }
    out.push(b'\n')?;
    Ok(())
}
