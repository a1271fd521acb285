//! The labels and the streets of a line, on both sides of its slash.
ghost use Rattle.std.specs.Prelude.{◌≡◌, is_some, true, IfSome};
ghost use Rattle.std.specs.List.{list_any, before_first, after_first};
ghost use Rattle.wrp_grammar.specs.Parts.{is_spaced, parts_of};
ghost use Rattle.wrp_grammar.specs.Shapes.{is_slash};

use crate::text::split_part;

/// What is left of a line before the first part that is a slash, and after it.
pub fn label_halves(line: &[u8]) -> Option<(&[u8], &[u8])>
    requires { is_spaced line.now ≡ true }
    ensures some { is_some result ≡ list_any is_slash (parts_of line.now) }
    ensures labels { IfSome result (λ x. parts_of x.0.now
        ≡ before_first is_slash (parts_of line.now)) }
    ensures streets { IfSome result (λ x. parts_of x.1.now
        ≡ after_first is_slash (parts_of line.now)) }
{
    let mut left = line;
    while let Some((part, others)) = split_part(left) {
        if is_slash_text(part) {
            return Some((&line[..line.len() - left.len()], others));
        }
        left = others;
    }
    None
}

/// Whether a part is a slash.
pub fn is_slash_text(part: &[u8]) -> bool
    ensures { result ≡ is_slash part.now }
{
    part == b"/".as_slice()
}
