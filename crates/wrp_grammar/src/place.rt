//! Where what is left of a line behind its word breaks the shape of its kind.
ghost use Rattle.std.specs.Prelude.{◌≡◌, ◌≤◌, not, true, is_some, length, IfSome};
ghost use Rattle.std.specs.Char.{is_ascii_digit};
ghost use Rattle.std.specs.List.{list_all, prefix_len};
ghost use Rattle.wrp_grammar.specs.Fronts.{IsLongestFront, IsLeftFront};
ghost use Rattle.wrp_grammar.specs.Parts.{parts_of, is_spaced, is_digits, is_step_shape, is_pair_shape};
ghost use Rattle.wrp_grammar.specs.Shapes.{is_nothing, is_label, has_labels_shape, is_part_of, has_tail_shape, has_parts_shape};

use crate::labels::is_slash_text;
use crate::text::{halves, is_digits_text, is_sign_byte, split_part};
use wrp_rules::{Range, Tail};

/// The place at which what is left of a line breaks the shape of leading numbers and a tail.
pub fn parts_form(left: &[u8], numbers: &[Range], tail: Tail) -> Option<usize>
    requires { is_spaced left.now ≡ true }
    ensures broken { is_some result ≡ not (has_parts_shape numbers.now tail (parts_of left.now)) }
    ensures front { IfSome result
        (λ at. IsLeftFront (has_parts_shape numbers.now tail) left.now at) }
{
    let Some((_, ranges)) = numbers.split_first() else {
        return tail_form(left, tail);
    };
    let Some((number, others)) = split_part(left) else {
        return Some(0);
    };
    if let Some(at) = digits_form(number) {
        return Some(1 + at);
    }
    match parts_form(others, ranges, tail) {
        Some(at) => Some(1 + number.len() + at),
        None => None,
    }
}

/// The place at which what is left of a line breaks the shape of what follows the leading numbers.
fn tail_form(left: &[u8], tail: Tail) -> Option<usize>
    requires { is_spaced left.now ≡ true }
    ensures broken { is_some result ≡ not (has_tail_shape tail (parts_of left.now)) }
    ensures front { IfSome result (λ at. IsLeftFront (has_tail_shape tail) left.now at) }
{
    match tail {
        Tail::Nothing => nothing_form(left),
        Tail::Labels => labels_form(left),
        Tail::Steps | Tail::Set | Tail::Indexes | Tail::Multipliers { .. } | Tail::Pairs { .. } =>
            list_form(left, tail),
    }
}

/// The place at which what is left of a line breaks the shape of no part.
fn nothing_form(left: &[u8]) -> Option<usize>
    requires { is_spaced left.now ≡ true }
    ensures broken { is_some result ≡ not (is_nothing (parts_of left.now)) }
    ensures front { IfSome result (λ at. IsLeftFront is_nothing left.now at) }
{
    if split_part(left).is_some() {
        Some(0)
    } else {
        None
    }
}

/// The place at which what is left of a line breaks the shape of labels, a slash, and streets.
fn labels_form(line: &[u8]) -> Option<usize>
    requires { is_spaced line.now ≡ true }
    ensures broken { is_some result ≡ not (has_labels_shape (parts_of line.now)) }
    ensures front { IfSome result (λ at. IsLeftFront has_labels_shape line.now at) }
{
    let mut left = line;
    while let Some((part, others)) = split_part(left) {
        if is_slash_text(part) {
            let place = line.len() - others.len();
            return match list_form(others, Tail::Indexes) {
                Some(at) => Some(place + at),
                None => None,
            };
        }
        if !is_digits_text(part) {
            return Some(line.len() - left.len() + 1 + label_form(part));
        }
        left = others;
    }
    Some(line.len())
}

/// The place at which a part breaks the shapes of a label and of a slash.
fn label_form(part: &[u8]) -> usize
    ensures { IsLongestFront is_label part.now result }
{
    let Some((byte, _)) = part.split_first() else {
        return 0;
    };
    if *byte == b'/' {
        1
    } else {
        digits_before(part)
    }
}

/// The place at which what is left of a line breaks the shape of parts that are each like this.
fn list_form(line: &[u8], tail: Tail) -> Option<usize>
    requires { is_spaced line.now ≡ true }
    ensures broken { is_some result ≡ not (list_all (is_part_of tail) (parts_of line.now)) }
    ensures front { IfSome result (λ at. IsLeftFront (list_all (is_part_of tail)) line.now at) }
{
    let mut left = line;
    while let Some((part, others)) = split_part(left) {
        if let Some(at) = part_form(part, tail) {
            return Some(line.len() - left.len() + 1 + at);
        }
        left = others;
    }
    None
}

/// The place at which a part breaks its shape.
fn part_form(part: &[u8], tail: Tail) -> Option<usize>
    ensures broken { is_some result ≡ not (is_part_of tail part.now) }
    ensures front { IfSome result (λ at. IsLongestFront (is_part_of tail) part.now at) }
{
    match tail {
        Tail::Steps => step_form(part),
        Tail::Multipliers { .. } | Tail::Pairs { .. } => pair_form(part),
        Tail::Nothing | Tail::Set | Tail::Indexes | Tail::Labels => digits_form(part),
    }
}

/// The place at which a part breaks the shape of a number.
fn digits_form(part: &[u8]) -> Option<usize>
    ensures broken { is_some result ≡ not (is_digits part.now) }
    ensures front { IfSome result (λ at. IsLongestFront is_digits part.now at) }
{
    if is_digits_text(part) {
        None
    } else {
        Some(digits_before(part))
    }
}

/// The place at which a part breaks the shape of a step.
fn step_form(part: &[u8]) -> Option<usize>
    ensures broken { is_some result ≡ not (is_step_shape part.now) }
    ensures front { IfSome result (λ at. IsLongestFront is_step_shape part.now at) }
{
    match part.split_last() {
        Some((sign, street)) if is_sign_byte(*sign) && is_digits_text(street) => None,
        _ => Some(step_before(part)),
    }
}

/// The number of bytes with which a text begins as a step does.
fn step_before(text: &[u8]) -> usize
    ensures { IsLongestFront is_step_shape text.now result }
{
    let digits = digits_before(text);
    if digits > 0 && digits < text.len() && is_sign_byte(text[digits]) {
        digits + 1
    } else {
        digits
    }
}

/// The place at which a part breaks the shape of a pair.
fn pair_form(part: &[u8]) -> Option<usize>
    ensures broken { is_some result ≡ not (is_pair_shape part.now) }
    ensures front { IfSome result (λ at. IsLongestFront is_pair_shape part.now at) }
{
    let (first, second) = halves(part);
    if is_digits_text(first) && is_digits_text(second) {
        None
    } else {
        Some(pair_before(part))
    }
}

/// The number of bytes with which a text begins as a pair does.
fn pair_before(text: &[u8]) -> usize
    ensures { IsLongestFront is_pair_shape text.now result }
{
    let first = digits_before(text);
    if first > 0 && first < text.len() && text[first] == b':' {
        first + 1 + digits_before(&text[first + 1..])
    } else {
        first
    }
}

/// The number of digits with which a text begins.
fn digits_before(text: &[u8]) -> usize
    ensures within { result ≤ length text.now }
    ensures digits { result ≡ prefix_len is_ascii_digit text.now }
{
    for (place, byte) in text.iter().enumerate() {
        if !byte.is_ascii_digit() {
            return place;
        }
    }
    text.len()
}
