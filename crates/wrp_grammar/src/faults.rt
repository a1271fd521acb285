//! Where a line leaves the shapes of some kinds of lines, and where its first wrong number stands.
ghost use Rattle.std.specs.Prelude.{◌≡◌, ◌<◌, ◌≤◌, not, true, false, is_some, length, slice_index, ℕ, IfSome};
ghost use Rattle.wrp_rules.specs.Layouts.{layout_of as layout_of_kind};
ghost use Rattle.wrp_grammar.specs.Fronts.{IsLongestFront, IsLeftFront, is_left};
ghost use Rattle.wrp_grammar.specs.Shapes.{has_parts_shape, is_in_layout, is_of_kinds};
ghost use Rattle.wrp_grammar.specs.Numbers.{is_right_in, is_right_line, IsFirstBadOf, IsFirstBadNumber};

use crate::place::parts_form;
use crate::ranges::parts_number;
use crate::text::goes_on_with_space;
use wrp_rules::{Kind, Range, Tail, layout_of};

/// The place at which a line leaves the shapes of these kinds; `None` where it is in one of them.
pub fn form_place(kinds: &[Kind], line: &[u8]) -> Option<usize>
    requires { 0 < length kinds.now }
    ensures broken { is_some result ≡ not (is_of_kinds kinds.now line.now) }
    ensures within { IfSome result (λ at. at ≤ length line.now) }
    ensures front { IfSome result (λ at. IsLongestFront (is_of_kinds kinds.now) line.now at) }
{
    let mut front = 0;
    for kind in kinds {
        match kind_form(*kind, line) {
            Some(at) => front = front.max(at),
            None => return None,
        }
    }
    Some(front)
}

/// The place of the first number that breaks a rule, in a line in the shape of one of these kinds.
pub fn number_place(kinds: &[Kind], line: &[u8]) -> usize
    requires shape { is_of_kinds kinds.now line.now ≡ true }
    requires wrong { is_right_line kinds.now line.now ≡ false }
    ensures within { result ≤ length line.now }
    ensures first { IsFirstBadNumber kinds.now line.now result }
{
    for kind in kinds {
        if kind_form(*kind, line).is_none() {
            return kind_number(*kind, line);
        }
    }
    line.len()
}

/// The place at which a line leaves the shape of a kind.
fn kind_form(kind: Kind, line: &[u8]) -> Option<usize>
    ensures broken { is_some result ≡ not (is_in_layout (layout_of_kind kind) line.now) }
    ensures front { IfSome result
        (λ at. IsLongestFront (is_in_layout (layout_of_kind kind)) line.now at) }
{
    let layout = layout_of(kind);
    let shared = shared(line, layout.word);
    if shared < layout.word.len() {
        return Some(shared);
    }
    match left_form(&line[shared..], layout.numbers, layout.tail) {
        Some(at) => Some(shared + at),
        None => None,
    }
}

/// The place at which what is left of a line behind its word leaves the shape of its kind.
fn left_form(left: &[u8], numbers: &[Range], tail: Tail) -> Option<usize>
    ensures broken { is_some result ≡ not (is_left (has_parts_shape numbers.now tail) left.now) }
    ensures front { IfSome result
        (λ at. IsLeftFront (has_parts_shape numbers.now tail) left.now at) }
{
    if goes_on_with_space(left) {
        parts_form(left, numbers, tail)
    } else {
        Some(0)
    }
}

/// The number of bytes with which both texts begin.
fn shared(line: &[u8], text: &[u8]) -> usize
    ensures line { result ≤ length line.now }
    ensures text { result ≤ length text.now }
    ensures same { (k : ℕ) → k < result → slice_index line.now k ≡ slice_index text.now k }
    ensures longest { result < length text.now → result < length line.now
        → slice_index line.now result ≡ slice_index text.now result → ⊥ }
{
    for (place, byte) in text.iter().enumerate() {
        if place >= line.len() || line[place] != *byte {
            return place;
        }
    }
    text.len()
}

/// The place of the first number that breaks a rule, in a line in the shape of this kind.
fn kind_number(kind: Kind, line: &[u8]) -> usize
    requires { is_in_layout (layout_of_kind kind) line.now ≡ true }
    ensures within { result ≤ length line.now }
    ensures first { is_right_in kind line.now ≡ false → IsFirstBadOf kind line.now result }
{
    let layout = layout_of(kind);
    let behind = layout.word.len();
    behind + parts_number(&line[behind..], layout.numbers, layout.tail)
}
