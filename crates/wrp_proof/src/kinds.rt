//! The kinds of the lines of records and of ends, and the faults of lines that are none of theirs.
ghost use Rattle.std.specs.Prelude.{◌≡◌, ◌∷◌, ◌++◌, ℕ, ◌<◌, ◌^◌, ◌≤◌, [], List, Some, None, nat_eq, true, false, length, IfSome, IfNone};
ghost use Rattle.std.specs.List.{starts_with};
ghost use Rattle.wrp_rules.specs.Proofs.{longest_line};
ghost use Rattle.wrp_rules.specs.Layouts.{layout_of as layout_of_kind, record_kinds, end_kinds};
ghost use Rattle.wrp_grammar.specs.Spelling.{content_in, content_behind};
ghost use Rattle.wrp_grammar.specs.Numbers.{is_right_line};
ghost use Rattle.wrp_proof.specs.Kinds.{is_record_kind, is_end_kind};
ghost use Rattle.wrp_proof.specs.Views.{IsFaultIn};

use crate::views::ViewFault;
use wrp_grammar::{form_place, number_place};
use wrp_rules::{Kind, layout_of};

pub(crate) const RECORD_KINDS: [Kind; 12] = [
    Kind::Tour,
    Kind::Conn,
    Kind::Odd,
    Kind::Round,
    Kind::Kc,
    Kind::Bound,
    Kind::Empty,
    Kind::Apart,
    Kind::Point,
    Kind::Blind,
    Kind::Split,
    Kind::Labels,
];

pub(crate) const END_KINDS: [Kind; 3] = [Kind::Optimal, Kind::Infeasible, Kind::Unfinished];

/// The kind of a record's line, by its letter, and what is left of the line.
pub(crate) fn record_kind(line: &[u8]) -> Option<(Kind, &[u8])>
    ensures kind { IfSome result (λ x. is_record_kind x.0 ≡ true) }
    ensures some { IfSome result (λ x. content_in record_kinds line.now
        ≡ content_behind x.0 x.1.now) }
    ensures none { IfNone result (content_in record_kinds line.now ≡ None) }
{
    let (letter, left) = line.split_first()?;
    let kind = kind_of_letter(*letter)?;
    Some((kind, left))
}

/// The kind of the records whose lines begin with this letter.
fn kind_of_letter(letter: u8) -> Option<Kind>
    ensures kind { IfSome result (λ kind. is_record_kind kind ≡ true) }
    ensures some { IfSome result (λ kind. (layout_of_kind kind).word ≡ letter ∷ []) }
    ensures none { IfNone result ((left : List ℕ)
        → content_in record_kinds (letter ∷ left) ≡ None) }
{
    match letter {
        b't' => Some(Kind::Tour),
        b'c' => Some(Kind::Conn),
        b'o' => Some(Kind::Odd),
        b'r' => Some(Kind::Round),
        b'k' => Some(Kind::Kc),
        b'b' => Some(Kind::Bound),
        b'e' => Some(Kind::Empty),
        b'a' => Some(Kind::Apart),
        b'p' => Some(Kind::Point),
        b'z' => Some(Kind::Blind),
        b's' => Some(Kind::Split),
        b'n' => Some(Kind::Labels),
        _ => None,
    }
}

/// The kind of an end's line, by its word, and what is left of the line.
pub(crate) fn end_kind(line: &[u8]) -> Option<(Kind, &[u8])>
    ensures kind { IfSome result (λ x. is_end_kind x.0 ≡ true) }
    ensures some { IfSome result (λ x. content_in end_kinds line.now ≡ content_behind x.0 x.1.now) }
    ensures none { IfNone result (content_in end_kinds line.now ≡ None) }
{
    if let Some(left) = behind_word(Kind::Optimal, line) {
        return Some((Kind::Optimal, left));
    }
    if let Some(left) = behind_word(Kind::Infeasible, line) {
        return Some((Kind::Infeasible, left));
    }
    if let Some(left) = behind_word(Kind::Unfinished, line) {
        return Some((Kind::Unfinished, left));
    }
    None
}

/// What is left of a line that begins with the word of a kind.
fn behind_word(kind: Kind, line: &[u8]) -> Option<&[u8]>
    ensures some { IfSome result (λ left. line.now ≡ (layout_of_kind kind).word ++ left.now) }
    ensures none { IfNone result (starts_with nat_eq line.now (layout_of_kind kind).word ≡ false) }
{
    line.strip_prefix(layout_of(kind).word)
}

/// The fault of a line that is none of these kinds, or whose numbers break a rule.
pub(crate) fn fault_in(kinds: &[Kind], line: &[u8]) -> ViewFault
    requires some { 0 < length kinds.now }
    requires short { length line.now ≤ longest_line }
    requires wrong { is_right_line kinds.now line.now ≡ false }
    ensures { IsFaultIn kinds.now line.now result }
{
    match form_place(kinds, line) {
        Some(at) => ViewFault::Form { at: at as u64 },
        None => ViewFault::Number {
            at: number_place(kinds, line) as u64,
        },
    }
}
