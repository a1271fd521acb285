//! Reads the lines of records.
ghost use Rattle.std.specs.Prelude.{◌≡◌, ◌^◌, ◌≤◌, Some, None, true, is_some, length, IfOk, IfErr, IfSome, IfNone};
ghost use Rattle.wrp_rules.specs.Proofs.{longest_line};
ghost use Rattle.wrp_rules.specs.Layouts.{record_kinds};
ghost use Rattle.wrp_rules.specs.Contents.{NoItems, Steps, Numbers, Pairs, TwoLists, content_of, keeps_number_rules};
ghost use Rattle.wrp_grammar.specs.Reading.{content_held, content_with};
ghost use Rattle.wrp_grammar.specs.Spelling.{content_in, spelled};
ghost use Rattle.wrp_proof.specs.Kinds.{is_record_kind};
ghost use Rattle.wrp_proof.specs.Views.{record_of, IsFaultOf};

use crate::kinds::{RECORD_KINDS, fault_in, record_kind};
use crate::views::{View, ViewFault};
use wrp_grammar::{ContentOf, ItemsOf, Leading, NumbersOf, PairsOf, StepsOf, read_content};
use wrp_rules::{Kind, LONGEST_LINE};

/// The view of the line of a record.
///
/// A view lends from its line and can't be kept after it. So the compiler refuses this function,
/// since it returns a value that lends from its own variable `line`:
///
/// ```compile_fail
/// fn kept_view(alloc: Global) -> Result<View<'static>, AllocError> {
///     let line = Vec::from_slice(alloc, b"b 0 2 1:1 3:5")?;
///     match view(line.as_slice()) {
///         Ok(view) => Ok(view),
///         Err(_) => Ok(View::Blind { node: 0 }),
///     }
/// }
/// ```
///
/// # Errors
///
/// `Long` where the line has more than 2^28 bytes, else `Form` where it isn't in the shape of a
/// record, and else `Number`.
pub fn view(line: &[u8]) -> Result<View<'_>, ViewFault>
    ensures spelled { IfOk result (λ v. spelled line.now ≡ Some (record_of v)) }
    ensures short { IfOk result (λ v. length line.now ≤ longest_line) }
    ensures fault { IfErr result (λ fault. IsFaultOf line.now fault) }
    // No record is spelled by a line that is refused, unless it is long.
    ensures none { IfErr result (λ fault. length line.now ≤ longest_line
        → spelled line.now ≡ None) }
{
    if line.len() > LONGEST_LINE {
        return Err(ViewFault::Long);
    }
    match view_of_line(line) {
        Some(view) => Ok(view),
        None => Err(fault_in(&RECORD_KINDS, line)),
    }
}

/// The view of the record that a line spells.
fn view_of_line(line: &[u8]) -> Option<View<'_>>
    ensures some { IfSome result (λ v. spelled line.now ≡ Some (record_of v)) }
    ensures none { IfNone result (content_in record_kinds line.now ≡ None) }
{
    let (kind, left) = record_kind(line)?;
    let content = read_content(kind, left)?;
    view_of(content)
}

/// The view of a record with this content.
fn view_of(content: ContentOf<'_>) -> Option<View<'_>>
    requires kind { is_record_kind content.kind ≡ true }
    requires rules { keeps_number_rules (content_held content) ≡ true }
    ensures some { is_some result ≡ true }
    ensures content { IfSome result (λ v. content_of (record_of v) ≡ content_held content.entry) }
{
    let ContentOf {
        kind,
        numbers,
        items,
    } = content;
    match items {
        ItemsOf::Nothing => view_of_nothing(kind, numbers),
        ItemsOf::Steps(steps) => view_of_steps(kind, numbers, steps),
        ItemsOf::Numbers(list) => view_of_numbers(kind, numbers, list),
        ItemsOf::Pairs(pairs) => view_of_pairs(kind, numbers, pairs),
        ItemsOf::TwoLists(labels, streets) => view_of_lists(kind, numbers, labels, streets),
    }
}

fn view_of_nothing<'a>(kind: Kind, numbers: Leading) -> Option<View<'a>>
    requires kind { is_record_kind kind ≡ true }
    requires rules { keeps_number_rules (content_with kind numbers NoItems) ≡ true }
    ensures some { is_some result ≡ true }
    ensures content { IfSome result (λ v. content_of (record_of v)
        ≡ content_with kind numbers NoItems) }
{
    match kind {
        Kind::Blind => Some(View::Blind {
            node: numbers.first,
        }),
        Kind::Split => Some(View::Split {
            node: numbers.first,
            arc: numbers.second as u32,
            k: numbers.third as u32,
        }),
        _ => None,
    }
}

fn view_of_steps(kind: Kind, numbers: Leading, steps: StepsOf<'_>) -> Option<View<'_>>
    requires { keeps_number_rules (content_with kind numbers (Steps steps)) ≡ true }
    ensures some { is_some result ≡ true }
    ensures content { IfSome result (λ v. content_of (record_of v)
        ≡ content_with kind numbers (Steps steps.entry)) }
{
    match kind {
        Kind::Tour => Some(View::Tour {
            cost: numbers.first,
            steps,
        }),
        _ => None,
    }
}

fn view_of_numbers(kind: Kind, numbers: Leading, list: NumbersOf<'_>) -> Option<View<'_>>
    requires { keeps_number_rules (content_with kind numbers (Numbers list)) ≡ true }
    ensures some { is_some result ≡ true }
    ensures content { IfSome result (λ v. content_of (record_of v)
        ≡ content_with kind numbers (Numbers list.entry)) }
{
    match kind {
        Kind::Conn => Some(View::Conn {
            r1: numbers.first as u32,
            r2: numbers.second as u32,
            set: list,
        }),
        Kind::Odd => Some(View::Odd { set: list }),
        Kind::Kc => Some(View::Kc {
            k: numbers.first as u32,
            of: list,
        }),
        Kind::Apart => Some(View::Apart {
            node: numbers.first,
            r1: numbers.second as u32,
            r2: numbers.third as u32,
            set: list,
        }),
        _ => None,
    }
}

fn view_of_pairs(kind: Kind, numbers: Leading, pairs: PairsOf<'_>) -> Option<View<'_>>
    requires { keeps_number_rules (content_with kind numbers (Pairs pairs)) ≡ true }
    ensures some { is_some result ≡ true }
    ensures content { IfSome result (λ v. content_of (record_of v)
        ≡ content_with kind numbers (Pairs pairs.entry)) }
{
    match kind {
        Kind::Round => Some(View::Round {
            divisor: numbers.first,
            mult: pairs,
        }),
        Kind::Bound => Some(View::Bound {
            node: numbers.first,
            den: numbers.second,
            mult: pairs,
        }),
        Kind::Empty => Some(View::Empty {
            node: numbers.first,
            mult: pairs,
        }),
        Kind::Point => Some(View::Point {
            node: numbers.first,
            den: numbers.second,
            numbers: pairs,
        }),
        _ => None,
    }
}

fn view_of_lists<'a>(
    kind: Kind,
    numbers: Leading,
    labels: NumbersOf<'a>,
    streets: NumbersOf<'a>,
) -> Option<View<'a>>
    requires { keeps_number_rules (content_with kind numbers (TwoLists labels streets)) ≡ true }
    ensures some { is_some result ≡ true }
    ensures content { IfSome result (λ v. content_of (record_of v)
        ≡ content_with kind numbers (TwoLists labels.entry streets.entry)) }
{
    match kind {
        Kind::Labels => Some(View::Labels { labels, streets }),
        _ => None,
    }
}
