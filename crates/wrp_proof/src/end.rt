//! Reads the lines of ends.
ghost use Rattle.std.specs.Prelude.{codes, ◌≡◌, ◌^◌, ◌≤◌, length, is_some, true, IfOk, IfErr, IfSome, IfNone, Some, None};
ghost use Rattle.wrp_rules.specs.Proofs.{longest_line};
ghost use Rattle.wrp_rules.specs.Layouts.{end_kinds};
ghost use Rattle.wrp_rules.specs.Contents.{content_of_end, keeps_number_rules};
ghost use Rattle.wrp_grammar.specs.Reading.{content_held};
ghost use Rattle.wrp_grammar.specs.Spelling.{content_in, spelled_end};
ghost use Rattle.wrp_proof.specs.Kinds.{is_end_kind};
ghost use Rattle.wrp_proof.specs.Ends.{line_fault, IsEndFault};

use crate::fault::LineFault;
use crate::kinds::{END_KINDS, end_kind, fault_in};
use crate::views::ViewFault;
use wrp_grammar::{ContentOf, read_content};
use wrp_rules::{End, Kind, LONGEST_LINE};

/// The end that a line spells.
///
/// # Errors
///
/// Form, Number or Long, never Memory.
pub fn read_end(line: &[u8]) -> Result<End, LineFault>
    ensures spelled { IfOk result (λ end. spelled_end line.now ≡ Some end) }
    ensures short { IfOk result (λ end. length line.now ≤ longest_line) }
    ensures fault { IfErr result (λ fault. IsEndFault line.now fault) }
    // No end is spelled by a line that is refused, unless it is long.
    ensures none { IfErr result (λ fault. length line.now ≤ longest_line
        → spelled_end line.now ≡ None) }
{
    if line.len() > LONGEST_LINE {
        return Err(LineFault::Long);
    }
    match end_of_line(line) {
        Some(end) => Ok(end),
        None => Err(as_line_fault(fault_in(&END_KINDS, line))),
    }
}

/// The same fault.
fn as_line_fault(fault: ViewFault) -> LineFault
    ensures { result ≡ line_fault fault }
{
    match fault {
        ViewFault::Form { at } => LineFault::Form { at },
        ViewFault::Number { at } => LineFault::Number { at },
        ViewFault::Long => LineFault::Long,
    }
}

/// The end that a line spells.
fn end_of_line(line: &[u8]) -> Option<End>
    ensures some { IfSome result (λ end. spelled_end line.now ≡ Some end) }
    ensures none { IfNone result (content_in end_kinds line.now ≡ None) }
{
    let (kind, left) = end_kind(line)?;
    let content = read_content(kind, left)?;
    end_of(&content)
}

/// The end with this content.
fn end_of(content: &ContentOf<'_>) -> Option<End>
    requires kind { is_end_kind content.now.kind ≡ true }
    requires rules { keeps_number_rules (content_held content.now) ≡ true }
    ensures some { is_some result ≡ true }
    ensures content { IfSome result (λ end. content_of_end end ≡ content_held content.now) }
{
    match content.kind {
        Kind::Optimal => Some(End::Optimal {
            cost: content.numbers.first,
        }),
        Kind::Infeasible => Some(End::Infeasible),
        Kind::Unfinished => Some(End::Unfinished {
            low: content.numbers.first,
            high: content.numbers.second,
        }),
        _ => None,
    }
}
