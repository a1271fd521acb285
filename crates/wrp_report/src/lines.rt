//! The lines of a report.
ghost use Rattle.std.specs.Prelude.{◌≡◌, ◌<◌, ◌++◌, true, codes, length, IfOk, OnOk};
ghost use Rattle.std.specs.Fmt.{decimal};
ghost use Rattle.std.specs.String.{string_bytes};
ghost use Rattle.wrp_town.specs.Arcs.{arc_of, is_legal};
ghost use Rattle.wrp_rules.specs.Lines.{end_text as text_of_end, step_text as text_of_step};
ghost use Rattle.wrp_rules.specs.Proofs.{ended};
ghost use Rattle.wrp_report.specs.Texts.{class_name as name_of_class, town_line as line_of_town, counts_line as line_of_counts, number_line, step_line as line_of_step, size_text as text_of_size, tabbed as with_tabs};

use crate::answer::Answer;
use std::alloc::{AllocError, Global};
use wrp_rules::End;
use wrp_town::{Class, Step, Town, class_of, demand_count};
use wrp_writer::write_end;

/// Adds a line and a line feed to a text.
pub(crate) fn push_line(text: &mut Vec<u8>, line: &[u8]) -> Result<(), AllocError>
    ensures { OnOk result (text.new.items ≡ text.old.items ++ ended line.now) }
{
    text.extend_from_slice(line)?;
    text.push(b'\n')?;
    Ok(())
}

/// How an end begins, in its line.
const END_WORD: &[u8] = b"end ";

/// What an end says: its line without `end `.
pub(crate) fn end_text(alloc: Global, end: &End) -> Result<Vec<u8>, AllocError>
    ensures { IfOk result (λ text. text.items ≡ text_of_end end.now) }
{
    let line = write_end(alloc, end)?;
    line.as_slice()
        .iter()
        .skip(END_WORD.len())
        .copied()
        .collect(alloc)
}

/// The word of a class.
fn class_name(class: Class) -> &'static str
    ensures { result.now ≡ name_of_class class }
{
    match class {
        Class::Empty => "empty",
        Class::Directed => "directed",
        Class::Rural => "rural",
        Class::Mixed => "mixed",
        Class::Windy => "windy",
    }
}

/// How large a town is, and its class.
pub(crate) fn town_line(alloc: Global, town: &Town) -> Result<String, AllocError>
    ensures { IfOk result (λ line. string_bytes line ≡ line_of_town town.now) }
{
    size_text(
        alloc,
        town.streets.len(),
        town.junctions.len(),
        demand_count(town),
        class_name(class_of(town)),
    )
}

fn size_text(
    alloc: Global,
    streets: usize,
    junctions: usize,
    required: u32,
    class: &str,
) -> Result<String, AllocError>
    ensures { IfOk result (λ line. string_bytes line
        ≡ text_of_size streets junctions required class.now) }
{
    format!(in alloc; "streets {streets} junctions {junctions} required {required} class {class}")
}

/// The numbers of a search.
pub(crate) fn counts_line(alloc: Global, answer: &Answer) -> Result<String, AllocError>
    ensures { IfOk result (λ line. string_bytes line ≡ line_of_counts answer.now) }
{
    let nodes = answer.nodes;
    let done = answer.done;
    let cuts = answer.cuts;
    let blind = answer.blind;
    format!(in alloc; "nodes {nodes} done {done} cuts {cuts} blind {blind}")
}

/// How many steps a walk has.
pub(crate) fn steps_line(alloc: Global, count: usize) -> Result<String, AllocError>
    ensures { IfOk result (λ line. string_bytes line ≡ number_line (codes "steps") count) }
{
    format!(in alloc; "steps {count}")
}

/// How many stops there are.
pub(crate) fn stops_line(alloc: Global, count: usize) -> Result<String, AllocError>
    ensures { IfOk result (λ line. string_bytes line ≡ number_line (codes "stops") count) }
{
    format!(in alloc; "stops {count}")
}

/// How many turns are banned.
pub(crate) fn bans_line(alloc: Global, count: usize) -> Result<String, AllocError>
    ensures { IfOk result (λ line. string_bytes line ≡ number_line (codes "bans") count) }
{
    format!(in alloc; "bans {count}")
}

/// The name of a base.
pub(crate) fn base_line(alloc: Global, name: &str) -> Result<String, AllocError>
    ensures { IfOk result (λ line. string_bytes line ≡ codes "base " ++ name.now) }
{
    format!(in alloc; "base {name}")
}

/// A step, as a proof writes it.
fn step_text(alloc: Global, step: Step) -> Result<String, AllocError>
    ensures { IfOk result (λ text. string_bytes text ≡ text_of_step step) }
{
    let street = step.street;
    if step.back {
        format!(in alloc; "{street}-")
    } else {
        format!(in alloc; "{street}+")
    }
}

/// One step with its street, its ends and its cost.
pub(crate) fn step_line(alloc: Global, town: &Town, step: Step) -> Result<String, AllocError>
    requires { is_legal town.now (arc_of step) ≡ true }
    ensures { IfOk result (λ line. string_bytes line ≡ line_of_step town.now step) }
{
    let junctions = town.junctions.as_slice();
    let text = step_text(alloc, step)?;
    tabbed(
        alloc,
        text.as_str(),
        town.streets.as_slice()[step.street as usize].name.as_str(),
        junctions[town.tail(step.arc()) as usize].as_str(),
        junctions[town.head(step.arc()) as usize].as_str(),
        town.step_cost(step).unwrap_or(0),
    )
}

fn tabbed(
    alloc: Global,
    step: &str,
    street: &str,
    from: &str,
    to: &str,
    cost: u32,
) -> Result<String, AllocError>
    ensures { IfOk result (λ line. string_bytes line
        ≡ with_tabs step.now street.now from.now to.now cost) }
{
    format!(in alloc; "{step}\t{street}\t{from}\t{to}\t{cost}")
}
