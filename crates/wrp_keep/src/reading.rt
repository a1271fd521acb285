// Reading back what a log holds.
ghost use Rattle.std.specs.Prelude.{◌≡◌, ◌<◌, ◌≤◌, length};
ghost use Rattle.wrp_rules.specs.Proofs.{longest_line};
ghost use Rattle.wrp_keep.specs.Reopens.{lines_in, AreWritable, AddsLine, AddsLines, IsCommon};

use std::alloc::Global;
use wrp_proof::{LineFault, read_record};
use wrp_rules::Rule;
use wrp_tree::{ApplyFault, Tree};

/// Why the record of a line isn't added.
#[derive(Clone, Copy, Debug, PartialEq, Eq)]
pub(crate) enum RecordFault {
    Broken { rule: Rule },
    Memory,
}

/// Adds the record that a line spells, or says which rule is broken.
fn add_line(alloc: Global, tree: &mut Tree<'_>, line: &[u8]) -> Result<(), RecordFault>
    requires { length line.now ≤ longest_line }
    ensures town { tree.new.town ≡ tree.old.town }
    ensures adds { AddsLine tree.old.town line.now tree.old.records tree.new.records result }
    ensures writable { AreWritable tree.old.records → AreWritable tree.new.records }
{
    match read_record(alloc, line) {
        Ok(item) => match tree.apply(item) {
            Ok(()) => Ok(()),
            Err(ApplyFault::Refused { rule, .. }) => Err(RecordFault::Broken { rule }),
            Err(ApplyFault::Memory) => Err(RecordFault::Memory),
        },
        Err(LineFault::Form { .. }) => Err(RecordFault::Broken { rule: Rule::Form }),
        Err(LineFault::Number { .. }) => Err(RecordFault::Broken { rule: Rule::Number }),
        Err(LineFault::Long) => unreachable!(),
        Err(LineFault::Memory) => Err(RecordFault::Memory),
    }
}

/// Adds the records of the lines of a payload.
pub(crate) fn add_lines(
    alloc: Global,
    tree: &mut Tree<'_>,
    payload: &[u8],
) -> Result<(), RecordFault>
    requires { length payload.now ≤ longest_line }
    ensures town { tree.new.town ≡ tree.old.town }
    ensures adds { AddsLines tree.old.town (lines_in payload.now)
        tree.old.records tree.new.records result }
    ensures writable { AreWritable tree.old.records → AreWritable tree.new.records }
{
    for line in payload.split(|byte| *byte == b'\n') {
        add_line(alloc, tree, line)?;
    }
    Ok(())
}

/// How many bytes two texts have in common at their front.
pub(crate) fn common_front(one: &[u8], other: &[u8]) -> usize
    ensures { IsCommon result one.now other.now }
{
    let mut at = 0;
    while at < one.len() && at < other.len() && one[at] == other[at] {
        at += 1;
    }
    at
}
