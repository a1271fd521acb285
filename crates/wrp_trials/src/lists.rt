//! Lists of records, judged by the tree and by the checker.

use std::alloc::{AllocError, Global};
use std::test::Fail;
use wrp_check::{CheckFault, check};
use wrp_out::SteadySource;
use wrp_proof::read_record;
use wrp_rules::{End, Record, Rule};
use wrp_street::Town;
use wrp_tree::{PrepareFault, Tree};
use wrp_writer::{proof_text, writable};

/// What a list leads to: the end that it agrees with, or the line of its text that is refused, and
/// the rule.
pub(crate) type Verdict = Result<End, (u64, Rule)>;

/// The end of a list that agrees with none.
pub(crate) const NO_END: End = End::Unfinished { low: 0, high: 0 };

/// Adds a record at the end of a tree, or says which rule it breaks.
pub(crate) fn judged(tree: &mut Tree<'_>, item: Record) -> Result<Option<Rule>, AllocError> {
    if !writable(&item) {
        return Ok(Some(Rule::Number));
    }
    match tree.prepare(&item) {
        Ok(()) => {
            tree.commit(item);
            Ok(None)
        }
        Err(PrepareFault::Refused { rule }) => Ok(Some(rule)),
        Err(PrepareFault::Memory) => Err(AllocError),
    }
}

/// The end that agrees with the list of a tree.
pub(crate) fn end_of(tree: &Tree<'_>) -> Option<End> {
    if let Some(Record::Labels { .. }) = tree.records().first() {
        return Some(End::Infeasible);
    }
    let high = tree.upper()?;
    if tree.open_node().is_none() {
        return Some(End::Optimal { cost: high });
    }
    let low = u64::try_from(tree.lower()?).ok()?;
    Some(End::Unfinished { low, high })
}

/// The line behind the version and so many records.
pub(crate) fn line_behind(records: usize) -> u64 {
    u64::try_from(records).unwrap_or(0).saturating_add(2)
}

/// Adds records at the end of a tree. The first that is refused, by its line in a text of them all,
/// and its rule.
pub(crate) fn refusal(
    tree: &mut Tree<'_>,
    items: &[Record],
) -> Result<Option<(u64, Rule)>, AllocError> {
    for (at, item) in items.iter().enumerate() {
        if let Some(rule) = judged(tree, item.clone()?)? {
            return Ok(Some((line_behind(at), rule)));
        }
    }
    Ok(None)
}

/// What an empty tree says of records in turn.
fn verdict(tree: &mut Tree<'_>, items: &[Record]) -> Result<Verdict, AllocError> {
    if let Some(refused) = refusal(tree, items)? {
        return Ok(Err(refused));
    }
    match end_of(tree) {
        Some(end) => Ok(Ok(end)),
        None => Ok(Err((line_behind(items.len()), Rule::End))),
    }
}

/// What the tree of a town says of records in turn.
pub(crate) fn by_tree(alloc: Global, town: &Town, items: &[Record]) -> Result<Verdict, AllocError> {
    let mut tree = Tree::new(alloc, town)?;
    verdict(&mut tree, items)
}

/// What the checker says of the text of records and an end.
pub(crate) fn by_check(
    alloc: Global,
    town: &Town,
    items: &[Record],
    end: End,
) -> Result<Verdict, AllocError> {
    let text = proof_text(alloc, items, &end)?;
    let mut proof = SteadySource::new(alloc, text.as_slice())?;
    match check(alloc, town, &mut proof) {
        Ok(end) => Ok(Ok(end)),
        Err(CheckFault::Refused { line, rule }) => Ok(Err((line, rule))),
        Err(_) => Err(AllocError),
    }
}

/// The records of some lines.
pub(crate) fn records_of(alloc: Global, lines: &str) -> Result<Vec<Record>, Fail> {
    let mut items = Vec::new(alloc);
    for line in lines.lines() {
        items.push(read_record(alloc, line.as_bytes())?)?;
    }
    Ok(items)
}
