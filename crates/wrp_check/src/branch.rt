//! Records that branch: points, blind marks and splits; and labels.
ghost use Rattle.std.specs.Prelude.{◌≡◌, ◌<◌, None, Ok, true, length, IfOk, OnOk};
ghost use Rattle.std.specs.List.{list_all};
ghost use Rattle.wrp_town.specs.Arcs.{is_legal};
ghost use Rattle.wrp_rules.specs.declared.record.Record.TheVariants.{Point, Blind, Split, Labels};
ghost use Rattle.wrp_rules.specs.Contents.{has_number_rules};
ghost use Rattle.wrp_rules.specs.Nodes.{Standing, node_at};
ghost use Rattle.wrp_rules.specs.Rules.{parts_range};
ghost use Rattle.wrp_nodes.specs.Tables.{IsAtRest};
ghost use Rattle.wrp_check.specs.Judging.{IsKept, IsSound, IsIdle, Tries};

use crate::gather::{gather_numbers, gather_pairs};
use crate::kept::{Kept, Past};
use crate::work::Work;
use std::alloc::AllocError;
use wrp_nodes::{Boxes, UseRange};
use wrp_points::{broken_labels, broken_point};
use wrp_proof::{NumbersOf, PairsOf, Rule};
use wrp_town::Town;

/// Whether an arc is there and legal.
fn is_legal(town: &Town, arc: u32) -> bool
    ensures { result ≡ is_legal town.now arc }
{
    (arc as usize) < 2 * town.streets.len() && town.cost(arc).is_some()
}

/// Whether the arc of each pair is there and legal.
fn are_legal(town: &Town, pairs: &[(u32, u128)]) -> bool
    ensures { result ≡ list_all (λ q. is_legal town.now q.0) pairs.now }
{
    pairs.iter().all(|pair| is_legal(town, pair.0))
}

/// Takes a point, or says which rule it breaks.
pub(crate) fn take_point(
    town: &Town,
    work: &mut Work,
    kept: &mut Kept,
    node: u64,
    denominator: u64,
    numbers: &PairsOf<'_>,
) -> Result<Option<Rule>, AllocError>
    requires idle { IsIdle town.now work.old }
    requires sound { IsSound town.now kept.old }
    requires numbers { has_number_rules (Point node denominator numbers.now) ≡ true }
    ensures idle { result ≡ Ok None → IsIdle town.now work.new }
    ensures tries { IfOk result (λ broken.
        Tries town.now (Point node denominator numbers.now) broken kept.old kept.new) }
{
    if node >= kept.nodes.len()
        || !gather_pairs(&mut work.pairs, numbers, 2 * town.streets.len())?
        || !are_legal(town, work.pairs.as_slice())
    {
        return Ok(Some(Rule::Range));
    }
    if !kept.nodes.is_open(node, kept.upper) {
        return Ok(Some(Rule::Closed));
    }
    let broken = broken_point(
        town,
        &mut work.boxes,
        &kept.nodes,
        node,
        denominator,
        work.pairs.as_slice(),
        &mut work.tables,
    );
    if broken.is_none() {
        kept.past = Past::leading_to(node);
    }
    Ok(broken)
}

/// Takes a blind mark, or says which rule it breaks.
pub(crate) fn take_blind(town: &Town, kept: &mut Kept, node: u64) -> Option<Rule>
    requires { IsSound town.now kept.old }
    ensures { Tries town.now (Blind node) result kept.old kept.new }
{
    if node >= kept.nodes.len() {
        return Some(Rule::Range);
    }
    if !kept.nodes.is_open(node, kept.upper) {
        return Some(Rule::Closed);
    }
    kept.past = Past::leading_to(node);
    None
}

/// The range of an arc in the box of a node.
fn range_at(boxes: &mut Boxes, town: &Town, kept: &Kept, node: u64, arc: u32) -> UseRange
    requires rest { IsAtRest town.now boxes.old }
    requires sound { IsSound town.now kept.now }
    requires there { node < length kept.now.nodes }
    requires legal { is_legal town.now arc ≡ true }
    ensures rest { IsAtRest town.now boxes.new }
    ensures lo { (s : Standing) → IsKept town.now s kept.now
        → result.lo ≡ (node_at town.now s node).lo arc }
    ensures hi { (s : Standing) → IsKept town.now s kept.now
        → result.hi ≡ (node_at town.now s node).hi arc }
{
    boxes.enter(&kept.nodes, node);
    let range = boxes.range(arc);
    boxes.leave(&kept.nodes, node);
    range
}

/// Takes a split, or says which rule it breaks.
pub(crate) fn take_split(
    town: &Town,
    work: &mut Work,
    kept: &mut Kept,
    node: u64,
    arc: u32,
    k: u32,
) -> Result<Option<Rule>, AllocError>
    requires idle { IsIdle town.now work.old }
    requires sound { IsSound town.now kept.old }
    ensures idle { result ≡ Ok None → IsIdle town.now work.new }
    ensures tries { IfOk result (λ broken.
        Tries town.now (Split node arc k) broken kept.old kept.new) }
{
    if node >= kept.nodes.len() || !is_legal(town, arc) {
        return Ok(Some(Rule::Range));
    }
    if !kept.nodes.is_open(node, kept.upper) {
        return Ok(Some(Rule::Closed));
    }
    if kept.past.leads != Some(node) {
        return Ok(Some(Rule::Alone));
    }
    let range = range_at(&mut work.boxes, town, kept, node, arc);
    if k < u32::from(range.lo) || k >= u32::from(range.hi) {
        return Ok(Some(Rule::Part));
    }
    kept.nodes.split(node, arc, k)?;
    kept.past = Past::plain();
    Ok(None)
}

/// Puts numbers into a vector, in place of what was there, however many.
fn gather_all(into: &mut Vec<u32>, numbers: &NumbersOf<'_>) -> Result<(), AllocError>
    ensures { OnOk result (into.new.items ≡ numbers.now) }
{
    into.clear();
    let mut ahead = numbers.again();
    while let Some(number) = ahead.next() {
        into.push(number)?;
    }
    Ok(())
}

/// Takes labels, or says which rule they break.
pub(crate) fn take_labels(
    town: &Town,
    work: &mut Work,
    kept: &mut Kept,
    labels: &NumbersOf<'_>,
    streets: &NumbersOf<'_>,
) -> Result<Option<Rule>, AllocError>
    requires idle { IsIdle town.now work.old }
    requires sound { IsSound town.now kept.old }
    ensures idle { result ≡ Ok None → IsIdle town.now work.new }
    ensures tries { IfOk result (λ broken.
        Tries town.now (Labels labels.now streets.now) broken kept.old kept.new) }
{
    if !gather_numbers(&mut work.numbers, labels, town.junctions.len())? {
        return Ok(Some(Rule::Range));
    }
    gather_all(&mut work.streets, streets)?;
    let broken = broken_labels(town, work.numbers.as_slice(), work.streets.as_slice());
    if broken.is_none() {
        kept.past = Past::labelled();
    }
    Ok(broken)
}
