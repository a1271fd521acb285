//! Whether a record may stand in a proof.
ghost use Rattle.std.specs.Prelude.{◌≡◌};
ghost use Rattle.std.specs.List.{list_all};
ghost use Rattle.wrp_rules.specs.Contents.{keep_rules as keep_their_rules, keeps_number_rules as keeps_its_rules};
ghost use Rattle.wrp_rules.specs.Ranges.{is_index as index_rule, is_set as set_rule, are_pairs as pairs_rule, is_in_range as range_rule, are_in_ranges as ranges_rule};
ghost use Rattle.wrp_writer.specs.Limits.{is_writable};
ghost use Rattle.wrp_writer.specs.Seen.{content_seen, items_seen, pairs_seen};

use crate::content::{Content, Items, Pairs, content_of};
use crate::lengths::line_len;
use wrp_rules::{LONGEST_LINE, MOST_MULTIPLIERS, Range, Record, Tail, layout_of};
use wrp_town::Step;

/// Whether a record keeps the number rules, and has a line of at most 2^28 bytes.
pub fn writable(item: &Record) -> bool
    ensures { result ≡ is_writable item.now }
{
    let content = content_of(item);
    keeps_number_rules(&content) && line_len(&content) <= LONGEST_LINE as u128
}

/// Whether the numbers and items of a line keep the rules of its layout.
fn keeps_number_rules(content: &Content<'_>) -> bool
    ensures { result ≡ keeps_its_rules (content_seen content.now) }
{
    let layout = layout_of(content.kind);
    are_in_ranges(layout.numbers, content.numbers.as_slice())
        && keep_rules(layout.tail, content.items)
}

/// Whether each of the numbers is in its range.
fn are_in_ranges(ranges: &[Range], numbers: &[u64]) -> bool
    ensures { result ≡ ranges_rule ranges.now numbers.now }
{
    if ranges.len() != numbers.len() {
        return false;
    }
    for at in 0..ranges.len() {
        if !is_in_range(ranges[at], numbers[at]) {
            return false;
        }
    }
    true
}

/// Whether a number is in a range.
fn is_in_range(range: Range, number: u64) -> bool
    ensures { result ≡ range_rule range number }
{
    match range {
        Range::Count => number < 1 << 63,
        Range::Index => is_index(number),
        Range::FromOne { most } => 1 <= number && number <= most,
    }
}

/// Whether this may number a street, a junction, a row, an arc, a label or a set.
fn is_index(number: u64) -> bool
    ensures { result ≡ index_rule number }
{
    number < 1 << 32
}

/// Whether items of this kind are in their ranges and orders.
fn keep_rules(tail: Tail, items: Items<'_>) -> bool
    ensures { result ≡ keep_their_rules tail (items_seen items.entry) }
{
    match (tail, items) {
        (Tail::Nothing, Items::Nothing) => true,
        (Tail::Steps, Items::Steps(steps)) => are_steps(steps),
        (Tail::Set, Items::Numbers(set)) => is_set(set),
        (Tail::Indexes, Items::Numbers(numbers)) => are_indexes(numbers),
        (Tail::Multipliers { most }, Items::Pairs(pairs)) => {
            are_pairs(pairs, u128::from(most)) && pairs.len() <= MOST_MULTIPLIERS
        }
        (Tail::Pairs { most }, Items::Pairs(pairs)) => are_pairs(pairs, most),
        (Tail::Labels, Items::TwoLists(first, second)) => are_indexes(first) && are_indexes(second),
        _ => false,
    }
}

/// Whether each of the steps has a street's number.
fn are_steps(steps: &[Step]) -> bool
    ensures { result ≡ list_all (λ step. index_rule step.street) steps.now }
{
    steps.iter().all(|step| is_index(u64::from(step.street)))
}

/// Whether each of the numbers is an index.
fn are_indexes(numbers: &[u32]) -> bool
    ensures { result ≡ list_all index_rule numbers.now }
{
    numbers.iter().all(|number| is_index(u64::from(*number)))
}

/// Whether the numbers are strictly ascending.
fn is_set(set: &[u32]) -> bool
    ensures { result ≡ set_rule set.now }
{
    let mut low = 0;
    for number in set {
        let number = u64::from(*number);
        if number < low {
            return false;
        }
        low = number + 1;
    }
    true
}

/// Whether the first numbers are strictly ascending and the second ones from 1 to `most`.
fn are_pairs(pairs: Pairs<'_>, most: u128) -> bool
    ensures { result ≡ pairs_rule most (pairs_seen pairs.entry) }
{
    let mut low = 0;
    for at in 0..pairs.len() {
        let (first, second) = pairs.pair(at);
        let first = u64::from(first);
        if first < low || second < 1 || second > most {
            return false;
        }
        low = first + 1;
    }
    true
}
