//! What stands in a line behind its word, lent from the line.
ghost use Rattle.std.specs.Prelude.{◌≡◌, ◌≤◌, ◌^◌, ◌&&◌, true, length, take, drop, is_some, if◌then◌else◌, Some, None, IfSome};
ghost use Rattle.std.specs.List.{list_any, list_all, before_first, after_first};
ghost use Rattle.std.specs.Option.{option_map};
ghost use Rattle.wrp_rules.specs.declared.layout.Tail.TheVariants as tails;
ghost use Rattle.wrp_grammar.specs.Parts.{parts_of, is_spaced, number_of, numbers_of};
ghost use Rattle.wrp_grammar.specs.Numbers.{is_range_part};
ghost use Rattle.wrp_grammar.specs.Spelling.{are_leading, content_behind};
ghost use Rattle.wrp_grammar.specs.Reading.{numbers_held, items_held, is_small_tail, items_in, content_held};

use crate::labels::label_halves;
use crate::numbers::NumbersOf;
use crate::parts::{PairsOf, StepsOf};
use crate::text::{goes_on_with_space, read_count, read_from_one, read_index, split_part};
use wrp_rules::{Kind, Range, Tail, layout_of};

/// The leading numbers of a line. Those that its layout doesn't have are 0.
#[derive(Clone, Copy, Debug)]
pub struct Leading {
    pub first: u64,
    pub second: u64,
    pub third: u64,
}

/// What follows the leading numbers of a line.
#[derive(Debug, Drop)]
pub enum ItemsOf<'a> {
    Nothing,
    Steps(StepsOf<'a>),
    Numbers(NumbersOf<'a>),
    Pairs(PairsOf<'a>),
    TwoLists(NumbersOf<'a>, NumbersOf<'a>),
}

/// What stands in a line of this kind.
#[derive(Debug, Drop)]
pub struct ContentOf<'a> {
    pub kind: Kind,
    pub numbers: Leading,
    pub items: ItemsOf<'a>,
}

/// What is spelled behind the word of a line of this kind.
pub fn read_content(kind: Kind, left: &[u8]) -> Option<ContentOf<'_>>
    ensures { option_map content_held result ≡ content_behind kind left.now }
{
    if !goes_on_with_space(left) {
        return None;
    }
    let layout = layout_of(kind);
    let (numbers, left) = read_numbers(layout.numbers, left)?;
    let items = read_items(layout.tail, left)?;
    Some(ContentOf {
        kind,
        numbers,
        items,
    })
}

/// The leading numbers, each in its range, and what is left after them.
fn read_numbers<'a>(ranges: &[Range], left: &'a [u8]) -> Option<(Leading, &'a [u8])>
    requires few { length ranges.now ≤ 3 }
    requires spaced { is_spaced left.now ≡ true }
    ensures some { is_some result ≡ are_leading ranges.now (parts_of left.now) }
    ensures numbers { IfSome result (λ x. numbers_held ranges.now x.0
        ≡ numbers_of (take (length ranges.now) (parts_of left.now))) }
    ensures left { IfSome result (λ x. parts_of x.1.now
        ≡ drop (length ranges.now) (parts_of left.now)) }
    ensures spaced { IfSome result (λ x. is_spaced x.1.now ≡ true) }
{
    let Some((range, others)) = ranges.split_first() else {
        let none = Leading {
            first: 0,
            second: 0,
            third: 0,
        };
        return Some((none, left));
    };
    let (part, behind) = split_part(left)?;
    let first = read_in_range(part, *range)?;
    let (next, behind) = read_numbers(others, behind)?;
    let numbers = Leading {
        first,
        second: next.first,
        third: next.second,
    };
    Some((numbers, behind))
}

/// A number in this range.
fn read_in_range(part: &[u8], range: Range) -> Option<u64>
    ensures { result ≡ (if is_range_part range part.now then Some (number_of part.now) else None) }
{
    match range {
        Range::Count => read_count(part),
        Range::Index => Some(u64::from(read_index(part)?)),
        Range::FromOne { most } => Some(read_from_one(part, u128::from(most))? as u64),
    }
}

/// What follows the leading numbers.
fn read_items(tail: Tail, left: &[u8]) -> Option<ItemsOf<'_>>
    requires limit { is_small_tail tail ≡ true }
    requires spaced { is_spaced left.now ≡ true }
    ensures { option_map items_held result ≡ items_in tail (parts_of left.now) }
{
    match tail {
        Tail::Nothing => match split_part(left) {
            Some(_) => None,
            None => Some(ItemsOf::Nothing),
        },
        Tail::Steps => Some(ItemsOf::Steps(StepsOf::new(left)?)),
        Tail::Set => Some(ItemsOf::Numbers(NumbersOf::set(left)?)),
        Tail::Indexes => Some(ItemsOf::Numbers(NumbersOf::indexes(left)?)),
        Tail::Multipliers { most } => Some(ItemsOf::Pairs(PairsOf::multipliers(
            left,
            u128::from(most),
        )?)),
        Tail::Pairs { most } => Some(ItemsOf::Pairs(PairsOf::pairs(left, most)?)),
        Tail::Labels => read_labels(left),
    }
}

/// Labels and streets, on both sides of a slash.
fn read_labels(left: &[u8]) -> Option<ItemsOf<'_>>
    requires { is_spaced left.now ≡ true }
    ensures { option_map items_held result ≡ items_in tails.Labels (parts_of left.now) }
{
    let (labels, streets) = label_halves(left)?;
    let labels = NumbersOf::indexes(labels)?;
    let streets = NumbersOf::indexes(streets)?;
    Some(ItemsOf::TwoLists(labels, streets))
}
