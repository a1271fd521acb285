//! The numbers of a line that are still to be read, lent from the line.
ghost use Rattle.std.specs.Prelude.{nat_le, ◌+◌, Some, None, if◌then◌else◌, ◌≡◌, ◌&&◌, ◌∷◌, [], map, IfSome, IfNone};
ghost use Rattle.std.specs.Fmt.{decimal};
ghost use Rattle.std.specs.Iterator.{YieldsFirst, item_count};
ghost use Rattle.std.specs.List.{list_all, join_with_byte};
ghost use Rattle.wrp_grammar.specs.Parts.{parts_of, is_index_part, number_of, numbers_of, are_set_parts};

use crate::text::{read_index, split_part};
use std::marker::Model;

/// The numbers that are left of a line. Contracts see the list of the numbers.
#[derive(Debug, Drop)]
pub struct NumbersOf<'a> {
    left: &'a [u8],
}

impl<'a> Model for NumbersOf<'a> {
    ghost use Rattle.std.specs.Prelude.{◌≡◌, ℕ, List, true};
    ghost use Rattle.std.specs.List.{list_all};
    ghost use Rattle.wrp_grammar.specs.Parts.{parts_of, is_index_part, numbers_of};

    ghost Value = { List ℕ };

    ghost view = { λ s. numbers_of (parts_of s.left.now) };

    ghost invariant = { λ s. list_all is_index_part (parts_of s.left.now) ≡ true };
}

impl<'a> NumbersOf<'a> {
    /// The numbers of parts, where each of them is written right and below 2^32.
    pub fn indexes(left: &'a [u8]) -> Option<NumbersOf<'a>>
        ensures { result ≡ (if list_all is_index_part (parts_of left.now)
            then Some (numbers_of (parts_of left.now)) else None) }
    {
        if are_indexes(left) {
            Some(NumbersOf { left })
        } else {
            None
        }
    }

    /// The numbers of parts, where each of them is written right and they are strictly ascending.
    pub fn set(left: &'a [u8]) -> Option<NumbersOf<'a>>
        ensures { result ≡ (if are_set_parts (parts_of left.now)
            then Some (numbers_of (parts_of left.now)) else None) }
    {
        if are_ascending(left) {
            Some(NumbersOf { left })
        } else {
            None
        }
    }

    /// The numbers that are left, lent once more.
    pub fn again(&self) -> NumbersOf<'a>
        ensures { result ≡ self.now }
    {
        NumbersOf { left: self.left }
    }

    /// The bytes of the numbers that are left, with no space before the first.
    pub fn text(&self) -> &[u8]
        ensures { result.now ≡ join_with_byte 32 (map decimal self.now) }
    {
        match self.left.split_first() {
            Some((_, text)) => text,
            None => self.left,
        }
    }
}

impl<'a> Iterator for NumbersOf<'a> {
    type Item = u32;

    ghost next_gives = { YieldsFirst (λ s. s) };

    ghost remaining = { item_count (λ s. s) };

    /// Takes the first number.
    fn next(&mut self) -> Option<u32> {
        let (part, left) = split_part(self.left)?;
        self.left = left;
        read_index(part)
    }
}

/// Whether each part that is left is a number that is written right.
fn are_indexes(line: &[u8]) -> bool
    ensures { result ≡ list_all is_index_part (parts_of line.now) }
{
    let mut left = line;
    while let Some((part, others)) = split_part(left) {
        if read_index(part).is_none() {
            return false;
        }
        left = others;
    }
    true
}

/// Whether the parts that are left are numbers of a set, written right and strictly ascending.
fn are_ascending(line: &[u8]) -> bool
    ensures { result ≡ are_set_parts (parts_of line.now) }
{
    let mut left = line;
    let mut low = 0;
    while let Some((part, others)) = split_part(left) {
        match next_low(part, low) {
            Some(next) => low = next,
            None => return false,
        }
        left = others;
    }
    true
}

/// The least number that may come after this one, where this is a number and at least `low`.
pub fn next_low(part: &[u8], low: u64) -> Option<u64>
    ensures { result ≡ (if is_index_part part.now && nat_le low (number_of part.now)
        then Some (number_of part.now + 1) else None) }
{
    let number = u64::from(read_index(part)?);
    if number >= low {
        Some(number + 1)
    } else {
        None
    }
}
