//! The parts of a line that are still to be read: steps or pairs, lent from the line.
ghost use Rattle.std.specs.Prelude.{nat_lt, nat_le, length, ◌+◌, Some, None, if◌then◌else◌, ◌≡◌, ◌<◌, ◌≤◌, ◌^◌, ◌&&◌, ◌∷◌, [], map, true, is_some, IfSome, IfNone};
ghost use Rattle.std.specs.Iterator.{YieldsFirst, item_count};
ghost use Rattle.std.specs.List.{list_all, join_with_byte};
ghost use Rattle.wrp_rules.specs.Lines.{step_text, pair_text};
ghost use Rattle.wrp_grammar.specs.Parts.{parts_of, is_step, step_of, is_pair, pair_of, are_multiplier_parts, are_pair_parts};

use crate::text::{read_pair, read_step, split_part};
use std::marker::Model;
use wrp_rules::MOST_MULTIPLIERS;
use wrp_town::Step;

/// The second number of each pair is at most this.
const MOST_SECOND: u128 = 1 << 72;

/// The steps that are left of a line. Contracts see the list of the steps.
#[derive(Debug, Drop)]
pub struct StepsOf<'a> {
    left: &'a [u8],
}

impl<'a> Model for StepsOf<'a> {
    ghost use Rattle.std.specs.Prelude.{◌≡◌, List, map, true};
    ghost use Rattle.std.specs.List.{list_all};
    ghost use Rattle.wrp_town.specs.declared.street.Step.{Step};
    ghost use Rattle.wrp_grammar.specs.Parts.{parts_of, is_step, step_of};

    ghost Value = { List Step };

    ghost view = { λ s. map step_of (parts_of s.left.now) };

    ghost invariant = { λ s. list_all is_step (parts_of s.left.now) ≡ true };
}

impl<'a> StepsOf<'a> {
    /// The steps of parts, where each of them is a step that is written right.
    pub fn new(left: &'a [u8]) -> Option<StepsOf<'a>>
        ensures { result ≡ (if list_all is_step (parts_of left.now)
            then Some (map step_of (parts_of left.now)) else None) }
    {
        if are_steps(left) {
            Some(StepsOf { left })
        } else {
            None
        }
    }

    /// The steps that are left, lent once more.
    pub fn again(&self) -> StepsOf<'a>
        ensures { result ≡ self.now }
    {
        StepsOf { left: self.left }
    }

    /// The bytes of the steps that are left, with no space before the first.
    pub fn text(&self) -> &[u8]
        ensures { result.now ≡ join_with_byte 32 (map step_text self.now) }
    {
        match self.left.split_first() {
            Some((_, text)) => text,
            None => self.left,
        }
    }
}

impl<'a> Iterator for StepsOf<'a> {
    type Item = Step;

    ghost next_gives = { YieldsFirst (λ s. s) };

    ghost remaining = { item_count (λ s. s) };

    /// Takes the first step.
    fn next(&mut self) -> Option<Step> {
        let (part, left) = split_part(self.left)?;
        self.left = left;
        read_step(part)
    }
}

/// The pairs that are left of a line. Contracts see the list of the pairs.
#[derive(Debug, Drop)]
pub struct PairsOf<'a> {
    left: &'a [u8],
}

impl<'a> Model for PairsOf<'a> {
    ghost use Rattle.std.specs.Prelude.{◌≡◌, ℕ, List, map, true};
    ghost use Rattle.std.specs.List.{list_all};
    ghost use Rattle.wrp_grammar.specs.Parts.{parts_of, is_pair, pair_of, most_second};

    ghost Value = { List (ℕ × ℕ) };

    ghost view = { λ s. map pair_of (parts_of s.left.now) };

    ghost invariant = { λ s. list_all (is_pair most_second) (parts_of s.left.now) ≡ true };
}

impl<'a> PairsOf<'a> {
    /// The multipliers of parts, where they are written right: ascending first numbers, second
    /// numbers from 1 to `most`, and at most 4,096 of them.
    #[tactic(auto, using(crate::proofs::PairLists::few_multipliers))]
    pub fn multipliers(left: &'a [u8], most: u128) -> Option<PairsOf<'a>>
        requires { most ≤ 2 ^ 72 }
        ensures { result ≡ (if are_multiplier_parts most (parts_of left.now)
            then Some (map pair_of (parts_of left.now)) else None) }
    {
        if are_pairs_text(left, most, MOST_MULTIPLIERS) {
            Some(PairsOf { left })
        } else {
            None
        }
    }

    /// The pairs of parts, where they are written right: ascending first numbers, and second
    /// numbers from 1 to `most`.
    #[tactic(auto, using(crate::proofs::PairLists::few_pairs))]
    pub fn pairs(left: &'a [u8], most: u128) -> Option<PairsOf<'a>>
        requires { most ≤ 2 ^ 72 }
        ensures { result ≡ (if are_pair_parts most (parts_of left.now)
            then Some (map pair_of (parts_of left.now)) else None) }
    {
        if are_pairs_text(left, most, left.len()) {
            Some(PairsOf { left })
        } else {
            None
        }
    }

    /// The pairs that are left, lent once more.
    pub fn again(&self) -> PairsOf<'a>
        ensures { result ≡ self.now }
    {
        PairsOf { left: self.left }
    }

    /// The bytes of the pairs that are left, with no space before the first.
    pub fn text(&self) -> &[u8]
        ensures { result.now ≡ join_with_byte 32 (map pair_text self.now) }
    {
        match self.left.split_first() {
            Some((_, text)) => text,
            None => self.left,
        }
    }
}

impl<'a> Iterator for PairsOf<'a> {
    type Item = (u32, u128);

    ghost next_gives = { YieldsFirst (λ s. s) };

    ghost remaining = { item_count (λ s. s) };

    /// Takes the first pair.
    fn next(&mut self) -> Option<(u32, u128)> {
        let (part, left) = split_part(self.left)?;
        self.left = left;
        read_pair(part, MOST_SECOND)
    }
}

/// Whether each part that is left is a step that is written right.
fn are_steps(line: &[u8]) -> bool
    ensures { result ≡ list_all is_step (parts_of line.now) }
{
    let mut left = line;
    while let Some((part, others)) = split_part(left) {
        if read_step(part).is_none() {
            return false;
        }
        left = others;
    }
    true
}

/// Whether the parts that are left are pairs, written right, their first numbers ascending, their
/// second numbers from 1 to `most`, and at most `few` of them.
fn are_pairs_text(line: &[u8], most: u128, few: usize) -> bool
    requires { most < 2 ^ 99 }
    ensures { result ≡ (are_pair_parts most (parts_of line.now)
        && nat_le (length (parts_of line.now)) few) }
{
    let mut left = line;
    let mut room = few;
    let mut low = 0;
    while let Some((part, others)) = split_part(left) {
        match next_least(part, most, low, room) {
            Some(next) => low = next,
            None => return false,
        }
        room -= 1;
        left = others;
    }
    true
}

/// The least first number of the pair after this one, where this is a pair that has room and whose
/// first number is at least `low`.
fn next_least(part: &[u8], most: u128, low: u64, room: usize) -> Option<u64>
    requires { most < 2 ^ 99 }
    ensures { result ≡ (if is_pair most part.now && (nat_lt 0 room
        && nat_le low (pair_of part.now).0)
        then Some ((pair_of part.now).0 + 1) else None) }
{
    let (first, _) = read_pair(part, most)?;
    let first = u64::from(first);
    if room > 0 && first >= low {
        Some(first + 1)
    } else {
        None
    }
}
