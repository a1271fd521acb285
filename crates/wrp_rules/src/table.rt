//! How each line of a proof is written.
ghost use Rattle.std.specs.Prelude.{◌≡◌};
ghost use Rattle.wrp_rules.specs.Layouts.{layout_of as layout_of_kind};

use crate::layout::{Kind, Range, Tail};

/// A word, leading numbers, each in its range, and what follows them.
#[derive(Clone, Copy, Debug)]
pub struct Layout {
    pub word: &'static [u8],
    pub numbers: &'static [Range],
    pub tail: Tail,
}

/// The most multipliers of a record.
pub const MOST_MULTIPLIERS: usize = 4096;

/// The most bytes of a line of version 2, without its line feed.
pub const LONGEST_LINE: usize = 1 << 28;

const COUNT: Range = Range::Count;

const INDEX: Range = Range::Index;

/// The layout of each kind of line.
pub fn layout_of(kind: Kind) -> Layout
    ensures word { result.word.now ≡ (layout_of_kind kind).word }
    ensures numbers { result.numbers.now ≡ (layout_of_kind kind).numbers }
    ensures tail { result.tail ≡ (layout_of_kind kind).tail }
{
    match kind {
        Kind::Tour => laid_out(b"t", &[COUNT], Tail::Steps),
        Kind::Conn => laid_out(b"c", &[INDEX, INDEX], Tail::Set),
        Kind::Odd => laid_out(b"o", &[], Tail::Set),
        Kind::Round => laid_out(
            b"r",
            &[Range::FromOne { most: 1 << 20 }],
            Tail::Multipliers { most: 1 << 40 },
        ),
        Kind::Kc => laid_out(b"k", &[INDEX], Tail::Indexes),
        Kind::Bound => laid_out(
            b"b",
            &[COUNT, Range::FromOne { most: 1 << 40 }],
            Tail::Multipliers { most: 1 << 60 },
        ),
        Kind::Empty => laid_out(b"e", &[COUNT], Tail::Multipliers { most: 1 << 60 }),
        Kind::Apart => laid_out(b"a", &[COUNT, INDEX, INDEX], Tail::Set),
        Kind::Point => laid_out(
            b"p",
            &[COUNT, Range::FromOne { most: 1 << 60 }],
            Tail::Pairs { most: 1 << 72 },
        ),
        Kind::Blind => laid_out(b"z", &[COUNT], Tail::Nothing),
        Kind::Split => laid_out(b"s", &[COUNT, INDEX, INDEX], Tail::Nothing),
        Kind::Labels => laid_out(b"n", &[], Tail::Labels),
        Kind::Optimal => laid_out(b"end optimal", &[COUNT], Tail::Nothing),
        Kind::Infeasible => laid_out(b"end infeasible", &[], Tail::Nothing),
        Kind::Unfinished => laid_out(b"end unfinished", &[COUNT, COUNT], Tail::Nothing),
    }
}

fn laid_out(word: &'static [u8], numbers: &'static [Range], tail: Tail) -> Layout
    ensures word { result.word.now ≡ word.now }
    ensures numbers { result.numbers.now ≡ numbers.now }
    ensures tail { result.tail ≡ tail }
{
    Layout {
        word,
        numbers,
        tail,
    }
}
