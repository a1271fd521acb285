//! What stands in a line, lent from its record or its end.
ghost use Rattle.std.specs.Prelude.{◌≡◌};
ghost use Rattle.wrp_rules.specs.Contents.{Numbers as NumberItems, Pairs as PairItems, content_of as content_of_record, content_of_end as content_of_the_end};
ghost use Rattle.wrp_writer.specs.Seen.{content_seen, items_seen};

use crate::content::Numbers::{One, Three, Two, Zero};
use wrp_rules::{End, Kind, Record};
use wrp_town::{List, Step};

/// The kind of a line, its leading numbers, and the items behind them.
#[derive(Clone, Copy)]
pub(crate) struct Content<'a> {
    pub(crate) kind: Kind,
    pub(crate) numbers: Numbers,
    pub(crate) items: Items<'a>,
}

/// The leading numbers of a line.
#[derive(Clone, Copy)]
pub(crate) enum Numbers {
    Zero,
    One([u64; 1]),
    Two([u64; 2]),
    Three([u64; 3]),
}

/// What follows the leading numbers.
#[derive(Clone, Copy)]
pub(crate) enum Items<'a> {
    Nothing,
    Steps(&'a [Step]),
    Numbers(&'a [u32]),
    Pairs(Pairs<'a>),
    TwoLists(&'a [u32], &'a [u32]),
}

/// Pairs whose second numbers have 64 bits or 128.
#[derive(Clone, Copy)]
pub(crate) enum Pairs<'a> {
    Narrow(&'a [(u32, u64)]),
    Wide(&'a [(u32, u128)]),
}

/// What stands in the line of a record.
pub(crate) fn content_of(item: &Record) -> Content<'_>
    ensures { content_seen result ≡ content_of_record item.now }
{
    match item {
        Record::Tour { cost, steps } => lent(
            Kind::Tour,
            One([*cost]),
            Items::Steps(steps.as_slice()),
        ),
        Record::Conn { r1, r2, set } => lent(
            Kind::Conn,
            Two([u64::from(*r1), u64::from(*r2)]),
            indexes(set),
        ),
        Record::Odd { set } => lent(Kind::Odd, Zero, indexes(set)),
        Record::Round { divisor, mult } => lent(Kind::Round, One([*divisor]), multipliers(mult)),
        Record::Kc { k, of } => lent(Kind::Kc, One([u64::from(*k)]), indexes(of)),
        Record::Bound { node, den, mult } => lent(
            Kind::Bound,
            Two([*node, *den]),
            multipliers(mult),
        ),
        Record::Empty { node, mult } => lent(Kind::Empty, One([*node]), multipliers(mult)),
        Record::Apart { node, r1, r2, set } => lent(
            Kind::Apart,
            Three([*node, u64::from(*r1), u64::from(*r2)]),
            indexes(set),
        ),
        Record::Point { node, den, numbers } => lent(
            Kind::Point,
            Two([*node, *den]),
            Items::Pairs(Pairs::Wide(numbers.as_slice())),
        ),
        Record::Blind { node } => lent(Kind::Blind, One([*node]), Items::Nothing),
        Record::Split { node, arc, k } => lent(
            Kind::Split,
            Three([*node, u64::from(*arc), u64::from(*k)]),
            Items::Nothing,
        ),
        Record::Labels { labels, streets } => lent(
            Kind::Labels,
            Zero,
            Items::TwoLists(labels.as_slice(), streets.as_slice()),
        ),
    }
}

/// What stands in the line of an end.
pub(crate) fn content_of_end(end: &End) -> Content<'static>
    ensures { content_seen result ≡ content_of_the_end end.now }
{
    match end {
        End::Optimal { cost } => lent(Kind::Optimal, One([*cost]), Items::Nothing),
        End::Infeasible => lent(Kind::Infeasible, Zero, Items::Nothing),
        End::Unfinished { low, high } => lent(Kind::Unfinished, Two([*low, *high]), Items::Nothing),
    }
}

fn lent(kind: Kind, numbers: Numbers, items: Items<'_>) -> Content<'_>
    ensures kind { result.kind ≡ kind }
    ensures numbers { result.numbers ≡ numbers }
    ensures items { result.items ≡ items.entry }
{
    Content {
        kind,
        numbers,
        items,
    }
}

fn indexes(numbers: &List<u32>) -> Items<'_>
    ensures { items_seen result ≡ NumberItems numbers.now }
{
    Items::Numbers(numbers.as_slice())
}

fn multipliers(mult: &List<(u32, u64)>) -> Items<'_>
    ensures { items_seen result ≡ PairItems mult.now }
{
    Items::Pairs(Pairs::Narrow(mult.as_slice()))
}
