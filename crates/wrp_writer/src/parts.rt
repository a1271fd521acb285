//! The parts behind the word of a line, one by one.
ghost use Rattle.std.specs.Prelude.{◌≡◌, ◌+◌, ◌-◌, ◌<◌, ◌≤◌, ◌^◌, [], length, get_or};
ghost use Rattle.wrp_rules.specs.Contents.{TwoLists};
ghost use Rattle.wrp_rules.specs.Lines.{item_parts};
ghost use Rattle.wrp_writer.specs.Seen.{content_parts, content_seen, items_seen, numbers_seen, pairs_seen, part_text};

use crate::content::{Content, Items, Numbers, Pairs};
use crate::part::Part;

impl Content<'_> {
    /// The number of the parts.
    pub(crate) fn len(&self) -> usize
        ensures { result ≡ length (content_parts (content_seen self.now)) }
    {
        self.numbers.as_slice().len() + self.items.len()
    }

    /// The part at this place.
    pub(crate) fn part(&self, at: usize) -> Part
        requires { at < length (content_parts (content_seen self.now)) }
        ensures { part_text result ≡ get_or (content_parts (content_seen self.now)) at [] }
    {
        let numbers = self.numbers.as_slice();
        if at < numbers.len() {
            Part::Number(numbers[at])
        } else {
            self.items.part(at - numbers.len())
        }
    }
}

impl Numbers {
    /// The numbers as a slice.
    pub(crate) fn as_slice(&self) -> &[u64]
        ensures numbers { result.now ≡ numbers_seen self.now }
        ensures few { length result.now ≤ 3 }
    {
        match self {
            Numbers::Zero => &[],
            Numbers::One(numbers) => numbers,
            Numbers::Two(numbers) => numbers,
            Numbers::Three(numbers) => numbers,
        }
    }
}

impl Items<'_> {
    /// The number of the parts.
    fn len(&self) -> usize
        ensures parts { result ≡ length (item_parts (items_seen self.now)) }
        ensures small { result < 2 ^ 64 - 3 }
    {
        match self {
            Items::Nothing => 0,
            Items::Steps(steps) => steps.len(),
            Items::Numbers(numbers) => numbers.len(),
            Items::Pairs(pairs) => pairs.len(),
            Items::TwoLists(first, second) => first.len() + 1 + second.len(),
        }
    }

    /// The part at this place.
    fn part(&self, at: usize) -> Part
        requires { at < length (item_parts (items_seen self.now)) }
        ensures { part_text result ≡ get_or (item_parts (items_seen self.now)) at [] }
    {
        match self {
            // No place has a part, so this is never asked.
            Items::Nothing => Part::Slash,
            Items::Steps(steps) => Part::Step(item(steps, at)),
            Items::Numbers(numbers) => Part::Number(u64::from(item(numbers, at))),
            Items::Pairs(pairs) => {
                let (first, second) = pairs.pair(at);
                Part::Pair(first, second)
            }
            Items::TwoLists(first, second) => two_lists_part(first, second, at),
        }
    }
}

/// The part at this place of two lists with a slash between them.
fn two_lists_part(first: &[u32], second: &[u32], at: usize) -> Part
    requires { at < length first.now + 1 + length second.now }
    ensures { part_text result ≡ get_or (item_parts (TwoLists first.now second.now)) at [] }
{
    if at < first.len() {
        Part::Number(u64::from(first[at]))
    } else if at == first.len() {
        Part::Slash
    } else {
        Part::Number(u64::from(second[at - first.len() - 1]))
    }
}

impl Pairs<'_> {
    /// The number of the pairs.
    pub(crate) fn len(&self) -> usize
        ensures pairs { result ≡ length (pairs_seen self.now) }
        ensures small { result < 2 ^ 63 }
    {
        match self {
            Pairs::Narrow(pairs) => pairs.len(),
            Pairs::Wide(pairs) => pairs.len(),
        }
    }

    /// The pair at this place.
    pub(crate) fn pair(&self, at: usize) -> (u32, u128)
        requires { at < length (pairs_seen self.now) }
        ensures { result ≡ get_or (pairs_seen self.now) at (0, 0) }
    {
        match self {
            Pairs::Narrow(pairs) => {
                let (first, second) = item(pairs, at);
                (first, u128::from(second))
            }
            Pairs::Wide(pairs) => item(pairs, at),
        }
    }
}

/// The item at this place.
fn item<T: Copy>(items: &[T], at: usize) -> T
    requires { at < length items.now }
    ensures { result ≡ get_or items.now at result }
{
    items[at]
}
