//! What the streets of a chain of sets have.
ghost use Rattle.std.specs.Prelude.{◌≡◌, ◌+◌, ◌*◌, ◌^◌, ◌<◌, ◌≤◌, true, nat_le, length};
ghost use Rattle.std.specs.List.{list_all};
ghost use Rattle.wrp_rows.specs.Points.{IsPoint};
ghost use Rattle.wrp_odd.specs.Points.{HasNumbers, numbers_of};
ghost use Rattle.wrp_kc.specs.Chains.{are_ends, distance, is_broken, IsChain};

use wrp_odd::tally_of;
use wrp_rows::Point;
use wrp_town::Town;

/// The numbers of streets times the distances of their sets, and the demands that join the first
/// set and the last.
#[derive(Clone, Copy)]
pub(crate) struct Chain {
    pub(crate) sum: u128,
    pub(crate) joining: u32,
}

impl Chain {
    /// Whether the demands make it a chain, and the numbers break its row.
    pub(crate) fn is_broken(self, k: u32, den: u128) -> bool
        requires long { 3 ≤ k }
        requires den { den ≤ 2 ^ 60 }
        requires joining { self.joining ≤ 8000 }
        ensures { result ≡ is_broken k den self }
    {
        let joining = u128::from(self.joining);
        let k = u128::from(k);
        self.joining % 2 == 0
            && self.joining >= 2
            && self.sum < den * (2 * (k - 1) + (k - 2) * joining)
    }
}

/// What all streets have.
pub(crate) fn chain_of(town: &Town, point: &Point, k: u32, of: &[u32]) -> Chain
    requires point { IsPoint town.now point.now }
    requires numbers { HasNumbers point.now }
    requires long { 3 ≤ k }
    requires of { length of.now ≡ length town.now.junctions }
    requires low { list_all (λ set. nat_le set k) of.now ≡ true }
    ensures { IsChain town.now (numbers_of point.now) k of.now (length town.now.streets) result }
{
    let mut chain = Chain { sum: 0, joining: 0 };
    for street in 0..town.streets.len() as u32 {
        count(&mut chain, town, point, k, of, street);
    }
    chain
}

/// Counts a street in.
fn count(chain: &mut Chain, town: &Town, point: &Point, k: u32, of: &[u32], street: u32)
    requires point { IsPoint town.now point.now }
    requires numbers { HasNumbers point.now }
    requires long { 3 ≤ k }
    requires of { length of.now ≡ length town.now.junctions }
    requires low { list_all (λ set. nat_le set k) of.now ≡ true }
    requires street { street < length town.now.streets }
    requires before { IsChain town.now (numbers_of point.now) k of.now street chain.old }
    ensures { IsChain town.now (numbers_of point.now) k of.now (street + 1) chain.new }
{
    let from = of[town.tail(2 * street) as usize];
    let to = of[town.head(2 * street) as usize];
    let tally = tally_of(town, point, street);
    chain.sum += u128::from(distance(k, from, to)) * tally.sum;
    if are_ends(k, from, to) {
        chain.joining += tally.demands;
    }
}

/// How far apart two sets are.
fn distance(k: u32, a: u32, b: u32) -> u32
    requires long { 3 ≤ k }
    requires a { a ≤ k }
    requires b { b ≤ k }
    ensures value { result ≡ distance k a b }
    ensures low { result ≤ k }
{
    if are_ends(k, a, b) {
        k - 2
    } else {
        a.abs_diff(b)
    }
}

/// Whether one of two sets is the first and the other the last.
fn are_ends(k: u32, a: u32, b: u32) -> bool
    ensures { result ≡ are_ends k a b }
{
    (a == 0 && b == k) || (a == k && b == 0)
}
