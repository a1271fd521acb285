//! What crosses the classes of junctions that have one label.
ghost use Rattle.std.specs.Prelude.{◌≡◌, ℕ, ◌+◌, ◌*◌, ◌^◌, ◌<◌, ◌≤◌, cond, ◌==◌, length, IfOk, pos, ◌≤ℤ◌};
ghost use Rattle.std.specs.List.{All};
ghost use Rattle.wrp_rows.specs.Points.{most_denominator, IsPoint};
ghost use Rattle.wrp_webs.specs.Webs.{differ};
ghost use Rattle.wrp_webs.specs.TownWebs.{demand_count};
ghost use Rattle.wrp_town.specs.Streets.{forward_arc, backward_arc};
ghost use Rattle.wrp_odd.specs.Points.{HasNumbers, denominator_of, numbers_of};
ghost use Rattle.wrp_odd.specs.Crossing.{AreTallies, IsCounted, is_broken, tally_at, AreLight};

use std::alloc::{AllocError, Global};
use wrp_rows::Point;
use wrp_town::Town;

/// The numbers of the streets that cross a class, and how many demands these streets have.
#[derive(Clone, Copy)]
pub struct Tally {
    pub sum: u128,
    pub demands: u32,
}

impl Tally {
    /// Whether an odd number of demands cross, and the numbers break the odd row.
    pub fn is_broken(self, den: u128) -> bool
        requires den { den ≤ 2 ^ 60 }
        requires demands { self.demands ≤ 8000 }
        ensures { result ≡ is_broken den self }
    {
        self.demands % 2 != 0 && self.sum < den * (u128::from(self.demands) + 1)
    }

    /// Counts another tally in.
    fn add(&mut self, other: Tally)
        requires sum { self.old.sum + other.sum < 2 ^ 128 }
        requires demands { self.old.demands + other.demands < 2 ^ 32 }
        ensures { self.new ≡ record {
          sum = self.old.sum + other.sum;
          demands = self.old.demands + other.demands;
        } }
    {
        self.sum += other.sum;
        self.demands += other.demands;
    }
}

/// The tally of the class of each label, in one pass over the streets.
pub fn tallies(
    alloc: Global,
    town: &Town,
    point: &Point,
    labels: &[u32],
) -> Result<Vec<Tally>, AllocError>
    requires point { IsPoint town.now point.now }
    requires numbers { HasNumbers point.now }
    requires long { length labels.now ≡ length town.now.junctions }
    requires labels { All (λ label. label < length town.now.junctions) labels.now }
    ensures tallies { IfOk result (λ tallies. AreTallies town.now (numbers_of point.now) labels.now
        (length town.now.streets) tallies.items) }
    ensures light { IfOk result (λ tallies. AreLight (length town.now.streets) tallies.items) }
{
    let nothing = Tally { sum: 0, demands: 0 };
    let mut tallies = vec![in alloc; nothing; town.junctions.len()]?;
    for street in 0..town.streets.len() as u32 {
        let from = labels[town.tail(2 * street) as usize];
        let to = labels[town.head(2 * street) as usize];
        count(&mut tallies, from, to, tally_of(town, point, street));
    }
    Ok(tallies)
}

/// The denominator of a point.
pub fn denominator(point: &Point) -> u128
    requires positive { pos 1 ≤ℤ point.now.den }
    requires low { point.now.den ≤ℤ pos most_denominator }
    ensures value { result ≡ denominator_of point.now }
    ensures low { result ≤ most_denominator }
{
    point.den.unsigned_abs()
}

/// What a street counts for.
pub fn tally_of(town: &Town, point: &Point, street: u32) -> Tally
    requires street { street < length town.now.streets }
    requires point { IsPoint town.now point.now }
    requires numbers { HasNumbers point.now }
    ensures sum { result.sum ≡ numbers_of point.now (forward_arc street)
        + numbers_of point.now (backward_arc street) }
    ensures demands { result.demands ≡ demand_count town.now street }
    ensures light { result.sum ≤ 2 ^ 73 }
    ensures few { result.demands ≤ 2 }
{
    let numbers = point.at.as_slice();
    let forward = 2 * street as usize;
    Tally {
        sum: numbers[forward].unsigned_abs() + numbers[forward + 1].unsigned_abs(),
        demands: town.streets.as_slice()[street as usize].need.demand_count(),
    }
}

/// Counts a street for the classes of its ends, where these are two.
fn count(tallies: &mut [Tally], from: u32, to: u32, street: Tally)
    requires from { from < length tallies.old }
    requires to { to < length tallies.old }
    requires sums { (c : ℕ) → c < length tallies.old
        → (tally_at tallies.old c).sum + street.sum < 2 ^ 128 }
    requires demands { (c : ℕ) → c < length tallies.old
        → (tally_at tallies.old c).demands + street.demands < 2 ^ 32 }
    ensures { IsCounted from to street tallies.old tallies.new }
{
    if from != to {
        tallies[from as usize].add(street);
        tallies[to as usize].add(street);
    }
}
