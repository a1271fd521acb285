//! The coefficients of new rows.
ghost use Rattle.std.specs.Prelude.{◌≡◌, ◌*◌, ◌<◌, ◌≤◌, true, pos, length, unsigned_abs};
ghost use Rattle.wrp_rules.specs.Rows.{one_if, most_coefficient};
ghost use Rattle.wrp_town.specs.Arcs.{is_legal};
ghost use Rattle.wrp_rows.specs.Patterns.{are_ends, distance, coef_by, joins_by, Fits};

use crate::marks::differ;
use wrp_town::Town;

/// What the coefficients of a row follow from.
#[derive(Clone, Copy)]
pub(crate) enum Pattern<'a> {
    /// 1 on the arcs that leave the marked junctions.
    Leaving(&'a [bool]),
    /// 1 on the arcs that cross from marked junctions to others, or back.
    Crossing(&'a [bool]),
    /// The distance of the two ends in a chain of the sets from 0 to `k`.
    Chain { k: u32, of: &'a [u32] },
    /// The number of each arc.
    Sums(&'a [i128]),
}

impl<'a> Pattern<'a> {
    /// The coefficient of a legal arc.
    pub(crate) fn coef(self, town: &Town, arc: u32) -> i64
        requires below { arc < 2 * length town.now.streets }
        requires legal { is_legal town.now arc ≡ true }
        requires fits { Fits town.now self }
        ensures value { result ≡ coef_by town.now self.entry arc }
        ensures small { unsigned_abs result ≤ most_coefficient }
    {
        let tail = town.tail(arc);
        let head = town.head(arc);
        match self {
            Pattern::Leaving(marks) => one_if(marks[tail as usize] && !marks[head as usize]),
            Pattern::Crossing(marks) => one_if(differ(marks, tail, head)),
            Pattern::Chain { k, of } => distance(k, of[tail as usize], of[head as usize]),
            Pattern::Sums(sums) => sums[arc as usize] as i64,
        }
    }

    /// Whether a street counts for the right side.
    pub(crate) fn joins(self, town: &Town, arc: u32) -> bool
        requires below { arc < 2 * length town.now.streets }
        requires fits { Fits town.now self }
        ensures { result ≡ joins_by town.now self.entry arc }
    {
        let tail = town.tail(arc);
        let head = town.head(arc);
        match self {
            Pattern::Crossing(marks) => differ(marks, tail, head),
            Pattern::Chain { k, of } => are_ends(k, of[tail as usize], of[head as usize]),
            _ => false,
        }
    }
}

/// 1 where the test holds, else 0.
fn one_if(test: bool) -> i64
    ensures value { result ≡ one_if test }
    ensures small { unsigned_abs result ≤ most_coefficient }
{
    if test { 1 } else { 0 }
}

/// Whether two sets are the first and the last of a chain.
fn are_ends(k: u32, i: u32, j: u32) -> bool
    ensures { result ≡ are_ends k i j }
{
    (i == 0 && j == k) || (i == k && j == 0)
}

/// How far apart two sets of a chain are, where the first and the last count as `k - 2`.
fn distance(k: u32, i: u32, j: u32) -> i64
    requires k { 2 ≤ k }
    requires low { k ≤ most_coefficient }
    requires i { i ≤ k }
    requires j { j ≤ k }
    ensures value { result ≡ pos (distance k i j) }
    ensures small { unsigned_abs result ≤ most_coefficient }
{
    let sets = if are_ends(k, i, j) {
        k - 2
    } else {
        i.abs_diff(j)
    };
    i64::from(sets)
}
