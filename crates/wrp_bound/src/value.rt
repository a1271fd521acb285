//! The value of multipliers of rows over bounds.
//!
//! No function here takes memory.
ghost use Rattle.std.specs.Prelude.{◌≡◌, ℕ, ◌*◌, ◌^◌, ◌<◌, ◌≤◌, true, cond, pos, ◌-ℤ◌, List, length, slice_index, unsigned_abs};
ghost use Rattle.wrp_sums.specs.Sums.{sum_over};
ghost use Rattle.wrp_sums.specs.Duality.{least_term};
ghost use Rattle.wrp_town.specs.Limits.{demand_limit};
ghost use Rattle.wrp_town.specs.Arcs.{is_legal, legal_arcs, cost_or_zero};
ghost use Rattle.wrp_rules.specs.Ranges.{is_from_one, are_multipliers};
ghost use Rattle.wrp_rules.specs.Nodes.{Node, Standing, bound_value, empty_value};
ghost use Rattle.wrp_rows.specs.Pools.{HasRowsOf};
ghost use Rattle.wrp_rows.specs.Tables.{number_at, AreWithin, name_rows};
ghost use Rattle.wrp_rows.specs.Points.{AreBounds, AreBoundsOf};
ghost use Rattle.wrp_bound.specs.Values.{arc_value, pool_value, most_combined, most_reduced, most_arc_value, most_value};

use wrp_num::ceil_div;
use wrp_rows::{Bounds, Rows};
use wrp_town::Town;

/// The bound that multipliers of rows over a denominator give each tour within bounds: their value,
/// rounded up. The scratch has an entry for each arc, and what stands in it makes no difference.
pub fn bound_of(
    rows: &Rows<'_>,
    bounds: &Bounds,
    den: u64,
    mult: &[(u32, u64)],
    scratch: &mut [i128],
) -> i128
    requires bounds { AreBounds rows.now.town bounds.now }
    requires den { is_from_one (2 ^ 40) den ≡ true }
    requires mult { are_multipliers (2 ^ 60) mult.now ≡ true }
    requires named { name_rows rows.now.rows mult.now ≡ true }
    requires scratch { length scratch.old ≡ 2 * length rows.now.town.streets }
    ensures { (s : Standing) (node : Node) → HasRowsOf s rows.now
        → AreBoundsOf rows.now.town node bounds.now
        → result ≡ bound_value rows.now.town s.rows node den mult.now }
{
    let value = pool_value(rows, bounds, den, mult, scratch);
    ceil_div(value, i128::from(den))
}

/// The value of multipliers of rows over bounds where every cost is 0: above 0, no tour is within
/// them. The scratch is as for `bound_of`.
pub fn empty_value(
    rows: &Rows<'_>,
    bounds: &Bounds,
    mult: &[(u32, u64)],
    scratch: &mut [i128],
) -> i128
    requires bounds { AreBounds rows.now.town bounds.now }
    requires mult { are_multipliers (2 ^ 60) mult.now ≡ true }
    requires named { name_rows rows.now.rows mult.now ≡ true }
    requires scratch { length scratch.old ≡ 2 * length rows.now.town.streets }
    ensures { (s : Standing) (node : Node) → HasRowsOf s rows.now
        → AreBoundsOf rows.now.town node bounds.now
        → result ≡ empty_value rows.now.town s.rows node mult.now }
{
    pool_value(rows, bounds, 0, mult, scratch)
}

/// The value of multipliers of rows over bounds, with the costs times a factor.
fn pool_value(
    rows: &Rows<'_>,
    bounds: &Bounds,
    factor: u64,
    mult: &[(u32, u64)],
    scratch: &mut [i128],
) -> i128
    requires bounds { AreBounds rows.now.town bounds.now }
    requires factor { factor ≤ 2 ^ 40 }
    requires mult { are_multipliers (2 ^ 60) mult.now ≡ true }
    requires named { name_rows rows.now.rows mult.now ≡ true }
    requires scratch { length scratch.old ≡ 2 * length rows.now.town.streets }
    ensures value { result ≡ pool_value rows.now factor bounds.now mult.now }
    ensures small { unsigned_abs result ≤ most_value }
{
    let right_side = rows.combine(mult, scratch);
    right_side + sum_of_arcs(rows.town(), bounds, factor, scratch)
}

/// The sum of the values of the legal arcs, by their coefficients in the combined rows.
fn sum_of_arcs(town: &Town, bounds: &Bounds, factor: u64, combined: &[i128]) -> i128
    requires bounds { AreBounds town.now bounds.now }
    requires factor { factor ≤ 2 ^ 40 }
    requires long { length combined.now ≡ 2 * length town.now.streets }
    requires small { AreWithin most_combined combined.now }
    ensures value { result
        ≡ sum_over (arc_value town.now factor bounds.now (number_at combined.now))
        (legal_arcs town.now) }
    ensures small { unsigned_abs result ≤ 8000 * most_arc_value }
{
    let lo = bounds.lo.as_slice();
    let hi = bounds.hi.as_slice();
    let mut total = 0;
    for arc in 0..2 * town.streets.len() as u32 {
        let at = arc as usize;
        total += value_of_arc(town, factor, arc, combined[at], lo[at], hi[at]);
    }
    total
}

/// The least that the uses of an arc cost, less what they are worth in the combined rows; 0 where
/// the arc is illegal.
fn value_of_arc(town: &Town, factor: u64, arc: u32, combined: i128, lo: u32, hi: u32) -> i128
    requires arc { arc < 2 * length town.now.streets }
    requires factor { factor ≤ 2 ^ 40 }
    requires combined { unsigned_abs combined ≤ most_combined }
    requires lo { lo ≤ demand_limit }
    requires hi { hi ≤ demand_limit }
    ensures value { result ≡ cond (is_legal town.now arc)
        (least_term (pos (factor * cost_or_zero town.now arc) -ℤ combined) lo hi) (pos 0) }
    ensures small { unsigned_abs result ≤ most_arc_value }
{
    match town.cost(arc) {
        Some(cost) => least_term(weighted_cost(factor, cost) - combined, lo, hi),
        None => 0,
    }
}

/// A cost times a factor.
fn weighted_cost(factor: u64, cost: u32) -> i128
    requires { factor ≤ 2 ^ 40 }
    ensures value { result ≡ pos (factor * cost) }
    ensures small { unsigned_abs result ≤ 2 ^ 72 }
{
    i128::from(factor) * i128::from(cost)
}

/// The least product of a number and one from `lo` to `hi`.
fn least_term(reduced: i128, lo: u32, hi: u32) -> i128
    requires reduced { unsigned_abs reduced ≤ most_reduced }
    requires lo { lo ≤ demand_limit }
    requires hi { hi ≤ demand_limit }
    ensures value { result ≡ least_term reduced lo hi }
    ensures small { unsigned_abs result ≤ most_arc_value }
{
    let uses = if reduced < 0 { hi } else { lo };
    reduced * i128::from(uses)
}
