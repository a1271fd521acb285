//! Judging roundings: whether they keep their rules, how large their numbers are, and whether a
//! point breaks them.
ghost use Rattle.std.specs.Prelude.{◌≡◌, ℕ, ◌*◌, ◌^◌, ◌<◌, ◌≤◌, ◌↔◌, cond, true, false, IsTrue, IsSome, pos, ◌≤ℤ◌, ◌*ℤ◌, unsigned_abs, length, nat_lt};
ghost use Rattle.std.specs.List.{list_all};
ghost use Rattle.wrp_sums.specs.Sums.{sum_over};
ghost use Rattle.wrp_sums.specs.Rounding as rounding;
ghost use Rattle.wrp_town.specs.Arcs.{is_legal, legal_arcs};
ghost use Rattle.wrp_rules.specs.Ranges.{is_from_one, are_multipliers};
ghost use Rattle.wrp_rules.specs.Rows.{most_coefficient};
ghost use Rattle.wrp_rules.specs.Nodes.{Standing};
ghost use Rattle.wrp_rows.specs.Pools.{HasRowsOf};
ghost use Rattle.wrp_rows.specs.Points.{IsPoint};
ghost use Rattle.wrp_rows.specs.Tables.{number_at, AreWithin, name_rows};
ghost use Rattle.wrp_rows.specs.Making.{AreRounded};
ghost use Rattle.wrp_odd.specs.Points.{most_number, HasNumbers, numbers_of, Breaks};
ghost use Rattle.wrp_round.specs.Judging.{row_with, IsWithin, IsSizeOf, KeepsAndBreaks, divisor_of as the_divisor};
ghost use Rattle.wrp_round.specs.Broken.{IsBrokenRounding};

use wrp_num::ceil_div;
use wrp_rows::{Point, Rows};
use wrp_rules::Record;
use wrp_town::Town;
use wrp_writer::writable;

/// The greatest size of a coefficient and of the right side of a rounding.
const MOST_COEFFICIENT: u128 = 1 << 20;

/// The greatest size of a number of the record's row, where the record is a valid rounding that the
/// point breaks. What stands in `sums` makes no difference.
pub(crate) fn size_if_broken(
    rows: &Rows<'_>,
    point: &Point,
    sums: &mut [i128],
    item: &Record,
) -> Option<u128>
    requires sums { length sums.old ≡ 2 * length rows.now.town.streets }
    requires point { IsPoint rows.now.town point.now }
    requires numbers { HasNumbers point.now }
    ensures { (s : Standing) → HasRowsOf s rows.now
        → IsSome result ↔ IsBrokenRounding rows.now.town s point.now item.now }
{
    match item {
        Record::Round { divisor, mult } if writable(item) => {
            size_of_rounding(rows, point, sums, *divisor, mult.as_slice())
        }
        _ => None,
    }
}

/// The divisor of a rounding.
pub(crate) fn divisor_of(item: &Record) -> u64
    ensures { result ≡ the_divisor item.now }
{
    match item {
        Record::Round { divisor, .. } => *divisor,
        _ => 0,
    }
}

/// The same for a divisor and multipliers in their ranges.
fn size_of_rounding(
    rows: &Rows<'_>,
    point: &Point,
    sums: &mut [i128],
    divisor: u64,
    mult: &[(u32, u64)],
) -> Option<u128>
    requires sums { length sums.old ≡ 2 * length rows.now.town.streets }
    requires point { IsPoint rows.now.town point.now }
    requires numbers { HasNumbers point.now }
    requires divisor { is_from_one (2 ^ 20) divisor ≡ true }
    requires mult { are_multipliers (2 ^ 40) mult.now ≡ true }
    ensures { (s : Standing) → HasRowsOf s rows.now
        → IsSome result ↔ KeepsAndBreaks rows.now.town s point.now divisor mult.now }
{
    if !name_rows(rows.len(), mult) {
        return None;
    }
    let side = round(rows, sums, divisor, mult);
    let size = size_of(rows.town(), sums, side);
    if size <= MOST_COEFFICIENT && is_broken(rows.town(), point, sums, side) {
        Some(size)
    } else {
        None
    }
}

/// Whether each pair names one of the first `count` rows.
fn name_rows(count: u32, mult: &[(u32, u64)]) -> bool
    ensures { result ≡ list_all (λ q. nat_lt q.0 count) mult.now }
{
    mult.iter().all(|pair| pair.0 < count)
}

/// Puts the coefficients of a rounding into `sums`, and returns its right side.
fn round(rows: &Rows<'_>, sums: &mut [i128], divisor: u64, mult: &[(u32, u64)]) -> i128
    requires sums { length sums.old ≡ 2 * length rows.now.town.streets }
    requires named { name_rows rows.now.rows mult.now ≡ true }
    requires divisor { 0 < divisor }
    requires mult { are_multipliers (2 ^ 40) mult.now ≡ true }
    ensures { AreRounded rows.now.rows divisor mult.now sums.new result }
{
    let side = rows.combine(mult, sums);
    divide(sums, divisor);
    ceil_div(side, i128::from(divisor))
}

/// Divides each sum, and rounds it up.
fn divide(sums: &mut [i128], divisor: u64)
    requires divisor { 0 < divisor }
    requires small { AreWithin (2 ^ 100) sums.old }
    ensures { (arc : ℕ) → number_at sums.new arc
        ≡ rounding.ceil_div (number_at sums.old arc) divisor }
{
    for sum in sums.iter_mut() {
        *sum = ceil_div(*sum, i128::from(divisor));
    }
}

/// The greatest size of a right side and of the sums of the legal arcs.
fn size_of(town: &Town, sums: &[i128], side: i128) -> u128
    requires { length sums.now ≡ 2 * length town.now.streets }
    ensures { IsSizeOf town.now (row_with sums.now side) result }
{
    let mut size = side.unsigned_abs();
    for arc in 0..2 * town.streets.len() as u32 {
        size = size.max(size_at(town, sums, arc));
    }
    size
}

/// The size of the sum of an arc, 0 where the arc is illegal.
fn size_at(town: &Town, sums: &[i128], arc: u32) -> u128
    requires sums { length sums.now ≡ 2 * length town.now.streets }
    requires arc { arc < 2 * length town.now.streets }
    ensures { result ≡ cond (is_legal town.now arc) (unsigned_abs (number_at sums.now arc)) 0 }
{
    if town.cost(arc).is_some() {
        sums[arc as usize].unsigned_abs()
    } else {
        0
    }
}

/// Whether the point breaks the row of these coefficients and this right side.
fn is_broken(town: &Town, point: &Point, sums: &[i128], side: i128) -> bool
    requires sums { length sums.now ≡ 2 * length town.now.streets }
    requires point { IsPoint town.now point.now }
    requires numbers { HasNumbers point.now }
    requires small { IsWithin town.now (row_with sums.now side) most_coefficient }
    ensures { IsTrue result ↔ Breaks town.now point.now (row_with sums.now side) }
{
    left_side(town, point, sums) < product(side, point.den)
}

/// The left side of the row of these coefficients at the numbers of a point.
fn left_side(town: &Town, point: &Point, sums: &[i128]) -> i128
    requires sums { length sums.now ≡ 2 * length town.now.streets }
    requires point { IsPoint town.now point.now }
    requires numbers { HasNumbers point.now }
    requires small { (arc : ℕ) → is_legal town.now arc ≡ true
        → unsigned_abs (number_at sums.now arc) ≤ most_coefficient }
    ensures value { result ≡ sum_over
        (λ arc. number_at sums.now arc *ℤ pos (numbers_of point.now arc)) (legal_arcs town.now) }
    ensures small { unsigned_abs result ≤ 2 ^ 120 }
{
    let mut left = 0;
    for arc in 0..2 * town.streets.len() as u32 {
        left += term_at(town, point, sums, arc);
    }
    left
}

/// The coefficient of an arc times its number, 0 where the arc is illegal.
fn term_at(town: &Town, point: &Point, sums: &[i128], arc: u32) -> i128
    requires sums { length sums.now ≡ 2 * length town.now.streets }
    requires point { IsPoint town.now point.now }
    requires numbers { HasNumbers point.now }
    requires arc { arc < 2 * length town.now.streets }
    requires narrow { is_legal town.now arc ≡ true
        → unsigned_abs (number_at sums.now arc) ≤ most_coefficient }
    ensures value { result ≡ cond (is_legal town.now arc)
        (number_at sums.now arc *ℤ pos (numbers_of point.now arc)) (pos 0) }
    ensures small { unsigned_abs result ≤ 2 ^ 92 }
{
    if town.cost(arc).is_some() {
        product(sums[arc as usize], point.at.as_slice()[arc as usize])
    } else {
        0
    }
}

/// The product of a coefficient and a number of a point.
fn product(coef: i128, number: i128) -> i128
    requires coef { unsigned_abs coef ≤ most_coefficient }
    requires number { pos 0 ≤ℤ number }
    requires low { number ≤ℤ pos most_number }
    ensures value { result ≡ coef *ℤ number }
    ensures small { unsigned_abs result ≤ 2 ^ 92 }
{
    coef * number
}
