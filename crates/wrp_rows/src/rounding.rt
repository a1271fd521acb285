//! Roundings: rows times multipliers, divided by a divisor and rounded up.
ghost use Rattle.std.specs.Prelude.{◌≡◌, ℕ, ◌^◌, ◌*◌, ◌<◌, ◌≤◌, true, nat_le, nat_lt, ◌&&◌, ◌||◌, not, unsigned_abs, map, length, IfOk, OnOk};
ghost use Rattle.std.specs.List.{All, list_all};
ghost use Rattle.wrp_sums.specs.Rounding as rounding;
ghost use Rattle.wrp_town.specs.Arcs.{is_legal};
ghost use Rattle.wrp_rules.specs.declared.record.Record.TheVariants.{Round};
ghost use Rattle.wrp_rules.specs.Ranges.{is_from_one, are_multipliers};
ghost use Rattle.wrp_rules.specs.Rows.{most_coefficient};
ghost use Rattle.wrp_rules.specs.Nodes.{Standing};
ghost use Rattle.wrp_rules.specs.Rules.{has_room};
ghost use Rattle.wrp_rows.specs.Pools.{sparse_of};
ghost use Rattle.wrp_rows.specs.Sizes.{IsSmallRow};
ghost use Rattle.wrp_rows.specs.Tables.{number_at, AreWithin, name_rows};
ghost use Rattle.wrp_rows.specs.Making.{cut_rule, Judges, AreRounded, are_narrow};

use crate::table::Table;
use wrp_num::ceil_div;
use wrp_rules::Rule;
use wrp_town::Town;

/// Judges a rounding, and puts its coefficients into `sums`. Returns its right side.
pub(crate) fn judge_round(
    town: &Town,
    table: &Table,
    sums: &mut [i128],
    room: bool,
    divisor: u64,
    mult: &[(u32, u64)],
) -> Result<i64, Rule>
    requires sums { length sums.old ≡ 2 * length town.now.streets }
    requires rows { All (IsSmallRow (2 * length town.now.streets)) table.now }
    requires divisor { is_from_one (2 ^ 20) divisor ≡ true }
    requires mult { are_multipliers (2 ^ 40) mult.now ≡ true }
    ensures judged { (s : Standing) → room ≡ has_room s
        → table.now ≡ map (sparse_of town.now) s.rows
        → Judges (cut_rule town.now s (Round divisor mult.now)) result }
    ensures room { OnOk result (room ≡ true) }
    ensures named { OnOk result (name_rows table.now mult.now ≡ true) }
    ensures rounded { IfOk result (λ side. AreRounded table.now divisor mult.now sums.new side) }
    ensures narrow { OnOk result (are_narrow town.now sums.new ≡ true) }
    ensures narrow_side { IfOk result (λ side. unsigned_abs side ≤ most_coefficient) }
{
    if !name_rows(table.len(), mult) {
        return Err(Rule::Range);
    }
    if !room {
        return Err(Rule::Cuts);
    }
    let side = round(table, sums, divisor, mult);
    if is_narrow_row(town, sums, side) {
        Ok(side as i64)
    } else {
        Err(Rule::Wide)
    }
}

/// Whether each pair names one of the first `count` rows.
fn name_rows(count: usize, mult: &[(u32, u64)]) -> bool
    ensures { result ≡ list_all (λ q. nat_lt q.0 count) mult.now }
{
    mult.iter().all(|pair| (pair.0 as usize) < count)
}

/// Puts the coefficients of a rounding into `sums`, and returns its right side.
fn round(table: &Table, sums: &mut [i128], divisor: u64, mult: &[(u32, u64)]) -> i128
    requires rows { All (IsSmallRow (length sums.old)) table.now }
    requires named { name_rows table.now mult.now ≡ true }
    requires divisor { 0 < divisor }
    requires mult { are_multipliers (2 ^ 40) mult.now ≡ true }
    ensures { AreRounded table.now divisor mult.now sums.new result }
{
    let side = table.combine(mult, sums);
    divide(sums, divisor);
    ceil_div(side, i128::from(divisor))
}

/// Divides each sum, and rounds it up.
fn divide(sums: &mut [i128], divisor: u64)
    requires divisor { 0 < divisor }
    requires small { AreWithin (2 ^ 100) sums.old }
    ensures { (arc : ℕ) → number_at sums.new arc
        ≡ rounding.ceil_div (number_at sums.old arc) divisor }
{
    for sum in sums.iter_mut() {
        *sum = ceil_div(*sum, i128::from(divisor));
    }
}

/// Whether no number of a row is above 2^20 in size: its right side, and the sum of each legal arc.
fn is_narrow_row(town: &Town, sums: &[i128], side: i128) -> bool
    requires { length sums.now ≡ 2 * length town.now.streets }
    ensures { result ≡ (nat_le (unsigned_abs side) most_coefficient
        && are_narrow town.now sums.now) }
{
    is_narrow(side) && are_narrow(town, sums)
}

/// Whether a number is at most 2^20 in size.
fn is_narrow(number: i128) -> bool
    ensures { result ≡ nat_le (unsigned_abs number) most_coefficient }
{
    number.unsigned_abs() <= 1 << 20
}

/// Whether the sum of each legal arc is at most 2^20 in size.
fn are_narrow(town: &Town, sums: &[i128]) -> bool
    requires { length sums.now ≡ 2 * length town.now.streets }
    ensures { result ≡ are_narrow town.now sums.now }
{
    for arc in 0..2 * town.streets.len() as u32 {
        if !is_narrow_at(town, sums, arc) {
            return false;
        }
    }
    true
}

/// Whether an arc is illegal, or has a sum of at most 2^20 in size.
fn is_narrow_at(town: &Town, sums: &[i128], arc: u32) -> bool
    requires sums { length sums.now ≡ 2 * length town.now.streets }
    requires arc { arc < 2 * length town.now.streets }
    ensures { result ≡ (not (is_legal town.now arc)
        || nat_le (unsigned_abs (number_at sums.now arc)) most_coefficient) }
{
    town.cost(arc).is_none() || is_narrow(sums[arc as usize])
}
