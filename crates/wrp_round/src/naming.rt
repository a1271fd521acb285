//! The roundings that the rows of a tableau name.
ghost use Rattle.std.specs.Prelude.{◌≡◌, ◌≢◌, ◌≤◌, ◌<◌, ◌+◌, ◌*◌, ◌^◌, ◌↔◌, IsTrue, pos, unsigned_abs, length, None, IfOk, IfSome, MatchOption};
ghost use Rattle.wrp_sums.specs.Sums.{coef_at};
ghost use Rattle.wrp_tableau.specs.Kept.{system};
ghost use Rattle.wrp_tableau.specs.Soundness.{IsSound};
ghost use Rattle.wrp_tableau.specs.Sparse.{IsSparse};
ghost use Rattle.wrp_simplex.specs.Steps.{pivot_entry};
ghost use Rattle.wrp_lp.specs.Reading.{IsWhole};
ghost use Rattle.wrp_round.specs.Places.{IsPlace};
ghost use Rattle.wrp_round.specs.Roundings.{multiplier as multiplier_of, rounding_pairs, NamesRounding, rounding_of};

use std::alloc::{AllocError, Global};
use wrp_rules::Record;
use wrp_tableau::Tableau;
use wrp_town::List;

/// The rounding that a row of a tableau names over the chosen rows, where it names one.
pub(crate) fn named(
    alloc: Global,
    table: &Tableau,
    width: u32,
    chosen: &[u32],
    r: u32,
) -> Result<Option<Record>, AllocError>
    requires width { width ≡ (system table.now).width }
    requires sound { IsSound (system table.now) }
    requires there { r < length table.now.rows }
    ensures none { IfOk result (λ item. item ≡ None → NamesRounding (system table.now) r → ⊥) }
    ensures some { IfOk result (λ item. IfSome item (λ i.
        i ≡ rounding_of (system table.now) chosen.now r)) }
{
    let basic = table.basic(r);
    let pivot = table.entry(r, basic);
    if basic >= width || is_whole(table.right(r), pivot) {
        return Ok(None);
    }
    let mult = pairs_of(alloc, table, width, chosen, r, pivot)?;
    Ok(Some(Record::Round {
        divisor: pivot.unsigned_abs() as u64,
        mult,
    }))
}

/// Whether a fraction is whole.
fn is_whole(numerator: i128, denominator: i128) -> bool
    requires { denominator ≢ pos 0 }
    ensures { IsTrue result ↔ IsWhole 1 numerator denominator }
{
    numerator.unsigned_abs() % denominator.unsigned_abs() == 0
}

/// The multipliers of the rounding that a row names, each with its row.
fn pairs_of(
    alloc: Global,
    table: &Tableau,
    width: u32,
    chosen: &[u32],
    r: u32,
    pivot: i128,
) -> Result<List<(u32, u64)>, AllocError>
    requires width { width ≡ (system table.now).width }
    requires there { r < length table.now.rows }
    requires pivot { pivot ≡ pivot_entry (system table.now) r }
    requires some { pivot ≢ pos 0 }
    requires small { unsigned_abs pivot ≤ 2 ^ 60 }
    ensures { IfOk result (λ pairs. pairs ≡ rounding_pairs (system table.now) chosen.now r) }
{
    let terms = table.row(r);
    let mut at = place_of(terms, width);
    let mut pairs = Vec::new(alloc);
    for i in 0..chosen.len() {
        let (entry, next) = entry_at(terms, at, width as usize + i);
        let multiplier = multiplier(pivot, entry);
        if multiplier != 0 {
            pairs.push((chosen[i], multiplier))?;
        }
        at = next;
    }
    Ok(List::from_vec(pairs))
}

/// The place of the first term with at least this number.
fn place_of(terms: &[(u32, i128)], number: u32) -> usize
    requires { IsSparse (2 ^ 60) terms.now }
    ensures { IsPlace terms.now result number }
{
    terms.partition_point(|term| term.0 < number)
}

/// The entry at a number, and the place of the next number.
fn entry_at(terms: &[(u32, i128)], at: usize, number: usize) -> (i128, usize)
    requires sparse { IsSparse (2 ^ 60) terms.now }
    requires place { IsPlace terms.now at number }
    ensures value { result.0 ≡ coef_at terms.now number }
    ensures small { unsigned_abs result.0 ≤ 2 ^ 60 }
    ensures place { IsPlace terms.now result.1 (number + 1) }
{
    if at < terms.len() && terms[at].0 as usize == number {
        (terms[at].1, at + 1)
    } else {
        (0, at)
    }
}

/// The multiplier of a row whose slack has this entry.
fn multiplier(pivot: i128, entry: i128) -> u64
    requires some { pivot ≢ pos 0 }
    requires pivot { unsigned_abs pivot ≤ 2 ^ 60 }
    requires entry { unsigned_abs entry ≤ 2 ^ 60 }
    ensures { result ≡ multiplier_of pivot entry }
{
    let turned = if pivot < 0 { entry } else { -entry };
    turned.rem_euclid(pivot.abs()) as u64
}
