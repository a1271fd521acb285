//! What is read off a tableau.

ghost use Rattle.std.specs.Prelude.{◌≡◌, ◌≢◌, ◌+◌, ◌≤◌, ◌<◌, ◌^◌, pos, unsigned_abs, length, IfOk};
ghost use Rattle.wrp_tableau.specs.Kept.{system};
ghost use Rattle.wrp_lp.specs.Reading.{times, point_numbers, optimal_multiplier, empty_multiplier, multipliers_of};
ghost use Rattle.wrp_lp.specs.Wholes.{IsDen};

use std::alloc::{AllocError, Global};
use wrp_tableau::Tableau;
use wrp_town::List;

/// A fraction times a denominator that makes it whole.
fn times(den: i128, numerator: i128, denominator: i128) -> i128
    requires den { IsDen den }
    requires numerator { unsigned_abs numerator ≤ 2 ^ 60 }
    requires denominator { denominator ≢ pos 0 }
    ensures value { result ≡ times (unsigned_abs den) numerator denominator }
    ensures small { unsigned_abs result ≤ 2 ^ 120 }
{
    den * numerator / denominator
}

/// The numbers of the structural variables over a denominator.
pub fn point_numbers(
    alloc: Global,
    tableau: &Tableau,
    width: u32,
    den: i128,
) -> Result<List<i128>, AllocError>
    requires width { width ≡ (system tableau.now).width }
    requires den { IsDen den }
    ensures { IfOk result (λ at. at ≡ point_numbers (system tableau.now) (unsigned_abs den)) }
{
    let mut at = vec![in alloc; 0i128; width as usize]?;
    for r in 0..tableau.rows() {
        let basic = tableau.basic(r);
        if basic < width {
            at[basic as usize] = times(den, tableau.right(r), tableau.entry(r, basic));
        }
    }
    Ok(List::from_vec(at))
}

/// The multipliers of the chosen rows over a denominator, where no row is broken.
pub fn optimal_mult(
    alloc: Global,
    tableau: &Tableau,
    width: u32,
    chosen: &[u32],
    den: i128,
) -> Result<List<(u32, i128)>, AllocError>
    requires width { width ≡ (system tableau.now).width }
    requires few { width + length chosen.now < 2 ^ 32 }
    requires den { IsDen den }
    ensures { IfOk result (λ mult. mult
        ≡ multipliers_of chosen.now (optimal_multiplier (system tableau.now) (unsigned_abs den))) }
{
    let scale = tableau.scale();
    let mut mult = Vec::with_capacity(alloc, chosen.len())?;
    for i in 0..chosen.len() {
        let reduced = tableau.reduced(width + i as u32);
        mult.push((chosen[i], times(den, reduced, scale)))?;
    }
    Ok(List::from_vec(mult))
}

/// The multipliers of the chosen rows, where a row has no dual simplex step.
pub fn empty_mult(
    alloc: Global,
    tableau: &Tableau,
    width: u32,
    chosen: &[u32],
    row: u32,
) -> Result<List<(u32, i128)>, AllocError>
    requires width { width ≡ (system tableau.now).width }
    requires few { width + length chosen.now < 2 ^ 32 }
    requires there { row < length tableau.now.rows }
    ensures { IfOk result (λ mult. mult
        ≡ multipliers_of chosen.now (empty_multiplier (system tableau.now) row)) }
{
    let mut mult = Vec::with_capacity(alloc, chosen.len())?;
    for i in 0..chosen.len() {
        let entry = tableau.entry(row, width + i as u32);
        mult.push((chosen[i], entry.abs()))?;
    }
    Ok(List::from_vec(mult))
}
