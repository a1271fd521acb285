//! The rows of rounding cuts.
ghost use Rattle.std.specs.Prelude.{◌≡◌, ◌^◌, ◌≤◌, ◌++◌, true, if◌then◌else◌, Some, None, Ok, unsigned_abs, IfOk};
ghost use Rattle.std.specs.List.{list_all};
ghost use Rattle.wrp_rules.specs.Ranges.{is_from_one};
ghost use Rattle.wrp_pool.specs.Tallies.{IsTally, AreWithin, most_combined, most_combined_side};
ghost use Rattle.wrp_pool.specs.Cuts.{term_unless_zero};
ghost use Rattle.wrp_pool.specs.Rounds.{quotient, is_small, fits_at, rounded_terms, rounding, Rounds};

use crate::row::Pool;
use crate::tally::Tally;
use std::alloc::{AllocError, Global};
use wrp_num::ceil_div;
use wrp_town::Town;

/// The greatest size of a coefficient and of the right side of a rounding.
const MOST_COEFFICIENT: u128 = 1 << 20;

/// A number divided and rounded up, where that is small enough for a rounding.
fn rounded(number: i128, divisor: u64) -> Option<i32>
    requires small { unsigned_abs number ≤ most_combined_side }
    requires divisor { is_from_one (2 ^ 20) divisor ≡ true }
    ensures { result ≡ (if is_small (quotient divisor number) then Some (quotient divisor number)
        else None) }
{
    let quotient = ceil_div(number, i128::from(divisor));
    if quotient.unsigned_abs() <= MOST_COEFFICIENT {
        Some(quotient as i32)
    } else {
        None
    }
}

/// Adds the term of an arc, unless it is 0. False where it is too large.
fn push_rounded(
    arc: u16,
    number: i128,
    divisor: u64,
    terms: &mut Vec<(u16, i32)>,
) -> Result<bool, AllocError>
    requires small { unsigned_abs number ≤ most_combined_side }
    requires divisor { is_from_one (2 ^ 20) divisor ≡ true }
    ensures fits { IfOk result (λ fits. fits ≡ is_small (quotient divisor number)) }
    ensures terms { result ≡ Ok true → terms.new.items
        ≡ terms.old.items ++ term_unless_zero arc (quotient divisor number) }
{
    match rounded(number, divisor) {
        Some(0) => Ok(true),
        Some(coef) => {
            terms.push((arc, coef))?;
            Ok(true)
        }
        None => Ok(false),
    }
}

/// Adds the terms of the listed arcs. False where one is too large.
fn push_rounded_terms(
    town: &Town,
    tally: &Tally,
    divisor: u64,
    terms: &mut Vec<(u16, i32)>,
) -> Result<bool, AllocError>
    requires tally { IsTally town.now tally.now }
    requires small { AreWithin most_combined tally.now }
    requires divisor { is_from_one (2 ^ 20) divisor ≡ true }
    ensures fit { IfOk result (λ fit. fit
        ≡ list_all (fits_at tally.now divisor) tally.now.listed.items) }
    ensures terms { result ≡ Ok true → terms.new.items ≡ terms.old.items
        ++ rounded_terms tally.now divisor tally.now.listed.items }
{
    for arc in tally.listed() {
        if !push_rounded(*arc, tally.number(*arc), divisor, terms)? {
            return Ok(false);
        }
    }
    Ok(true)
}

impl Pool {
    /// Adds the row of a rounding of combined rows, of which the tally has the coefficients, unless
    /// a number of it is too large. Returns whether it was added.
    ///
    /// # Errors
    ///
    /// Want of memory alone.
    pub fn push_round(
        &mut self,
        alloc: Global,
        town: &Town,
        divisor: u64,
        tally: &Tally,
        side: i128,
    ) -> Result<bool, AllocError>
        requires tally { IsTally town.now tally.now }
        requires small { AreWithin most_combined tally.now }
        requires small_side { unsigned_abs side ≤ most_combined_side }
        requires divisor { is_from_one (2 ^ 20) divisor ≡ true }
        ensures { IfOk result (λ taken.
            Rounds town.now (rounding tally.now divisor side) taken self.old self.new) }
    {
        let mut terms = Vec::new(alloc);
        if !push_rounded_terms(town, tally, divisor, &mut terms)? {
            return Ok(false);
        }
        match rounded(side, divisor) {
            Some(right_side) => {
                self.push_row(terms, right_side)?;
                Ok(true)
            }
            None => Ok(false),
        }
    }
}
