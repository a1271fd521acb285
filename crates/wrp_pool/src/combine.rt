//! Rows combined: each times its multiplier, added up.
ghost use Rattle.std.specs.Prelude.{◌≡◌, ◌^◌, ◌≤◌, true, unsigned_abs, length, IfOk, OnOk};
ghost use Rattle.std.specs.List.{All};
ghost use Rattle.wrp_rules.specs.Ranges.{are_multipliers};
ghost use Rattle.wrp_pool.specs.Pools.{most_right_side, AreSmallTerms, IsSmallRow, has_rows};
ghost use Rattle.wrp_pool.specs.Tallies.{IsTally, IsBlank, AreWithin, IsWeighted, Grows, IsCombined, IsCombinedSide};

use crate::row::{Pool, SparseRow};
use crate::tally::Tally;
use std::alloc::AllocError;
use wrp_town::Town;

/// A coefficient or a right side, times a weight.
fn weighted(weight: u128, number: i32) -> i128
    requires weight { weight ≤ 2 ^ 60 }
    requires small { unsigned_abs number ≤ most_right_side }
    ensures { IsWeighted weight number result }
{
    weight as i128 * i128::from(number)
}

/// Adds each term, times a weight.
fn add_terms(
    town: &Town,
    terms: &[(u16, i32)],
    weight: u128,
    tally: &mut Tally,
) -> Result<(), AllocError>
    requires tally { IsTally town.now tally.old }
    requires terms { AreSmallTerms town.now terms.now }
    requires weight { weight ≤ 2 ^ 60 }
    requires room { AreWithin (2 ^ 120) tally.old }
    ensures { OnOk result (Grows town.now terms.now weight tally.old tally.new) }
{
    for term in terms {
        let (arc, coef) = *term;
        tally.add(town, arc, weighted(weight, coef))?;
    }
    Ok(())
}

/// Adds a row, times a weight. Returns its right side, times the weight.
fn add_row(
    town: &Town,
    row: &SparseRow,
    weight: u128,
    tally: &mut Tally,
) -> Result<i128, AllocError>
    requires tally { IsTally town.now tally.old }
    requires row { IsSmallRow town.now row.now }
    requires weight { weight ≤ 2 ^ 60 }
    requires room { AreWithin (2 ^ 120) tally.old }
    ensures terms { OnOk result (Grows town.now row.now.terms weight tally.old tally.new) }
    ensures right_side { IfOk result (IsWeighted weight row.now.right_side) }
{
    add_terms(town, row.terms.as_slice(), weight, tally)?;
    Ok(weighted(weight, row.right_side))
}

impl Pool {
    /// Puts into the tally the coefficients of the rows of the pairs, each times its multiplier,
    /// and returns their right side.
    ///
    /// # Errors
    ///
    /// Want of memory alone.
    pub fn combine(
        &self,
        town: &Town,
        multipliers: &[(u32, u128)],
        tally: &mut Tally,
    ) -> Result<i128, AllocError>
        requires small { All (IsSmallRow town.now) self.now.rows }
        requires multipliers { are_multipliers (2 ^ 60) multipliers.now ≡ true }
        requires rows { has_rows self.now multipliers.now ≡ true }
        requires blank { IsBlank town.now tally.old }
        ensures tally { OnOk result (IsCombined town.now self.now multipliers.now tally.new) }
        ensures side { IfOk result (IsCombinedSide self.now multipliers.now) }
    {
        let mut side = 0;
        for pair in multipliers {
            let (row, weight) = *pair;
            side += add_row(town, self.row(row), weight, tally)?;
        }
        Ok(side)
    }
}
