//! Rows times multipliers, summed: a number for each arc, and the right side.
ghost use Rattle.std.specs.Prelude.{◌≡◌, ℕ, ◌^◌, ◌≤◌, ◌<◌, true, pos, unsigned_abs, length};
ghost use Rattle.std.specs.List.{All};
ghost use Rattle.wrp_rules.specs.Ranges.{most_multipliers};
ghost use Rattle.wrp_rows.specs.Pools.{sparse_at};
ghost use Rattle.wrp_rows.specs.Sizes.{most_right_side, AreSmallTerms, IsSmallRow};
ghost use Rattle.wrp_rows.specs.Tables.{number_at, AreWithin, AreAdded, IsScaled, name_rows, AreCombined};

use crate::table::Table;

impl Table {
    /// Puts into `sums` the coefficient of each arc in the rows of the pairs, each row times its
    /// multiplier, and returns their right side.
    pub(crate) fn combine(&self, mult: &[(u32, u64)], sums: &mut [i128]) -> i128
        requires rows { All (IsSmallRow (length sums.old)) self.now }
        requires named { name_rows self.now mult.now ≡ true }
        requires few { length mult.now ≤ most_multipliers }
        requires light { All (λ q. q.1 ≤ 2 ^ 60) mult.now }
        ensures { AreCombined self.now mult.now sums.new result }
    {
        clear(sums);
        let mut side = 0;
        for pair in mult {
            let (row, weight) = *pair;
            side += self.add_row(row as usize, weight, sums);
        }
        side
    }

    /// Adds the terms of a row, times a weight, to the sums, and returns its right side, times the
    /// weight.
    fn add_row(&self, row: usize, weight: u64, sums: &mut [i128]) -> i128
        requires rows { All (IsSmallRow (length sums.old)) self.now }
        requires row { row < length self.now }
        requires weight { weight ≤ 2 ^ 60 }
        requires room { AreWithin (2 ^ 120) sums.old }
        ensures terms { AreAdded (sparse_at self.now row).terms weight sums.old sums.new }
        ensures right_side { IsScaled weight (sparse_at self.now row).right_side result }
    {
        add_terms(self.terms(row), weight, sums);
        scaled(weight, self.right_side(row))
    }
}

/// A number of a row, times a weight.
fn scaled(weight: u64, number: i64) -> i128
    requires weight { weight ≤ 2 ^ 60 }
    requires small { unsigned_abs number ≤ most_right_side }
    ensures { IsScaled weight number result }
{
    i128::from(weight) * i128::from(number)
}

/// Adds each term, times a weight, to the sum of its arc.
fn add_terms(terms: &[(u32, i64)], weight: u64, sums: &mut [i128])
    requires terms { AreSmallTerms (length sums.old) terms.now }
    requires weight { weight ≤ 2 ^ 60 }
    requires room { AreWithin (2 ^ 120) sums.old }
    ensures { AreAdded terms.now weight sums.old sums.new }
{
    for term in terms {
        let (arc, coef) = *term;
        sums[arc as usize] += scaled(weight, coef);
    }
}

/// Sets each sum to 0.
fn clear(sums: &mut [i128])
    ensures { (arc : ℕ) → number_at sums.new arc ≡ pos 0 }
{
    for sum in sums.iter_mut() {
        *sum = 0;
    }
}
