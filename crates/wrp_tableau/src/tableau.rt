//! The tableau, its start and its pivots.

ghost use Rattle.std.specs.Prelude.{◌≡◌, ◌≢◌, ◌≤◌, ◌<◌, ◌^◌, ℕ, List, ℤ, pos, neg_ℤ, ◌<ℤ◌, unsigned_abs, length, All, IfOk, IfErr, IfSome, None, OnOk, OnErr};
ghost use Rattle.wrp_sums.specs.Sums.{coef_at};
ghost use Rattle.wrp_tableau.specs.Systems as systems;
ghost use Rattle.wrp_tableau.specs.Systems.{variables, start_of, pivoted, IsWide};
ghost use Rattle.wrp_tableau.specs.Solutions.{HaveSameSolutions, HasCosts};
ghost use Rattle.wrp_tableau.specs.Soundness.{IsSound};
ghost use Rattle.wrp_tableau.specs.Starts.{IsLine};
ghost use Rattle.wrp_tableau.specs.Sparse.{IsSparse};
ghost use Rattle.wrp_tableau.specs.Changes.{row_at};
ghost use Rattle.wrp_tableau.specs.Kept.{system, IsPivot};

use crate::change::{Change, apply, apply_all, change_of, changes_of};
use crate::line::Line;
use crate::row::{Row, entry_of};
use crate::start::{line_rows, slack_numbers, slack_row};
use std::alloc::{AllocError, Global};
use std::marker::Model;

/// Why a pivot is refused.
#[derive(Debug, Drop, Clone, Copy, PartialEq, Eq, thiserror::Error)]
pub enum PivotFault {
    /// An entry of a new row, divided by its greatest common factor, would exceed 2^60 in size.
    #[error("an entry of a new row would be too large")]
    Wide,
    /// Memory was wanting.
    #[error("out of memory")]
    Memory,
}

/// A tableau. Contracts see its sparse rows, its basis and its cost row, and by `system` the
/// equations that these stand for.
#[derive(Debug, Drop)]
pub struct Tableau {
    alloc: Global,
    width: u32,
    rows: Vec<Row>,
    basics: Vec<u32>,
    cost: Row,
}

impl Model for Tableau {
    ghost use Rattle.wrp_tableau.specs.Kept.{SparseSystem, IsKept};

    ghost Value = { SparseSystem };

    ghost view = { λ t. record {
      width = t.width;
      rows = t.rows.items;
      basics = t.basics.items;
      cost = t.cost;
    } };

    ghost invariant = { λ t. IsKept (record {
      width = t.width;
      rows = t.rows.items;
      basics = t.basics.items;
      cost = t.cost;
    }) };
}

/// What a pivot in row `r` at column `c` makes of the rows and of the cost row. `None` where one of
/// them is wide then.
fn pivot_changes(
    alloc: Global,
    tableau: &Tableau,
    r: u32,
    c: u32,
) -> Result<Option<(Vec<Change>, Change)>, AllocError>
    requires there { r < length tableau.now.rows }
    requires entry { (systems.row (system tableau.now) r).entry c ≢ pos 0 }
    ensures ok { IfOk result (λ found. IfSome found (λ new.
        IsPivot tableau.now r c new.0.items new.1)) }
    ensures wide { IfOk result (λ found. found ≡ None
        → IsWide (pivoted (system tableau.now) r c)) }
{
    let rows = tableau.rows.as_slice();
    let Some(changes) = changes_of(alloc, rows, r as usize, c)? else {
        return Ok(None);
    };
    let Some(cost) = change_of(alloc, &tableau.cost, &rows[r as usize], c)? else {
        return Ok(None);
    };
    Ok(Some((changes, cost)))
}

impl Tableau {
    /// The tableau of lines over `width` variables, of which each has a cost. Each line gets a
    /// slack, which is basic in its row: slack `i` is variable `width + i`.
    ///
    /// # Errors
    ///
    /// Want of memory alone. Lines so many that their slacks have no numbers of 32 bits count as
    /// that.
    pub fn start(
        alloc: Global,
        width: u32,
        lines: &[Line],
        costs: &[i128],
    ) -> Result<Tableau, AllocError>
        requires lines { All (IsLine width) lines.now }
        requires costs { length costs.now ≡ width }
        requires costs_small { All (λ z. unsigned_abs z ≤ 2 ^ 60) costs.now }
        ensures is { IfOk result (λ t. system t ≡ start_of width lines.now costs.now) }
        ensures rows { IfOk result (λ t. length t.rows ≡ length lines.now) }
        ensures costs { IfOk result (λ t. HasCosts costs.now (system t)) }
    {
        if lines.len() >= (u32::MAX - width) as usize {
            return Err(AllocError);
        }
        let rows = line_rows(alloc, width, lines)?;
        let basics = slack_numbers(alloc, width, lines)?;
        let cost = slack_row(alloc, costs, 0, width + lines.len() as u32)?;
        Ok(Tableau {
            alloc,
            width,
            rows,
            basics,
            cost,
        })
    }

    /// Makes variable `c` basic in row `r`. After a refusal the tableau is as before.
    ///
    /// # Errors
    ///
    /// `Wide` exactly where an entry or a right side of a new row would exceed 2^60 in size, and
    /// `Memory`.
    pub fn pivot(&mut self, r: u32, c: u32) -> Result<(), PivotFault>
        requires there { r < length self.old.rows }
        requires entry { (systems.row (system self.old) r).entry c ≢ pos 0 }
        ensures ok { OnOk result (system self.new ≡ pivoted (system self.old) r c) }
        ensures narrow { OnOk result (IsWide (pivoted (system self.old) r c) → ⊥) }
        ensures rows { OnOk result (length self.new.rows ≡ length self.old.rows) }
        ensures basic { OnOk result (systems.basic (system self.new) r ≡ c) }
        ensures solutions { OnOk result (HaveSameSolutions (system self.old) (system self.new)) }
        ensures costs { OnOk result ((costs : List ℤ) → HasCosts costs (system self.old)
            → HasCosts costs (system self.new)) }
        ensures err { OnErr result (self.new ≡ self.old) }
        ensures wide { IfErr result (λ fault. fault ≡ PivotFault.Wide
            → IsWide (pivoted (system self.old) r c)) }
    {
        match pivot_changes(self.alloc, self, r, c) {
            Err(_) => Err(PivotFault::Memory),
            Ok(None) => Err(PivotFault::Wide),
            Ok(Some((changes, cost))) => {
                apply_all(&mut self.rows, changes);
                apply(&mut self.cost, cost);
                self.basics[r as usize] = c;
                Ok(())
            }
        }
    }

    /// The number of rows.
    pub fn rows(&self) -> u32
        ensures count { result ≡ length self.now.rows }
        ensures sound { IsSound (system self.now) }
    {
        self.rows.len() as u32
    }

    /// Lends the entries of a row that aren't 0, each with its variable, ascending.
    pub fn row(&self, r: u32) -> &[(u32, i128)]
        requires { r < length self.now.rows }
        ensures terms { result.now ≡ (row_at self.now.rows r).terms }
        ensures entries { (c : ℕ) → coef_at result.now c
            ≡ (systems.row (system self.now) r).entry c }
        ensures sparse { IsSparse (2 ^ 60) result.now }
    {
        self.rows[r as usize].terms.as_slice()
    }

    /// The entry of row `r` in column `c`.
    pub fn entry(&self, r: u32, c: u32) -> i128
        requires { r < length self.now.rows }
        ensures value { result ≡ (systems.row (system self.now) r).entry c }
        ensures small { unsigned_abs result ≤ 2 ^ 60 }
    {
        entry_of(self.row(r), c)
    }

    /// The right side of a row.
    pub fn right(&self, r: u32) -> i128
        requires { r < length self.now.rows }
        ensures value { result ≡ (systems.row (system self.now) r).right }
        ensures small { unsigned_abs result ≤ 2 ^ 60 }
    {
        self.rows[r as usize].right
    }

    /// The basic variable of a row.
    pub fn basic(&self, r: u32) -> u32
        requires { r < length self.now.rows }
        ensures { result ≡ systems.basic (system self.now) r }
    {
        self.basics[r as usize]
    }

    /// The scale of the cost row, above 0.
    pub fn scale(&self) -> i128
        ensures value { result ≡ systems.scale (system self.now) }
        ensures positive { pos 0 <ℤ result }
        ensures small { unsigned_abs result ≤ 2 ^ 60 }
        ensures sound { IsSound (system self.now) }
    {
        let number = self.width + self.rows.len() as u32;
        -entry_of(self.cost.terms.as_slice(), number)
    }

    /// The value of the cost row: for each solution the scale times the cost is the value and the
    /// sum of the reduced costs times the variables.
    pub fn value(&self) -> i128
        ensures value { result ≡ systems.value (system self.now) }
        ensures small { unsigned_abs result ≤ 2 ^ 60 }
    {
        -self.cost.right
    }

    /// The reduced cost of a variable.
    pub fn reduced(&self, c: u32) -> i128
        ensures value { result ≡ systems.reduced_cost (system self.now) c }
        ensures small { unsigned_abs result ≤ 2 ^ 60 }
    {
        entry_of(self.cost.terms.as_slice(), c)
    }
}

#[cfg(test)]
mod tests {
    use super::{PivotFault, Tableau};
    use crate::line::Line;
    use std::alloc::{AllocError, Global};
    use std::test::Fail;
    use wrp_town::List;

    // The line `a * x + b * y >= 1`.
    fn line(alloc: Global, a: i128, b: i128) -> Result<Line, AllocError>
        requires a { unsigned_abs a ≤ 2 ^ 60 }
        requires b { unsigned_abs b ≤ 2 ^ 60 }
        ensures { IfOk result (λ line. IsLine 2 line) }
    {
        let coefs = List::from_vec(vec![in alloc; a, b]?);
        Ok(Line { coefs, rhs: 1 })
    }

    // The tableau of two lines, with the cost 1 for each variable.
    fn tableau(alloc: Global, first: Line, second: Line) -> Result<Tableau, AllocError>
        requires first { IsLine 2 first }
        requires second { IsLine 2 second }
        ensures { IfOk result (λ t. length t.rows ≡ 2) }
    {
        let lines = vec![in alloc; first, second]?;
        Tableau::start(alloc, 2, lines.as_slice(), [1, 1].as_slice())
    }

    #[test]
    fn a_pivot_takes_out_an_entry(rt: HostRuntime) -> Result<(), Fail> {
        let alloc = rt.alloc();
        let mut tableau = tableau(alloc, line(alloc, 1, 0)?, line(alloc, 1, 2)?)?;
        assert!(rt; tableau.rows() == 2);
        assert!(rt; tableau.entry(0, 0) == 1);
        assert!(rt; tableau.basic(0) == 2);
        assert!(rt; tableau.pivot(0, 0).is_ok());
        assert!(rt; tableau.basic(0) == 0);
        assert!(rt; tableau.entry(1, 0) == 0);
        assert!(rt; tableau.entry(1, 1) == 2);
        assert!(rt; tableau.right(1) == 0);
        assert_eq!(rt; tableau.row(1), [(1, 2), (2, 1), (3, -1)].as_slice());
        assert!(rt; tableau.scale() == 1);
        assert!(rt; tableau.value() == 1);
        assert!(rt; tableau.reduced(2) == 1);
        Ok(())
    }

    #[test]
    fn a_wide_pivot_changes_nothing(rt: HostRuntime) -> Result<(), Fail> {
        let alloc = rt.alloc();
        let first = line(alloc, (1 << 40) + 1, 1)?;
        let second = line(alloc, 1, (1 << 40) + 3)?;
        let mut tableau = tableau(alloc, first, second)?;
        assert!(rt; tableau.entry(0, 0) == (1 << 40) + 1);
        assert!(rt; matches!(tableau.pivot(0, 0), Err(PivotFault::Wide)));
        assert!(rt; tableau.basic(0) == 2);
        assert!(rt; tableau.entry(1, 0) == 1);
        Ok(())
    }

    #[test]
    fn narrow_lines_pivot(rt: HostRuntime) -> Result<(), Fail> {
        let alloc = rt.alloc();
        let mut tableau = tableau(alloc, line(alloc, 1, 1)?, line(alloc, 1, 2)?)?;
        assert!(rt; tableau.entry(0, 0) == 1);
        assert!(rt; tableau.pivot(0, 0).is_ok());
        assert!(rt; tableau.entry(1, 1) == 1);
        Ok(())
    }
}
