//! The rows of a town and of cuts.
ghost use Rattle.std.specs.Prelude.{◌≡◌, ◌*◌, ◌^◌, ◌<◌, ◌≤◌, true, None, unsigned_abs, length, IsSome, IfOk, OnOk, OnErr};
ghost use Rattle.std.specs.List.{All};
ghost use Rattle.wrp_sums.specs.Sums.{coef_at};
ghost use Rattle.wrp_rules.specs.declared.record.Record.{Record};
ghost use Rattle.wrp_rules.specs.Ranges.{most_multipliers};
ghost use Rattle.wrp_rules.specs.Rows.{row_at};
ghost use Rattle.wrp_rules.specs.Nodes.{Standing, start, after};
ghost use Rattle.wrp_rules.specs.Rules.{is_cut};
ghost use Rattle.wrp_writer.specs.Limits.{is_writable};
ghost use Rattle.wrp_rows.specs.Pools.{terms_of, legal_coef, sparse_at, base_pool, unprepared, committed, HasRowsOf, HasPrepared, HasOneMore};
ghost use Rattle.wrp_rows.specs.Sizes.{most_right_side, AreSmallTerms};
ghost use Rattle.wrp_rows.specs.Tables.{name_rows, AreCombined};
ghost use Rattle.wrp_rows.specs.Making.{cut_rule, Refuses};
ghost use Rattle.wrp_rows.specs.Stores.{most_rows};

use crate::base::base_rows;
use crate::bench::Bench;
use crate::fault::RowFault;
use crate::table::{Table, coef_in};
use std::alloc::{AllocError, Global};
use std::marker::Model;
use wrp_rules::Record;
use wrp_town::Town;

/// The most cuts that have a row.
pub const MOST_CUTS: usize = 20_000;

/// The rows of a town before any cut, and those of cuts, numbered from 0. Contracts see the town,
/// the rows and the one that is prepared, if one is.
#[derive(Debug, Drop)]
pub struct Rows<'t> {
    town: &'t Town,
    /// The rows, and behind them the one that is prepared.
    table: Table,
    /// The number of rows without the one that is prepared.
    count: usize,
    /// The number of rows before any cut.
    base: usize,
    bench: Bench,
}

impl<'t> Model for Rows<'t> {
    ghost use Rattle.wrp_rows.specs.Pools.{RowPool};
    ghost use Rattle.wrp_rows.specs.Stores.{pool_of, IsStore};

    ghost Value = { RowPool };

    ghost view = { λ r. pool_of r.town.now r.table r.count };

    ghost invariant = { λ r. IsStore r.town.now r.table r.count r.base r.bench };
}

impl<'t> Rows<'t> {
    /// The rows of a town before any cut: the balance of each junction, then the service of each
    /// demand.
    ///
    /// # Errors
    ///
    /// Want of memory alone.
    pub fn new(alloc: Global, town: &'t Town) -> Result<Rows<'t>, AllocError>
        ensures value { IfOk result (λ rows. rows ≡ base_pool town.now) }
        ensures rows { IfOk result (HasRowsOf (start town.now)) }
    {
        let table = base_rows(alloc, town)?;
        let bench = Bench::new(alloc, town)?;
        let count = table.len();
        Ok(Rows {
            town,
            table,
            count,
            base: count,
            bench,
        })
    }

    /// Adds the row of a cut behind the others, and leaves those as they were. None is prepared
    /// afterwards.
    ///
    /// # Errors
    ///
    /// `Broken` with the first rule that the cut breaks, or want of memory. The rows are as before
    /// then.
    pub fn push_cut(&mut self, item: &Record) -> Result<(), RowFault>
        requires cut { is_cut item.now ≡ true }
        requires writable { is_writable item.now ≡ true }
        ensures refused { (s : Standing) → HasRowsOf s self.old
            → Refuses (cut_rule self.old.town s item.now) result }
        ensures added { (s : Standing) → HasRowsOf s self.old
            → OnOk result (HasRowsOf (after self.old.town s item.now) self.new) }
        ensures grown { OnOk result (HasOneMore self.old self.new) }
        ensures kept { OnErr result (unprepared self.new ≡ unprepared self.old) }
    {
        self.prepare_cut(item)?;
        self.commit_cut();
        Ok(())
    }

    /// Makes the row of a cut and the room for it, and leaves the rows as they are. A row that was
    /// prepared before is forgotten.
    ///
    /// # Errors
    ///
    /// Those of `push_cut`.
    pub fn prepare_cut(&mut self, item: &Record) -> Result<(), RowFault>
        requires cut { is_cut item.now ≡ true }
        requires writable { is_writable item.now ≡ true }
        ensures refused { (s : Standing) → HasRowsOf s self.old
            → Refuses (cut_rule self.old.town s item.now) result }
        ensures prepared { (s : Standing) → HasRowsOf s self.old
            → OnOk result (HasPrepared s item.now self.new) }
        ensures ready { OnOk result (IsSome self.new.prepared) }
        ensures kept { unprepared self.new ≡ unprepared self.old }
    {
        self.table.truncate(self.count);
        let room = self.table.len() < self.base + MOST_CUTS;
        let right_side = self.bench.make(self.town, &self.table, room, item)?;
        self.table.push(self.bench.terms.as_slice(), right_side)?;
        Ok(())
    }

    /// Adds the row that is prepared behind the others.
    pub fn commit_cut(&mut self)
        requires { IsSome self.old.prepared }
        ensures value { self.new ≡ committed self.old }
        ensures rows { (s : Standing) (item : Record) → is_cut item ≡ true → HasRowsOf s self.old
            → HasPrepared s item self.old → HasRowsOf (after self.old.town s item) self.new }
    {
        self.count += 1;
    }

    /// The town of which the rows were made.
    pub fn town(&self) -> &Town
        ensures { result.now ≡ self.now.town }
    {
        self.town
    }

    /// The number of rows.
    pub fn len(&self) -> u32
        ensures value { result ≡ length self.now.rows }
        ensures few { result ≤ most_rows }
    {
        self.count as u32
    }

    /// Lends the coefficients of a row that aren't 0, at legal arcs: each arc with its coefficient,
    /// ascending.
    pub fn terms(&self, row: u32) -> &[(u32, i64)]
        requires { row < length self.now.rows }
        ensures value { result.now ≡ (sparse_at self.now.rows row).terms }
        ensures definition { (s : Standing) → HasRowsOf s self.now
            → result.now ≡ terms_of self.now.town (row_at s.rows row).coef }
        ensures small { AreSmallTerms (2 * length self.now.town.streets) result.now }
    {
        self.table.terms(row as usize)
    }

    /// The right side of a row.
    pub fn rhs(&self, row: u32) -> i64
        requires { row < length self.now.rows }
        ensures value { result ≡ (sparse_at self.now.rows row).right_side }
        ensures definition { (s : Standing) → HasRowsOf s self.now
            → result ≡ (row_at s.rows row).right_side }
        ensures small { unsigned_abs result ≤ most_right_side }
    {
        self.table.right_side(row as usize)
    }

    /// The coefficient of a row at an arc, 0 where the arc is illegal.
    pub fn coef(&self, row: u32, arc: u32) -> i64
        requires row { row < length self.now.rows }
        requires arc { arc < 2 * length self.now.town.streets }
        ensures value { result ≡ coef_at (sparse_at self.now.rows row).terms arc }
        ensures definition { (s : Standing) → HasRowsOf s self.now
            → result ≡ legal_coef self.now.town (row_at s.rows row) arc }
    {
        coef_in(self.terms(row), arc)
    }

    /// Puts into `sums` the coefficient of each arc in the rows of the pairs, each row times its
    /// multiplier, and returns their right side.
    pub fn combine(&self, mult: &[(u32, u64)], sums: &mut [i128]) -> i128
        requires sums { length sums.old ≡ 2 * length self.now.town.streets }
        requires named { name_rows self.now.rows mult.now ≡ true }
        requires few { length mult.now ≤ most_multipliers }
        requires light { All (λ q. q.1 ≤ 2 ^ 60) mult.now }
        ensures { AreCombined self.now.rows mult.now sums.new result }
    {
        self.table.combine(mult, sums)
    }
}
