//! The rows that stand, each as a list of the terms that aren't 0.
ghost use Rattle.std.specs.Prelude.{◌≡◌, ◌<◌, ◌∷◌, [], ◌++◌, length, OnOk};
ghost use Rattle.wrp_pool.specs.Pools.{sparse_row, sparse_at};

use std::alloc::AllocError;
use wrp_town::List;

/// A row: terms of an arc and its coefficient, and the right side.
#[derive(Debug, Drop)]
pub struct SparseRow {
    pub(crate) terms: List<(u16, i32)>,
    pub(crate) right_side: i32,
}

/// The rows that stand, those of the cuts last.
#[derive(Debug, Drop)]
pub struct Pool {
    pub(crate) rows: List<SparseRow>,
}

impl Pool {
    /// The number of rows.
    pub fn len(&self) -> usize
        ensures { result ≡ length self.now.rows }
    {
        self.rows.len()
    }

    /// The row of this number.
    pub(crate) fn row(&self, row: u32) -> &SparseRow
        requires { row < length self.now.rows }
        ensures { result.now ≡ sparse_at self.now row }
    {
        &self.rows.as_slice()[row as usize]
    }

    /// Adds a row, in no more room than its terms take.
    pub(crate) fn push_row(
        &mut self,
        terms: Vec<(u16, i32)>,
        right_side: i32,
    ) -> Result<(), AllocError>
        ensures { OnOk result (self.new.rows
            ≡ self.old.rows ++ sparse_row terms.items right_side ∷ []) }
    {
        let kept = terms.clone()?;
        self.rows.push(SparseRow {
            terms: List::from_vec(kept),
            right_side,
        })?;
        Ok(())
    }
}
