//! Rows in one table: the terms of all rows, one row behind the other.
ghost use Rattle.std.specs.Prelude.{◌≡◌, [], ◌∷◌, ◌++◌, ◌<◌, take, length, OnOk, OnErr, AllPairs};
ghost use Rattle.wrp_sums.specs.Sums.{coef_at};
ghost use Rattle.wrp_rows.specs.Pools.{SparseRow, sparse_at};

use std::alloc::{AllocError, Global};
use std::marker::Model;

/// Where the terms of a row are, and its right side.
#[derive(Clone, Copy, Debug)]
pub(crate) struct Span {
    pub(crate) from: usize,
    pub(crate) to: usize,
    pub(crate) right_side: i64,
}

/// Rows, each of terms and a right side. Contracts see the list of the rows.
#[derive(Debug, Drop)]
pub(crate) struct Table {
    terms: Vec<(u32, i64)>,
    spans: Vec<Span>,
}

impl Model for Table {
    ghost use Rattle.std.specs.Prelude.{List, map};
    ghost use Rattle.wrp_rows.specs.Pools.{SparseRow};
    ghost use Rattle.wrp_rows.specs.Tables.{row_in, AreSpans};

    ghost Value = { List SparseRow };

    ghost view = { λ t. map (row_in t.terms.items) t.spans.items };

    ghost invariant = { λ t. AreSpans t.terms.items t.spans.items };
}

impl Table {
    /// No rows.
    pub(crate) fn new(alloc: Global) -> Table
        ensures { result ≡ [] }
    {
        Table {
            terms: Vec::new(alloc),
            spans: Vec::new(alloc),
        }
    }

    /// The number of rows.
    pub(crate) fn len(&self) -> usize
        ensures { result ≡ length self.now }
    {
        self.spans.len()
    }

    /// Lends the terms of a row.
    pub(crate) fn terms(&self, row: usize) -> &[(u32, i64)]
        requires { row < length self.now }
        ensures { result.now ≡ (sparse_at self.now row).terms }
    {
        let span = self.spans.as_slice()[row];
        &self.terms.as_slice()[span.from..span.to]
    }

    /// The right side of a row.
    pub(crate) fn right_side(&self, row: usize) -> i64
        requires { row < length self.now }
        ensures { result ≡ (sparse_at self.now row).right_side }
    {
        self.spans.as_slice()[row].right_side
    }

    /// Adds a row. Where memory is wanting, the rows are as before.
    pub(crate) fn push(&mut self, terms: &[(u32, i64)], right_side: i64) -> Result<(), AllocError>
        ensures ok { OnOk result (self.new
            ≡ self.old ++ record { terms = terms.now; right_side = right_side } ∷ []) }
        ensures err { OnErr result (self.new ≡ self.old) }
    {
        let from = self.terms.len();
        self.terms.extend_from_slice(terms)?;
        let to = self.terms.len();
        let span = Span {
            from,
            to,
            right_side,
        };
        match self.spans.push(span) {
            Ok(()) => Ok(()),
            Err(_) => {
                self.terms.truncate(from);
                Err(AllocError)
            }
        }
    }

    /// Drops the rows behind the first `count`.
    pub(crate) fn truncate(&mut self, count: usize)
        ensures { self.new ≡ take count self.old }
    {
        if count < self.spans.len() {
            let from = self.spans[count].from;
            self.terms.truncate(from);
            self.spans.truncate(count);
        }
    }
}

/// The coefficient of an arc in terms that ascend.
pub(crate) fn coef_in(terms: &[(u32, i64)], arc: u32) -> i64
    requires { AllPairs (λ t u. t.0 < u.0) terms.now }
    ensures { result ≡ coef_at terms.now arc }
{
    match terms.binary_search_by_key(&arc, |term| term.0) {
        Ok(at) => terms[at].1,
        Err(_) => 0,
    }
}
