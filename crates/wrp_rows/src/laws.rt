//! Laws of the rows that are kept.
ghost use Rattle.std.specs.Prelude.{◌≡◌, ℕ, ◌<◌, false, ℤ, ◌*ℤ◌, length};
ghost use Rattle.wrp_sums.specs.Sums.{sum_over, coef_at};
ghost use Rattle.wrp_town.specs.declared.town.Town.{Town};
ghost use Rattle.wrp_town.specs.Arcs.{legal_arcs};
ghost use Rattle.wrp_rules.specs.declared.record.Record.{Record};
ghost use Rattle.wrp_rules.specs.Rows.{Row, row_at};
ghost use Rattle.wrp_rules.specs.Nodes.{Standing, after};
ghost use Rattle.wrp_rules.specs.Rules.{is_cut};
ghost use Rattle.wrp_rows.specs.Pools.{RowPool, terms_of, sparse_of, sparse_at, legal_coef, HasRowsOf};

/// The terms of a row stand for it: an arc's coefficient in them is that of the row, and a sum over
/// the legal arcs is the sum over the terms.
pub fn terms_laws()
    ensures coef { (town : Town) (row : Row) (arc : ℕ)
        → coef_at (terms_of town row.coef) arc ≡ legal_coef town row arc }
    ensures sums { (town : Town) (row : Row) (x : ℕ → ℤ)
        → sum_over (λ arc. row.coef arc *ℤ x arc) (legal_arcs town)
        ≡ sum_over (λ t. t.1 *ℤ x t.0) (terms_of town row.coef) }
{}

/// Rows of what stands: the row of each number is there, and stays where a record that is no cut
/// comes.
pub fn rows_laws()
    ensures row { (s : Standing) (pool : RowPool) (i : ℕ) → HasRowsOf s pool
        → i < length pool.rows → sparse_at pool.rows i ≡ sparse_of pool.town (row_at s.rows i) }
    ensures count { (s : Standing) (pool : RowPool) → HasRowsOf s pool
        → length pool.rows ≡ length s.rows }
    ensures others { (s : Standing) (pool : RowPool) (town : Town) (item : Record)
        → is_cut item ≡ false → HasRowsOf s pool → HasRowsOf (after town s item) pool }
{}
