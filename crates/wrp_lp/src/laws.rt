//! Laws of relaxations, in functions that do nothing.

ghost use Rattle.std.specs.Prelude.{◌≡◌, ℕ, ◌==◌, not, true, List, filter};
ghost use Rattle.wrp_sums.specs.Duality as duality;
ghost use Rattle.wrp_sums.specs.Duality.{Program, dual_value};
ghost use Rattle.wrp_rules.specs.Nodes as nodes;
ghost use Rattle.wrp_rules.specs.Nodes.{Node, Standing};
ghost use Rattle.wrp_rows.specs.declared.point.Bounds.{Bounds};
ghost use Rattle.wrp_rows.specs.Pools.{RowPool, HasRowsOf};
ghost use Rattle.wrp_rows.specs.Points.{AreBoundsOf};
ghost use Rattle.wrp_rows.specs.Tables.{name_rows};
ghost use Rattle.wrp_lp.specs.Answers.{program_of, free_program_of};

/// Over the rows of what stands and the bounds of a node, multipliers are worth the same as for the
/// node, with its costs and without, and what solves the program solves the node's.
pub fn node_laws()
    ensures value { (s : Standing) (node : Node) (pool : RowPool) (bounds : Bounds) (den : ℕ)
        (mult : List (ℕ × ℕ)) → HasRowsOf s pool → AreBoundsOf pool.town node bounds
        → name_rows pool.rows mult ≡ true → dual_value (program_of pool bounds) den mult
        ≡ dual_value (nodes.program pool.town s.rows node) den mult }
    ensures free { (s : Standing) (node : Node) (pool : RowPool) (bounds : Bounds)
        (mult : List (ℕ × ℕ)) → HasRowsOf s pool → AreBoundsOf pool.town node bounds
        → name_rows pool.rows mult ≡ true → dual_value (free_program_of pool bounds) 1 mult
        ≡ nodes.empty_value pool.town s.rows node mult }
    ensures solution { (s : Standing) (node : Node) (pool : RowPool) (bounds : Bounds) (e : ℕ)
        (mult : List (ℕ × ℕ)) (x : ℕ → ℕ) → HasRowsOf s pool → AreBoundsOf pool.town node bounds
        → name_rows pool.rows mult ≡ true → duality.IsSolution (program_of pool bounds) e mult x
        → duality.IsSolution (nodes.program pool.town s.rows node) e mult x }
{}

/// Multipliers that are 0 may be left out.
pub fn zero_laws()
    ensures { (p : Program) (den : ℕ) (mult : List (ℕ × ℕ))
        → dual_value p den (filter (λ q. not (q.1 == 0)) mult) ≡ dual_value p den mult }
{}
