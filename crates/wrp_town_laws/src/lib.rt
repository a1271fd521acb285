//! When streets are a town: rows of named streets, and more streets between the junctions of one.
//!
//! Each function here does nothing: its clauses are the laws.
#![tactic(auto)]

ghost use Rattle.std.specs.Prelude.{◌≡◌, ◌≤◌, ◌++◌, true, ℕ, length, List};
ghost use Rattle.std.specs.List.{list_all};
ghost use Rattle.wrp_town.specs.declared.street.Street.{Street};
ghost use Rattle.wrp_town.specs.Limits.{street_limit, demand_limit};
ghost use Rattle.wrp_town.specs.Streets.{IsTown, is_street, demands_from};
ghost use Rattle.wrp_street.specs.declared.row.Row.{Row};
ghost use Rattle.wrp_town_laws.specs.Towns.{table_of_rows, is_row, KeepsLimits, IsTownTable};

/// Rows of named streets make a town where the names are names, the costs are in range and the
/// whole keeps the limits; at most 1,000 rows always keep them.
pub fn rows_make_towns()
    ensures rows { (rows : List Row) → list_all is_row rows ≡ true
        → KeepsLimits (table_of_rows rows) → IsTownTable (table_of_rows rows) }
    ensures few { (rows : List Row) → list_all is_row rows ≡ true
        → length rows ≤ 1000 → IsTownTable (table_of_rows rows) }
{}

/// More streets between the junctions of a town make a town, within the limits.
pub fn more_streets_make_towns()
    ensures { (junctions : List (List ℕ)) (streets more : List Street) → IsTown junctions streets
        → list_all (is_street (length junctions)) more ≡ true
        → length (streets ++ more) ≤ street_limit
        → length (demands_from 0 (streets ++ more)) ≤ demand_limit
        → IsTown junctions (streets ++ more) }
{}
