//! Laws of optima and of broken cuts.
ghost use Rattle.std.specs.Prelude.{ℕ, List};
ghost use Rattle.wrp_town.specs.declared.town.Town.{Town};
ghost use Rattle.wrp_rules.specs.declared.record.Record.{Record};
ghost use Rattle.wrp_rules.specs.Nodes.{Standing, start, after};
ghost use Rattle.wrp_rows.specs.declared.point.Point.{Point};
ghost use Rattle.wrp_rows.specs.Pools.{RowPool};
ghost use Rattle.wrp_rows.specs.Points.{IsPoint};
ghost use Rattle.wrp_lp.specs.declared.lp.Lp.{Lp};
ghost use Rattle.wrp_odd.specs.Points.{HasNumbers};
ghost use Rattle.wrp_odd.specs.Found.{IsBrokenOddCut};
ghost use Rattle.wrp_round.specs.Optima.{IsOptimumOver, point_of};
ghost use Rattle.wrp_round.specs.Broken.{IsBrokenRounding};
ghost use Rattle.wrp_round.specs.OddForms.{HasBaseRows, IsBrokenCut, IsOddCut};

/// The point of an optimum is one of the town, with numbers in range.
pub fn optimum_laws()
    ensures point { (pool : RowPool) (chosen : List ℕ) (lp : Lp) → IsOptimumOver pool chosen lp
        → IsPoint pool.town (point_of lp) }
    ensures numbers { (pool : RowPool) (chosen : List ℕ) (lp : Lp) → IsOptimumOver pool chosen lp
        → HasNumbers (point_of lp) }
{}

/// Roundings and odd cuts that are broken are broken cuts, and the latter have a Round form.
pub fn cut_laws()
    ensures rounding { (town : Town) (s : Standing) (point : Point) (item : Record)
        → IsBrokenRounding town s point item → IsBrokenCut town s point item }
    ensures odd { (town : Town) (s : Standing) (point : Point) (item : Record)
        → IsBrokenOddCut town point item → IsBrokenCut town s point item }
    ensures form { (town : Town) (point : Point) (item : Record)
        → IsBrokenOddCut town point item → IsOddCut town item }
{}

/// The rows of a town stand first, whatever records come.
pub fn base_row_laws()
    ensures start { (town : Town) → HasBaseRows town (start town) }
    ensures after { (town : Town) (s : Standing) (item : Record) → HasBaseRows town s
        → HasBaseRows town (after town s item) }
{}
