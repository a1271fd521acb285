//! What the records that a run of the search adds rest on: hard nodes, roundings, licensed Points
//! and causes, and laws of them.
//!
//! Each function here does nothing: its clauses are the laws.
#![tactic(auto)]

ghost use Rattle.std.specs.Prelude.{◌≡◌, ℕ, ℤ, pos, ◌<ℤ◌, ◌+◌, ◌*◌, ◌/◌, ◌^◌, ◌<◌, ◌≤◌, true, None, List, [], ◌∷◌, ◌++◌, length};
ghost use Rattle.wrp_town.specs.declared.town.Town.{Town};
ghost use Rattle.wrp_town.specs.Arcs.{demands, legal_arcs};
ghost use Rattle.wrp_rules.specs.declared.record.Record.{Record};
ghost use Rattle.wrp_rules.specs.declared.record.Record.TheVariants.{Tour, Bound};
ghost use Rattle.wrp_town.specs.declared.street.Step.{Step};
ghost use Rattle.wrp_laws.specs.Points.{IsPointOf, price};
ghost use Rattle.wrp_tableau.specs.declared.tableau.Tableau.{Tableau};
ghost use Rattle.wrp_lp.specs.declared.lp.Lp.TheVariants as ends;
ghost use Rattle.wrp_lp.specs.declared.lp.Lp.TheVariants.{Optimal};
ghost use Rattle.wrp_writer.specs.Limits.{is_writable};
ghost use Rattle.wrp_bound.specs.Mults.{without_zeros};
ghost use Rattle.wrp_rules.specs.Nodes.{Node, Standing, standing, node_at, bound_at, empty_value, done};
ghost use Rattle.wrp_rules.specs.Rules.{is_cut, number_at, rows_are_there, broken_rule};
ghost use Rattle.wrp_rules.specs.Lists.{is_valid};
ghost use Rattle.wrp_progress.specs.Progress.{HasNoLabels, IsOpenIn, node_in, node_count};
ghost use Rattle.wrp_rows.specs.declared.point.Point.{Point};
ghost use Rattle.wrp_box.specs.Points.{pairs_of, IsPointRecord};
ghost use Rattle.wrp_tableau.specs.Soundness.{IsSound};
ghost use Rattle.wrp_rows.specs.declared.point.Bounds.{Bounds};
ghost use Rattle.wrp_rows.specs.Pools.{RowPool, HasRowsOf};
ghost use Rattle.wrp_rows.specs.Points.{AreBoundsOf};
ghost use Rattle.wrp_simplex.specs.declared.end.RunEnd.{RunEnd};
ghost use Rattle.wrp_lp.specs.declared.lp.Lp.{Lp};
ghost use Rattle.wrp_lp.specs.Answers.{relaxed};
ghost use Rattle.wrp_odd.specs.Points.{denominator_of, numbers_of};
ghost use Rattle.wrp_odd.specs.Cuts.{IsValidCut};
ghost use Rattle.wrp_round.specs.Optima.{IsOptimal, point_of, system_of};
ghost use Rattle.wrp_round.specs.Broken.{AreFound};
ghost use Rattle.wrp_round.specs.OddForms.{IsBrokenCut};
ghost use Rattle.wrp_box.specs.Relaxing.{all_rows, IsRelaxed, IsPointIn};
ghost use Rattle.wrp_box.specs.Branching.{IsPart};
ghost use Rattle.wrp_box.specs.Records.{FitsNone};
ghost use Rattle.wrp_licence.specs.Runs.{start_at, most_pivots, IsRunAt, IsEndedRun};
ghost use Rattle.wrp_licence.specs.Hard.{IsHard};
ghost use Rattle.wrp_licence.specs.Roundings.{MeetsRoundings};
ghost use Rattle.wrp_licence.specs.Licences.{IsLicensed, IsExactPoint};
ghost use Rattle.wrp_licence.specs.Causes.{most_cuts, most_round_cuts, cuts_of, count_since, cuts_since_split, IsPointAt, IsCaused, AreCaused};

/// A run owes no cause before its first record, and each further record owes its own alone.
pub fn causes_go_on()
    ensures none { (town : Town) (entry : List Record) → AreCaused town entry [] }
    ensures more { (town : Town) (entry added : List Record) (item : Record)
        → AreCaused town entry added → IsCaused town entry added item
        → AreCaused town entry (added ++ item ∷ []) }
{}

/// Behind a number that isn't whole, split at its quotient, neither new box holds the point.
pub fn splits_leave_the_point()
    ensures below { (town : Town) (den arc k : ℕ) (x : ℕ → ℕ) → 0 < den → IsPart town den x arc
        → k ≡ x arc / den → k * den < x arc }
    ensures above { (town : Town) (den arc k : ℕ) (x : ℕ → ℕ) → 0 < den → IsPart town den x arc
        → k ≡ x arc / den → x arc < (k + 1) * den }
{}

/// Fewer nodes are done than `2 * (m + 1) ^ a`, for m demands and a legal arcs.
pub fn few_nodes_are_done()
    ensures { (town : Town) (records : List Record) → is_valid town records ≡ true
        → done (standing town records) + 1
        ≤ 2 * (length (demands town) + 1) ^ length (legal_arcs town) }
{}

/// The relaxation of a node starts from a sound system.
pub fn starts_are_sound()
    ensures { (town : Town) (s : Standing) (node : ℕ) → IsSound (start_at town s node) }
{}

/// The run of a node at a list is one, however its rows and its box are kept: those that end are
/// equal, and none is longer.
pub fn runs_are_one()
    ensures start { (s : Standing) (node : ℕ) (pool : RowPool) (bounds : Bounds) → HasRowsOf s pool
        → AreBoundsOf pool.town (node_at pool.town s node) bounds
        → relaxed pool (all_rows pool) bounds ≡ start_at pool.town s node }
    ensures only { (town : Town) (s : Standing) (node : ℕ) (a b : List (ℕ × ℕ)) (one other : RunEnd)
        → IsEndedRun town s node a one → IsEndedRun town s node b other
        → (a ≡ b) × (one ≡ other) }
    ensures longest { (town : Town) (s : Standing) (node : ℕ) (a b : List (ℕ × ℕ)) (end : RunEnd)
        → IsEndedRun town s node a end → IsRunAt town s node b → length b ≤ length a }
{}

/// Which nodes are hard: where an answer of their relaxation gives no record. They are hard at each
/// list with the same rows and the same box.
pub fn nodes_are_hard()
    ensures ended { (town : Town) (s : Standing) (node : ℕ) (hard : IsHard town s node)
        → (end : RunEnd) × IsEndedRun town s node hard.steps end }
    ensures answer { (s : Standing) (node : ℕ) (pool : RowPool) (bounds : Bounds) (lp : Lp)
        → HasRowsOf s pool → AreBoundsOf pool.town (node_at pool.town s node) bounds
        → IsRelaxed pool bounds most_pivots lp → FitsNone lp → IsHard pool.town s node }
    ensures kept { (town : Town) (s t : Standing) (node : ℕ) → t.rows ≡ s.rows
        → (node_at town t node).lo ≡ (node_at town s node).lo
        → (node_at town t node).hi ≡ (node_at town s node).hi
        → IsHard town s node → IsHard town t node }
{}

/// Where none of the roundings that an optimum's system names is broken, its point meets every
/// rounding of its node.
pub fn optima_meet_roundings()
    ensures { (s : Standing) (node : ℕ) (pool : RowPool) (bounds : Bounds) (lp : Lp)
        → HasRowsOf s pool → AreBoundsOf pool.town (node_at pool.town s node) bounds
        → IsRelaxed pool bounds most_pivots lp → IsOptimal lp
        → AreFound pool.town s (point_of lp) (system_of lp) (all_rows pool) []
        → MeetsRoundings pool.town s node (denominator_of (point_of lp)) (numbers_of (point_of lp)) }
{}

/// The record of an exact point of an open node may stand, and where a number of it isn't whole, it
/// is licensed.
pub fn exact_points_are_licensed()
    ensures stands { (town : Town) (records : List Record) (node : ℕ) (point : Point) (item : Record)
        → HasNoLabels records → IsOpenIn town records node → IsExactPoint town records node point
        → IsPointRecord node point item
        → broken_rule town (standing town records) item ≡ None }
    ensures licensed { (town : Town) (records : List Record) (node arc : ℕ) (point : Point)
        (item : Record) → HasNoLabels records → IsOpenIn town records node
        → IsExactPoint town records node point → IsPointRecord node point item
        → IsPart town (denominator_of point) (numbers_of point) arc
        → IsLicensed town (standing town records) node (denominator_of point) (pairs_of point) }
    ensures numbers { (town : Town) (point : Point) (arc : ℕ)
        → number_at (pairs_of point) arc ≡ numbers_of point arc }
{}

/// The multipliers of an optimum, those that aren't 0, bound its node by what its point costs,
/// rounded up, and those of an empty relaxation empty it.
pub fn answers_have_their_values()
    ensures optimal { (s : Standing) (node : ℕ) (pool : RowPool) (bounds : Bounds) (pivots : ℕ)
        (point : Point) (mult : List (ℕ × ℤ)) (table : Tableau) (taken : List (ℕ × ℕ))
        → HasRowsOf s pool → AreBoundsOf pool.town (node_at pool.town s node) bounds
        → IsRelaxed pool bounds pivots (Optimal point mult table taken)
        → (rows_are_there s (without_zeros mult) ≡ true)
        × (bound_at pool.town s node (denominator_of point) (without_zeros mult)
        ≡ price pool.town (denominator_of point) (numbers_of point)) }
    ensures empty { (s : Standing) (node : ℕ) (pool : RowPool) (bounds : Bounds) (pivots : ℕ)
        (mult : List (ℕ × ℤ)) (taken : List (ℕ × ℕ))
        → HasRowsOf s pool → AreBoundsOf pool.town (node_at pool.town s node) bounds
        → IsRelaxed pool bounds pivots (ends.Empty mult taken)
        → (rows_are_there s (without_zeros mult) ≡ true)
        × (pos 0 <ℤ empty_value pool.town s.rows (node_at pool.town s node) (without_zeros mult)) }
{}

/// Where a bound is what a point of the node costs, the node has that bound after it was offered,
/// whether it joined the list or was refused; and tours leave the nodes as they are.
pub fn offered_bounds_are_prices()
    ensures joined { (town : Town) (records : List Record) (node den e : ℕ) (mult : List (ℕ × ℕ))
        (x : ℕ → ℕ) → bound_at town (standing town records) node den mult ≡ price town e x
        → node < node_count town records
        → (node_in town (records ++ Bound node den mult ∷ []) node).bound ≡ price town e x }
    ensures refused { (town : Town) (records : List Record) (node den e : ℕ) (mult : List (ℕ × ℕ))
        (x : ℕ → ℕ) → bound_at town (standing town records) node den mult ≡ price town e x
        → is_valid town records ≡ true → HasNoLabels records → IsOpenIn town records node
        → is_writable (Bound node den mult) ≡ true
        → rows_are_there (standing town records) mult ≡ true
        → IsPointOf town (standing town records).rows (node_in town records node) e x
        → (broken_rule town (standing town records) (Bound node den mult) ≡ None → ⊥)
        → (node_in town records node).bound ≡ price town e x }
    ensures tours { (town : Town) (records : List Record) (cost i : ℕ) (steps : List Step)
        → node_in town (records ++ Tour cost steps ∷ []) i ≡ node_in town records i }
    ensures points { (town : Town) (s t : Standing) (node other : Node) (point : Point)
        → t.rows ≡ s.rows → other.lo ≡ node.lo → other.hi ≡ node.hi
        → IsPointIn town s node point → IsPointIn town t other point }
{}

/// A cut that a point broke at most 200 records earlier is caused, where that point lay in an open
/// node.
pub fn broken_cuts_are_caused()
    ensures { (town : Town) (entry earlier between : List Record) (item : Record) (point : Point)
        → is_cut item ≡ true → length between ≤ most_round_cuts
        → IsPointAt town (entry ++ earlier) (denominator_of point) (numbers_of point)
        → IsBrokenCut town (standing town (entry ++ earlier)) point item
        → IsCaused town entry (earlier ++ between) item }
{}

/// A valid list has at most 20,000 cuts, and so many where it refuses a valid cut; each record is
/// counted once since the last Split.
pub fn cuts_are_counted()
    ensures full { (town : Town) (records : List Record) (item : Record)
        → is_valid town records ≡ true → HasNoLabels records → is_cut item ≡ true
        → IsValidCut town (standing town records) item
        → (broken_rule town (standing town records) item ≡ None → ⊥)
        → cuts_of records ≡ most_cuts }
    ensures few { (town : Town) (records : List Record) → is_valid town records ≡ true
        → cuts_of records ≤ most_cuts }
    ensures since { (added : List Record) (item : Record)
        → cuts_since_split (added ++ item ∷ []) ≡ count_since (cuts_since_split added) item }
{}
