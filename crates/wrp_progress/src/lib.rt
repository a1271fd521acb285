//! Laws of valid lists of records that go on: what further records keep of the nodes, and which
//! records may follow so that a node is done.
//!
//! Each function here does nothing: its clauses are the laws.
#![tactic(auto)]

ghost use Rattle.std.specs.Prelude.{◌≡◌, ℕ, ◌<◌, ◌≤◌, true, false, pos, ◌<ℤ◌, ◌≤ℤ◌, List, ◌∷◌, ◌++◌, [], None, Some, length, Contains};
ghost use Rattle.std.specs.List.{All};
ghost use Rattle.wrp_laws.specs.Meets.{sum_of_counts};
ghost use Rattle.wrp_town.specs.declared.town.Town.{Town};
ghost use Rattle.wrp_town.specs.Arcs.{is_legal, demands};
ghost use Rattle.wrp_town.specs.Walks.{HasNoTour};
ghost use Rattle.wrp_rules.specs.declared.record.Record.{Record};
ghost use Rattle.wrp_rules.specs.Rows.{Row, row_at, balance_row, service_row};
ghost use Rattle.wrp_rules.specs.Sets.{is_parted};
ghost use Rattle.wrp_rules.specs.Nodes.{Node, standing, done, is_open, lower, is_below, bound_at, bound_value, empty_value};
ghost use Rattle.wrp_rules.specs.Rules.{broken_rule, parts_range, rows_are_there, streets_are_there, junctions_are_there};
ghost use Rattle.wrp_laws.specs.Points.{MeetsOver};
ghost use Rattle.wrp_rules.specs.Lists.{is_valid, agrees};
ghost use Rattle.wrp_rules.specs.declared.record.Record.TheVariants.{Bound, Empty, Apart, Blind, Split};
ghost use Rattle.wrp_rules.specs.declared.record.End.TheVariants.{Optimal, Unfinished};
ghost use Rattle.wrp_writer.specs.Limits.{is_writable};
ghost use Rattle.wrp_progress.specs.Progress.{GoesOn, HasNoLabels, LeadsTo, IsOpenIn, IsDoneIn, IsOnePoint, node_in, node_count, is_shut, use_cost};

/// A valid list goes on with no record, with one that breaks no rule, and with two lists in a row.
pub fn lists_go_on()
    ensures none { (town : Town) (records : List Record) → is_valid town records ≡ true
        → GoesOn town records records }
    ensures one { (town : Town) (records : List Record) (item : Record)
        → is_valid town records ≡ true → broken_rule town (standing town records) item ≡ None
        → GoesOn town records (records ++ item ∷ []) }
    ensures both { (town : Town) (first second third : List Record) → GoesOn town first second
        → GoesOn town second third → GoesOn town first third }
{}

/// Where a list goes on, each node is there still, with its box; none opens again, and the number of
/// those that are done rises where one that was open is among them.
pub fn nodes_go_on()
    ensures there { (town : Town) (old new : List Record) → GoesOn town old new
        → node_count town old ≤ node_count town new }
    ensures boxes { (town : Town) (old new : List Record) (i : ℕ) → GoesOn town old new
        → i < node_count town old → ((node_in town new i).lo ≡ (node_in town old i).lo)
        × ((node_in town new i).hi ≡ (node_in town old i).hi) }
    ensures closed { (town : Town) (old new : List Record) (i : ℕ) → GoesOn town old new
        → IsDoneIn town old i → IsDoneIn town new i }
    ensures grows { (town : Town) (old new : List Record) → GoesOn town old new
        → done (standing town old) ≤ done (standing town new) }
    ensures rises { (town : Town) (old new : List Record) (i : ℕ) → GoesOn town old new
        → IsOpenIn town old i → IsDoneIn town new i
        → done (standing town old) < done (standing town new) }
{}

/// No node of a valid list has a bound below 0.
pub fn bounds_are_not_negative()
    ensures { (town : Town) (records : List Record) (i : ℕ) → is_valid town records ≡ true
        → pos 0 ≤ℤ (node_in town records i).bound }
{}

/// Where a tour exists, no valid list says that there is none.
pub fn tours_exclude_labels()
    ensures { (town : Town) (records : List Record) → (HasNoTour town → ⊥)
        → is_valid town records ≡ true → HasNoLabels records }
{}

/// A node is split: blindly, or behind a point of it, and then it is done.
pub fn nodes_split()
    ensures blind { (town : Town) (records : List Record) (node : ℕ) → HasNoLabels records
        → is_writable (Blind node) ≡ true → IsOpenIn town records node
        → broken_rule town (standing town records) (Blind node) ≡ None }
    ensures split { (town : Town) (records : List Record) (node arc k : ℕ) → HasNoLabels records
        → is_writable (Split node arc k) ≡ true → IsOpenIn town records node
        → LeadsTo records node → is_legal town arc ≡ true
        → parts_range (node_in town records node) arc k ≡ true
        → broken_rule town (standing town records) (Split node arc k) ≡ None }
    ensures done { (town : Town) (records : List Record) (node arc k : ℕ)
        → IsOpenIn town records node → IsDoneIn town (records ++ Split node arc k ∷ []) node }
{}

/// A node is closed: by multipliers without costs whose value is above 0, by a set that no arc may
/// leave, or by a bound that no tour is above, and then it is done.
pub fn nodes_close()
    ensures empty { (town : Town) (records : List Record) (node : ℕ) (mult : List (ℕ × ℕ))
        → HasNoLabels records → is_writable (Empty node mult) ≡ true → IsOpenIn town records node
        → rows_are_there (standing town records) mult ≡ true
        → pos 0 <ℤ empty_value town (standing town records).rows (node_in town records node) mult
        → broken_rule town (standing town records) (Empty node mult) ≡ None }
    ensures emptied { (town : Town) (records : List Record) (node : ℕ) (mult : List (ℕ × ℕ))
        → IsOpenIn town records node → IsDoneIn town (records ++ Empty node mult ∷ []) node }
    ensures apart { (town : Town) (records : List Record) (node r1 r2 : ℕ) (set : List ℕ)
        → HasNoLabels records → is_writable (Apart node r1 r2 set) ≡ true
        → IsOpenIn town records node → streets_are_there town (r1 ∷ r2 ∷ []) ≡ true
        → junctions_are_there town set ≡ true → is_parted town r1 r2 set ≡ true
        → is_shut town (node_in town records node) set ≡ true
        → broken_rule town (standing town records) (Apart node r1 r2 set) ≡ None }
    ensures shut { (town : Town) (records : List Record) (node r1 r2 : ℕ) (set : List ℕ)
        → IsOpenIn town records node → IsDoneIn town (records ++ Apart node r1 r2 set ∷ []) node }
    ensures bound { (town : Town) (records : List Record) (node den : ℕ) (mult : List (ℕ × ℕ))
        → HasNoLabels records → is_writable (Bound node den mult) ≡ true
        → IsOpenIn town records node → rows_are_there (standing town records) mult ≡ true
        → (node_in town records node).bound <ℤ bound_at town (standing town records) node den mult
        → broken_rule town (standing town records) (Bound node den mult) ≡ None }
    ensures bounded { (town : Town) (records : List Record) (node den : ℕ) (mult : List (ℕ × ℕ))
        → IsOpenIn town records node
        → is_below (bound_at town (standing town records) node den mult)
        (standing town records).upper ≡ false
        → IsDoneIn town (records ++ Bound node den mult ∷ []) node }
{}

/// In a box that holds one point, that point meets each row whose multiplier alone doesn't empty the
/// box, and the bound of no multipliers is what the point costs.
pub fn points_end()
    ensures meets { (town : Town) (rows : List Row) (node : Node) (x : ℕ → ℕ) (i : ℕ)
        → IsOnePoint town node x → empty_value town rows node ((i, 1) ∷ []) ≤ℤ pos 0
        → MeetsOver town 1 x (row_at rows i) }
    ensures bound { (town : Town) (rows : List Row) (node : Node) (x : ℕ → ℕ)
        → IsOnePoint town node x → bound_value town rows node 1 [] ≡ pos (use_cost town x) }
{}

/// Numbers over a denominator that meet the rows of a list are balanced at every junction and serve
/// every demand.
pub fn rows_balance_and_serve()
    ensures balances { (town : Town) (records : List Record) (e : ℕ) (x : ℕ → ℕ) (j : ℕ)
        → All (MeetsOver town e x) (standing town records).rows → j < length town.junctions
        → sum_of_counts town x (balance_row town j).coef ≡ pos 0 }
    ensures serves { (town : Town) (records : List Record) (e : ℕ) (x : ℕ → ℕ) (demand : List ℕ)
        → All (MeetsOver town e x) (standing town records).rows
        → Contains (demands town) demand → MeetsOver town e x (service_row demand) }
{}

/// Which ends agree with a list: `optimal` where no node is open, and `unfinished` where one is.
pub fn ends_agree()
    ensures optimal { (town : Town) (records : List Record) (cost : ℕ)
        → ((i : ℕ) → i < node_count town records
        → is_open (standing town records).upper (node_in town records i) ≡ false)
        → (standing town records).upper ≡ Some cost
        → agrees (standing town records) (Optimal cost) ≡ true }
    ensures unfinished { (town : Town) (records : List Record) (low high i : ℕ)
        → IsOpenIn town records i → (standing town records).upper ≡ Some high
        → lower (standing town records) ≡ Some (pos low)
        → agrees (standing town records) (Unfinished low high) ≡ true }
{}
