//! Laws over tours and the records of a proof: what the counts of a tour sum to, which rows every
//! tour meets, and what a valid list of records says of every tour.
//!
//! Each function here does nothing: its clauses are the laws.
#![tactic(auto)]

ghost use Rattle.std.specs.Prelude.{◌≡◌, ◌<◌, true, ℕ, ℤ, pos, ◌≤ℤ◌, ◌-ℤ◌, ◌↔◌, List, slice_index, ◌+◌, ◌*◌, ◌^◌, ◌≤◌, length, Bool, None, Some, is_none};
ghost use Rattle.std.specs.List.{list_all, All, count_by};
ghost use Rattle.wrp_sums.specs.Sums.{sum_over};
ghost use Rattle.wrp_town.specs.declared.town.Town.{Town};
ghost use Rattle.wrp_town.specs.declared.street.Step.{Step};
ghost use Rattle.wrp_town.specs.Arcs.{is_legal, cost_or_zero, arc_of, demands, legal_arcs};
ghost use Rattle.wrp_town.specs.Walks.{is_closed_walk, is_tour, walk_cost, count_of, HasNoTour};
ghost use Rattle.wrp_graph.specs.Balances.{leaving, entering};
ghost use Rattle.wrp_rules.specs.declared.record.Record.{Record};
ghost use Rattle.wrp_rules.specs.declared.record.End.{End};
ghost use Rattle.wrp_rules.specs.Rows.{balance_row, base_rows, row_at};
ghost use Rattle.wrp_rules.specs.Nodes.{standing, Standing, lower, node_at};
ghost use Rattle.wrp_rules.specs.Lists.{is_valid, agrees};
ghost use Rattle.wrp_rules.specs.Proofs.{Version, IsProofBy};
ghost use Rattle.wrp_laws.specs.Ends.{EndHolds};
ghost use Rattle.wrp_laws.specs.Meets.{sum_of_counts, sum_of_uses, MeetsRow};
ghost use Rattle.wrp_rules.specs.declared.record.Record.TheVariants.{Labels};
ghost use Rattle.wrp_rules.specs.Rules.{broken_rule};
ghost use Rattle.wrp_laws.specs.Boxes.{IsPartition};
ghost use Rattle.wrp_laws.specs.Sides.{goes_out, comes_in, goes_over};
ghost use Rattle.wrp_laws.specs.Points.{IsPointOf, price};

/// A sum over the legal arcs, each as often as the steps use it, is the sum over the steps.
pub fn arcs_sum_as_steps()
    ensures { (town : Town) (f : ℕ → ℤ) (steps : List Step)
        → list_all (λ step. is_legal town (arc_of step)) steps ≡ true
        → sum_of_uses town steps f ≡ sum_over (λ step. f (arc_of step)) steps }
{}

/// A balance row sums to what leaves its junction less what enters it: to 0 exactly where the
/// counts are balanced there.
pub fn balance_rows_compare_stars()
    ensures difference { (town : Town) (counts : List ℕ) (junction : ℕ)
        → sum_of_counts town (slice_index counts) (balance_row town junction).coef
        ≡ pos (leaving town counts junction) -ℤ pos (entering town counts junction) }
    ensures balanced { (town : Town) (counts : List ℕ) (junction : ℕ)
        → (leaving town counts junction ≡ entering town counts junction)
        ↔ (sum_of_counts town (slice_index counts) (balance_row town junction).coef ≡ pos 0) }
{}

/// A tour meets each balance row, with equality, and each service row, and its cost is that of the
/// arcs that it uses.
pub fn tours_meet_the_base_rows()
    ensures meets { (town : Town) (steps : List Step) (i : ℕ) → is_tour town steps ≡ true
        → MeetsRow town steps (row_at (base_rows town) i) }
    ensures balances { (town : Town) (junction : ℕ) (steps : List Step)
        → is_closed_walk town steps ≡ true
        → sum_of_uses town steps (balance_row town junction).coef ≡ pos 0 }
    ensures costs { (town : Town) (steps : List Step) → is_closed_walk town steps ≡ true
        → sum_of_uses town steps (λ arc. pos (cost_or_zero town arc)) ≡ pos (walk_cost town steps) }
{}

/// For every tour there is one that isn't dearer and uses each arc at most as often as there are
/// demands.
pub fn each_arc_as_often_as_demands()
    ensures { (town : Town) (steps : List Step) → is_tour town steps ≡ true
        → (other : List Step) × (is_tour town other ≡ true)
        × (walk_cost town other ≤ walk_cost town steps)
        × ((arc : ℕ) → count_of other arc ≤ length (demands town)) }
{}

/// A closed walk leaves each set of junctions as often as it enters it, so it crosses the border an
/// even number of times.
pub fn closed_walks_cross_evenly()
    ensures leaves { (town : Town) (set : ℕ → Bool) (steps : List Step)
        → is_closed_walk town steps ≡ true
        → count_by (λ step. goes_out town set (arc_of step)) steps
        ≡ count_by (λ step. comes_in town set (arc_of step)) steps }
    ensures crosses { (town : Town) (set : ℕ → Bool) (steps : List Step)
        → is_closed_walk town steps ≡ true
        → count_by (λ step. goes_over town set (arc_of step)) steps
        ≡ 2 * count_by (λ step. goes_out town set (arc_of step)) steps }
{}

/// Every tour meets every row of a valid list: base rows, and those of connectivity, odd, rounding
/// and K-C cuts.
pub fn tours_meet_the_cuts()
    ensures { (town : Town) (records : List Record) (steps : List Step)
        → is_valid town records ≡ true → is_tour town steps ≡ true
        → All (MeetsRow town steps) (standing town records).rows }
{}

/// The boxes of the unsplit nodes of a valid list part the box of the root.
pub fn boxes_cover_the_root()
    ensures { (town : Town) (records : List Record) → is_valid town records ≡ true
        → IsPartition town (standing town records) }
{}

/// A valid list has at most `2 * (m + 1) ^ a - 1` nodes, for m demands and a legal arcs.
pub fn nodes_are_few()
    ensures { (town : Town) (records : List Record) → is_valid town records ≡ true
        → length (standing town records).nodes + 1
        ≤ 2 * (length (demands town) + 1) ^ length (legal_arcs town) }
{}

/// Over a valid list every tour costs at least `lower`; where `lower` is none, there is no tour.
pub fn lower_bounds_tours()
    ensures bounds { (town : Town) (records : List Record) (low : ℤ) (steps : List Step)
        → is_valid town records ≡ true → lower (standing town records) ≡ Some low
        → is_tour town steps ≡ true → low ≤ℤ pos (walk_cost town steps) }
    ensures none { (town : Town) (records : List Record) → is_valid town records ≡ true
        → lower (standing town records) ≡ None → HasNoTour town }
{}

/// Where a Labels record keeps its rules, there is no tour.
pub fn labels_exclude_tours()
    ensures { (town : Town) (s : Standing) (labels streets : List ℕ)
        → is_none (broken_rule town s (Labels labels streets)) ≡ true → HasNoTour town }
{}

/// The end that agrees with a valid list holds, and so does that of a proof, whatever its records.
pub fn ends_hold()
    ensures lists { (town : Town) (records : List Record) (end : End)
        → is_valid town records ≡ true → agrees (standing town records) end ≡ true
        → EndHolds town end }
    ensures proofs { (town : Town) (version : Version) (records : List Record) (end : End)
        (bytes : List ℕ) → IsProofBy town version records end bytes → EndHolds town end }
{}

/// Numbers over a denominator that lie in a node's box and meet every row cost, rounded up, at
/// least the node's bound.
pub fn points_cost_the_bound()
    ensures { (town : Town) (records : List Record) (i e : ℕ) (x : ℕ → ℕ)
        → is_valid town records ≡ true → i < length (standing town records).nodes
        → IsPointOf town (standing town records).rows (node_at town (standing town records) i) e x
        → (node_at town (standing town records) i).bound ≤ℤ price town e x }
{}
