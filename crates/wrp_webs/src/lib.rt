//! Laws of webs, weighted graphs whose junctions have degrees, and of the web of a town at a point:
//! what the searches for broken odd rows and broken connectivity rows rest on.
//!
//! Each function here does nothing: its clauses are the laws.
#![tactic(auto)]

ghost use Rattle.std.specs.Prelude.{◌≡◌, ◌↔◌, ◌⊎◌, ◌+◌, ◌*◌, ◌/◌, ◌%◌, ◌<◌, ◌≤◌, ◌==◌, not, true, false, ℕ, Bool, List, [], ◌∷◌, ◌++◌, length, map, Option, Some};
ghost use Rattle.std.specs.List.{filter};
ghost use Rattle.wrp_town.specs.declared.town.Town.{Town};
ghost use Rattle.wrp_town.specs.Arcs.{junctions, tail_of, is_required};
ghost use Rattle.wrp_rules.specs.Rows.{odd_row, conn_row};
ghost use Rattle.wrp_rules.specs.Sets.{is_in, crossing_demands, is_parted};
ghost use Rattle.wrp_laws.specs.Points.{MeetsOver};
ghost use Rattle.wrp_parts.specs.RequiredParts.{AreParts, part_at};
ghost use Rattle.wrp_webs.specs.Webs.{sum_below, Web, both, either, outside, without, cut, degrees, IsWeb, IsOdd, IsMerge, Keeps, IsOddNode, IsSplit, IsLeastSplit, IsLeastBetween, shrunk, IsWithin, AreShrunk, IsLeastOdd};
ghost use Rattle.wrp_webs.specs.Nets.{leaving, tail_between, head_between};
ghost use Rattle.wrp_webs.specs.Searching.{Awaits, work, reading, IsPending, IsSearch, IsShrunkTo};
ghost use Rattle.wrp_webs.specs.TownWebs.{IsOnLegal, MeetsServices, IsBalanced, town_web, out_of_set, IsLeastOut, IsBrokenOdd, part_node, IsUncrossed};

/// Sums of naturals below a number: the sum of two sums, sums of no greater terms, and sums in the
/// other order.
pub fn sums_below()
    ensures adds { (f g : ℕ → ℕ) (n : ℕ)
        → sum_below (λ i. f i + g i) n ≡ sum_below f n + sum_below g n }
    ensures grows { (f g : ℕ → ℕ) (n : ℕ) → ((i : ℕ) → i < n → f i ≤ g i)
        → sum_below f n ≤ sum_below g n }
    ensures exchanges { (f : ℕ → ℕ → ℕ) (m n : ℕ)
        → sum_below (λ i. sum_below (λ j. f i j) n) m
        ≡ sum_below (λ j. sum_below (λ i. f i j) m) n }
{}

/// A set weighs what its outside weighs; two sets weigh at least what they share and what either
/// holds, and at least the two differences.
pub fn sets_uncross()
    ensures outsides { (web : Web) (t : ℕ → Bool) → cut web (outside t) ≡ cut web t }
    ensures shared { (web : Web) (t u : ℕ → Bool)
        → cut web (both t u) + cut web (either t u) ≤ cut web t + cut web u }
    ensures apart { (web : Web) (t u : ℕ → Bool)
        → cut web (without t u) + cut web (without u t) ≤ cut web t + cut web u }
{}

/// The least of the least cuts between one odd node and each other one is a least split; a least cut
/// of the net is a least cut of the web.
pub fn least_splits_come_from_pairs()
    ensures pairs { (web : Web) (at : ℕ → ℕ) (s t : ℕ) (u : ℕ → Bool) → IsMerge web at
        → IsOddNode web at s → IsOddNode web at t → IsLeastBetween web at s t u
        → ((v : ℕ) → IsOddNode web at v → (v ≡ s → ⊥)
        → (set : ℕ → Bool) × (IsLeastBetween web at s v set) × (cut web u ≤ cut web set))
        → IsLeastSplit web at u s t }
    ensures still { (web : Web) (at : ℕ → ℕ) (node : ℕ) → IsMerge web at → IsOddNode web at node
        → at node ≡ node }
    ensures nets { (web : Web) (at : ℕ → ℕ) (s t : ℕ) (found : ℕ → Bool) → IsWeb web
        → IsMerge web at → at s ≡ s → at t ≡ t → found s ≡ true → found t ≡ false
        → (let out = leaving (2 * web.links) (tail_between web at) (head_between web at)
        (λ a. web.weight (a / 2)) in
        (set : ℕ → Bool) → set s ≡ true → set t ≡ false → out found ≤ out set)
        → IsLeastBetween web at s t (λ j. found (at j)) }
{}

/// No odd set weighs less than a least split; where that is even, an odd set that isn't heavier lies
/// on one side of it, and the two smaller webs have its odd nodes.
pub fn least_splits_bound_odd_sets()
    ensures bounds { (web : Web) (at : ℕ → ℕ) (u : ℕ → Bool) (s t : ℕ) (set : ℕ → Bool)
        → IsWeb web → IsMerge web at → IsLeastSplit web at u s t → Keeps web at set
        → IsOdd web set → cut web u ≤ cut web set }
    ensures sides { (web : Web) (at : ℕ → ℕ) (u : ℕ → Bool) (s t : ℕ) (set : ℕ → Bool)
        → IsWeb web → IsMerge web at → IsLeastSplit web at u s t → degrees web u % 2 ≡ 0
        → Keeps web at set → IsOdd web set
        → IsWithin web at u set ⊎ IsWithin web at (outside u) set }
    ensures smaller { (web : Web) (at : ℕ → ℕ) (u : ℕ → Bool) (s t : ℕ) → IsWeb web
        → IsMerge web at → IsSplit web at u s t → degrees web u % 2 ≡ 0 → AreShrunk web at u s t }
    ensures least { (web : Web) (at : ℕ → ℕ) (u : ℕ → Bool) (s t : ℕ) (a b : ℕ → Bool)
        → IsWeb web → IsMerge web at → IsLeastSplit web at u s t → degrees web u % 2 ≡ 0
        → IsLeastOdd web (shrunk at u t) a → IsLeastOdd web (shrunk at (outside u) s) b
        → (cut web a ≤ cut web b → IsLeastOdd web at a)
        × (cut web b ≤ cut web a → IsLeastOdd web at b) }
{}

/// The search for an odd set below a bound begins with the whole web; a web leaves it where its
/// least split isn't light, and two smaller ones take its place where that is even. Each step leaves
/// less to do, and where nothing awaits the search, there is no such set.
pub fn searches_go_on()
    ensures first { (web : Web) (bound : ℕ) (all : List ℕ) → length all ≡ web.junctions
        → ((j : ℕ) → j < web.junctions → reading all j ≡ j) → IsSearch web bound (all ∷ [])
        ⊎ IsSearch web bound [] }
    ensures taken { (web : Web) (bound : ℕ) (rest : List (List ℕ)) (item : List ℕ)
        → IsSearch web bound (rest ++ item ∷ []) → IsPending web item }
    ensures heavy { (web : Web) (bound : ℕ) (rest : List (List ℕ)) (item : List ℕ)
        (u : ℕ → Bool) (s t : ℕ) → IsSearch web bound (rest ++ item ∷ []) → IsWeb web
        → IsLeastSplit web (reading item) u s t → bound ≤ cut web u
        → (IsSearch web bound rest)
        × (work web (map reading rest) < work web (map reading (rest ++ item ∷ []))) }
    ensures even { (web : Web) (bound : ℕ) (rest : List (List ℕ)) (item one two : List ℕ)
        (u : ℕ → Bool) (s t : ℕ) → IsSearch web bound (rest ++ item ∷ []) → IsWeb web
        → IsLeastSplit web (reading item) u s t → degrees web u % 2 ≡ 0
        → IsShrunkTo web item u t one → IsShrunkTo web item (outside u) s two
        → (IsSearch web bound ((rest ++ one ∷ []) ++ two ∷ []))
        × (work web (map reading ((rest ++ one ∷ []) ++ two ∷ []))
        < work web (map reading (rest ++ item ∷ []))) }
    ensures ends { (web : Web) (bound : ℕ) → IsSearch web bound [] → (set : ℕ → Bool)
        → IsOdd web set → bound ≤ cut web set }
{}

/// The web of a town at numbers over a denominator that meet the service rows: its odd sets are
/// those that an odd number of demands cross, and the light ones break their odd rows.
pub fn odd_rows_are_cuts()
    ensures webs { (town : Town) (e : ℕ) (x : ℕ → ℕ) → IsWeb (town_web town e x) }
    ensures odd { (town : Town) (e : ℕ) (x : ℕ → ℕ) (set : List ℕ)
        → degrees (town_web town e x) (is_in set) % 2 ≡ crossing_demands town set % 2 }
    ensures rows { (town : Town) (e : ℕ) (x : ℕ → ℕ) → IsOnLegal town x
        → MeetsServices town e x → (set : List ℕ)
        → MeetsOver town e x (odd_row town set) ↔ (e ≤ cut (town_web town e x) (is_in set)) }
    ensures none { (town : Town) (e : ℕ) (x : ℕ → ℕ) → IsOnLegal town x
        → MeetsServices town e x → Awaits (town_web town e x) e [] → (set : List ℕ)
        → not (crossing_demands town set % 2 == 0) ≡ true
        → MeetsOver town e x (odd_row town set) }
    ensures some { (town : Town) (e : ℕ) (x : ℕ → ℕ) → IsOnLegal town x
        → MeetsServices town e x → (u : ℕ → Bool) → IsOdd (town_web town e x) u
        → cut (town_web town e x) u < e → IsBrokenOdd town e x (filter u (junctions town)) }
{}

/// At a balanced point a connectivity row is met where enough leaves its set; least cuts from one
/// part to each other one decide all sets that no required street crosses.
pub fn connectivity_rows_are_cuts()
    ensures rows { (town : Town) (x : ℕ → ℕ) (e : ℕ) → IsOnLegal town x → (set : List ℕ)
        → MeetsOver town e x (conn_row town set) ↔ (e ≤ out_of_set town x (is_in set)) }
    ensures turned { (town : Town) (x : ℕ → ℕ) → IsOnLegal town x → IsBalanced town x
        → (set : ℕ → Bool) → out_of_set town x (outside set) ≡ out_of_set town x set }
    ensures suffices { (town : Town) (x : ℕ → ℕ) (e : ℕ) (at : ℕ → ℕ) (node : ℕ → Bool) (s : ℕ)
        → IsOnLegal town x → IsBalanced town x
        → ((t : ℕ) → node t ≡ true → (t ≡ s → ⊥) → (found : ℕ → Bool)
        × (IsLeastOut town x at s t found) × (e ≤ out_of_set town x found))
        → (set : ℕ → Bool) (u v : ℕ)
        → ((j : ℕ) → j < length town.junctions → set (at j) ≡ set j)
        → node u ≡ true → node v ≡ true → set u ≡ true → set v ≡ false
        → e ≤ out_of_set town x set }
{}

/// The sets that no required street crosses are those that keep parts, and a set found between two
/// parts serves a connectivity record.
pub fn parts_are_kept_by_uncrossed_sets()
    ensures keeps { (town : Town) (count : ℕ) (of : List (Option ℕ)) (named : ℕ → ℕ)
        (set : ℕ → Bool) → AreParts town count of
        → ((part j : ℕ) → j < length town.junctions → part_at of j ≡ Some part
        → (named part < length town.junctions) × (part_at of (named part) ≡ Some part))
        → IsUncrossed town set
        ↔ ((j : ℕ) → j < length town.junctions → set (part_node of named j) ≡ set j) }
    ensures serves { (town : Town) (set : ℕ → Bool) (r1 r2 : ℕ) → IsUncrossed town set
        → r1 < length town.streets → r2 < length town.streets → is_required town r1 ≡ true
        → is_required town r2 ≡ true → set (tail_of town (2 * r1)) ≡ true
        → set (tail_of town (2 * r2)) ≡ false
        → is_parted town r1 r2 (filter set (junctions town)) ≡ true }
{}
