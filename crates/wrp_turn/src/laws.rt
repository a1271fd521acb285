//! The laws of turn towns. The functions here do nothing: their clauses are the laws.
ghost use Rattle.std.specs.Prelude.{◌≡◌, ◌<◌, ◌^◌, ◌↔◌, true, ℕ, List};
ghost use Rattle.wrp_town.specs.declared.street.Step.{Step};
ghost use Rattle.wrp_town.specs.declared.town.Town.{Town};
ghost use Rattle.wrp_town.specs.Streets.{IsTown};
ghost use Rattle.wrp_town.specs.Walks.{is_tour, walk_cost, IsLeastCost, HasNoTour};
ghost use Rattle.wrp_turn.specs.Turns.{is_turning_tour, IsLeastTurning, HasNoTurningTour};
ghost use Rattle.wrp_turn.specs.TurnTowns.{IsTurnTown, FitsTurns, turn_junctions, turn_streets, turn_text, arcs_of, can_turn, drop_turns};
ghost use Rattle.wrp_turn.specs.BanFiles.{is_ban_text, ban_in};

/// What is left of a tour of the turn town is a turning tour of the same cost. Where no street has
/// a choice, each turning tour is what is left of such a tour.
pub fn tours_keep_bans()
    ensures drops { (town : Town) (bans : List (ℕ × ℕ)) (big : Town) (steps : List Step)
        → IsTurnTown town bans big → is_tour big steps ≡ true
        → (is_turning_tour town bans (drop_turns (arcs_of town) steps) ≡ true)
        × (walk_cost town (drop_turns (arcs_of town) steps) ≡ walk_cost big steps) }
    ensures comes { (town : Town) (bans : List (ℕ × ℕ)) (big : Town) (steps : List Step)
        → IsTurnTown town bans big → can_turn town ≡ true
        → is_turning_tour town bans steps ≡ true
        → (wide : List Step) × (is_tour big wide ≡ true)
        × (drop_turns (arcs_of town) wide ≡ steps)
        × (walk_cost big wide ≡ walk_cost town steps) }
{}

/// Where no street has a choice, the least costs of tours of the turn town and of turning tours
/// agree, and one is there exactly where the other is.
pub fn turns_cost_alike()
    ensures least { (town : Town) (bans : List (ℕ × ℕ)) (big : Town) (cost : ℕ)
        → IsTurnTown town bans big → can_turn town ≡ true
        → IsLeastCost big cost ↔ IsLeastTurning town bans cost }
    ensures none { (town : Town) (bans : List (ℕ × ℕ)) (big : Town)
        → IsTurnTown town bans big → can_turn town ≡ true
        → HasNoTour big ↔ HasNoTurningTour town bans }
{}

/// The junctions and streets of a turn town within the limits make a town.
pub fn turn_towns_are_towns()
    ensures { (town : Town) (bans : List (ℕ × ℕ)) → FitsTurns town bans
        → IsTown (turn_junctions town) (turn_streets town bans) }
{}

/// A line that is a ban is the text of its two arcs, and the text of any two arcs is such a line
/// and spells them.
pub fn bans_are_texts()
    ensures spelled { (line : List ℕ) → is_ban_text line ≡ true → line ≡ turn_text (ban_in line) }
    ensures read { (first second : ℕ) → first < 2 ^ 33 → second < 2 ^ 33
        → (is_ban_text (turn_text (first, second)) ≡ true)
        × (ban_in (turn_text (first, second)) ≡ (first, second)) }
{}
