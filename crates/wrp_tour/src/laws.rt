//! Laws of tours that use no arc more often than there are demands.
ghost use Rattle.std.specs.Prelude.{◌≡◌, ℕ, ◌≤◌, true, List, length};
ghost use Rattle.wrp_town.specs.declared.street.Step.{Step};
ghost use Rattle.wrp_town.specs.declared.town.Town.{Town};
ghost use Rattle.wrp_town.specs.Walks.{walk_cost};
ghost use Rattle.wrp_rules.specs.declared.record.Record.TheVariants.{Tour};
ghost use Rattle.wrp_writer.specs.Limits.{is_writable};
ghost use Rattle.wrp_tour.specs.Tours.{IsLeanTour, most_steps};

/// Such a tour has few steps, and its record may stand in a proof.
pub fn lean_tours_are_short()
    ensures few { (town : Town) (steps : List Step) → IsLeanTour town steps
        → length steps ≤ most_steps }
    ensures writable { (town : Town) (steps : List Step) → IsLeanTour town steps
        → is_writable (Tour (walk_cost town steps) steps) ≡ true }
{}
