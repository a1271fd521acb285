//! Laws of the lengths of lines.
ghost use Rattle.std.specs.Prelude.{◌≡◌, ℕ, ◌^◌, ◌<◌, ◌≤◌, true, List, length};
ghost use Rattle.std.specs.List.{All};
ghost use Rattle.wrp_town.specs.declared.street.Step.{Step};
ghost use Rattle.wrp_rules.specs.declared.record.Record.TheVariants.{Tour, Labels};
ghost use Rattle.wrp_writer.specs.Limits.{is_writable};

/// Tours and labels of a town have lines that are short enough to stand in a proof.
pub fn line_laws()
    ensures tours { (cost : ℕ) (steps : List Step) → cost < 10 ^ 18
        → All (λ step. step.street < 10 ^ 4) steps → length steps ≤ 32000000
        → is_writable (Tour cost steps) ≡ true }
    ensures labels { (labels streets : List ℕ) → All (λ n. n < 10 ^ 4) labels
        → All (λ n. n < 10 ^ 4) streets → length labels ≤ 4000 → length streets ≤ 4000
        → is_writable (Labels labels streets) ≡ true }
{}
