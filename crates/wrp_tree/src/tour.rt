//! The judgement of a tour.
ghost use Rattle.std.specs.Prelude.{◌≡◌, ◌==◌, nat_lt, pos, length};
ghost use Rattle.std.specs.List.{list_all};
ghost use Rattle.wrp_town.specs.Walks.{walk_cost};
ghost use Rattle.wrp_rules.specs.declared.record.Record.TheVariants.{Tour};
ghost use Rattle.wrp_rules.specs.Nodes.{Standing, is_below};
ghost use Rattle.wrp_rules.specs.Rules.{rules_of, first_broken};

use wrp_rules::Rule;
use wrp_town::{Step, Town, is_closed_walk, serves_all};

/// The first rule that a tour breaks, where `upper` is the cost of the cheapest tour so far.
pub(crate) fn broken_tour(
    town: &Town,
    upper: Option<u64>,
    cost: u64,
    steps: &[Step],
) -> Option<Rule>
    ensures { (s : Standing) → s.upper ≡ upper
        → result ≡ first_broken (rules_of town.now s (Tour cost steps.now)) }
{
    if !are_in_range(town, steps) {
        Some(Rule::Range)
    } else if !is_closed_walk(town, steps) {
        Some(Rule::Walk)
    } else if !serves_all(town, steps) {
        Some(Rule::Serve)
    } else if !has_cost(town, cost, steps) {
        Some(Rule::Cost)
    } else if !is_cheaper(cost, upper) {
        Some(Rule::Dear)
    } else {
        None
    }
}

/// Whether each step names a street of the town.
fn are_in_range(town: &Town, steps: &[Step]) -> bool
    ensures { result ≡ list_all (λ step. nat_lt step.street (length town.now.streets)) steps.now }
{
    let streets = town.streets.len();
    steps.iter().all(|step| (step.street as usize) < streets)
}

/// Whether the costs of the steps add up to `cost`.
fn has_cost(town: &Town, cost: u64, steps: &[Step]) -> bool
    ensures { result ≡ (walk_cost town.now steps.now == cost) }
{
    let mut rest = cost;
    for step in steps {
        match rest.checked_sub(u64::from(town.step_cost(*step).unwrap_or(0))) {
            Some(less) => rest = less,
            None => return false,
        }
    }
    rest == 0
}

/// Whether no tour so far is as cheap.
fn is_cheaper(cost: u64, upper: Option<u64>) -> bool
    ensures { result ≡ is_below (pos cost) upper }
{
    match upper {
        Some(upper) => cost < upper,
        None => true,
    }
}
