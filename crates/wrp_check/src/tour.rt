//! What the checker says of a tour: whether it keeps the rules of a tour, each tried by passes over
//! its steps. The marks of the arcs belong to the caller.
ghost use Rattle.std.specs.Prelude.{◌≡◌, ◌+◌, ◌*◌, ◌<◌, ◌==◌, true, false, pos, List, length, EachIndex, slice_index_or};
ghost use Rattle.std.specs.List.{list_all};
ghost use Rattle.wrp_town.specs.declared.street.Step.{Step};
ghost use Rattle.wrp_town.specs.Streets.{demands_at};
ghost use Rattle.wrp_town.specs.Walks.{leads, is_closed_walk, serves, serves_all, walk_cost};
ghost use Rattle.wrp_rules.specs.declared.record.Record.TheVariants.{Tour};
ghost use Rattle.wrp_rules.specs.Nodes.{Standing, is_below};
ghost use Rattle.wrp_rules.specs.Rules.{rules_of, first_broken};
ghost use Rattle.wrp_check.specs.Marks.{are_in_range, MarkArcs};

use wrp_proof::{Rule, StepsOf};
use wrp_town::{Need, Town};

/// The first rule that a tour breaks, where `upper` is the cost of the cheapest tour so far. What
/// stands in `used` makes no difference.
pub(crate) fn broken_tour(
    town: &Town,
    used: &mut [bool],
    upper: Option<u64>,
    cost: u64,
    steps: &StepsOf<'_>,
) -> Option<Rule>
    requires { length used.old ≡ 2 * length town.now.streets }
    ensures { (s : Standing) → s.upper ≡ upper
        → result ≡ first_broken (rules_of town.now s (Tour cost steps.now)) }
{
    if !in_range(town, steps) {
        Some(Rule::Range)
    } else if !is_closed(town, steps) {
        Some(Rule::Walk)
    } else if !serves_each(town, used, steps) {
        Some(Rule::Serve)
    } else if !has_cost(town, cost, steps) {
        Some(Rule::Cost)
    } else if !is_cheaper(cost, upper) {
        Some(Rule::Dear)
    } else {
        None
    }
}

/// Whether each step names a street of the town.
fn in_range(town: &Town, steps: &StepsOf<'_>) -> bool
    ensures { result ≡ are_in_range town.now steps.now }
{
    let mut ahead = steps.again();
    while let Some(step) = ahead.next() {
        if step.street as usize >= town.streets.len() {
            return false;
        }
    }
    true
}

/// Whether the steps are a closed walk.
fn is_closed(town: &Town, steps: &StepsOf<'_>) -> bool
    ensures { result ≡ is_closed_walk town.now steps.now }
{
    let mut front = steps.again();
    match front.next() {
        Some(first) => {
            if !town.is_step_legal(first) {
                return false;
            }
            let base = town.tail(first.arc());
            lead(town, base, steps, base)
        }
        None => true,
    }
}

/// Whether the steps lead from one junction to another.
fn lead(town: &Town, from: u32, steps: &StepsOf<'_>, to: u32) -> bool
    ensures { result ≡ leads town.now from steps.now to }
{
    let mut ahead = steps.again();
    let mut at = from;
    while let Some(step) = ahead.next() {
        match town.follow(at, step) {
            Some(end) => at = end,
            None => return false,
        }
    }
    at == to
}

/// Whether the steps serve every demand of the town.
fn serves_each(town: &Town, used: &mut [bool], steps: &StepsOf<'_>) -> bool
    requires room { length used.old ≡ 2 * length town.now.streets }
    requires in_range { are_in_range town.now steps.now ≡ true }
    ensures { result ≡ serves_all town.now steps.now }
{
    mark_arcs(town, used, steps);
    are_served(town, used)
}

/// Marks the arcs that the steps drive, and no others.
fn mark_arcs(town: &Town, used: &mut [bool], steps: &StepsOf<'_>)
    requires room { length used.old ≡ 2 * length town.now.streets }
    requires in_range { are_in_range town.now steps.now ≡ true }
    ensures { MarkArcs used.new steps.now }
{
    clear(used);
    let mut ahead = steps.again();
    while let Some(step) = ahead.next() {
        used[step.arc() as usize] = true;
    }
}

/// Takes every mark away.
fn clear(used: &mut [bool])
    ensures { EachIndex used.new (λ arc. slice_index_or used.new arc true ≡ false) }
{
    for mark in used.iter_mut() {
        *mark = false;
    }
}

/// Whether the steps that the marks stand for serve every demand of the town.
fn are_served(town: &Town, used: &[bool]) -> bool
    requires { length used.now ≡ 2 * length town.now.streets }
    ensures { (steps : List Step) → MarkArcs used.now steps → result ≡ serves_all town.now steps }
{
    for (i, street) in town.streets.as_slice().iter().enumerate() {
        if !is_street_served(used, i, street.need) {
            return false;
        }
    }
    true
}

/// Whether the steps that the marks stand for serve each demand of a street.
fn is_street_served(used: &[bool], street: usize, need: Need) -> bool
    requires { 2 * street + 1 < length used.now }
    ensures { (steps : List Step) → MarkArcs used.now steps
        → result ≡ list_all (serves steps) (demands_at street need) }
{
    let forward = used[2 * street];
    let backward = used[2 * street + 1];
    match need {
        Need::No => true,
        Need::Either => forward || backward,
        Need::Forward => forward,
        Need::Backward => backward,
        Need::Both => forward && backward,
    }
}

/// Whether the costs of the steps add up to `cost`.
fn has_cost(town: &Town, cost: u64, steps: &StepsOf<'_>) -> bool
    ensures { result ≡ (walk_cost town.now steps.now == cost) }
{
    let mut ahead = steps.again();
    let mut rest = cost;
    while let Some(step) = ahead.next() {
        match rest.checked_sub(u64::from(town.step_cost(step).unwrap_or(0))) {
            Some(less) => rest = less,
            None => return false,
        }
    }
    rest == 0
}

/// Whether no tour so far is as cheap.
fn is_cheaper(cost: u64, upper: Option<u64>) -> bool
    ensures { result ≡ is_below (pos cost) upper }
{
    match upper {
        Some(upper) => cost < upper,
        None => true,
    }
}
