//! Walks over a town: lists of steps, what they cost, and which of them are tours.
ghost use Rattle.std.specs.Prelude.{◌≡◌, ℕ, ◌^◌, ◌<◌, ◌≤◌, ◌&&◌, ◌==◌, true, Some, None, if◌then◌else◌, List, length, IfSome};
ghost use Rattle.std.specs.List.{list_all};
ghost use Rattle.wrp_town.specs.Limits.{cost_limit};
ghost use Rattle.wrp_town.specs.Streets.{demands_at};
ghost use Rattle.wrp_town.specs.Arcs.{cost_of, tail_of, head_of, is_legal, has_arc, arc_of, step_along};
ghost use Rattle.wrp_town.specs.Walks.{leads, is_closed_walk, serves, serves_all, is_tour, walk_cost};

use crate::street::{Need, Step};
use crate::town::Town;

impl Step {
    /// The step along an arc.
    pub fn along(arc: u32) -> Step
        ensures value { result ≡ step_along arc }
        ensures arc { arc_of result ≡ arc }
    {
        Step {
            street: arc / 2,
            back: arc % 2 == 1,
        }
    }

    /// The arc of the step.
    pub fn arc(self) -> u32
        requires { self.street < 2 ^ 31 }
        ensures { result ≡ arc_of self }
    {
        2 * self.street + u32::from(self.back)
    }

    /// Whether the step drives the arc.
    pub fn drives(self, arc: u32) -> bool
        ensures { result ≡ (arc_of self == arc) }
    {
        self.street == arc / 2 && self.back == (arc % 2 == 1)
    }
}

impl Town {
    /// The cost of a step, and `None` where it names no street or is illegal.
    pub fn step_cost(&self, step: Step) -> Option<u32>
        ensures value { result ≡ cost_of self.now (arc_of step) }
        ensures limit { IfSome result (λ cost. cost ≤ cost_limit) }
    {
        if (step.street as usize) < self.streets.len() {
            self.cost(step.arc())
        } else {
            None
        }
    }

    /// Whether a step names a street and drives it in a legal direction.
    pub fn is_step_legal(&self, step: Step) -> bool
        ensures { result ≡ is_legal self.now (arc_of step) }
    {
        self.step_cost(step).is_some()
    }

    /// The junction where a step from a junction ends, and `None` where the step is illegal or does
    /// not begin at that junction.
    pub fn follow(&self, from: u32, step: Step) -> Option<u32>
        ensures value { result
            ≡ (if is_legal self.now (arc_of step) && tail_of self.now (arc_of step) == from
            then Some (head_of self.now (arc_of step)) else None) }
        ensures junction { IfSome result (λ end. end < length self.now.junctions) }
    {
        if self.is_step_legal(step) && self.tail(step.arc()) == from {
            Some(self.head(step.arc()))
        } else {
            None
        }
    }
}

/// Whether the steps lead from one junction to another: each is legal and begins where the one
/// before it ends.
pub fn leads(town: &Town, from: u32, steps: &[Step], to: u32) -> bool
    ensures { result ≡ leads town.now from steps.now to }
{
    let mut at = from;
    for step in steps {
        match town.follow(at, *step) {
            Some(end) => at = end,
            None => return false,
        }
    }
    at == to
}

/// Whether the steps are a closed walk: they lead back to where the first of them begins.
pub fn is_closed_walk(town: &Town, steps: &[Step]) -> bool
    ensures { result ≡ is_closed_walk town.now steps.now }
{
    match steps.first() {
        Some(first) => {
            if !town.is_step_legal(*first) {
                return false;
            }
            let base = town.tail(first.arc());
            leads(town, base, steps, base)
        }
        None => true,
    }
}

/// Whether a step of the walk drives one of the arcs.
pub fn serves(steps: &[Step], demand: &[u32]) -> bool
    ensures { result ≡ serves steps.now demand.now }
{
    steps.iter().any(|step| drives_one_of(*step, demand))
}

fn drives_one_of(step: Step, demand: &[u32]) -> bool
    ensures { result ≡ has_arc demand.now (arc_of step) }
{
    demand.iter().any(|arc| step.drives(*arc))
}

fn serves_street(steps: &[Step], street: u32, need: Need) -> bool
    requires { street < 2 ^ 31 }
    ensures { result ≡ list_all (serves steps.now) (demands_at street need) }
{
    let forward = 2 * street;
    let backward = forward + 1;
    match need {
        Need::No => true,
        Need::Either => serves(steps, [forward, backward].as_slice()),
        Need::Forward => serves(steps, [forward].as_slice()),
        Need::Backward => serves(steps, [backward].as_slice()),
        Need::Both => serves(steps, [forward].as_slice()) && serves(steps, [backward].as_slice()),
    }
}

/// Whether the walk serves every demand of the town.
pub fn serves_all(town: &Town, steps: &[Step]) -> bool
    ensures { result ≡ serves_all town.now steps.now }
{
    for (i, street) in town.streets.as_slice().iter().enumerate() {
        if !serves_street(steps, i as u32, street.need) {
            return false;
        }
    }
    true
}

/// Whether the steps are a tour: a closed walk of legal steps that serves every demand. No steps at
/// all are a closed walk too.
pub fn is_tour(town: &Town, steps: &[Step]) -> bool
    ensures { result ≡ is_tour town.now steps.now }
{
    is_closed_walk(town, steps) && serves_all(town, steps)
}

/// The sum of the costs of the steps, and `None` where a step names no street or is illegal.
pub fn walk_cost(town: &Town, steps: &[Step]) -> Option<u64>
    requires { length steps.now < 2 ^ 32 }
    ensures { result ≡ (if list_all (λ step. is_legal town.now (arc_of step)) steps.now
        then Some (walk_cost town.now steps.now) else None) }
{
    let mut total = 0;
    for step in steps {
        total += u64::from(town.step_cost(*step)?);
    }
    Some(total)
}

#[cfg(test)]
mod tests {
    use super::*;
    use crate::class::{Class, class_of};
    use crate::list::List;
    use std::test::Fail;

    #[test]
    fn no_steps_are_a_tour_of_no_streets(rt: HostRuntime) -> Result<(), Fail> {
        let town = Town {
            junctions: List::new(rt.alloc()),
            streets: List::new(rt.alloc()),
        };
        let nowhere = [Step::along(0)];
        assert!(rt; class_of(&town) == Class::Empty);
        assert!(rt; is_tour(&town, [].as_slice()));
        assert!(rt; !is_tour(&town, nowhere.as_slice()));
        assert_eq!(rt; walk_cost(&town, nowhere.as_slice()), None);
        Ok(())
    }
}
