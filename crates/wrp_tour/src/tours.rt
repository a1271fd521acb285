//! A first tour, and a better one.
ghost use Rattle.std.specs.Prelude.{◌≡◌, ◌^◌, ◌<◌, ◌≤◌, true, length, IfOk, MatchOption};
ghost use Rattle.wrp_town.specs.Walks.{is_tour, walk_cost};
ghost use Rattle.wrp_tour.specs.Tours.{HasTour, IsLeanTour};

use crate::lean::{is_lean_tour, uses_few};
use crate::order::reordered;
use crate::plain::plain_tour;
use crate::sides::balanced_tour;
use crate::thinning::thinned;
use std::alloc::{AllocError, Global};
use wrp_graph::Graph;
use wrp_parts::Parts;
use wrp_town::{List, Step, Town, walk_cost};

/// A tour of a town that has one. It uses no arc more often than there are demands.
///
/// # Errors
///
/// Want of memory alone.
pub fn first_tour(alloc: Global, graph: &Graph, parts: &Parts) -> Result<List<Step>, AllocError>
    requires { HasTour graph.now }
    ensures { IfOk result (λ steps. IsLeanTour graph.now steps) }
{
    let town = graph.town();
    let found = balanced_tour(alloc, graph, parts)?;
    if is_lean_tour(alloc, town, found.as_slice())? {
        return Ok(found);
    }
    let plain = plain_tour(alloc, graph)?;
    Ok(lean(alloc, town, plain)?)
}

/// A tour that costs no more than the given one, by a local search. It uses no arc more often than
/// there are demands.
///
/// # Errors
///
/// Want of memory alone.
pub fn improve(alloc: Global, graph: &Graph, steps: &[Step]) -> Result<List<Step>, AllocError>
    requires tour { is_tour graph.now steps.now ≡ true }
    requires few { length steps.now < 2 ^ 32 }
    ensures lean { IfOk result (λ new. IsLeanTour graph.now new) }
    ensures cost { IfOk result (λ new. walk_cost graph.now new ≤ walk_cost graph.now steps.now) }
{
    let town = graph.town();
    let found = reordered(alloc, graph, steps)?;
    if is_no_dearer(town, found.as_slice(), steps) && is_lean_tour(alloc, town, found.as_slice())? {
        return Ok(found);
    }
    let given = List::from_vec(steps.to_vec(alloc)?);
    Ok(lean(alloc, town, given)?)
}

/// Whether legal steps cost no more than others.
fn is_no_dearer(town: &Town, found: &[Step], given: &[Step]) -> bool
    requires { length given.now < 2 ^ 32 }
    ensures { result ≡ true → walk_cost town.now found.now ≤ walk_cost town.now given.now }
{
    if found.len() > u32::MAX as usize {
        return false;
    }
    match (walk_cost(town, found), walk_cost(town, given)) {
        (Some(new), Some(old)) => new <= old,
        _ => false,
    }
}

/// A tour that costs no more than the given one, and uses no arc more often than there are demands.
fn lean(alloc: Global, town: &Town, steps: List<Step>) -> Result<List<Step>, AllocError>
    requires { is_tour town.now steps ≡ true }
    ensures lean { IfOk result (λ new. IsLeanTour town.now new) }
    ensures cost { IfOk result (λ new. walk_cost town.now new ≤ walk_cost town.now steps) }
{
    if uses_few(alloc, town, steps.as_slice())? {
        return Ok(steps);
    }
    let thin = thinned(alloc, town, steps)?;
    Ok(thin)
}
