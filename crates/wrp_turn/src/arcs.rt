//! The arcs that have a street in the turn town.
ghost use Rattle.std.specs.Prelude.{◌≡◌, ◌*◌, ◌<◌, ◌≤◌, ◌^◌, ◌==◌, ◌||◌, Some, length, position, IfOk, IfSome};
ghost use Rattle.std.specs.List.{position_or_len};
ghost use Rattle.std.specs.Option.{option_map};
ghost use Rattle.wrp_town.specs.Arcs.{is_legal, street_of};
ghost use Rattle.wrp_turn.specs.Needs.{is_needed as is_arc_needed, is_lost as is_arc_lost};
ghost use Rattle.wrp_turn.specs.TurnTowns.{arcs_of, is_demanded as is_arc_demanded, is_unservable as is_arc_unservable};

use std::alloc::{AllocError, Global};
use wrp_graph::Graph;
use wrp_town::{List, Need, Town};

/// The arcs that have a street of their own in the turn town of a graph's town, ascending: those
/// that are legal, and the first arc of each demand that no arc serves.
///
/// # Errors
///
/// Want of memory alone.
pub fn arcs_of(alloc: Global, graph: &Graph<'_>) -> Result<List<u32>, AllocError>
    ensures { IfOk result (λ arcs. arcs ≡ arcs_of graph.now) }
{
    let town = graph.town();
    let mut arcs = List::new(alloc);
    for arc in 0..2 * town.streets.len() as u32 {
        if has_own_street(town, arc) {
            arcs.push(arc)?;
        }
    }
    Ok(arcs)
}

/// Whether the arc has a street of its own in the turn town.
fn has_own_street(town: &Town, arc: u32) -> bool
    requires { arc < 2 * length town.now.streets }
    ensures { result ≡ (is_legal town.now arc || is_arc_unservable town.now arc) }
{
    town.cost(arc).is_some() || is_unservable(town, arc)
}

/// Whether the arc is the first of a demand none of whose arcs is legal.
fn is_unservable(town: &Town, arc: u32) -> bool
    requires { arc < 2 * length town.now.streets }
    ensures { result ≡ is_arc_unservable town.now arc }
{
    let forward = 2 * (arc / 2);
    is_lost(
        need_of(town, arc),
        arc % 2 == 0,
        !town.cost(forward).is_some(),
        !town.cost(forward + 1).is_some(),
    )
}

/// Whether the arc is in a demand.
pub(crate) fn is_demanded(town: &Town, arc: u32) -> bool
    requires { arc < 2 * length town.now.streets }
    ensures { result ≡ is_arc_demanded town.now arc }
{
    is_needed(need_of(town, arc), arc % 2 == 0)
}

/// The need of the street of an arc.
fn need_of(town: &Town, arc: u32) -> Need
    requires { arc < 2 * length town.now.streets }
    ensures { option_map (λ street. street.need) (street_of town.now arc) ≡ Some result }
{
    town.streets.as_slice()[(arc / 2) as usize].need
}

/// Whether the forward arc, or else the backward one, is in a demand of a street with this need.
fn is_needed(need: Need, is_forward: bool) -> bool
    ensures { result ≡ is_arc_needed need is_forward }
{
    match need {
        Need::No => false,
        Need::Either | Need::Both => true,
        Need::Forward => is_forward,
        Need::Backward => !is_forward,
    }
}

/// Whether it is the first arc of a demand that is never served, where these directions are closed.
fn is_lost(need: Need, is_forward: bool, forward_closed: bool, backward_closed: bool) -> bool
    ensures { result ≡ is_arc_lost need is_forward forward_closed backward_closed }
{
    match need {
        Need::No => false,
        Need::Either => is_forward && forward_closed && backward_closed,
        Need::Forward => is_forward && forward_closed,
        Need::Backward => !is_forward && backward_closed,
        Need::Both => {
            if is_forward {
                forward_closed
            } else {
                backward_closed
            }
        }
    }
}

/// The place of an arc among these, or their number where it isn't there.
#[tactic(auto, using(crate::proofs::Collected::place_found, crate::proofs::Collected::place_missing))]
pub(crate) fn place_of(arcs: &[u32], arc: u32) -> u32
    requires { length arcs.now < 2 ^ 31 }
    ensures { result ≡ position_or_len (λ other. other == arc) arcs.now }
{
    match place_in(arcs, arc) {
        Some(place) => place as u32,
        None => arcs.len() as u32,
    }
}

/// The place of an arc among these.
fn place_in(arcs: &[u32], arc: u32) -> Option<usize>
    ensures place { result ≡ position (λ other. other == arc) arcs.now }
    ensures within { IfSome result (λ place. place < length arcs.now) }
{
    arcs.iter().position(|other| *other == arc)
}
