//! The turn town.
ghost use Rattle.std.specs.Prelude.{◌≡◌, ◌&&◌, nat_le, position, true, IfOk, OnOk};
ghost use Rattle.wrp_town.specs.Limits.{junction_limit, street_limit};
ghost use Rattle.wrp_turn.specs.Turns.{are_bans};
ghost use Rattle.wrp_turn.specs.Faults.{Answers};
ghost use Rattle.wrp_turn.specs.Refusals.{refusal_of};
ghost use Rattle.wrp_turn.specs.TurnTowns.{has_choice as has_street_choice, can_turn, FitsTurns, IsTurnTown};

use crate::arcs::arcs_of;
use crate::bans::Bans;
use crate::fault::TurnFault;
use crate::streets::Places;
use crate::turns::Turns;
use std::alloc::{AllocError, Global};
use wrp_graph::Graph;
use wrp_town::{JUNCTION_LIMIT, Need, STREET_LIMIT, Street, Town};

/// The turn town of a graph's town under bans: a street for each arc and each turn that no ban
/// forbids. Its tours stand for the tours of the town that keep the bans.
///
/// # Errors
///
/// [`TurnFault::Either`] with the first street that may be driven either way in two legal
/// directions; else [`TurnFault::Size`] where the turn town would pass a limit. And want of memory.
pub fn turn_town(alloc: Global, graph: &Graph<'_>, bans: &Bans) -> Result<Town, TurnFault>
    requires { are_bans graph.now bans.now.list ≡ true }
    ensures town { Answers result (refusal_of graph.now bans.now.list)
        (IsTurnTown graph.now bans.now.list) }
    ensures free { OnOk result (can_turn graph.now ≡ true) }
{
    let town = graph.town();
    if let Some(street) = choice_in(town.streets.as_slice()) {
        return Err(TurnFault::Either {
            street: street as u32,
        });
    }
    let arcs = arcs_of(alloc, graph)?;
    let turns = Turns::new(alloc, graph, bans.list.as_slice())?;
    let junctions = 2 * arcs.len() as u64;
    let streets = arcs.len() as u64 + turns.count(alloc)?;
    if !fit(junctions, streets) {
        return Err(TurnFault::Size { junctions, streets });
    }
    let places = Places {
        town,
        arcs: arcs.as_slice(),
    };
    Ok(build(alloc, &places, &turns)?)
}

/// The first street that may be driven either way in two legal directions.
fn choice_in(streets: &[Street]) -> Option<usize>
    ensures { result ≡ position has_street_choice streets.now }
{
    streets.iter().position(|street| has_choice(street))
}

/// Whether the street may be driven either way, with two legal directions.
fn has_choice(street: &Street) -> bool
    ensures { result ≡ has_street_choice street.now }
{
    street.need == Need::Either && street.forward.is_some() && street.backward.is_some()
}

/// Whether a town may have so many junctions and streets.
fn fit(junctions: u64, streets: u64) -> bool
    ensures { result ≡ (nat_le junctions junction_limit && nat_le streets street_limit) }
{
    junctions <= JUNCTION_LIMIT as u64 && streets <= STREET_LIMIT as u64
}

/// Makes the turn town.
fn build(alloc: Global, places: &Places<'_>, turns: &Turns<'_, '_>) -> Result<Town, AllocError>
    requires same { turns.now.graph.now ≡ places.now.town.now }
    requires fits { FitsTurns places.now.town.now turns.now.bans.now }
    ensures { IfOk result (IsTurnTown places.now.town.now turns.now.bans.now) }
{
    let junctions = places.junctions(alloc)?;
    let mut streets = places.arc_streets(alloc)?;
    places.push_turns(alloc, turns, &mut streets)?;
    Ok(Town { junctions, streets })
}
