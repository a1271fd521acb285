//! A plain tour: the demands in their order, with shortest walks between them.
ghost use Rattle.std.specs.Prelude.{◌≡◌, ℕ, ◌*◌, ◌<◌, ◌&&◌, true, List, length, IfOk, OnOk, slice_get, Some};
ghost use Rattle.std.specs.List.{Contains};
ghost use Rattle.std.specs.Option.{option_map};
ghost use Rattle.wrp_town.specs.Arcs.{is_legal, demands};
ghost use Rattle.wrp_town.specs.Walks.{is_tour, serves};
ghost use Rattle.wrp_rules.specs.Sets.{is_in};
ghost use Rattle.wrp_reach.specs.Reaching.{AreStronglyConnected, lies_within};
ghost use Rattle.wrp_reach.specs.Answers.{IsJoined};
ghost use Rattle.wrp_tour.specs.Tours.{HasTour};
ghost use Rattle.wrp_tour.specs.Plain.{IsRound, GoesOn, IsNear, IsHome, AreHeld, ServesStreet};

use std::alloc::{AllocError, Global};
use wrp_graph::Graph;
use wrp_paths::shortest;
use wrp_reach::{Reach, labels};
use wrp_town::{List, Need, Step, Town};

/// A walk from a base, and where it ends.
#[derive(Drop)]
pub(crate) struct Round {
    base: u32,
    steps: Vec<Step>,
    at: u32,
}

/// A tour of a town that has one.
pub(crate) fn plain_tour(alloc: Global, graph: &Graph) -> Result<List<Step>, AllocError>
    requires { HasTour graph.now }
    ensures { IfOk result (λ steps. is_tour graph.now steps ≡ true) }
{
    match labels(alloc, graph)? {
        Reach::Joined { part } => tour_within(alloc, graph, part.as_slice()),
        Reach::Split { .. } => Ok(List::new(alloc)),
    }
}

/// A tour within the component that holds every demand.
fn tour_within(alloc: Global, graph: &Graph, part: &[u32]) -> Result<List<Step>, AllocError>
    requires { IsJoined graph.now part.now }
    ensures { IfOk result (λ steps. is_tour graph.now steps ≡ true) }
{
    if part.is_empty() {
        return Ok(List::new(alloc));
    }
    let base = part[0];
    let mut round = Round {
        base,
        steps: Vec::new(alloc),
        at: base,
    };
    round.serve_all(alloc, graph, part)?;
    round.walk_to(alloc, graph, base)?;
    Ok(List::from_vec(round.steps))
}

impl Round {
    /// Serves every demand.
    fn serve_all(&mut self, alloc: Global, graph: &Graph, part: &[u32]) -> Result<(), AllocError>
        requires round { IsRound graph.now self.old }
        requires home { IsHome graph.now part.now self.old.base }
        requires joined { IsJoined graph.now part.now }
        ensures on { OnOk result (GoesOn graph.now self.old self.new) }
        ensures served { OnOk result ((demand : List ℕ) → Contains (demands graph.now) demand
            → serves self.new.steps.items demand ≡ true) }
    {
        let town = graph.town();
        for (street, item) in town.streets.as_slice().iter().enumerate() {
            self.serve_street(alloc, graph, part, street as u32, item.need)?;
        }
        Ok(())
    }

    /// Serves the demands of one street.
    fn serve_street(
        &mut self,
        alloc: Global,
        graph: &Graph,
        part: &[u32],
        street: u32,
        need: Need,
    ) -> Result<(), AllocError>
        requires round { IsRound graph.now self.old }
        requires home { IsHome graph.now part.now self.old.base }
        requires street { street < length graph.now.streets }
        requires held { AreHeld graph.now part.now street need }
        ensures on { OnOk result (GoesOn graph.now self.old self.new) }
        ensures served { OnOk result (ServesStreet self.new street need) }
    {
        let forward = 2 * street;
        let backward = forward + 1;
        match need {
            Need::No => Ok(()),
            Need::Either => {
                if is_within(graph.town(), part, forward) {
                    self.drive(alloc, graph, forward)
                } else {
                    self.drive(alloc, graph, backward)
                }
            }
            Need::Forward => self.drive(alloc, graph, forward),
            Need::Backward => self.drive(alloc, graph, backward),
            Need::Both => {
                self.drive(alloc, graph, forward)?;
                self.drive(alloc, graph, backward)
            }
        }
    }

    /// Walks to an arc and drives it.
    fn drive(&mut self, alloc: Global, graph: &Graph, arc: u32) -> Result<(), AllocError>
        requires round { IsRound graph.now self.old }
        requires arc { IsNear graph.now self.old.base arc }
        ensures on { OnOk result (GoesOn graph.now self.old self.new) }
        ensures served { OnOk result ((demand : List ℕ) → Contains demand arc
            → serves self.new.steps.items demand ≡ true) }
    {
        let town = graph.town();
        self.walk_to(alloc, graph, town.tail(arc))?;
        self.steps.push(Step::along(arc))?;
        self.at = town.head(arc);
        Ok(())
    }

    /// Goes on by a shortest walk to a junction.
    fn walk_to(&mut self, alloc: Global, graph: &Graph, to: u32) -> Result<(), AllocError>
        requires round { IsRound graph.now self.old }
        requires there { to < length graph.now.junctions }
        requires strong { AreStronglyConnected graph.now self.old.base to }
        ensures on { OnOk result (GoesOn graph.now self.old self.new) }
        ensures at { OnOk result (self.new.at ≡ to) }
    {
        if let Some(path) = shortest(alloc, graph, self.at)?.path(to)? {
            self.steps.extend_from_slice(path.as_slice())?;
            self.at = to;
        }
        Ok(())
    }
}

/// Whether an arc is legal and has both ends in a part.
fn is_within(town: &Town, part: &[u32], arc: u32) -> bool
    requires { arc < 2 * length town.now.streets }
    ensures { result ≡ (is_legal town.now arc && lies_within town.now part.now arc) }
{
    town.cost(arc).is_some() && is_in(part, town.tail(arc)) && is_in(part, town.head(arc))
}

fn is_in(part: &[u32], j: u32) -> bool
    ensures { result ≡ is_in part.now j }
{
    part.iter().any(|k| j == *k)
}
