//! A tour by the order of its services: between each and the next the walk is a shortest one, each
//! demand of either direction is served in the direction that is best in this order, and single
//! services move to where they cost less.
//!
//! Nothing is proved of how good it is, nor that it is a tour: its callers test that.
use crate::moves::moved;
use crate::table::Distances;
use crate::ways::{NONE, Ways, head, tail};
use std::alloc::{AllocError, Global};
use wrp_graph::Graph;
use wrp_town::{List, Need, Step, Town, walk_cost};

/// How often a tour is made anew at most, and how often its order is gone through for that.
const ROUNDS: usize = 3;

const TURNS: usize = 5;

/// An arc that serves a demand, and the one that may serve it instead: the same where there is no
/// choice.
#[derive(Clone, Copy)]
pub(crate) struct Service {
    pub(crate) arc: u32,
    pub(crate) other: u32,
}

/// The steps, or cheaper ones in the order of their services.
pub(crate) fn reordered(
    alloc: Global,
    graph: &Graph,
    steps: &[Step],
) -> Result<List<Step>, AllocError> {
    let distances = Distances::of(alloc, graph)?;
    let mut best = List::from_vec(steps.to_vec(alloc)?);
    for _ in 0..ROUNDS {
        let next = once_reordered(alloc, graph, &distances, best.as_slice())?;
        if price(graph.town(), next.as_slice()) >= price(graph.town(), best.as_slice()) {
            return Ok(best);
        }
        best = next;
    }
    Ok(best)
}

/// The cost of steps, where they are legal.
fn price(town: &Town, steps: &[Step]) -> u64 {
    if steps.len() > u32::MAX as usize {
        return NONE;
    }
    walk_cost(town, steps).unwrap_or(NONE)
}

/// A tour in the order of the services of another, of which some move.
fn once_reordered(
    alloc: Global,
    graph: &Graph,
    distances: &Distances,
    steps: &[Step],
) -> Result<List<Step>, AllocError> {
    let town = graph.town();
    let services = services_of(alloc, town, steps)?;
    let mut order = chosen_services(alloc, town, distances, &services)?;
    for _ in 0..TURNS {
        let next = moved(alloc, town, distances, &order)?;
        let turned = chosen_services(alloc, town, distances, &next)?;
        if order_cost(town, distances, &turned) >= order_cost(town, distances, &order) {
            return rebuilt(alloc, graph, &order);
        }
        order = turned;
    }
    rebuilt(alloc, graph, &order)
}

/// What a tour in an order costs.
fn order_cost(town: &Town, distances: &Distances, order: &[Service]) -> u64 {
    let mut total = 0u64;
    for at in 0..order.len() {
        let next = if at + 1 < order.len() {
            order[at + 1]
        } else {
            order[0]
        };
        total = total.saturating_add(distances.on(town, order[at].arc, next.arc));
    }
    total
}

/// The services of a walk, each where a demand is first served.
fn services_of(alloc: Global, town: &Town, steps: &[Step]) -> Result<Vec<Service>, AllocError> {
    let mut done = vec![in alloc; false; 2 * town.streets.len()]?;
    let mut services = Vec::new(alloc);
    for step in steps {
        let arc = step
            .street
            .saturating_mul(2)
            .saturating_add(u32::from(step.back));
        if let Some(service) = service_at(town, *step, arc) {
            if mark(&mut done, service) {
                services.push(service)?;
            }
        }
    }
    Ok(services)
}

/// The service that a step may do.
fn service_at(town: &Town, step: Step, arc: u32) -> Option<Service> {
    let turned = if step.back {
        arc.saturating_sub(1)
    } else {
        arc.saturating_add(1)
    };
    let is_needed = match town.streets.as_slice().get(step.street as usize) {
        Some(street) => match street.need {
            Need::No => false,
            Need::Either | Need::Both => true,
            Need::Forward => !step.back,
            Need::Backward => step.back,
        },
        None => false,
    };
    if !is_needed {
        return None;
    }
    let other = if has_choice(town, step.street) {
        turned
    } else {
        arc
    };
    Some(Service { arc, other })
}

/// Whether a street may be served in either direction.
fn has_choice(town: &Town, street: u32) -> bool {
    match town.streets.as_slice().get(street as usize) {
        Some(street) => street.need == Need::Either,
        None => false,
    }
}

/// Marks the arcs of a service, and answers whether they weren't marked.
fn mark(done: &mut [bool], service: Service) -> bool {
    let is_first = !is_marked(done, service.arc) && !is_marked(done, service.other);
    set_mark(done, service.arc);
    set_mark(done, service.other);
    is_first
}

fn is_marked(done: &[bool], arc: u32) -> bool {
    match done.get(arc as usize) {
        Some(is) => *is,
        None => false,
    }
}

fn set_mark(done: &mut [bool], arc: u32) {
    if let Some(is) = done.get_mut(arc as usize) {
        *is = true;
    }
}

/// What it costs to go on from either arc of a service to either arc of the next, with that arc.
#[derive(Clone, Copy)]
struct Link {
    from_arc: Costs,
    from_other: Costs,
}

/// A cost for the arc of a service, and one for its other arc.
#[derive(Clone, Copy)]
struct Costs {
    arc: u64,
    other: u64,
}

/// The links between services, of which the last leads back to the first.
fn links_of(
    alloc: Global,
    town: &Town,
    distances: &Distances,
    services: &[Service],
) -> Result<Vec<Link>, AllocError> {
    let mut links = Vec::new(alloc);
    for at in 0..services.len() {
        let next = if at + 1 < services.len() {
            services[at + 1]
        } else {
            services[0]
        };
        links.push(Link {
            from_arc: costs_from(town, distances, services[at].arc, next),
            from_other: costs_from(town, distances, services[at].other, next),
        })?;
    }
    Ok(links)
}

/// What it costs to go on from an arc.
fn costs_from(town: &Town, distances: &Distances, arc: u32, next: Service) -> Costs {
    Costs {
        arc: distances.on(town, arc, next.arc),
        other: distances.on(town, arc, next.other),
    }
}

/// The services, in the directions that are best in this order.
fn chosen_services(
    alloc: Global,
    town: &Town,
    distances: &Distances,
    services: &[Service],
) -> Result<Vec<Service>, AllocError> {
    let links = links_of(alloc, town, distances, services)?;
    let straight = chosen(alloc, &links, false)?;
    let turned = chosen(alloc, &links, true)?;
    let best = if turned.cost < straight.cost {
        &turned
    } else {
        &straight
    };
    turned_services(alloc, services, &best.others)
}

/// Services, each turned where a choice says so.
fn turned_services(
    alloc: Global,
    services: &[Service],
    others: &[bool],
) -> Result<Vec<Service>, AllocError> {
    let mut turned = Vec::new(alloc);
    for (service, is_other) in services.iter().zip(others) {
        turned.push(if *is_other {
            service.turned()
        } else {
            *service
        })?;
    }
    Ok(turned)
}

impl Service {
    /// The same demand, served by the other arc.
    pub(crate) fn turned(self) -> Service {
        Service {
            arc: self.other,
            other: self.arc,
        }
    }
}

/// Directions of all services, and what the tour with them costs.
#[derive(Drop)]
struct Choice {
    cost: u64,
    others: Vec<bool>,
}

/// The best directions where that of the first service is given.
fn chosen(alloc: Global, links: &[Link], first: bool) -> Result<Choice, AllocError> {
    let mut costs = if first {
        Costs {
            arc: NONE,
            other: 0,
        }
    } else {
        Costs {
            arc: 0,
            other: NONE,
        }
    };
    let mut befores = Vec::new(alloc);
    for link in links {
        befores.push(best_before(costs, *link))?;
        costs = costs_after(costs, *link);
    }
    let mut others = Vec::new(alloc);
    let mut at = first;
    for step in befores.as_slice().iter().rev() {
        at = if at { step.other } else { step.arc };
        others.push(at)?;
    }
    others.reverse();
    let cost = if first { costs.other } else { costs.arc };
    Ok(Choice { cost, others })
}

/// Whether the best way to an arc, and to the other one, comes from the other arc before.
#[derive(Clone, Copy)]
struct Before {
    arc: bool,
    other: bool,
}

fn best_before(costs: Costs, link: Link) -> Before {
    Before {
        arc: costs.other.saturating_add(link.from_other.arc)
            < costs.arc.saturating_add(link.from_arc.arc),
        other: costs.other.saturating_add(link.from_other.other)
            < costs.arc.saturating_add(link.from_arc.other),
    }
}

fn costs_after(costs: Costs, link: Link) -> Costs {
    Costs {
        arc: costs
            .other
            .saturating_add(link.from_other.arc)
            .min(costs.arc.saturating_add(link.from_arc.arc)),
        other: costs
            .other
            .saturating_add(link.from_other.other)
            .min(costs.arc.saturating_add(link.from_arc.other)),
    }
}

/// The services in their order, with shortest walks between them.
fn rebuilt(alloc: Global, graph: &Graph, services: &[Service]) -> Result<List<Step>, AllocError> {
    let town = graph.town();
    let mut steps = Vec::new(alloc);
    for at in 0..services.len() {
        let arc = services[at].arc;
        let next = if at + 1 < services.len() {
            services[at + 1].arc
        } else {
            services[0].arc
        };
        steps.push(Step::along(arc))?;
        add_walk(alloc, graph, head(town, arc), tail(town, next), &mut steps)?;
    }
    Ok(List::from_vec(steps))
}

/// Adds a shortest walk.
fn add_walk(
    alloc: Global,
    graph: &Graph,
    from: u32,
    to: u32,
    steps: &mut Vec<Step>,
) -> Result<(), AllocError> {
    if let Some(ways) = Ways::from(alloc, graph, from)? {
        if let Some(walk) = ways.steps(to)? {
            steps.extend_from_slice(walk.as_slice())?;
        }
    }
    Ok(())
}
