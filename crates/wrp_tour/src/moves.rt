//! Services that move to another place in their order, where that costs less.
ghost use Rattle.std.specs.Prelude.{◌<◌, vec_len};

use crate::order::Service;
use crate::table::Distances;
use std::alloc::{AllocError, Global};
use wrp_town::Town;

/// How often each service is tried.
const PASSES: usize = 2;

/// A place in an order, behind the service there, and how a service goes there.
#[derive(Clone, Copy)]
struct Place {
    behind: usize,
    service: Service,
    cost: u64,
}

/// Services in an order in which single ones have moved.
pub(crate) fn moved(
    alloc: Global,
    town: &Town,
    distances: &Distances,
    services: &[Service],
) -> Result<Vec<Service>, AllocError> {
    let mut order = services.to_vec(alloc)?;
    for _ in 0..PASSES {
        move_each(town, distances, &mut order)?;
    }
    Ok(order)
}

/// Tries each service once.
fn move_each(
    town: &Town,
    distances: &Distances,
    order: &mut Vec<Service>,
) -> Result<(), AllocError> {
    for at in 0..order.len() {
        if at < order.len() && order.len() > 2 {
            move_one(town, distances, order, at)?;
        }
    }
    Ok(())
}

/// Takes a service out of the order and puts it where it costs least.
fn move_one(
    town: &Town,
    distances: &Distances,
    order: &mut Vec<Service>,
    at: usize,
) -> Result<(), AllocError>
    requires { at < vec_len order.old }
{
    let service = order.remove(at);
    let before = at.saturating_sub(1);
    let mut best = place_behind(town, distances, order, before, service);
    if at == 0 {
        best = place_behind(
            town,
            distances,
            order,
            order.len().saturating_sub(1),
            service,
        );
    }
    for behind in 0..order.len() {
        best = cheaper(best, place_behind(town, distances, order, behind, service));
        best = cheaper(
            best,
            place_behind(town, distances, order, behind, service.turned()),
        );
    }
    let to = best.behind.saturating_add(1).min(order.len());
    order.insert(to, best.service)?;
    Ok(())
}

/// The place of less cost, the first where they cost the same.
fn cheaper(first: Place, second: Place) -> Place {
    if second.cost < first.cost {
        second
    } else {
        first
    }
}

/// What it costs more to go by a service between one place and the next.
fn place_behind(
    town: &Town,
    distances: &Distances,
    order: &[Service],
    behind: usize,
    service: Service,
) -> Place {
    let (from, to) = match (order.get(behind), next_of(order, behind)) {
        (Some(from), Some(to)) => (from.arc, to.arc),
        _ => (service.arc, service.arc),
    };
    let by = distances
        .on(town, from, service.arc)
        .saturating_add(distances.on(town, service.arc, to));
    Place {
        behind,
        service,
        cost: by.saturating_sub(distances.on(town, from, to)),
    }
}

/// The service behind one, the first behind the last.
fn next_of(order: &[Service], at: usize) -> Option<&Service> {
    if at.saturating_add(1) < order.len() {
        order.get(at.saturating_add(1))
    } else {
        order.get(0)
    }
}
