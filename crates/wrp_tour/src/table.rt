//! The distances between all junctions.
use crate::ways::{NONE, Ways, cost, head, tail};
use std::alloc::{AllocError, Global};
use wrp_graph::Graph;
use wrp_town::Town;

/// For each two junctions the cost of a shortest walk between them.
#[derive(Drop)]
pub(crate) struct Distances {
    count: u32,
    costs: Vec<u64>,
}

impl Distances {
    /// The distances of a town.
    pub(crate) fn of(alloc: Global, graph: &Graph) -> Result<Distances, AllocError> {
        let count = graph.town().junctions.len() as u32;
        let mut costs = Vec::new(alloc);
        for from in 0..count {
            push_costs(alloc, graph, from, count, &mut costs)?;
        }
        Ok(Distances { count, costs })
    }

    /// The cost of a walk from one junction to another.
    fn between(&self, from: u32, to: u32) -> u64 {
        if to >= self.count {
            return NONE;
        }
        let place = u64::from(from)
            .saturating_mul(u64::from(self.count))
            .saturating_add(u64::from(to));
        match self.costs.get(usize::try_from(place).unwrap_or(usize::MAX)) {
            Some(cost) => *cost,
            None => NONE,
        }
    }

    /// The cost of going on from one arc to another and driving that.
    pub(crate) fn on(&self, town: &Town, arc: u32, next: u32) -> u64 {
        self.between(head(town, arc), tail(town, next))
            .saturating_add(cost(town, next))
    }
}

/// Adds the distances from a junction.
fn push_costs(
    alloc: Global,
    graph: &Graph,
    from: u32,
    count: u32,
    costs: &mut Vec<u64>,
) -> Result<(), AllocError> {
    if let Some(ways) = Ways::from(alloc, graph, from)? {
        for to in 0..count {
            costs.push(ways.cost(to))?;
        }
    }
    Ok(())
}
