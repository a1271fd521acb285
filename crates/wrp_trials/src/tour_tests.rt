//! What no clause says: what tours that are read off points cost on a worked town.

use crate::points::{is_point, point_of};
use crate::towns::APART;
use std::alloc::{AllocError, Global};
use std::test::Fail;
use wrp_graph::Graph;
use wrp_parts::required_parts;
use wrp_point_tour::tour_of_point;
use wrp_reach::{Reach, labels};
use wrp_rows::Point;
use wrp_street::{List, Step, Town, read_town, walk_cost};

/// The tour of a point; nothing where a town has no tour, or these numbers are no point.
fn tour_of(
    alloc: Global,
    graph: &Graph<'_>,
    point: &Point,
) -> Result<Option<List<Step>>, AllocError> {
    if !is_point(graph.town(), point) {
        return Ok(None);
    }
    match labels(alloc, graph)? {
        Reach::Joined { .. } => {
            let parts = required_parts(alloc, graph)?;
            let steps = tour_of_point(alloc, graph, &parts, point)?;
            Ok(Some(steps))
        }
        Reach::Split { .. } => Ok(None),
    }
}

/// What the tour of a point costs.
fn tour_cost(alloc: Global, town: &Town, point: &Point) -> Result<Option<u64>, AllocError> {
    let graph = Graph::new(alloc, town)?;
    let steps = tour_of(alloc, &graph, point)?;
    Ok(cost_of(town, steps))
}

/// What a short tour costs.
fn cost_of(town: &Town, steps: Option<List<Step>>) -> Option<u64> {
    let steps = steps?;
    if steps.len() > 1000 {
        return None;
    }
    walk_cost(town, steps.as_slice())
}

/// Denominators and numbers of points at which the tour costs 9: whole points, the second with a
/// further piece, and others.
const POINTS: [(i128, [i128; 10]); 4] = [
    (1, [2, 0, 1, 0, 1, 0, 1, 0, 0, 0]),
    (3, [6, 0, 3, 0, 3, 0, 3, 0, 3, 3]),
    (2, [3, 0, 2, 0, 2, 0, 1, 0, 1, 1]),
    (2, [0, 0, 0, 0, 0, 0, 0, 0, 0, 0]),
];

#[test]
fn points_lead_to_tours(rt: HostRuntime) -> Result<(), Fail> {
    let town = read_town(rt.alloc(), APART)?;
    for (den, numbers) in &POINTS {
        let point = point_of(rt.alloc(), *den, numbers.as_slice())?;
        assert!(rt;
            tour_cost(rt.alloc(), &town, &point)? == Some(9),
            "over {den}"
        );
    }
    Ok(())
}
