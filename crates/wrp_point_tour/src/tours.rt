//! The tour of a point.
ghost use Rattle.std.specs.Prelude.{◌≡◌, [], length, IfOk};
ghost use Rattle.wrp_town.specs.Arcs.{demands};
ghost use Rattle.wrp_tour.specs.Tours.{HasTour, IsLeanTour};
ghost use Rattle.wrp_rows.specs.Points.{IsPoint};
ghost use Rattle.wrp_point_tour.specs.PointTours.{IsTourPoint, CostsAtMost};

use crate::near::tour_near;
use crate::whole::whole_tour;
use std::alloc::{AllocError, Global};
use wrp_graph::Graph;
use wrp_parts::Parts;
use wrp_rows::Point;
use wrp_tour::first_tour;
use wrp_town::{List, Step, demand_count};

/// A tour of a town that has one, read off a point. It uses no arc more often than there are
/// demands, and has no steps where there is none.
///
/// Where the numbers of the point are whole, balanced, serve each demand and meet the connectivity
/// rows, the tour costs no more than the point.
///
/// # Errors
///
/// Want of memory alone.
pub fn tour_of_point(
    alloc: Global,
    graph: &Graph,
    parts: &Parts,
    point: &Point,
) -> Result<List<Step>, AllocError>
    requires tour { HasTour graph.now }
    requires point { IsPoint graph.now point.now }
    ensures lean { IfOk result (λ steps. IsLeanTour graph.now steps) }
    ensures none { IfOk result (λ steps. length (demands graph.now) ≡ 0 → steps ≡ []) }
    ensures whole { IfOk result (λ steps. IsTourPoint graph.now point.now
        → CostsAtMost graph.now point.now steps) }
{
    if demand_count(graph.town()) == 0 {
        return Ok(List::new(alloc));
    }
    if let Some(steps) = whole_tour(alloc, graph, point)? {
        return Ok(steps);
    }
    if let Some(steps) = tour_near(alloc, graph, point)? {
        return Ok(steps);
    }
    first_tour(alloc, graph, parts)
}
