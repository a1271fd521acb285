//! How large a town is, and how many demands it makes.
ghost use Rattle.std.specs.Prelude.{◌≡◌, ℕ, ◌<◌, length};
ghost use Rattle.std.specs.List.{list_all};
ghost use Rattle.wrp_town.specs.Streets.{demands_at};
ghost use Rattle.wrp_town.specs.Arcs.{demands, is_small_cost, has_small_costs, is_small};

use crate::limits::{
    SMALL_COST_LIMIT, SMALL_DEMAND_LIMIT, SMALL_JUNCTION_LIMIT, SMALL_STREET_LIMIT,
};
use crate::street::{Need, Street};
use crate::town::Town;

impl Need {
    /// The number of demands that it makes of a street: 0, 1 or 2.
    pub fn demand_count(self) -> u32
        ensures count { (s : ℕ) → result ≡ length (demands_at s self) }
        ensures few { result < 3 }
    {
        match self {
            Need::No => 0,
            Need::Either | Need::Forward | Need::Backward => 1,
            Need::Both => 2,
        }
    }
}

/// The number of demands of a town.
pub fn demand_count(town: &Town) -> u32
    ensures { result ≡ length (demands town.now) }
{
    let mut count = 0;
    for street in town.streets.as_slice() {
        count += street.need.demand_count();
    }
    count
}

/// Whether the town is small: at most 500 junctions, 1,000 streets and 1,000 demands, and no cost
/// above 1,000,000.
pub fn small(town: &Town) -> bool
    ensures { result ≡ is_small town.now }
{
    town.junctions.len() <= SMALL_JUNCTION_LIMIT
        && town.streets.len() <= SMALL_STREET_LIMIT
        && demand_count(town) <= SMALL_DEMAND_LIMIT
        && have_small_costs(town.streets.as_slice())
}

fn have_small_costs(streets: &[Street]) -> bool
    ensures { result ≡ list_all has_small_costs streets.now }
{
    streets.iter().all(|street| is_small_cost(street.forward) && is_small_cost(street.backward))
}

// Whether a cost, where there is one, is within the limit of a small town.
fn is_small_cost(cost: Option<u32>) -> bool
    ensures { result ≡ is_small_cost cost }
{
    match cost {
        Some(cost) => cost <= SMALL_COST_LIMIT,
        None => true,
    }
}
