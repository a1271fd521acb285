//! Whether a point serves each demand.
ghost use Rattle.std.specs.Prelude.{◌≡◌, ◌<◌, ◌^◌, true, [], ◌∷◌, ◌++◌, length, map, OnOk, IfOk, slice_index};
ghost use Rattle.std.specs.List.{list_all, sum_by};
ghost use Rattle.wrp_town.specs.Streets.{demands_at};
ghost use Rattle.wrp_town.specs.Arcs.{demands};
ghost use Rattle.wrp_points.specs.Demands.{arcs_of, is_inside, AreSmall, is_met};

use std::alloc::{AllocError, Global};
use wrp_town::{List, Need, Town};

/// A demand: an arc, and where either direction will do, the other one.
#[derive(Clone, Copy, Debug, PartialEq, Eq)]
pub struct Demand {
    pub first: u16,
    pub other: Option<u16>,
}

/// The demands of a town, in order.
pub(crate) fn demand_list(alloc: Global, town: &Town) -> Result<List<Demand>, AllocError>
    ensures { IfOk result (λ list. map arcs_of list ≡ demands town.now) }
{
    let mut list = List::new(alloc);
    for (i, street) in town.streets.as_slice().iter().enumerate() {
        push_demands(&mut list, i as u32, street.need)?;
    }
    Ok(list)
}

/// Adds the demands of a street.
fn push_demands(list: &mut List<Demand>, street: u32, need: Need) -> Result<(), AllocError>
    requires { street < 2 ^ 15 }
    ensures { OnOk result (map arcs_of list.new ≡ map arcs_of list.old ++ demands_at street need) }
{
    let forward = 2 * street as u16;
    let backward = forward + 1;
    match need {
        Need::No => Ok(()),
        Need::Either => push_demand(list, forward, Some(backward)),
        Need::Forward => push_demand(list, forward, None),
        Need::Backward => push_demand(list, backward, None),
        Need::Both => {
            push_demand(list, forward, None)?;
            push_demand(list, backward, None)
        }
    }
}

/// Adds a demand.
fn push_demand(list: &mut List<Demand>, first: u16, other: Option<u16>) -> Result<(), AllocError>
    ensures { OnOk result (map arcs_of list.new
        ≡ map arcs_of list.old ++ arcs_of (record { first = first; other = other }) ∷ []) }
{
    list.push(Demand { first, other })?;
    Ok(())
}

/// The numbers of the arcs of a demand.
fn number_of(table: &[u128], demand: Demand) -> u128
    requires inside { is_inside (length table.now) (arcs_of demand) ≡ true }
    requires small { AreSmall table.now }
    ensures { result ≡ sum_by (slice_index table.now) (arcs_of demand) }
{
    let first = table[demand.first as usize];
    match demand.other {
        Some(other) => first + table[other as usize],
        None => first,
    }
}

/// Whether the numbers of each demand are at least the denominator.
pub(crate) fn meets_all(table: &[u128], denominator: u64, demands: &[Demand]) -> bool
    requires inside { list_all (is_inside (length table.now)) (map arcs_of demands.now) ≡ true }
    requires small { AreSmall table.now }
    ensures { result ≡ list_all (is_met table.now denominator) (map arcs_of demands.now) }
{
    for demand in demands {
        if number_of(table, *demand) < u128::from(denominator) {
            return false;
        }
    }
    true
}
