//! The rows of a town before any cut: the balance of each junction, then each demand's service.
ghost use Rattle.std.specs.Prelude.{◌≡◌, ℕ, ◌+◌, ◌*◌, ◌<◌, [], ◌∷◌, ◌++◌, pos, map, length, IfOk, OnOk, slice_index_or};
ghost use Rattle.std.specs.List.{All, flat_map, range_with_len};
ghost use Rattle.wrp_town.specs.Streets.{demands_at};
ghost use Rattle.wrp_town.specs.Arcs.{arcs, demands};
ghost use Rattle.wrp_graph.specs.Sorted.{buckets_of};
ghost use Rattle.wrp_rules.specs.Rows.{balance_row, base_rows};
ghost use Rattle.wrp_rows.specs.Pools.{sparse_of};
ghost use Rattle.wrp_rows.specs.Sizes.{IsSmallRow};
ghost use Rattle.wrp_rows.specs.Base.{ends_at, star_row, demand_row};

use crate::table::Table;
use std::alloc::{AllocError, Global};
use wrp_graph::Buckets;
use wrp_town::{Need, Town};

/// The rows of a town before any cut.
pub(crate) fn base_rows(alloc: Global, town: &Town) -> Result<Table, AllocError>
    ensures rows { IfOk result (λ rows. rows ≡ map (sparse_of town.now) (base_rows town.now)) }
    ensures small { IfOk result (All (IsSmallRow (2 * length town.now.streets))) }
{
    let mut table = Table::new(alloc);
    let mut terms = Vec::new(alloc);
    let stars = stars(alloc, town)?;
    for junction in 0..town.junctions.len() as u32 {
        push_balance(
            &mut table,
            &mut terms,
            town,
            stars.bucket(junction as usize),
            junction,
        )?;
    }
    push_services(&mut table, &mut terms, town)?;
    Ok(table)
}

/// The legal arcs at each junction that are no loops, whether they leave or enter it.
fn stars(alloc: Global, town: &Town) -> Result<Buckets, AllocError>
    ensures { IfOk result (λ stars. stars
        ≡ buckets_of (length town.now.junctions) (flat_map (ends_at town.now) (arcs town.now))) }
{
    let mut ends = Vec::new(alloc);
    for arc in 0..2 * town.streets.len() as u32 {
        push_ends(&mut ends, town, arc)?;
    }
    Buckets::new(alloc, town.junctions.len(), ends.as_slice())
}

/// Adds the two ends of an arc, where it is legal and no loop.
fn push_ends(ends: &mut Vec<(u32, u32)>, town: &Town, arc: u32) -> Result<(), AllocError>
    requires { arc < 2 * length town.now.streets }
    ensures { OnOk result (ends.new.items ≡ ends.old.items ++ ends_at town.now arc) }
{
    let tail = town.tail(arc);
    let head = town.head(arc);
    if town.cost(arc).is_some() && tail != head {
        ends.push((tail, arc))?;
        ends.push((head, arc))?;
    }
    Ok(())
}

/// Adds the balance row of a junction, with the arcs of its star.
fn push_balance(
    table: &mut Table,
    terms: &mut Vec<(u32, i64)>,
    town: &Town,
    star: &[u32],
    junction: u32,
) -> Result<(), AllocError>
    requires { All (λ arc. arc < 2 * length town.now.streets) star.now }
    ensures { OnOk result (table.new ≡ table.old ++ star_row town.now junction star.now ∷ []) }
{
    terms.clear();
    for arc in star {
        let coef = if town.tail(*arc) == junction { 1 } else { -1 };
        terms.push((*arc, coef))?;
    }
    table.push(terms.as_slice(), 0)
}

/// Adds the service row of each demand.
fn push_services(
    table: &mut Table,
    terms: &mut Vec<(u32, i64)>,
    town: &Town,
) -> Result<(), AllocError>
    ensures { OnOk result (table.new
        ≡ table.old ++ map (demand_row town.now) (demands town.now)) }
{
    for (i, street) in town.streets.as_slice().iter().enumerate() {
        push_street(table, terms, town, i as u32, street.need)?;
    }
    Ok(())
}

/// Adds the service rows of a street.
fn push_street(
    table: &mut Table,
    terms: &mut Vec<(u32, i64)>,
    town: &Town,
    street: u32,
    need: Need,
) -> Result<(), AllocError>
    requires { street < length town.now.streets }
    ensures { OnOk result (table.new
        ≡ table.old ++ map (demand_row town.now) (demands_at street need)) }
{
    let forward = 2 * street;
    let backward = forward + 1;
    match need {
        Need::No => Ok(()),
        Need::Either => push_service(table, terms, town, [forward, backward].as_slice()),
        Need::Forward => push_service(table, terms, town, [forward].as_slice()),
        Need::Backward => push_service(table, terms, town, [backward].as_slice()),
        Need::Both => {
            push_service(table, terms, town, [forward].as_slice())?;
            push_service(table, terms, town, [backward].as_slice())
        }
    }
}

/// Adds the service row of a demand.
fn push_service(
    table: &mut Table,
    terms: &mut Vec<(u32, i64)>,
    town: &Town,
    demand: &[u32],
) -> Result<(), AllocError>
    requires { All (λ arc. arc < 2 * length town.now.streets) demand.now }
    ensures { OnOk result (table.new ≡ table.old ++ demand_row town.now demand.now ∷ []) }
{
    terms.clear();
    for arc in demand {
        if town.cost(*arc).is_some() {
            terms.push((*arc, 1))?;
        }
    }
    table.push(terms.as_slice(), 1)
}
