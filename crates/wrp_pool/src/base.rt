//! The rows before any cut: the balance of each junction, then the service of each demand.
ghost use Rattle.std.specs.Prelude.{◌≡◌, ◌+◌, ◌*◌, ◌<◌, ◌∷◌, [], ◌++◌, replicate, map, length, slice_set, IfOk, OnOk};
ghost use Rattle.std.specs.List.{All};
ghost use Rattle.wrp_town.specs.Streets.{demands_at};
ghost use Rattle.wrp_town.specs.Arcs.{demands};
ghost use Rattle.wrp_rules.specs.Rows.{base_rows};
ghost use Rattle.wrp_pool.specs.Pools.{Holds};
ghost use Rattle.wrp_pool.specs.Sparse.{bare_row, row_in, with_term, sparse_service, AreBalancesBelow};

use crate::row::{Pool, SparseRow};
use std::alloc::{AllocError, Global};
use wrp_town::{List, Need, Town};

impl Pool {
    /// The rows of a town before any cut.
    ///
    /// # Errors
    ///
    /// Want of memory alone.
    pub fn new(alloc: Global, town: &Town) -> Result<Pool, AllocError>
        ensures { IfOk result (λ pool. Holds town.now pool (base_rows town.now)) }
    {
        let mut rows = balance_rows(alloc, town)?;
        push_services(alloc, town, &mut rows)?;
        Ok(Pool {
            rows: List::from_vec(rows),
        })
    }
}

/// Rows with no terms.
fn bare_rows(alloc: Global, count: usize) -> Result<Vec<SparseRow>, AllocError>
    ensures { IfOk result (λ rows. rows.items ≡ replicate count bare_row) }
{
    let mut rows = Vec::new(alloc);
    for _ in 0..count {
        rows.push(SparseRow {
            terms: List::new(alloc),
            right_side: 0,
        })?;
    }
    Ok(rows)
}

/// The balance row of each junction.
fn balance_rows(alloc: Global, town: &Town) -> Result<Vec<SparseRow>, AllocError>
    ensures { IfOk result (λ rows. AreBalancesBelow town.now (2 * length town.now.streets)
        rows.items) }
{
    let mut rows = bare_rows(alloc, town.junctions.len())?;
    let arcs = 2 * town.streets.len() as u32;
    for arc in 0..arcs {
        push_arc(&mut rows, town, arc)?;
    }
    Ok(rows)
}

/// Adds an arc to the rows of the two junctions that it joins, where it is legal and no loop.
#[tactic(auto, using(wrp_town::proofs::TownLaws::few_streets))]
fn push_arc(rows: &mut [SparseRow], town: &Town, arc: u32) -> Result<(), AllocError>
    requires below { arc < 2 * length town.now.streets }
    requires before { AreBalancesBelow town.now arc rows.old }
    ensures { OnOk result (AreBalancesBelow town.now (arc + 1) rows.new) }
{
    if town.cost(arc).is_none() {
        return Ok(());
    }
    let tail = town.tail(arc);
    let head = town.head(arc);
    if tail == head {
        return Ok(());
    }
    push_term(rows, tail, arc as u16, 1)?;
    push_term(rows, head, arc as u16, -1)
}

/// Adds a term to a row.
fn push_term(rows: &mut [SparseRow], at: u32, arc: u16, coef: i32) -> Result<(), AllocError>
    requires { at < length rows.old }
    ensures { OnOk result (rows.new
        ≡ slice_set rows.old at (with_term (row_in rows.old at) (arc, coef))) }
{
    let row = &mut rows[at as usize];
    row.terms.push((arc, coef))?;
    Ok(())
}

/// Adds the service row of each demand.
fn push_services(alloc: Global, town: &Town, rows: &mut Vec<SparseRow>) -> Result<(), AllocError>
    ensures { OnOk result (rows.new.items
        ≡ rows.old.items ++ map (sparse_service town.now) (demands town.now)) }
{
    for (i, street) in town.streets.as_slice().iter().enumerate() {
        push_street(alloc, town, rows, i as u32, street.need)?;
    }
    Ok(())
}

/// Adds the service rows of a street.
fn push_street(
    alloc: Global,
    town: &Town,
    rows: &mut Vec<SparseRow>,
    street: u32,
    need: Need,
) -> Result<(), AllocError>
    requires { street < length town.now.streets }
    ensures { OnOk result (rows.new.items
        ≡ rows.old.items ++ map (sparse_service town.now) (demands_at street need)) }
{
    let forward = 2 * street;
    let backward = forward + 1;
    match need {
        Need::No => Ok(()),
        Need::Either => push_service(alloc, town, rows, [forward, backward].as_slice()),
        Need::Forward => push_service(alloc, town, rows, [forward].as_slice()),
        Need::Backward => push_service(alloc, town, rows, [backward].as_slice()),
        Need::Both => {
            push_service(alloc, town, rows, [forward].as_slice())?;
            push_service(alloc, town, rows, [backward].as_slice())
        }
    }
}

/// Adds the service row of a demand.
fn push_service(
    alloc: Global,
    town: &Town,
    rows: &mut Vec<SparseRow>,
    demand: &[u32],
) -> Result<(), AllocError>
    requires { All (λ arc. arc < 2 * length town.now.streets) demand.now }
    ensures { OnOk result (rows.new.items
        ≡ rows.old.items ++ sparse_service town.now demand.now ∷ []) }
{
    let terms = service_terms(alloc, town, demand)?;
    rows.push(SparseRow {
        terms,
        right_side: 1,
    })?;
    Ok(())
}

/// The terms of a demand: 1 on each of its legal arcs.
#[tactic(auto, using(wrp_town::proofs::TownLaws::few_streets))]
fn service_terms(alloc: Global, town: &Town, demand: &[u32]) -> Result<List<(u16, i32)>, AllocError>
    requires { All (λ arc. arc < 2 * length town.now.streets) demand.now }
    ensures { IfOk result (λ terms. terms ≡ (sparse_service town.now demand.now).terms) }
{
    let mut terms = List::new(alloc);
    for arc in demand {
        if town.cost(*arc).is_some() {
            terms.push((*arc as u16, 1))?;
        }
    }
    Ok(terms)
}
