//! Makes a tour thinner: no arc is used more often than there are demands.
ghost use Rattle.std.specs.Prelude.{◌≡◌, ◌^◌, ◌<◌, ◌≤◌, ◌++◌, true, drop, take, length, IfOk, MatchOption};
ghost use Rattle.std.specs.List.{list_any};
ghost use Rattle.wrp_town.specs.Arcs.{demands};
ghost use Rattle.wrp_town.specs.Streets.{demands_at};
ghost use Rattle.wrp_town.specs.Walks.{is_tour, count_of};
ghost use Rattle.wrp_tour.specs.Tours.{UsesFew};
ghost use Rattle.wrp_tour.specs.Thinning.{IsThinner, IsPieceEnd, IsTurned, IsKept, IsFirstUse, is_new, adds_service};

use std::alloc::{AllocError, Global};
use wrp_town::{List, Need, Step, Town, serves};

/// A tour that costs no more than the given one and uses no arc more often, and none more often
/// than there are demands.
pub(crate) fn thinned(
    alloc: Global,
    town: &Town,
    steps: List<Step>,
) -> Result<List<Step>, AllocError>
    requires { is_tour town.now steps ≡ true }
    ensures thinner { IfOk result (λ new. IsThinner town.now steps new) }
    ensures few { IfOk result (λ new. UsesFew town.now new) }
{
    let mut thin = steps;
    for arc in 0..2 * town.streets.len() as u32 {
        thin = thinned_at(alloc, town, thin, arc)?;
    }
    Ok(thin)
}

/// The same for one arc.
fn thinned_at(
    alloc: Global,
    town: &Town,
    steps: List<Step>,
    arc: u32,
) -> Result<List<Step>, AllocError>
    requires { is_tour town.now steps ≡ true }
    ensures thinner { IfOk result (λ new. IsThinner town.now steps new) }
    ensures few { IfOk result (λ new. count_of new arc ≤ length (demands town.now)) }
{
    match first_use(steps.as_slice(), arc) {
        Some(at) => {
            let turned = turned_at(alloc, steps.as_slice(), at)?;
            Ok(List::from_vec(kept_pieces(alloc, town, &turned, arc)?))
        }
        None => Ok(steps),
    }
}

/// A place where an arc is used.
fn first_use(steps: &[Step], arc: u32) -> Option<usize>
    ensures { MatchOption result (count_of steps.now arc ≡ 0)
        (λ at. IsFirstUse steps.now arc at) }
{
    for (at, step) in steps.iter().enumerate() {
        if step.drives(arc) {
            return Some(at);
        }
    }
    None
}

/// The steps from a place on, and then those before it.
fn turned_at(alloc: Global, steps: &[Step], at: usize) -> Result<Vec<Step>, AllocError>
    requires { at < length steps.now }
    ensures { IfOk result (λ turned. turned.items ≡ drop at steps.now ++ take at steps.now) }
{
    let mut turned = steps[at..].to_vec(alloc)?;
    turned.extend_from_slice(&steps[..at])?;
    Ok(turned)
}

/// The pieces between uses of an arc, of which each is kept that serves a demand that those kept
/// before it don't.
fn kept_pieces(
    alloc: Global,
    town: &Town,
    steps: &[Step],
    arc: u32,
) -> Result<Vec<Step>, AllocError>
    requires { IsTurned town.now arc steps.now }
    ensures { IfOk result (λ kept. IsKept town.now arc steps.now (length steps.now) kept.items) }
{
    let mut kept = Vec::new(alloc);
    let mut start = 0;
    while start < steps.len() {
        let end = piece_end(steps, arc, start);
        if adds_service(town, &steps[start..end], &kept) {
            kept.extend_from_slice(&steps[start..end])?;
        }
        start = end;
    }
    Ok(kept)
}

/// Where the piece that starts at a place ends.
fn piece_end(steps: &[Step], arc: u32, start: usize) -> usize
    requires { start < length steps.now }
    ensures { IsPieceEnd steps.now arc start result }
{
    for at in start + 1..steps.len() {
        if steps[at].drives(arc) {
            return at;
        }
    }
    steps.len()
}

/// Whether a piece serves a demand that the steps kept so far don't.
fn adds_service(town: &Town, piece: &[Step], kept: &[Step]) -> bool
    ensures { result ≡ adds_service town.now piece.now kept.now }
{
    for (street, item) in town.streets.as_slice().iter().enumerate() {
        if adds_at(piece, kept, street as u32, item.need) {
            return true;
        }
    }
    false
}

/// The same for the demands of one street.
fn adds_at(piece: &[Step], kept: &[Step], street: u32, need: Need) -> bool
    requires { street < 2 ^ 31 }
    ensures { result ≡ list_any (is_new piece.now kept.now) (demands_at street need) }
{
    let forward = 2 * street;
    let backward = forward + 1;
    match need {
        Need::No => false,
        Need::Either => is_new(piece, kept, [forward, backward].as_slice()),
        Need::Forward => is_new(piece, kept, [forward].as_slice()),
        Need::Backward => is_new(piece, kept, [backward].as_slice()),
        Need::Both => {
            is_new(piece, kept, [forward].as_slice()) || is_new(piece, kept, [backward].as_slice())
        }
    }
}

/// Whether a piece serves a demand and the kept steps don't.
fn is_new(piece: &[Step], kept: &[Step], demand: &[u32]) -> bool
    ensures { result ≡ is_new piece.now kept.now demand.now }
{
    serves(piece, demand) && !serves(kept, demand)
}
