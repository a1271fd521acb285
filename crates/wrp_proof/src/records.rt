//! Records with lists of their own, made from views.
ghost use Rattle.std.specs.Prelude.{◌≡◌, true, IfOk};
ghost use Rattle.wrp_proof.specs.Views.{record_of, are_narrow, has_narrow_multipliers};

use crate::views::View;
use std::alloc::{AllocError, Global};
use wrp_grammar::{NumbersOf, PairsOf, StepsOf};
use wrp_rules::Record;
use wrp_town::{List, Step};

/// The record with the fields and the lists of a view.
///
/// # Errors
///
/// Want of memory alone.
pub fn to_record(alloc: Global, view: &View<'_>) -> Result<Record, AllocError>
    requires { has_narrow_multipliers (record_of view.now) ≡ true }
    ensures { IfOk result (λ item. item ≡ record_of view.now) }
{
    match view {
        View::Tour { cost, steps } => Ok(Record::Tour {
            cost: *cost,
            steps: list_of_steps(alloc, steps)?,
        }),
        View::Conn { r1, r2, set } => Ok(Record::Conn {
            r1: *r1,
            r2: *r2,
            set: list_of_numbers(alloc, set)?,
        }),
        View::Odd { set } => Ok(Record::Odd {
            set: list_of_numbers(alloc, set)?,
        }),
        View::Round { divisor, mult } => Ok(Record::Round {
            divisor: *divisor,
            mult: list_of_multipliers(alloc, mult)?,
        }),
        View::Kc { k, of } => Ok(Record::Kc {
            k: *k,
            of: list_of_numbers(alloc, of)?,
        }),
        View::Bound { node, den, mult } => Ok(Record::Bound {
            node: *node,
            den: *den,
            mult: list_of_multipliers(alloc, mult)?,
        }),
        View::Empty { node, mult } => Ok(Record::Empty {
            node: *node,
            mult: list_of_multipliers(alloc, mult)?,
        }),
        View::Apart { node, r1, r2, set } => Ok(Record::Apart {
            node: *node,
            r1: *r1,
            r2: *r2,
            set: list_of_numbers(alloc, set)?,
        }),
        View::Point { node, den, numbers } => Ok(Record::Point {
            node: *node,
            den: *den,
            numbers: list_of_pairs(alloc, numbers)?,
        }),
        View::Blind { node } => Ok(Record::Blind { node: *node }),
        View::Split { node, arc, k } => Ok(Record::Split {
            node: *node,
            arc: *arc,
            k: *k,
        }),
        View::Labels { labels, streets } => Ok(Record::Labels {
            labels: list_of_numbers(alloc, labels)?,
            streets: list_of_numbers(alloc, streets)?,
        }),
    }
}

/// The list of the steps that are left.
fn list_of_steps(alloc: Global, steps: &StepsOf<'_>) -> Result<List<Step>, AllocError>
    ensures { IfOk result (λ list. list ≡ steps.now) }
{
    match steps.again().collect(alloc) {
        Ok(steps) => Ok(List::from_vec(steps)),
        Err(fault) => Err(fault),
    }
}

/// The list of the numbers that are left.
fn list_of_numbers(alloc: Global, numbers: &NumbersOf<'_>) -> Result<List<u32>, AllocError>
    ensures { IfOk result (λ list. list ≡ numbers.now) }
{
    match numbers.again().collect(alloc) {
        Ok(numbers) => Ok(List::from_vec(numbers)),
        Err(fault) => Err(fault),
    }
}

/// The list of the pairs that are left.
fn list_of_pairs(alloc: Global, pairs: &PairsOf<'_>) -> Result<List<(u32, u128)>, AllocError>
    ensures { IfOk result (λ list. list ≡ pairs.now) }
{
    match pairs.again().collect(alloc) {
        Ok(pairs) => Ok(List::from_vec(pairs)),
        Err(fault) => Err(fault),
    }
}

/// The list of the multipliers that are left.
fn list_of_multipliers(alloc: Global, pairs: &PairsOf<'_>) -> Result<List<(u32, u64)>, AllocError>
    requires { are_narrow pairs.now ≡ true }
    ensures { IfOk result (λ list. list ≡ pairs.now) }
{
    let mut list = List::new(alloc);
    for (row, weight) in pairs.again() {
        list.push((row, weight as u64))?;
    }
    Ok(list)
}
