//! The Round form of odd cuts.
ghost use Rattle.std.specs.Prelude.{◌≡◌, ℕ, ◌+◌, ◌*◌, ◌^◌, ◌<◌, true, List as Many, ◌++◌, length, IfOk, OnOk};
ghost use Rattle.std.specs.List.{range_with_len};
ghost use Rattle.wrp_town.specs.Arcs.{demands};
ghost use Rattle.wrp_rules.specs.Sets.{crosses};
ghost use Rattle.wrp_rules.specs.Rules.{all_below};
ghost use Rattle.wrp_rules.specs.Nodes.{Standing};
ghost use Rattle.wrp_rows.specs.declared.point.Point.{Point as APoint};
ghost use Rattle.wrp_rows.specs.Marks.{AreMarks};
ghost use Rattle.wrp_rows.specs.Points.{IsPoint};
ghost use Rattle.wrp_webs.specs.TownWebs.{IsBalanced};
ghost use Rattle.wrp_odd.specs.Points.{numbers_of};
ghost use Rattle.wrp_odd.specs.Found.{IsBrokenOddCut, set_of};
ghost use Rattle.wrp_round.specs.OddForms.{crossing_rows, form_rows as the_rows, ones as the_ones, odd_form, HasBaseRows, IsBrokenCut, IsOddCut};

use std::alloc::{AllocError, Global};
use wrp_rows::Rows;
use wrp_rules::{MOST_MULTIPLIERS, Record};
use wrp_town::{List, Town};

/// An odd cut in its Round form: the balance rows of the set's junctions and the service rows of
/// the demands that cross it, halved. It has half the terms, the arcs that leave the set. The Odd
/// record itself, where that would have more than 4,096 multipliers.
///
/// # Errors
///
/// Want of memory alone.
pub fn round_of_odd(alloc: Global, rows: &Rows<'_>, item: Record) -> Result<Record, AllocError>
    requires { IsOddCut rows.now.town item }
    ensures form { IfOk result (λ form. form ≡ odd_form rows.now.town (set_of item)) }
    ensures broken { (s : Standing) (point : APoint) → HasBaseRows rows.now.town s
        → IsPoint rows.now.town point → IsBalanced rows.now.town (numbers_of point)
        → IsBrokenOddCut rows.now.town point item
        → IfOk result (IsBrokenCut rows.now.town s point) }
{
    match item {
        Record::Odd { set } => form_of(alloc, rows.town(), set),
        _ => unreachable!(),
    }
}

/// The same for a set.
fn form_of(alloc: Global, town: &Town, set: List<u32>) -> Result<Record, AllocError>
    requires { all_below (length town.now.junctions) set ≡ true }
    ensures { IfOk result (λ form. form ≡ odd_form town.now set) }
{
    let rows = form_rows(alloc, town, set.as_slice())?;
    if rows.len() > MOST_MULTIPLIERS {
        return Ok(Record::Odd { set });
    }
    let mult = List::from_vec(ones(alloc, rows.as_slice())?);
    Ok(Record::Round { divisor: 2, mult })
}

/// Each row with the multiplier 1.
fn ones(alloc: Global, rows: &[u32]) -> Result<Vec<(u32, u64)>, AllocError>
    ensures { IfOk result (λ pairs. pairs.items ≡ the_ones rows.now) }
{
    rows.iter().map(|row| (*row, 1)).collect(alloc)
}

/// The balance rows of a set's junctions, and the service rows of the demands that cross it.
fn form_rows(alloc: Global, town: &Town, set: &[u32]) -> Result<Vec<u32>, AllocError>
    requires { all_below (length town.now.junctions) set.now ≡ true }
    ensures { IfOk result (λ rows. rows.items ≡ the_rows town.now set.now) }
{
    let marks = marks_of(alloc, town.junctions.len(), set)?;
    let mut rows = Vec::from_slice(alloc, set)?;
    push_crossing(town, marks.as_slice(), &mut rows)?;
    Ok(rows)
}

/// Marks of the junctions of a set.
fn marks_of(alloc: Global, count: usize, set: &[u32]) -> Result<Vec<bool>, AllocError>
    requires { all_below count set.now ≡ true }
    ensures marks { IfOk result (λ marks. AreMarks set.now marks.items) }
    ensures long { IfOk result (λ marks. length marks.items ≡ count) }
{
    let mut marks = vec![in alloc; false; count]?;
    for junction in set {
        marks[*junction as usize] = true;
    }
    Ok(marks)
}

/// Adds the service rows of the demands that cross the marked set.
fn push_crossing(town: &Town, marks: &[bool], rows: &mut Vec<u32>) -> Result<(), AllocError>
    requires { length marks.now ≡ length town.now.junctions }
    ensures { (set : Many ℕ) → AreMarks set marks.now → OnOk result (rows.new.items
        ≡ rows.old.items
        ++ crossing_rows town.now set (length town.now.junctions) (demands town.now)) }
{
    let mut first = town.junctions.len() as u32;
    for (i, street) in town.streets.as_slice().iter().enumerate() {
        let count = street.need.demand_count();
        if is_crossing(town, marks, 2 * i as u32) {
            push_numbers(rows, first, count)?;
        }
        first += count;
    }
    Ok(())
}

/// Whether an arc has one end that is marked and one that isn't.
fn is_crossing(town: &Town, marks: &[bool], arc: u32) -> bool
    requires marks { length marks.now ≡ length town.now.junctions }
    requires arc { arc < 2 * length town.now.streets }
    ensures { (set : Many ℕ) → AreMarks set marks.now → result ≡ crosses town.now set arc }
{
    let tail = marks[town.tail(arc) as usize];
    let head = marks[town.head(arc) as usize];
    (tail && !head) || (!tail && head)
}

/// Adds so many numbers from the first on.
fn push_numbers(rows: &mut Vec<u32>, first: u32, count: u32) -> Result<(), AllocError>
    requires { first + count < 2 ^ 32 }
    ensures { OnOk result (rows.new.items ≡ rows.old.items ++ range_with_len first count) }
{
    for number in first..first + count {
        rows.push(number)?;
    }
    Ok(())
}
