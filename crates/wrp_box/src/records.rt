//! Records of what a relaxation shows of its node.
ghost use Rattle.std.specs.Prelude.{◌≡◌, ℕ, ◌<◌, ◌^◌, pos, ◌≤ℤ◌, length, IfOk, OnOk};
ghost use Rattle.wrp_town.specs.declared.town.Town.{Town};
ghost use Rattle.wrp_rows.specs.declared.point.Bounds.{Bounds};
ghost use Rattle.wrp_rows.specs.Pools.{RowPool};
ghost use Rattle.wrp_rows.specs.Points.{IsPoint, most_denominator};
ghost use Rattle.wrp_odd.specs.Points.{HasNumbers, denominator_of, numbers_of};
ghost use Rattle.wrp_box.specs.Relaxing.{IsRelaxed};
ghost use Rattle.wrp_box.specs.Records.{IsShown};
ghost use Rattle.wrp_box.specs.Points.{IsPointRecord, with_number};

use std::alloc::{AllocError, Global};
use wrp_bound::to_mult;
use wrp_lp::Lp;
use wrp_odd::denominator;
use wrp_rows::Point;
use wrp_rules::Record;
use wrp_town::List;

/// The record of what an answer shows of its node: a bound, or that no tour is within. None where it
/// ended early.
///
/// # Errors
///
/// Want of memory alone.
pub fn shown_record(alloc: Global, node: u64, lp: &Lp) -> Result<Option<Record>, AllocError>
    requires relaxed { (pool : RowPool) × (bounds : Bounds) × (pivots : ℕ)
        × IsRelaxed pool bounds pivots lp.now }
    requires small { node < 2 ^ 63 }
    ensures { IfOk result (IsShown node lp.now) }
{
    match lp {
        Lp::Optimal { point, mult, .. } => {
            let fitted = to_mult(alloc, point.den, mult.as_slice())?;
            Ok(Some(Record::Bound {
                node,
                den: fitted.den,
                mult: fitted.mult,
            }))
        }
        Lp::Empty { mult, .. } => {
            let fitted = to_mult(alloc, 1, mult.as_slice())?;
            Ok(Some(Record::Empty {
                node,
                mult: fitted.mult,
            }))
        }
        Lp::Wide { .. } | Lp::Pivots { .. } => Ok(None),
    }
}

/// The record of a point of a node.
///
/// # Errors
///
/// Want of memory alone.
pub fn point_record(alloc: Global, node: u64, point: &Point) -> Result<Record, AllocError>
    requires point { (town : Town) × IsPoint town point.now }
    requires numbers { HasNumbers point.now }
    requires small { node < 2 ^ 63 }
    ensures { IfOk result (IsPointRecord node point.now) }
{
    let mut numbers = List::new(alloc);
    for arc in 0..point.at.len() as u32 {
        add_number(&mut numbers, arc, number_of(point, arc))?;
    }
    Ok(Record::Point {
        node,
        den: den_of(point),
        numbers,
    })
}

/// Adds an arc and its number, where that isn't 0.
fn add_number(numbers: &mut List<(u32, u128)>, arc: u32, number: u128) -> Result<(), AllocError>
    ensures { OnOk result (numbers.new ≡ with_number numbers.old (arc, number)) }
{
    if number != 0 {
        numbers.push((arc, number))?;
    }
    Ok(())
}

/// The number of an arc.
fn number_of(point: &Point, arc: u32) -> u128
    requires { arc < length point.now.at }
    ensures { result ≡ numbers_of point.now arc }
{
    point.at.as_slice()[arc as usize].unsigned_abs()
}

/// The denominator of a point.
fn den_of(point: &Point) -> u64
    requires positive { pos 1 ≤ℤ point.now.den }
    requires low { point.now.den ≤ℤ pos most_denominator }
    ensures { result ≡ denominator_of point.now }
{
    denominator(point) as u64
}
