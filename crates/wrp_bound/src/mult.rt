//! Multipliers of rows that fit a record.
ghost use Rattle.std.specs.Prelude.{◌≡◌, ◌^◌, ◌<◌, ◌≤◌, ◌/◌, ◌≤ℤ◌, ◌<ℤ◌, pos, take, unsigned_abs, AllPairs, IfOk, OnOk};
ghost use Rattle.std.specs.List.{All};
ghost use Rattle.wrp_rules.specs.Ranges.{most_multipliers};
ghost use Rattle.wrp_bound.specs.Mults.{most_denominator, most_multiplier, greatest, scale_of, scaled, with_pair, HaveRowNumbers, IsInRanges, FitABound, IsSame, IsScaled};

use std::alloc::{AllocError, Global};
use wrp_rules::MOST_MULTIPLIERS;
use wrp_town::List;

/// The greatest denominator of a bound.
const MOST_DENOMINATOR: u128 = 1 << 40;

/// The greatest multiplier of a bound.
const MOST_MULTIPLIER: u128 = 1 << 60;

/// Multipliers of rows over a denominator, in the ranges of a bound.
#[derive(Debug, Drop)]
pub struct Mult {
    /// From 1 to 2^40.
    pub den: u64,
    /// At most 4,096 rows, ascending, each with a multiplier from 1 to 2^60.
    pub mult: List<(u32, u64)>,
}

/// Multipliers that fit a bound: those that are given without the zeros, where they fit. Else the
/// denominator and the multipliers are divided by one number and rounded down, and of more than
/// 4,096 the first are taken.
///
/// # Errors
///
/// Want of memory alone.
pub fn to_mult(alloc: Global, den: i128, mult: &[(u32, i128)]) -> Result<Mult, AllocError>
    requires positive { pos 0 <ℤ den }
    requires ascending { AllPairs (λ p q. p.0 < q.0) mult.now }
    requires not_negative { All (λ q. pos 0 ≤ℤ q.1) mult.now }
    ensures ranges { IfOk result IsInRanges }
    ensures exact { FitABound den mult.now → IfOk result (IsSame den mult.now) }
    ensures scaled { IfOk result
        (IsScaled den mult.now (scale_of (unsigned_abs den) (greatest mult.now))) }
{
    let den = den.unsigned_abs();
    let scale = scale_of(den, greatest(mult));
    let den = (den / scale).max(1) as u64;
    let mult = scaled(alloc, mult, scale)?;
    Ok(Mult { den, mult })
}

/// The greatest size of a multiplier.
fn greatest(mult: &[(u32, i128)]) -> u128
    ensures { result ≡ greatest mult.now }
{
    let mut most = 0u128;
    for pair in mult {
        most = most.max(pair.1.unsigned_abs());
    }
    most
}

/// By what to divide so that a denominator and multipliers fit: 1 where they do.
fn scale_of(den: u128, most: u128) -> u128
    ensures value { result ≡ scale_of den most }
    ensures positive { 0 < result }
    ensures den { den / result ≤ most_denominator }
    ensures most { most / result ≤ most_multiplier }
{
    if den <= MOST_DENOMINATOR && most <= MOST_MULTIPLIER {
        1
    } else {
        (den / MOST_DENOMINATOR).max(most / MOST_MULTIPLIER) + 1
    }
}

/// The multipliers divided by a number and rounded down, those that aren't 0, and of more than
/// 4,096 the first.
fn scaled(alloc: Global, mult: &[(u32, i128)], scale: u128) -> Result<List<(u32, u64)>, AllocError>
    requires positive { 0 < scale }
    requires light { All (λ q. unsigned_abs q.1 / scale ≤ most_multiplier) mult.now }
    ensures value { IfOk result (λ list. list ≡ take most_multipliers (scaled scale mult.now)) }
    ensures rows { IfOk result HaveRowNumbers }
{
    let mut list = List::new(alloc);
    for pair in mult {
        push(&mut list, pair.0, pair.1.unsigned_abs() / scale)?;
    }
    Ok(list)
}

/// Adds a row and its multiplier, where that isn't 0 and there is room for it.
fn push(list: &mut List<(u32, u64)>, row: u32, number: u128) -> Result<(), AllocError>
    requires { number ≤ most_multiplier }
    ensures value { OnOk result (list.new ≡ with_pair list.old (row, number)) }
    ensures rows { HaveRowNumbers list.old → OnOk result (HaveRowNumbers list.new) }
{
    if number != 0 && list.len() < MOST_MULTIPLIERS {
        list.push((row, number as u64))?;
    }
    Ok(())
}
