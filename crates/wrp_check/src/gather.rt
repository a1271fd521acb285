//! The lists of a line, gathered once for all rules that look at them.
ghost use Rattle.std.specs.Prelude.{◌≡◌, true, Ok, [], nat_lt, nat_le, length, IfOk};
ghost use Rattle.std.specs.List.{list_all};
ghost use Rattle.wrp_rules.specs.Rules.{all_below};
ghost use Rattle.wrp_check.specs.Gathered.{members_of};

use std::alloc::AllocError;
use wrp_pool::JunctionSet;
use wrp_proof::{NumbersOf, PairsOf};

/// Adds junctions to an empty set. False where one isn't there.
pub(crate) fn gather_set(
    set: &mut JunctionSet,
    junctions: &NumbersOf<'_>,
) -> Result<bool, AllocError>
    requires { set.old.set ≡ [] }
    ensures there { IfOk result (λ there. there ≡ all_below set.old.among junctions.now) }
    ensures set { result ≡ Ok true → set.new ≡ members_of set.old.among junctions.now }
{
    let mut ahead = junctions.again();
    while let Some(junction) = ahead.next() {
        if junction as usize >= set.among() {
            return Ok(false);
        }
        set.add(junction)?;
    }
    Ok(true)
}

/// Puts numbers into a vector, in place of what was there. False where they are more than `most`.
pub(crate) fn gather_numbers(
    into: &mut Vec<u32>,
    numbers: &NumbersOf<'_>,
    most: usize,
) -> Result<bool, AllocError>
    ensures few { IfOk result (λ few. few ≡ nat_le (length numbers.now) most) }
    ensures items { result ≡ Ok true → into.new.items ≡ numbers.now }
{
    into.clear();
    let mut ahead = numbers.again();
    while let Some(number) = ahead.next() {
        if into.len() >= most {
            return Ok(false);
        }
        into.push(number)?;
    }
    Ok(true)
}

/// Puts pairs into a vector, in place of what was there. False where a first number isn't below a
/// limit.
pub(crate) fn gather_pairs(
    into: &mut Vec<(u32, u128)>,
    pairs: &PairsOf<'_>,
    limit: usize,
) -> Result<bool, AllocError>
    ensures below { IfOk result (λ below. below ≡ list_all (λ q. nat_lt q.0 limit) pairs.now) }
    ensures items { result ≡ Ok true → into.new.items ≡ pairs.now }
{
    into.clear();
    let mut ahead = pairs.again();
    while let Some(pair) = ahead.next() {
        if pair.0 as usize >= limit {
            return Ok(false);
        }
        into.push(pair)?;
    }
    Ok(true)
}
