//! Sets of junctions as bits, and by plain enumeration which of them cut a point off.

use wrp_rows::Point;
use wrp_street::{Street, Town};

/// Whether a junction is in a set.
fn holds(set: u32, junction: u32) -> bool {
    set.wrapping_shr(junction) & 1 == 1
}

/// The bits of a set.
pub(crate) fn bits_of(set: &[u32]) -> u32 {
    set.iter()
        .fold(0, |bits, junction| bits | 1u32.wrapping_shl(*junction))
}

/// The number of an arc.
fn number_at(point: &Point, arc: usize) -> i128 {
    point.at.as_slice().get(arc).copied().unwrap_or(0)
}

/// The numbers of the arcs of a street, one way and the other.
pub(crate) fn numbers_of(point: &Point, street: usize) -> (i128, i128) {
    let first = street.wrapping_mul(2);
    (
        number_at(point, first),
        number_at(point, first.wrapping_add(1)),
    )
}

/// Whether a street has one end in a set.
fn crosses(set: u32, street: &Street) -> bool {
    holds(set, street.from) != holds(set, street.to)
}

/// Whether a street has a demand, and both ends in a set.
fn is_required_in(set: u32, street: &Street) -> bool {
    street.need.demand_count() > 0 && holds(set, street.from) && holds(set, street.to)
}

/// The same of a street by its number.
pub(crate) fn lies_in(town: &Town, street: u32, set: u32) -> bool {
    match town.streets.as_slice().get(street as usize) {
        Some(street) => is_required_in(set, street),
        None => false,
    }
}

/// Whether an odd number of demands cross a set, and the streets that cross it are driven less
/// often than once more.
pub(crate) fn breaks_odd(town: &Town, point: &Point, set: u32) -> bool {
    let mut demands = 0u32;
    let mut sum = 0i128;
    for (s, street) in town.streets.as_slice().iter().enumerate() {
        if crosses(set, street) {
            let (forward, backward) = numbers_of(point, s);
            demands = demands.saturating_add(street.need.demand_count());
            sum = sum.saturating_add(forward).saturating_add(backward);
        }
    }
    let least = i128::from(demands)
        .saturating_add(1)
        .saturating_mul(point.den);
    demands % 2 == 1 && sum < least
}

/// Whether required streets lie in a set and outside, none crosses it, and it is left less often
/// than once.
pub(crate) fn breaks_conn(town: &Town, point: &Point, set: u32) -> bool {
    parts(town, set) && leaving(town, point, set) < point.den
}

/// Whether required streets lie in a set and outside, and none crosses it.
fn parts(town: &Town, set: u32) -> bool {
    let mut inside = false;
    let mut outside = false;
    for street in town.streets.as_slice() {
        if street.need.demand_count() > 0 {
            match (holds(set, street.from), holds(set, street.to)) {
                (true, true) => inside = true,
                (false, false) => outside = true,
                _ => return false,
            }
        }
    }
    inside && outside
}

/// How often a set is left.
fn leaving(town: &Town, point: &Point, set: u32) -> i128 {
    let mut sum = 0i128;
    for (s, street) in town.streets.as_slice().iter().enumerate() {
        let (forward, backward) = numbers_of(point, s);
        let own = match (holds(set, street.from), holds(set, street.to)) {
            (true, false) => forward,
            (false, true) => backward,
            _ => 0,
        };
        sum = sum.saturating_add(own);
    }
    sum
}

/// The number of sets of the junctions of a town.
pub(crate) fn set_count(town: &Town) -> u32 {
    let junctions = u32::try_from(town.junctions.len()).unwrap_or(32);
    1u32.checked_shl(junctions).unwrap_or(0)
}
