//! Numbers, towns and points that are drawn from a seed.

use crate::towns::HEADER;
use std::alloc::{AllocError, Global};
use wrp_rows::Point;
use wrp_street::{List, Need, Street, TableFault, Town, read_town};

/// The costs both ways and the needs that a street may have.
const KINDS: [&str; 10] = [
    "1,1,yes",
    "2,3,yes",
    "4,-,yes",
    "3,1,forward",
    "-,2,backward",
    "1,2,both",
    "1,1,no",
    "5,2,no",
    "2,-,no",
    "-,1,no",
];

/// Draws numbers, each from the one before by a linear congruence.
#[derive(Clone, Copy)]
pub(crate) struct Draw {
    state: u64,
}

impl Draw {
    /// What is drawn from a seed.
    pub(crate) fn new(seed: u64) -> Draw {
        Draw { state: seed }
    }

    /// A number below a limit, and 0 where that is 0.
    pub(crate) fn below(&mut self, limit: u32) -> u32 {
        self.state = self
            .state
            .wrapping_mul(6_364_136_223_846_793_005)
            .wrapping_add(1_442_695_040_888_963_407);
        u32::try_from(self.state >> 33)
            .unwrap_or(0)
            .checked_rem(limit)
            .unwrap_or(0)
    }

    /// One of some items.
    pub(crate) fn one_of<T: Copy>(&mut self, items: &[T]) -> Option<T> {
        let limit = u32::try_from(items.len()).unwrap_or(0);
        items.get(self.below(limit) as usize).copied()
    }
}

/// A town of so many streets between at most so many junctions.
pub(crate) fn drawn_town(
    alloc: Global,
    draw: &mut Draw,
    junctions: u32,
    streets: u32,
) -> Result<Town, TableFault> {
    let mut table = String::from_str(alloc, HEADER)?;
    for _ in 0..streets {
        let from = draw.below(junctions);
        let to = draw.below(junctions);
        let kind = draw.one_of(&KINDS).unwrap_or("1,1,no");
        writeln!(table, "s,j{from},j{to},{kind}")?;
    }
    read_town(alloc, table.as_bytes())
}

/// A point that serves each demand, over an even denominator.
pub(crate) fn serving_point(
    alloc: Global,
    draw: &mut Draw,
    town: &Town,
) -> Result<Point, AllocError> {
    let half = draw.below(20).saturating_add(1);
    let mut at = Vec::new(alloc);
    for street in town.streets.as_slice() {
        at.push(drawn_number(draw, street, false, half))?;
        at.push(drawn_number(draw, street, true, half))?;
    }
    Ok(Point {
        den: i128::from(half).saturating_mul(2),
        at: List::from_vec(at),
    })
}

/// A number of one way of a street: what it needs, and at most half the denominator more.
fn drawn_number(draw: &mut Draw, street: &Street, back: bool, half: u32) -> i128 {
    let own = if back {
        street.backward
    } else {
        street.forward
    };
    if own.is_none() {
        return 0;
    }
    let spare = draw.below(half.saturating_add(1));
    let needed = halves(street, back).saturating_mul(half);
    i128::from(needed.saturating_add(spare))
}

/// How many halves of the denominator a way of a street needs.
fn halves(street: &Street, back: bool) -> u32 {
    match street.need {
        Need::No => 0,
        Need::Either if street.forward.is_some() && street.backward.is_some() => 1,
        Need::Either | Need::Both => 2,
        Need::Forward => { if back { 0 } else { 2 } }
        Need::Backward => { if back { 2 } else { 0 } }
    }
}

/// A point that is balanced at each junction: closed walks, each some times.
pub(crate) fn balanced_point(
    alloc: Global,
    draw: &mut Draw,
    town: &Town,
) -> Result<Point, AllocError> {
    let arcs = town.streets.len().saturating_mul(2);
    let mut at = vec![in alloc; 0; arcs]?;
    for _ in 0..draw.below(5) {
        let walk = closed_walk(alloc, draw, town)?;
        let times = i128::from(draw.below(9));
        for arc in &walk {
            add(&mut at, *arc, times);
        }
    }
    Ok(Point {
        den: i128::from(draw.below(9).saturating_add(1)),
        at: List::from_vec(at),
    })
}

/// The arcs of a closed walk: a walk that is drawn, up to its last return to where it began.
fn closed_walk(alloc: Global, draw: &mut Draw, town: &Town) -> Result<Vec<u32>, AllocError> {
    let mut walk = Vec::new(alloc);
    let arcs = u32::try_from(town.streets.len())
        .unwrap_or(0)
        .saturating_mul(2);
    let junctions = u32::try_from(town.junctions.len()).unwrap_or(0);
    let start = draw.below(junctions);
    let mut here = start;
    let mut closed = 0;
    for _ in 0..60 {
        let arc = draw.below(arcs);
        let Some((tail, head)) = ends(town, arc) else {
            continue;
        };
        if tail == here {
            walk.push(arc)?;
            here = head;
            if here == start {
                closed = walk.len();
            }
        }
    }
    walk.truncate(closed);
    Ok(walk)
}

/// The ends of an arc that may be driven.
fn ends(town: &Town, arc: u32) -> Option<(u32, u32)> {
    if (arc / 2) as usize >= town.streets.len() || town.cost(arc).is_none() {
        return None;
    }
    Some((town.tail(arc), town.head(arc)))
}

/// Adds to the number of an arc.
fn add(at: &mut [i128], arc: u32, amount: i128) {
    let arc = arc as usize;
    if arc < at.len() {
        at[arc] = at[arc].saturating_add(amount);
    }
}
