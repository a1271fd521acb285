//! What no clause says: that relaxations of a worked town cost what its author means.

use crate::lists::{records_of, refusal};
use crate::plain::numbers_of;
use crate::relaxing::{relaxed, rounding_count};
use crate::towns::WINDY;
use std::alloc::{AllocError, Global};
use std::test::Fail;
use wrp_lp::Lp;
use wrp_rows::Point;
use wrp_rules::Record;
use wrp_street::{Town, read_town};
use wrp_tree::Tree;

/// How a relaxation ends: with this cost over this denominator, or without a point.
#[derive(Clone, Copy)]
enum Ending {
    Cost { cost: i128, over: i128 },
    Empty,
    Pivots,
}

/// Records of the windy street, a node, a limit of pivots, and how the relaxation ends.
type Case = (&'static str, u64, u32, Ending);

const CASES: [Case; 6] = [
    ("", 0, 100, Ending::Cost { cost: 5, over: 2 }),
    ("o 0", 0, 100, Ending::Cost { cost: 5, over: 1 }),
    ("z 0\ns 0 0 0\n", 1, 100, Ending::Empty),
    ("z 0\ns 0 0 0\n", 2, 100, Ending::Cost { cost: 5, over: 1 }),
    // No arc may be used.
    ("z 0\ns 0 0 0\nz 1\ns 1 1 0\n", 3, 100, Ending::Empty),
    ("", 0, 0, Ending::Pivots),
];

/// The cost of a point, times its denominator.
fn cost_at(town: &Town, point: &Point) -> i128 {
    let mut sum = 0i128;
    for (s, street) in town.streets.as_slice().iter().enumerate() {
        let (forward, backward) = numbers_of(point, s);
        let there = i128::from(street.forward.unwrap_or(0)).saturating_mul(forward);
        let back = i128::from(street.backward.unwrap_or(0)).saturating_mul(backward);
        sum = sum.saturating_add(there).saturating_add(back);
    }
    sum
}

/// Whether a relaxation ends so.
fn ends_so(town: &Town, lp: &Lp, ending: Ending) -> bool {
    match (lp, ending) {
        (Lp::Optimal { point, .. }, Ending::Cost { cost, over }) => {
            cost_at(town, point).saturating_mul(over) == cost.saturating_mul(point.den)
        }
        (Lp::Empty { .. }, Ending::Empty) | (Lp::Pivots { .. }, Ending::Pivots) => true,
        _ => false,
    }
}

/// The relaxation of a node after these records, where they are valid.
fn relaxed_after(
    alloc: Global,
    tree: &mut Tree<'_>,
    items: &[Record],
    node: u64,
    pivots: u32,
) -> Result<Option<Lp>, AllocError> {
    match refusal(tree, items)? {
        Some(_) => Ok(None),
        None => relaxed(alloc, tree, node, pivots),
    }
}

/// The same, of the tree of a town.
fn relaxed_in(
    alloc: Global,
    town: &Town,
    items: &[Record],
    node: u64,
    pivots: u32,
) -> Result<Option<Lp>, AllocError> {
    let mut tree = Tree::new(alloc, town)?;
    relaxed_after(alloc, &mut tree, items, node, pivots)
}

/// Whether a case is so in a town.
fn holds(alloc: Global, town: &Town, case: &Case) -> Result<bool, Fail> {
    let (records, node, pivots, ending) = *case;
    let items = records_of(alloc, records)?;
    match relaxed_in(alloc, town, items.as_slice(), node, pivots)? {
        Some(lp) => Ok(ends_so(town, &lp, ending)),
        None => Ok(false),
    }
}

/// How many roundings the first relaxation of a town leads to.
fn first_roundings(alloc: Global, town: &Town) -> Result<usize, AllocError> {
    let tree = Tree::new(alloc, town)?;
    let count = rounding_count(alloc, &tree, 0)?;
    Ok(count.unwrap_or(0))
}

#[test]
fn a_windy_street_is_relaxed(rt: HostRuntime) -> Result<(), Fail> {
    let town = read_town(rt.alloc(), WINDY)?;
    for case in &CASES {
        assert!(rt;
            holds(rt.alloc(), &town, case)?,
            "{}: node {}",
            case.0,
            case.1
        );
    }
    Ok(())
}

#[test]
fn a_rounding_is_found(rt: HostRuntime) -> Result<(), Fail> {
    let town = read_town(rt.alloc(), WINDY)?;
    assert!(rt; first_roundings(rt.alloc(), &town)? > 0);
    Ok(())
}
