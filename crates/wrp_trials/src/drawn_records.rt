//! Records that are drawn, some of them valid.
ghost use Rattle.std.specs.Prelude.{◌<◌, ◌^◌};

use crate::draw::Draw;
use crate::points::is_point;
use crate::relaxing::relaxed;
use std::alloc::{AllocError, Global};
use wrp_box::{point_record, shown_record};
use wrp_graph::Graph;
use wrp_lp::Lp;
use wrp_parts::required_parts;
use wrp_reach::{Reach, labels};
use wrp_rows::Point;
use wrp_rules::Record;
use wrp_street::{List, Step, Town, walk_cost};
use wrp_tour::first_tour;
use wrp_tree::Tree;

/// The most pivots of a relaxation.
const MOST_PIVOTS: u32 = 1000;

/// The numbers of nodes are below this.
const NODE_LIMIT: u64 = 1 << 63;

/// The multipliers that are drawn.
const MULTIPLIERS: [u64; 8] = [1, 1, 1, 2, 2, 3, 5, 1 << 21];

/// A tour, and no steps where there is none.
pub(crate) fn tour_of(alloc: Global, town: &Town) -> Result<List<Step>, AllocError> {
    let graph = Graph::new(alloc, town)?;
    let parts = required_parts(alloc, &graph)?;
    match labels(alloc, &graph)? {
        Reach::Joined { .. } => first_tour(alloc, &graph, &parts),
        Reach::Split { .. } => Ok(List::new(alloc)),
    }
}

/// The sizes of a list and its town.
#[derive(Clone, Copy)]
struct Sizes {
    junctions: u32,
    streets: u32,
    arcs: u32,
    rows: u32,
    nodes: u32,
    /// A node that is open, if there is one.
    open: u64,
}

impl Sizes {
    fn new(tree: &Tree<'_>) -> Sizes {
        let town = tree.rows().town();
        let streets = u32::try_from(town.streets.len()).unwrap_or(0);
        Sizes {
            junctions: u32::try_from(town.junctions.len()).unwrap_or(0),
            streets,
            arcs: streets.saturating_mul(2),
            rows: tree.rows().len(),
            nodes: u32::try_from(tree.nodes()).unwrap_or(0),
            open: tree.open_node().unwrap_or(0),
        }
    }

    /// An open node, or any.
    fn node(self, draw: &mut Draw) -> u64 {
        if draw.below(5) == 0 {
            u64::from(number(draw, self.nodes))
        } else {
            self.open
        }
    }
}

/// A number below a limit, or rarely the limit.
fn number(draw: &mut Draw, limit: u32) -> u32 {
    if draw.below(20) == 0 {
        limit
    } else {
        draw.below(limit)
    }
}

/// A set of numbers below a limit, which rarely holds the limit.
fn drawn_set(alloc: Global, draw: &mut Draw, limit: u32) -> Result<List<u32>, AllocError> {
    let mut set = List::new(alloc);
    for member in 0..limit {
        if draw.below(2) == 0 {
            set.push(member)?;
        }
    }
    if draw.below(20) == 0 {
        set.push(limit)?;
    }
    Ok(set)
}

/// So many numbers below a limit.
fn drawn_numbers(
    alloc: Global,
    draw: &mut Draw,
    count: u32,
    limit: u32,
) -> Result<List<u32>, AllocError> {
    let mut numbers = List::new(alloc);
    for _ in 0..number(draw, count) {
        numbers.push(draw.below(limit))?;
    }
    Ok(numbers)
}

/// Multipliers of some rows.
fn drawn_multipliers(
    alloc: Global,
    draw: &mut Draw,
    rows: u32,
) -> Result<List<(u32, u64)>, AllocError> {
    let mut mult = List::new(alloc);
    for row in 0..rows {
        if draw.below(3) == 0 {
            mult.push((row, draw.one_of(&MULTIPLIERS).unwrap_or(1)))?;
        }
    }
    if draw.below(20) == 0 {
        mult.push((rows, 1))?;
    }
    Ok(mult)
}

/// A record after the list of a tree, of a town that has a tour of these steps or none.
pub(crate) fn drawn_record(
    alloc: Global,
    draw: &mut Draw,
    tree: &Tree<'_>,
    steps: &[Step],
) -> Result<Record, AllocError> {
    let sizes = Sizes::new(tree);
    match draw.below(16) {
        0 | 1 => drawn_tour(alloc, draw, tree.rows().town(), steps),
        2..=5 => drawn_cut(alloc, draw, sizes),
        6..=8 => drawn_closing(alloc, draw, sizes),
        9..=11 => drawn_branching(alloc, draw, sizes),
        12..=14 => shown(alloc, draw, tree, sizes),
        _ => drawn_labels(alloc, draw, sizes),
    }
}

/// A tour, or what is none.
fn drawn_tour(
    alloc: Global,
    draw: &mut Draw,
    town: &Town,
    steps: &[Step],
) -> Result<Record, AllocError> {
    let mut own = Vec::from_slice(alloc, steps)?;
    match draw.below(6) {
        0 => own.extend_from_slice(steps)?,
        1 => {
            own.pop();
        }
        2 => own.push(Step {
            street: number(draw, 5),
            back: draw.below(2) == 0,
        })?,
        _ => {}
    }
    let few = own.get(..1000).unwrap_or(own.as_slice());
    let cost = walk_cost(town, few).unwrap_or(0);
    Ok(Record::Tour {
        cost: cost.saturating_add(u64::from(draw.below(6) == 0)),
        steps: List::from_vec(own),
    })
}

/// A cut.
fn drawn_cut(alloc: Global, draw: &mut Draw, sizes: Sizes) -> Result<Record, AllocError> {
    match draw.below(4) {
        0 => Ok(Record::Conn {
            r1: number(draw, sizes.streets),
            r2: number(draw, sizes.streets),
            set: drawn_set(alloc, draw, sizes.junctions)?,
        }),
        1 => Ok(Record::Odd {
            set: drawn_set(alloc, draw, sizes.junctions)?,
        }),
        2 => Ok(Record::Round {
            divisor: u64::from(draw.below(3)).saturating_add(1),
            mult: drawn_multipliers(alloc, draw, sizes.rows)?,
        }),
        _ => Ok(Record::Kc {
            k: draw.below(3).saturating_add(2),
            of: drawn_numbers(alloc, draw, sizes.junctions, 5)?,
        }),
    }
}

/// A record that closes a node or raises its bound.
fn drawn_closing(alloc: Global, draw: &mut Draw, sizes: Sizes) -> Result<Record, AllocError> {
    let node = sizes.node(draw);
    match draw.below(3) {
        0 => Ok(Record::Bound {
            node,
            den: u64::from(draw.below(3)).saturating_add(1),
            mult: drawn_multipliers(alloc, draw, sizes.rows)?,
        }),
        1 => Ok(Record::Empty {
            node,
            mult: drawn_multipliers(alloc, draw, sizes.rows)?,
        }),
        _ => Ok(Record::Apart {
            node,
            r1: number(draw, sizes.streets),
            r2: number(draw, sizes.streets),
            set: drawn_set(alloc, draw, sizes.junctions)?,
        }),
    }
}

/// A blind mark or a split.
fn drawn_branching(alloc: Global, draw: &mut Draw, sizes: Sizes) -> Result<Record, AllocError> {
    let node = sizes.node(draw);
    match draw.below(5) {
        0 | 1 => Ok(Record::Blind { node }),
        2 | 3 => Ok(Record::Split {
            node,
            arc: number(draw, sizes.arcs),
            k: draw.below(3),
        }),
        _ => drawn_point(alloc, draw, node, sizes.arcs),
    }
}

/// A point.
fn drawn_point(alloc: Global, draw: &mut Draw, node: u64, arcs: u32) -> Result<Record, AllocError> {
    let mut numbers = List::new(alloc);
    for arc in 0..arcs {
        if draw.below(2) == 0 {
            numbers.push((arc, u128::from(draw.below(3)).saturating_add(1)))?;
        }
    }
    Ok(Record::Point {
        node,
        den: u64::from(draw.below(2)).saturating_add(1),
        numbers,
    })
}

/// Labels.
fn drawn_labels(alloc: Global, draw: &mut Draw, sizes: Sizes) -> Result<Record, AllocError> {
    Ok(Record::Labels {
        labels: drawn_numbers(alloc, draw, sizes.junctions, 2)?,
        streets: drawn_numbers(alloc, draw, 2, sizes.streets)?,
    })
}

/// What the relaxation of a node shows: its bound, or its point, which may be changed; a blind mark
/// where it shows nothing.
fn shown(
    alloc: Global,
    draw: &mut Draw,
    tree: &Tree<'_>,
    sizes: Sizes,
) -> Result<Record, AllocError> {
    let node = sizes.open;
    if node >= NODE_LIMIT {
        return Ok(Record::Blind { node });
    }
    let Some(lp) = relaxed(alloc, tree, node, MOST_PIVOTS)? else {
        return Ok(Record::Blind { node });
    };
    let item = if draw.below(2) == 0 {
        shown_record(alloc, node, &lp)?
    } else {
        point_shown(alloc, draw, tree.rows().town(), node, &lp)?
    };
    Ok(item.unwrap_or(Record::Blind { node }))
}

/// The point of an optimum, which may be changed.
fn point_shown(
    alloc: Global,
    draw: &mut Draw,
    town: &Town,
    node: u64,
    lp: &Lp,
) -> Result<Option<Record>, AllocError>
    requires { node < 2 ^ 63 }
{
    let item = match lp {
        Lp::Optimal { point, .. } => record_of(alloc, town, node, point)?,
        _ => None,
    };
    match item {
        Some(item) => Ok(Some(changed(draw, item))),
        None => Ok(None),
    }
}

/// The record of a point, where it is one of the town.
fn record_of(
    alloc: Global,
    town: &Town,
    node: u64,
    point: &Point,
) -> Result<Option<Record>, AllocError>
    requires { node < 2 ^ 63 }
{
    if !is_point(town, point) {
        return Ok(None);
    }
    let item = point_record(alloc, node, point)?;
    Ok(Some(item))
}

/// A point with its last number dropped, or as it is.
fn changed(draw: &mut Draw, item: Record) -> Record {
    match item {
        Record::Point { node, den, numbers } => {
            let mut numbers = numbers.into_vec();
            if draw.below(4) == 0 {
                numbers.pop();
            }
            Record::Point {
                node,
                den,
                numbers: List::from_vec(numbers),
            }
        }
        item => item,
    }
}
