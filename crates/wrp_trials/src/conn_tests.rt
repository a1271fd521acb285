//! What no clause says: that the searches for connectivity cuts answer on worked points, and what;
//! and that on drawn ones they answer as an enumeration of all sets.
ghost use Rattle.wrp_parts.specs.RequiredParts.{AreParts};
ghost use Rattle.wrp_webs.specs.TownWebs.{IsBalanced};
ghost use Rattle.wrp_rows.specs.Points.{IsPoint};
ghost use Rattle.wrp_odd.specs.Points.{HasNumbers, numbers_of};

use crate::draw::{Draw, balanced_point, drawn_town};
use crate::plain::{bits_of, breaks_conn, lies_in, set_count};
use crate::points::{is_balanced, point_of};
use crate::towns::CHAIN;
use std::alloc::{AllocError, Global};
use std::test::Fail;
use wrp_conn::{all_violated, violated};
use wrp_graph::Graph;
use wrp_parts::{Parts, required_parts};
use wrp_rows::{Point, Rows};
use wrp_rules::Record;
use wrp_street::{TableFault, Town, read_town};

/// How many points are drawn, each in a town of its own with at most so many junctions.
const DRAWS: u32 = 300;

const MOST_JUNCTIONS: u32 = 7;

/// The connectivity cuts that the search meets, and the one that is answered.
#[derive(Drop)]
struct ConnCuts {
    all: Vec<Record>,
    one: Option<Record>,
}

/// The connectivity cuts at a point; nothing where it is no point that is balanced.
fn cuts_at(alloc: Global, town: &Town, point: &Point) -> Result<Option<ConnCuts>, AllocError> {
    if !is_balanced(town, point) {
        return Ok(None);
    }
    let graph = Graph::new(alloc, town)?;
    Ok(Some(cuts_in(alloc, &graph, point)?))
}

/// The connectivity cuts at a balanced point.
fn cuts_in(alloc: Global, graph: &Graph<'_>, point: &Point) -> Result<ConnCuts, AllocError>
    requires point { IsPoint graph.now point.now }
    requires numbers { HasNumbers point.now }
    requires balanced { IsBalanced graph.now (numbers_of point.now) }
{
    let parts = required_parts(alloc, graph)?;
    let rows = Rows::new(alloc, graph.town())?;
    cuts_over(alloc, &parts, &rows, point)
}

/// The same over the rows of the town.
fn cuts_over(
    alloc: Global,
    parts: &Parts,
    rows: &Rows<'_>,
    point: &Point,
) -> Result<ConnCuts, AllocError>
    requires parts { AreParts rows.now.town parts.now.count parts.now.of }
    requires point { IsPoint rows.now.town point.now }
    requires numbers { HasNumbers point.now }
    requires balanced { IsBalanced rows.now.town (numbers_of point.now) }
{
    Ok(ConnCuts {
        all: all_violated(alloc, parts, rows, point)?,
        one: violated(alloc, parts, rows, point)?,
    })
}

/// The same in the chain, at these whole numbers.
fn cuts_of_chain(alloc: Global, at: &[i128]) -> Result<Option<ConnCuts>, TableFault> {
    let town = read_town(alloc, CHAIN)?;
    let point = point_of(alloc, 1, at)?;
    Ok(cuts_at(alloc, &town, &point)?)
}

#[test]
fn pieces_are_found(rt: HostRuntime) -> Result<(), Fail> {
    match cuts_of_chain(rt.alloc(), &[1, 1, 0, 0, 1, 1])? {
        None => assert!(rt; false, "no point"),
        Some(cuts) => {
            assert!(rt; !cuts.all.is_empty());
            assert!(rt; matches!(&cuts.one, Some(Record::Conn { .. })));
        }
    }
    Ok(())
}

#[test]
fn nothing_is_broken(rt: HostRuntime) -> Result<(), Fail> {
    match cuts_of_chain(rt.alloc(), &[1; 6])? {
        None => assert!(rt; false, "no point"),
        Some(cuts) => assert!(rt; cuts.all.is_empty() && cuts.one.is_none()),
    }
    Ok(())
}

/// Whether a record is of a broken connectivity cut, with a required street on each side.
fn is_broken(town: &Town, point: &Point, item: &Record) -> bool {
    match item {
        Record::Conn { r1, r2, set } => {
            let set = bits_of(set.as_slice());
            breaks_conn(town, point, set) && lies_in(town, *r1, set) && lies_in(town, *r2, !set)
        }
        _ => false,
    }
}

/// Whether the cuts are those that an enumeration of all sets leads to.
fn are_enumerated(town: &Town, point: &Point, cuts: &ConnCuts) -> bool {
    let some = (0..set_count(town)).any(|set| breaks_conn(town, point, set));
    cuts.one.is_some() == some
        && cuts.all.is_empty() != some
        && cuts.all.iter().all(|item| is_broken(town, point, item))
}

/// Draws a town and a point, and says whether the point breaks a cut; nothing where the cuts aren't
/// those of the enumeration.
fn drawn(alloc: Global, draw: &mut Draw) -> Result<Option<bool>, TableFault> {
    let junctions = draw.below(MOST_JUNCTIONS - 2).saturating_add(3);
    let streets = draw.below(8).saturating_add(3);
    let town = drawn_town(alloc, draw, junctions, streets)?;
    let point = balanced_point(alloc, draw, &town)?;
    match cuts_at(alloc, &town, &point)? {
        Some(cuts) if are_enumerated(&town, &point, &cuts) => Ok(Some(cuts.one.is_some())),
        _ => Ok(None),
    }
}

#[test]
fn cuts_are_those_of_an_enumeration(rt: HostRuntime) -> Result<(), Fail> {
    let mut draw = Draw::new(2);
    let mut broken = 0u32;
    for number in 0..DRAWS {
        let answer = drawn(rt.alloc(), &mut draw)?;
        assert!(rt; answer.is_some(), "draw {number}");
        broken = broken.saturating_add(u32::from(answer == Some(true)));
    }
    assert!(rt;
        broken >= DRAWS / 5 && broken <= DRAWS - DRAWS / 5,
        "{broken} are broken"
    );
    Ok(())
}
