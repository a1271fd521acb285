//! What no clause says: that the searches for odd cuts answer on worked points, and what; and that
//! on drawn ones they answer as an enumeration of all sets.
ghost use Rattle.wrp_webs.specs.TownWebs.{MeetsServices};
ghost use Rattle.wrp_rows.specs.Points.{IsPoint};
ghost use Rattle.wrp_odd.specs.Points.{HasNumbers, denominator_of, numbers_of};

use crate::draw::{Draw, drawn_town, serving_point};
use crate::plain::{bits_of, breaks_odd, set_count};
use crate::points::{is_serving, point_of};
use crate::towns::{TRIANGLES, WINDY};
use std::alloc::{AllocError, Global};
use std::test::Fail;
use wrp_minodd::{broken_odd_sets, min_odd};
use wrp_odd::odd_candidates;
use wrp_rows::{Point, Rows};
use wrp_rules::Record;
use wrp_street::{TableFault, Town, read_town};

/// How many points are drawn, each in a town of its own with at most so many junctions.
const DRAWS: u32 = 300;

const MOST_JUNCTIONS: u32 = 7;

/// The odd cuts that are easily found, those of the exact search, and whether it answers one.
#[derive(Drop)]
struct OddCuts {
    easy: Vec<Record>,
    all: Vec<Record>,
    one: Option<Record>,
}

/// The odd cuts at a point; nothing where it is no point that serves each demand.
fn cuts_at(alloc: Global, town: &Town, point: &Point) -> Result<Option<OddCuts>, AllocError> {
    if !is_serving(town, point) {
        return Ok(None);
    }
    let rows = Rows::new(alloc, town)?;
    Ok(Some(cuts_over(alloc, &rows, point)?))
}

/// The odd cuts at a point that serves each demand.
fn cuts_over(alloc: Global, rows: &Rows<'_>, point: &Point) -> Result<OddCuts, AllocError>
    requires point { IsPoint rows.now.town point.now }
    requires numbers { HasNumbers point.now }
    requires services { MeetsServices rows.now.town (denominator_of point.now)
        (numbers_of point.now) }
{
    Ok(OddCuts {
        easy: odd_candidates(alloc, rows, point)?,
        all: broken_odd_sets(alloc, rows, point)?,
        one: min_odd(alloc, rows, point)?,
    })
}

/// The same at these numbers over a denominator.
fn cuts_of(
    alloc: Global,
    table: &[u8],
    den: i128,
    at: &[i128],
) -> Result<Option<OddCuts>, TableFault> {
    let town = read_town(alloc, table)?;
    let point = point_of(alloc, den, at)?;
    Ok(cuts_at(alloc, &town, &point)?)
}

/// The set of an Odd record.
fn set_of(item: &Record) -> &[u32] {
    match item {
        Record::Odd { set } => set.as_slice(),
        _ => &[],
    }
}

/// Whether the record of a set is among some.
fn has_set(records: &[Record], set: &[u32]) -> bool {
    records.iter().any(|item| set_of(item) == set)
}

/// Whether some record is of a set of one junction.
fn has_single(records: &[Record]) -> bool {
    records.iter().any(|item| set_of(item).len() == 1)
}

#[test]
fn single_junctions_are_found(rt: HostRuntime) -> Result<(), Fail> {
    match cuts_of(rt.alloc(), WINDY, 2, &[1, 1])? {
        None => assert!(rt; false, "no point"),
        Some(cuts) => {
            assert!(rt; cuts.one.is_some());
            assert!(rt; has_set(cuts.easy.as_slice(), &[0]));
            assert!(rt; has_set(cuts.easy.as_slice(), &[1]));
            assert!(rt; has_set(cuts.all.as_slice(), &[0]));
        }
    }
    Ok(())
}

/// Three halves on some streets and one on the others, and one on all.
const HALVES: [i128; 14] = [3, 3, 2, 2, 3, 3, 2, 2, 3, 3, 2, 2, 3, 3];

const ONES: [i128; 14] = [1; 14];

#[test]
fn a_triangle_is_found(rt: HostRuntime) -> Result<(), Fail> {
    match cuts_of(rt.alloc(), TRIANGLES, 4, &HALVES)? {
        None => assert!(rt; false, "no point"),
        Some(cuts) => {
            assert!(rt; cuts.one.is_some());
            assert!(rt; !has_single(cuts.easy.as_slice()));
            assert!(rt; !has_single(cuts.all.as_slice()));
            assert!(rt; has_set(cuts.all.as_slice(), &[0, 1, 2]));
        }
    }
    Ok(())
}

#[test]
fn nothing_is_broken(rt: HostRuntime) -> Result<(), Fail> {
    match cuts_of(rt.alloc(), TRIANGLES, 1, &ONES)? {
        None => assert!(rt; false, "no point"),
        Some(cuts) => assert!(rt;
            cuts.easy.is_empty() && cuts.all.is_empty() && cuts.one.is_none()
        ),
    }
    Ok(())
}

/// Whether the cuts are those that an enumeration of all sets leads to.
fn are_enumerated(town: &Town, point: &Point, cuts: &OddCuts) -> bool {
    let some = (0..set_count(town)).any(|set| breaks_odd(town, point, set));
    let is_broken = |item: &Record| breaks_odd(town, point, bits_of(set_of(item)));
    cuts.one.is_some() == some
        && cuts.all.is_empty() != some
        && cuts.all.iter().all(|item| is_broken(item))
        && cuts.easy.iter().all(|item| is_broken(item))
}

/// Draws a town and a point, and says whether the point breaks an odd cut; nothing where the cuts
/// aren't those of the enumeration.
fn drawn(alloc: Global, draw: &mut Draw) -> Result<Option<bool>, TableFault> {
    let junctions = draw.below(MOST_JUNCTIONS).saturating_add(1);
    let streets = draw.below(12).saturating_add(1);
    let town = drawn_town(alloc, draw, junctions, streets)?;
    let point = serving_point(alloc, draw, &town)?;
    match cuts_at(alloc, &town, &point)? {
        Some(cuts) if are_enumerated(&town, &point, &cuts) => Ok(Some(cuts.one.is_some())),
        _ => Ok(None),
    }
}

#[test]
fn cuts_are_those_of_an_enumeration(rt: HostRuntime) -> Result<(), Fail> {
    let mut draw = Draw::new(1);
    let mut broken = 0u32;
    for number in 0..DRAWS {
        let answer = drawn(rt.alloc(), &mut draw)?;
        assert!(rt; answer.is_some(), "draw {number}");
        broken = broken.saturating_add(u32::from(answer == Some(true)));
    }
    assert!(rt;
        broken >= DRAWS / 4 && broken <= DRAWS - DRAWS / 4,
        "{broken} are broken"
    );
    Ok(())
}
