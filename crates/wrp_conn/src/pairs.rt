//! Least cuts between the parts of two required streets.
ghost use Rattle.std.specs.Prelude.{◌≡◌, ◌^◌, ◌<◌, ◌≤◌, [], length, OnOk};
ghost use Rattle.std.specs.List.{All};
ghost use Rattle.wrp_rows.specs.Marks.{is_marked};
ghost use Rattle.wrp_odd.specs.Points.{numbers_of};
ghost use Rattle.wrp_town.specs.declared.town.Town.{Town};
ghost use Rattle.wrp_rows.specs.declared.point.Point.{Point as APoint};
ghost use Rattle.wrp_conn.specs.Conns.{IsBalancedPoint};
ghost use Rattle.wrp_conn.specs.Founds.{IsLight, AreFound, AreOrdered};
ghost use Rattle.wrp_conn.specs.Shrunk.{IsShrunk, IsAtNode, IsFar};

use crate::found::{Broken, add};
use crate::shrunk::Shrunk;
use crate::side::{cut_of, side_of};
use std::alloc::{AllocError, Global};
use wrp_flow::min_cut_below;
use wrp_rows::Point;
use wrp_town::Town;

/// So many cuts are enough: pairs that aren't needed to find one are left out then.
const ENOUGH: usize = 200;

/// Looks at all pairs of streets, until enough cuts are found.
pub(crate) fn see_pairs(
    alloc: Global,
    town: &Town,
    point: &Point,
    shrunk: &Shrunk,
    streets: &[u32],
    cuts: &mut Vec<Broken>,
) -> Result<(), AllocError>
    requires point { IsBalancedPoint town.now point.now }
    requires shrunk { IsShrunk town.now (numbers_of point.now) shrunk.now }
    requires streets { All (IsAtNode town.now shrunk.now.nodes.items) streets.now }
    requires cuts { AreFound town.now point.now cuts.old.items }
    ensures found { OnOk result (AreFound town.now point.now cuts.new.items) }
    ensures grown { OnOk result (length cuts.old.items ≤ length cuts.new.items) }
{
    for (at, street) in streets.iter().enumerate() {
        if cuts.len() < ENOUGH {
            see_others(alloc, town, point, shrunk, *street, &streets[at..], cuts)?;
        }
    }
    Ok(())
}

/// Looks at a street and each of the others.
pub(crate) fn see_others(
    alloc: Global,
    town: &Town,
    point: &Point,
    shrunk: &Shrunk,
    street: u32,
    others: &[u32],
    cuts: &mut Vec<Broken>,
) -> Result<(), AllocError>
    requires point { IsBalancedPoint town.now point.now }
    requires shrunk { IsShrunk town.now (numbers_of point.now) shrunk.now }
    requires street { IsAtNode town.now shrunk.now.nodes.items street }
    requires others { All (IsAtNode town.now shrunk.now.nodes.items) others.now }
    requires cuts { AreFound town.now point.now cuts.old.items }
    ensures found { OnOk result (AreFound town.now point.now cuts.new.items) }
    ensures grown { OnOk result (length cuts.old.items ≤ length cuts.new.items) }
    ensures none { OnOk result (cuts.new.items ≡ []
        → All (IsFar town.now shrunk.now.net point.now.den street) others.now) }
{
    for other in others {
        see(alloc, town, point, shrunk, street, *other, cuts)?;
    }
    Ok(())
}

/// Adds the least cut between two streets, from both ends, where less than the denominator leaves
/// it.
fn see(
    alloc: Global,
    town: &Town,
    point: &Point,
    shrunk: &Shrunk,
    r1: u32,
    r2: u32,
    cuts: &mut Vec<Broken>,
) -> Result<(), AllocError>
    requires point { IsBalancedPoint town.now point.now }
    requires shrunk { IsShrunk town.now (numbers_of point.now) shrunk.now }
    requires first { IsAtNode town.now shrunk.now.nodes.items r1 }
    requires second { IsAtNode town.now shrunk.now.nodes.items r2 }
    requires cuts { AreFound town.now point.now cuts.old.items }
    ensures found { OnOk result (AreFound town.now point.now cuts.new.items) }
    ensures grown { OnOk result (length cuts.old.items ≤ length cuts.new.items) }
    ensures none { OnOk result (cuts.new.items ≡ []
        → IsFar town.now shrunk.now.net point.now.den r1 r2) }
{
    let s = town.tail(2 * r1);
    let t = town.tail(2 * r2);
    if s == t {
        return Ok(());
    }
    let Some(both) = min_cut_below(alloc, &shrunk.net, s, t, point.den)? else {
        return Ok(());
    };
    let value = both.cut.value.unsigned_abs();
    let nodes = shrunk.nodes.as_slice();
    let near = side_of(alloc, nodes, both.cut.set.as_slice(), true)?;
    let far = side_of(alloc, nodes, both.sink_side.as_slice(), false)?;
    note(alloc, near.as_slice(), r1, r2, value, cuts)?;
    note(alloc, far.as_slice(), r1, r2, value, cuts)?;
    Ok(())
}

/// Adds the cut of the junctions with marks, where the first street begins among them.
fn note(
    alloc: Global,
    side: &[bool],
    r1: u32,
    r2: u32,
    value: u128,
    cuts: &mut Vec<Broken>,
) -> Result<(), AllocError>
    requires few { length side.now < 2 ^ 32 }
    requires ordered { AreOrdered cuts.old.items }
    ensures found { OnOk result ((town : Town) (point : APoint) → IsBalancedPoint town point
        → length side.now ≡ length town.junctions
        → IsLight town point r1 r2 value (is_marked side.now)
        → AreFound town point cuts.old.items → AreFound town point cuts.new.items) }
    ensures grown { OnOk result (length cuts.old.items ≤ length cuts.new.items) }
    ensures some { OnOk result (0 < length cuts.new.items) }
{
    let cut = cut_of(alloc, side, r1, r2, value)?;
    add(cuts, cut)?;
    Ok(())
}
