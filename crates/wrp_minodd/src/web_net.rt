//! The nets in which least cuts are found.
ghost use Rattle.std.specs.Prelude.{◌≡◌, ◌*◌, ◌+◌, ◌^◌, ◌<◌, ◌≤◌, ℕ, Bool, length, IfOk, OnOk, pos, unsigned_abs};
ghost use Rattle.wrp_rows.specs.Points.{IsPoint};
ghost use Rattle.wrp_webs.specs.Searching.{reading, IsPending};
ghost use Rattle.wrp_webs.specs.TownWebs.{spare};
ghost use Rattle.wrp_odd.specs.Points.{HasNumbers, denominator_of, numbers_of};
ghost use Rattle.wrp_minodd.specs.Looks.{web_of, IsNetOf};
ghost use Rattle.wrp_minodd.specs.Growing.{IsGrowing, IsPair};

use std::alloc::{AllocError, Global};
use wrp_flow::Net;
use wrp_odd::{denominator, tally_of};
use wrp_rows::Point;
use wrp_town::{List, Town};

/// The net of a web: two arcs for each street with weight between two nodes.
pub(crate) fn net_of(
    alloc: Global,
    town: &Town,
    point: &Point,
    map: &[u32],
) -> Result<Net, AllocError>
    requires point { IsPoint town.now point.now }
    requires numbers { HasNumbers point.now }
    requires map { IsPending (web_of town.now point.now) map.now }
    ensures { IfOk result (IsNetOf (web_of town.now point.now) (reading map.now)) }
{
    let mut arcs = List::new(alloc);
    for street in 0..town.streets.len() as u32 {
        let from = map[town.tail(2 * street) as usize];
        let to = map[town.head(2 * street) as usize];
        add_street(&mut arcs, from, to, weight(town, point, street))?;
    }
    Ok(Net {
        nodes: town.junctions.len() as u32,
        arcs,
    })
}

/// What a street has beyond its demands.
fn weight(town: &Town, point: &Point, street: u32) -> u128
    requires street { street < length town.now.streets }
    requires point { IsPoint town.now point.now }
    requires numbers { HasNumbers point.now }
    ensures value { result
        ≡ spare town.now (denominator_of point.now) (numbers_of point.now) street }
    ensures small { result ≤ 2 ^ 73 }
{
    let tally = tally_of(town, point, street);
    tally
        .sum
        .saturating_sub(denominator(point) * u128::from(tally.demands))
}

/// Adds the arcs of a street, one each way, where it has weight and joins two nodes.
fn add_street(
    arcs: &mut List<(u32, u32, i128)>,
    from: u32,
    to: u32,
    weight: u128,
) -> Result<(), AllocError>
    requires { weight ≤ 2 ^ 73 }
    ensures { OnOk result (IsPair from to weight arcs.old arcs.new) }
{
    if from != to && weight > 0 {
        arcs.push((from, to, weight as i128))?;
        arcs.push((to, from, weight as i128))?;
    }
    Ok(())
}
