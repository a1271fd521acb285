//! A look at one web of the search.
ghost use Rattle.std.specs.Prelude.{◌≡◌, ℕ, ◌<◌, List as Many, length, IfOk};
ghost use Rattle.std.specs.List.{All};
ghost use Rattle.wrp_rows.specs.Points.{IsPoint};
ghost use Rattle.wrp_webs.specs.TownWebs.{MeetsServices};
ghost use Rattle.wrp_webs.specs.Webs.{IsOddNode};
ghost use Rattle.wrp_webs.specs.Searching.{reading, IsPending};
ghost use Rattle.wrp_town.specs.declared.town.Town.{Town};
ghost use Rattle.wrp_rows.specs.declared.point.Point.{Point as APoint};
ghost use Rattle.wrp_odd.specs.Points.{HasNumbers, denominator_of, numbers_of};
ghost use Rattle.wrp_minodd.specs.Looks.{web_of, IsNetOf, IsOtherNode, HasSeen, HasSeenAll, Shows};

use crate::pairs::{Best, Seen, see};
use crate::sides::odd_nodes;
use crate::web_net::net_of;
use std::alloc::{AllocError, Global};
use wrp_flow::Net;
use wrp_rows::Point;
use wrp_rules::Record;
use wrp_town::Town;

/// What the least cuts between the odd nodes of a web show.
#[derive(Drop)]
pub(crate) enum Look {
    /// No odd set is lighter than the denominator.
    Far,
    /// Broken odd cuts, at least one.
    Found { records: Vec<Record> },
    /// The lightest set with an odd node inside and one outside, which is even: its labels and the
    /// two nodes.
    Split { inside: Vec<u32>, s: u32, t: u32 },
}

/// Looks at the least cuts between the first odd node of a web and each other one.
pub(crate) fn look_at(
    alloc: Global,
    town: &Town,
    point: &Point,
    map: &[u32],
) -> Result<Look, AllocError>
    requires point { IsPoint town.now point.now }
    requires numbers { HasNumbers point.now }
    requires services { MeetsServices town.now (denominator_of point.now) (numbers_of point.now) }
    requires map { IsPending (web_of town.now point.now) map.now }
    ensures { IfOk result (Shows town.now point.now map.now) }
{
    let nodes = odd_nodes(alloc, town, point, map)?;
    let net = net_of(alloc, town, point, map)?;
    let s = nodes[0];
    let seen = see_all(alloc, town, point, map, &net, s, &nodes[1..])?;
    Ok(look_of(seen, s))
}

/// Looks at the least cuts between a node and each of the others.
fn see_all(
    alloc: Global,
    town: &Town,
    point: &Point,
    map: &[u32],
    net: &Net,
    s: u32,
    others: &[u32],
) -> Result<Seen, AllocError>
    requires point { IsPoint town.now point.now }
    requires numbers { HasNumbers point.now }
    requires services { MeetsServices town.now (denominator_of point.now) (numbers_of point.now) }
    requires map { IsPending (web_of town.now point.now) map.now }
    requires net { IsNetOf (web_of town.now point.now) (reading map.now) net.now }
    requires s { IsOddNode (web_of town.now point.now) (reading map.now) s }
    requires others { All (IsOtherNode (web_of town.now point.now) (reading map.now) s) others.now }
    ensures { IfOk result (HasSeen town.now point.now map.now s others.now) }
{
    let mut seen = Seen {
        records: Vec::new(alloc),
        best: None,
    };
    for t in others {
        see(alloc, town, point, map, net, s, *t, &mut seen)?;
    }
    Ok(seen)
}

/// What was seen, as an answer.
fn look_of(seen: Seen, s: u32) -> Look
    ensures { (town : Town) (point : APoint) (map : Many ℕ) → IsPending (web_of town point) map
        → IsPoint town point → IsOddNode (web_of town point) (reading map) s
        → HasSeenAll town point map s seen → Shows town point map result }
{
    let Seen { records, best } = seen;
    if !records.is_empty() {
        return Look::Found { records };
    }
    match best {
        None => Look::Far,
        Some(Best { inside, t, .. }) => Look::Split { inside, s, t },
    }
}
