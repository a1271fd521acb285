//! Parts shrunk to one junction each.
ghost use Rattle.std.specs.Prelude.{◌≡◌, ◌*◌, ◌+◌, ◌<◌, length, IfOk};
ghost use Rattle.wrp_town.specs.Arcs.{is_required};
ghost use Rattle.wrp_parts.specs.RequiredParts.{AreParts};
ghost use Rattle.wrp_webs.specs.TownWebs.{part_node};
ghost use Rattle.wrp_odd.specs.Points.{numbers_of};
ghost use Rattle.wrp_conn.specs.Conns.{IsBalancedPoint};
ghost use Rattle.wrp_conn.specs.Shrunk.{ArePartStreets, AreNodes, IsShrunk, named_by, streets_in};

use crate::net::net_of;
use std::alloc::{AllocError, Global};
use wrp_flow::Net;
use wrp_parts::Parts;
use wrp_rows::Point;
use wrp_town::Town;

/// Parts shrunk to one junction each: the junction that stands for each junction, and the net of a
/// point between them.
#[derive(Drop)]
pub(crate) struct Shrunk {
    pub(crate) nodes: Vec<u32>,
    pub(crate) net: Net,
}

impl Shrunk {
    /// Shrinks each part to the junction where its street begins.
    pub(crate) fn new(
        alloc: Global,
        town: &Town,
        parts: &Parts,
        point: &Point,
        streets: &[Option<u32>],
    ) -> Result<Shrunk, AllocError>
        requires parts { AreParts town.now parts.now.count parts.now.of }
        requires point { IsBalancedPoint town.now point.now }
        requires streets { ArePartStreets town.now parts.now.count parts.now.of
            (length town.now.streets) streets.now }
        ensures nodes { IfOk result (λ shrunk.
            AreNodes town.now parts.now.of streets.now shrunk.nodes.items) }
        ensures shrunk { IfOk result (IsShrunk town.now (numbers_of point.now)) }
    {
        let nodes = nodes_of(alloc, town, parts, streets)?;
        let net = net_of(alloc, town, nodes.as_slice(), point)?;
        Ok(Shrunk { nodes, net })
    }
}

/// The streets of the parts that have one.
pub(crate) fn streets_in(alloc: Global, streets: &[Option<u32>]) -> Result<Vec<u32>, AllocError>
    ensures { IfOk result (λ all. all.items ≡ streets_in streets.now) }
{
    let mut all = Vec::new(alloc);
    for street in streets {
        if let Some(street) = street {
            all.push(*street)?;
        }
    }
    Ok(all)
}

/// A required street of each part, by the part's number.
pub(crate) fn part_streets(
    alloc: Global,
    town: &Town,
    parts: &Parts,
) -> Result<Vec<Option<u32>>, AllocError>
    requires { AreParts town.now parts.now.count parts.now.of }
    ensures { IfOk result (λ streets. ArePartStreets town.now parts.now.count parts.now.of
        (length town.now.streets) streets.items) }
{
    let mut streets = vec![in alloc; None; parts.count as usize]?;
    for street in 0..town.streets.len() as u32 {
        choose(town, parts, street, streets.as_mut_slice());
    }
    Ok(streets)
}

/// Takes a street for its part, where it is required and the part has none yet.
fn choose(town: &Town, parts: &Parts, street: u32, streets: &mut [Option<u32>])
    requires parts { AreParts town.now parts.now.count parts.now.of }
    requires there { street < length town.now.streets }
    requires before { ArePartStreets town.now parts.now.count parts.now.of street streets.old }
    ensures { ArePartStreets town.now parts.now.count parts.now.of (street + 1) streets.new }
{
    if !is_required(town, street) {
        return;
    }
    if let Some(part) = parts.of.as_slice()[town.tail(2 * street) as usize]
        && streets[part as usize].is_none()
    {
        streets[part as usize] = Some(street);
    }
}

/// Whether a street has a demand.
fn is_required(town: &Town, street: u32) -> bool
    requires { street < length town.now.streets }
    ensures { result ≡ is_required town.now street }
{
    town.streets.as_slice()[street as usize].need.demand_count() > 0
}

/// The junction that stands for each junction: where the street of its part begins, or itself where
/// it has no part.
fn nodes_of(
    alloc: Global,
    town: &Town,
    parts: &Parts,
    streets: &[Option<u32>],
) -> Result<Vec<u32>, AllocError>
    requires parts { AreParts town.now parts.now.count parts.now.of }
    requires streets { ArePartStreets town.now parts.now.count parts.now.of
        (length town.now.streets) streets.now }
    ensures { IfOk result (λ nodes. AreNodes town.now parts.now.of streets.now nodes.items) }
{
    let mut nodes = Vec::with_capacity(alloc, town.junctions.len())?;
    for j in 0..town.junctions.len() as u32 {
        nodes.push(node_of(town, parts, streets, j))?;
    }
    Ok(nodes)
}

/// The junction that stands for a junction.
fn node_of(town: &Town, parts: &Parts, streets: &[Option<u32>], j: u32) -> u32
    requires parts { AreParts town.now parts.now.count parts.now.of }
    requires streets { ArePartStreets town.now parts.now.count parts.now.of
        (length town.now.streets) streets.now }
    requires there { j < length town.now.junctions }
    ensures { result ≡ part_node parts.now.of (named_by town.now streets.now) j }
{
    match parts.of.as_slice()[j as usize] {
        Some(part) => match streets[part as usize] {
            Some(street) => town.tail(2 * street),
            None => unreachable!(),
        },
        None => j,
    }
}
