//! What no clause says: that a K-C cut is found on a worked point.
ghost use Rattle.wrp_rows.specs.Points.{IsPoint};
ghost use Rattle.wrp_odd.specs.Points.{HasNumbers};

use crate::points::{is_balanced, point_of};
use std::alloc::{AllocError, Global};
use std::test::Fail;
use wrp_graph::Graph;
use wrp_kc::kc_candidates;
use wrp_parts::required_parts;
use wrp_rows::{Point, Rows};
use wrp_rules::Record;
use wrp_street::{TableFault, Town, read_town};

/// Two required streets between the same junctions, and a way between these past two loops.
const LOOPS: &[u8] = b"street,from,to,forward,backward,need\n\
a,P,S,1,1,yes\nb,P,S,1,1,yes\nl,Q,Q,0,-,yes\nm,R,R,0,-,yes\n\
f,P,Q,1,1,no\ng,Q,R,1,1,no\nh,R,S,1,1,no\n";

/// The K-C cuts at a point; nothing where it is no point that is balanced.
fn cuts_at(alloc: Global, town: &Town, point: &Point) -> Result<Vec<Record>, AllocError> {
    if !is_balanced(town, point) {
        return Ok(Vec::new(alloc));
    }
    let graph = Graph::new(alloc, town)?;
    cuts_in(alloc, &graph, point)
}

/// The K-C cuts at a point.
fn cuts_in(alloc: Global, graph: &Graph<'_>, point: &Point) -> Result<Vec<Record>, AllocError>
    requires point { IsPoint graph.now point.now }
    requires numbers { HasNumbers point.now }
{
    let parts = required_parts(alloc, graph)?;
    let rows = Rows::new(alloc, graph.town())?;
    kc_candidates(alloc, &parts, &rows, point)
}

/// The K-C cuts at these halves.
fn cuts_of(alloc: Global, at: &[i128]) -> Result<Vec<Record>, TableFault> {
    let town = read_town(alloc, LOOPS)?;
    let point = point_of(alloc, 2, at)?;
    Ok(cuts_at(alloc, &town, &point)?)
}

#[test]
fn a_chain_past_loops_is_found(rt: HostRuntime) -> Result<(), Fail> {
    let cuts = cuts_of(
        rt.alloc(),
        [1, 1, 1, 1, 2, 0, 2, 0, 1, 1, 1, 1, 1, 1].as_slice(),
    )?;
    assert!(rt; !cuts.is_empty());
    Ok(())
}
