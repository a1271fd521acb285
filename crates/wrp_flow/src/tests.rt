//! Cuts of small nets.
ghost use Rattle.std.specs.Prelude.{◌≡◌, ◌&&◌, ◌≤◌, ◌<◌, ◌^◌, true, nat_lt, nat_le, unsigned_abs, IfOk};
ghost use Rattle.wrp_flow.specs.Flows.{IsNet};

use crate::{Net, min_cut, min_cut_below};
use std::alloc::{AllocError, Global};
use std::test::Fail;
use wrp_town::List;

// One arc from 0 to 1.
fn one_arc(alloc: Global) -> Result<Net, AllocError>
    ensures net { IfOk result (λ net. IsNet net) }
    ensures nodes { IfOk result (λ net. net.nodes ≡ 2) }
{
    let arcs = List::from_vec(vec![in alloc; (0, 1, 3)]?);
    Ok(Net { nodes: 2, arcs })
}

// Two ways from 0 to 3, of which one narrows and the other widens, and a step between them.
fn two_ways(alloc: Global) -> Result<Net, AllocError>
    ensures net { IfOk result (λ net. IsNet net) }
    ensures nodes { IfOk result (λ net. net.nodes ≡ 4) }
{
    let arcs = [(0, 1, 5), (1, 3, 2), (0, 2, 1), (2, 3, 4), (1, 2, 2)];
    let arcs = List::from_vec(Vec::from_array(alloc, arcs)?);
    Ok(Net { nodes: 4, arcs })
}

#[test]
fn one_arc_is_its_own_cut(rt: HostRuntime) -> Result<(), Fail> {
    let alloc = rt.alloc();
    let net = one_arc(alloc)?;
    let cut = min_cut(alloc, &net, 0, 1)?;
    assert!(rt; cut.value == 3);
    assert_eq!(rt; cut.flow.as_slice(), [3].as_slice());
    assert_eq!(rt; cut.set.as_slice(), [0].as_slice());
    let back = min_cut(alloc, &net, 1, 0)?;
    assert!(rt; back.value == 0);
    assert_eq!(rt; back.set.as_slice(), [1].as_slice());
    Ok(())
}

#[test]
fn a_flow_takes_two_ways(rt: HostRuntime) -> Result<(), Fail> {
    let alloc = rt.alloc();
    let net = two_ways(alloc)?;
    let cut = min_cut(alloc, &net, 0, 3)?;
    assert!(rt; cut.value == 5);
    assert_eq!(rt; cut.flow.as_slice(), [4, 2, 1, 3, 2].as_slice());
    assert_eq!(rt; cut.set.as_slice(), [0, 1].as_slice());
    Ok(())
}

#[test]
fn a_bound_ends_the_search(rt: HostRuntime) -> Result<(), Fail> {
    let alloc = rt.alloc();
    let net = two_ways(alloc)?;
    assert!(rt; min_cut_below(alloc, &net, 0, 3, 5)?.is_none());
    let Some(both) = min_cut_below(alloc, &net, 0, 3, 6)? else {
        panic!(rt; "a cut of 5 is below 6");
    };
    assert!(rt; both.cut.value == 5);
    assert_eq!(rt; both.cut.set.as_slice(), [0, 1].as_slice());
    assert_eq!(rt; both.sink_side.as_slice(), [2, 3].as_slice());
    Ok(())
}
