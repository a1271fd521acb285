//! Least cuts by flows that grow along shortest ways.
ghost use Rattle.std.specs.Prelude.{◌≡◌, ◌≤◌, ◌<◌, ◌+◌, ◌^◌, ℕ, pos, ◌*◌, ◌<ℤ◌, ◌≤ℤ◌, None, List, true, length, slice_index, map, IfOk, IfSome};
ghost use Rattle.std.specs.List.{filter, range_with_len};
ghost use Rattle.wrp_webs.specs.Webs.{outside};
ghost use Rattle.wrp_rules.specs.Ranges.{is_set};
ghost use Rattle.wrp_rules.specs.Sets.{is_in};
ghost use Rattle.wrp_flow.specs.Flows.{IsNet, ArePoles, leaving_in, IsFlowList, IsSideOf, LeavesAll};
ghost use Rattle.wrp_flow.specs.Sides.{sides, twin_of, IsStar, IsResidual};
ghost use Rattle.wrp_flow.specs.Searches.{is_marked};
ghost use Rattle.wrp_flow.specs.Cuts.{IsGrown, IsTurned};

use crate::net::{BothCuts, Cut, Net};
use crate::push::push;
use crate::reach::{Mark, Reach};
use crate::star::{Star, side_count, star_of, twin};
use std::alloc::{AllocError, Global};
use wrp_town::List;

/// More than the capacities of a net sum to.
const NO_BOUND: u128 = 1 << 100;

/// A least cut between a source and a sink, and a flow of the same value.
///
/// # Errors
///
/// Want of memory alone.
pub fn min_cut(alloc: Global, net: &Net, s: u32, t: u32) -> Result<Cut, AllocError>
    requires net { IsNet net.now }
    requires poles { ArePoles net.now s t }
    ensures flow { IfOk result (λ cut. IsFlowList net.now s t cut.value cut.flow) }
    ensures set { IfOk result (λ cut. IsSideOf net.now s t cut.set) }
    ensures worth { IfOk result (λ cut. pos (leaving_in net.now (is_in cut.set)) ≡ cut.value) }
    ensures least { IfOk result (λ cut. LeavesAll net.now s t cut.value) }
{
    let star = star_of(alloc, net)?;
    match grown_flow(alloc, net, &star, s, t, NO_BOUND)? {
        Some(found) => cut_of(alloc, net, &found, s, t),
        None => unreachable!(),
    }
}

/// A least cut between a source and a sink whose value is below `enough`, with both its least
/// sides. `None` where at least `enough` can leave each set with the source and without the sink.
///
/// # Errors
///
/// Want of memory alone.
pub fn min_cut_below(
    alloc: Global,
    net: &Net,
    s: u32,
    t: u32,
    enough: i128,
) -> Result<Option<BothCuts>, AllocError>
    requires net { IsNet net.now }
    requires poles { ArePoles net.now s t }
    ensures enough { IfOk result (λ found. found ≡ None → LeavesAll net.now s t enough) }
    ensures below { IfOk result (λ found. IfSome found (λ both. both.cut.value <ℤ enough)) }
    ensures flow { IfOk result (λ found. IfSome found (λ both.
        IsFlowList net.now s t both.cut.value both.cut.flow)) }
    ensures sets { IfOk result (λ found. IfSome found (λ both.
        IsSideOf net.now s t both.cut.set × IsSideOf net.now t s both.sink_side)) }
    ensures worth { IfOk result (λ found. IfSome found (λ both.
        (pos (leaving_in net.now (is_in both.cut.set)) ≡ both.cut.value)
        × (pos (leaving_in net.now (outside (is_in both.sink_side))) ≡ both.cut.value))) }
    ensures least { IfOk result (λ found. IfSome found (λ both.
        LeavesAll net.now s t both.cut.value)) }
{
    let star = star_of(alloc, net)?;
    let limit = limit_of(enough);
    let Some(found) = grown_flow(alloc, net, &star, s, t, limit)? else {
        return Ok(None);
    };
    let cut = cut_of(alloc, net, &found, s, t)?;
    let sink_side = sink_side(alloc, net, &star, found, s, t)?;
    Ok(Some(BothCuts { cut, sink_side }))
}

/// A number of that size where it is above 0, else 0.
fn limit_of(enough: i128) -> u128
    ensures enough { enough ≤ℤ pos result }
    ensures most { 0 < result → pos result ≡ enough }
{
    if enough > 0 { enough as u128 } else { 0 }
}

/// A flow that can't grow: its value, the room that it leaves, and what the source reaches.
#[derive(Debug, Drop)]
struct Grown {
    value: u128,
    room: Vec<u128>,
    reach: Reach,
}

/// Lets a flow grow from 0 until it can't, or until it is worth the limit: then there is no answer.
fn grown_flow(
    alloc: Global,
    net: &Net,
    star: &Star,
    s: u32,
    t: u32,
    limit: u128,
) -> Result<Option<Grown>, AllocError>
    requires net { IsNet net.now }
    requires star { IsStar net.now star.now }
    requires poles { ArePoles net.now s t }
    ensures grown { IfOk result (λ found. IfSome found (λ grown. IsGrown net.now s t grown)) }
    ensures below { IfOk result (λ found. IfSome found (λ grown. grown.value < limit)) }
    ensures enough { IfOk result (λ found. found ≡ None → (value : ℕ) × (room : List ℕ)
        × (limit ≤ value) × IsResidual net.now s t value room) }
{
    let mut room = first_room(alloc, net)?;
    let mut reach = Reach::new(alloc, net)?;
    let mut value = 0;
    while value < limit {
        reach.search(net, star, room.as_slice(), s, t)?;
        if reach.marks[t as usize].is_none() {
            return Ok(Some(Grown { value, room, reach }));
        }
        let more = push(net, reach.marks.as_slice(), room.as_mut_slice(), s, t);
        value += more;
    }
    Ok(None)
}

/// The room of each side where nothing flows: the capacity of an arc on the one side, none on the
/// other.
fn first_room(alloc: Global, net: &Net) -> Result<Vec<u128>, AllocError>
    requires { IsNet net.now }
    ensures { IfOk result (λ room. (s t : ℕ) → IsResidual net.now s t 0 room.items) }
{
    let mut room = Vec::with_capacity(alloc, side_count(net))?;
    for arc in net.arcs.as_slice() {
        room.push(arc.2.unsigned_abs())?;
        room.push(0)?;
    }
    Ok(room)
}

/// The cut round what the source reaches.
fn cut_of(alloc: Global, net: &Net, found: &Grown, s: u32, t: u32) -> Result<Cut, AllocError>
    requires net { IsNet net.now }
    requires poles { ArePoles net.now s t }
    requires grown { IsGrown net.now s t found.now }
    ensures value { IfOk result (λ cut. cut.value ≡ pos found.now.value) }
    ensures flow { IfOk result (λ cut. IsFlowList net.now s t cut.value cut.flow) }
    ensures set { IfOk result (λ cut. IsSideOf net.now s t cut.set) }
    ensures worth { IfOk result (λ cut. pos (leaving_in net.now (is_in cut.set)) ≡ cut.value) }
    ensures least { IfOk result (λ cut. LeavesAll net.now s t cut.value) }
{
    let flow = flow_of(alloc, net, found.room.as_slice())?;
    let set = marked(alloc, net, found.reach.marks.as_slice())?;
    Ok(Cut {
        value: found.value as i128,
        flow,
        set,
    })
}

/// What each arc carries.
fn flow_of(alloc: Global, net: &Net, room: &[u128]) -> Result<List<i128>, AllocError>
    requires room { length room.now ≡ sides net.now }
    requires small { (k : ℕ) → k < length room.now → slice_index room.now k < 2 ^ 100 }
    ensures { IfOk result (λ flow. flow
        ≡ map (λ a. pos (slice_index room.now (2 * a + 1))) (range_with_len 0 (length net.now.arcs))) }
{
    let mut flow = Vec::with_capacity(alloc, net.arcs.len())?;
    for arc in 0..net.arcs.len() {
        flow.push(room[2 * arc + 1] as i128)?;
    }
    Ok(List::from_vec(flow))
}

/// The nodes with marks.
fn marked(alloc: Global, net: &Net, marks: &[Option<Mark>]) -> Result<List<u32>, AllocError>
    requires { length marks.now ≡ net.now.nodes }
    ensures items { IfOk result (λ set. set
        ≡ filter (is_marked marks.now) (range_with_len 0 net.now.nodes)) }
    ensures ascends { IfOk result (λ set. is_set set ≡ true) }
{
    let mut set = Vec::new(alloc);
    for node in 0..net.nodes {
        if marks[node as usize].is_some() {
            set.push(node)?;
        }
    }
    Ok(List::from_vec(set))
}

/// The nodes from which the sink is still reached, where the flow can't grow.
fn sink_side(
    alloc: Global,
    net: &Net,
    star: &Star,
    found: Grown,
    s: u32,
    t: u32,
) -> Result<List<u32>, AllocError>
    requires net { IsNet net.now }
    requires star { IsStar net.now star.now }
    requires poles { ArePoles net.now s t }
    requires grown { IsGrown net.now s t found }
    ensures set { IfOk result (λ set. IsSideOf net.now t s set) }
    ensures worth { IfOk result (λ set. leaving_in net.now (outside (is_in set)) ≡ found.value) }
{
    let room = turned(alloc, net, found.room.as_slice())?;
    let mut reach = found.reach;
    reach.search(net, star, room.as_slice(), t, s)?;
    let set = marked(alloc, net, reach.marks.as_slice())?;
    Ok(set)
}

/// The room of each side as that of the other side of its arc.
fn turned(alloc: Global, net: &Net, room: &[u128]) -> Result<Vec<u128>, AllocError>
    requires { length room.now ≡ sides net.now }
    ensures { IfOk result (λ new. IsTurned net.now room.now new.items) }
{
    let mut new = Vec::with_capacity(alloc, room.len())?;
    for side in 0..room.len() {
        new.push(room[twin(net, side)])?;
    }
    Ok(new)
}
