//! A search in breadth from a node, along sides with room.
ghost use Rattle.std.specs.Prelude.{◌≡◌, ◌<◌, ℕ, List, true, false, Some, None, length, slice_index, IfOk, OnOk};
ghost use Rattle.wrp_flow.specs.Flows.{IsNet};
ghost use Rattle.wrp_flow.specs.Sides.{begin_in, end_in, sides, IsStar};
ghost use Rattle.wrp_flow.specs.Searches.{mark_at, is_marked, IsClosed, AreReached, IsSearch, IsDone, GoesOn};

use crate::net::Net;
use crate::star::{Star, end};
use std::alloc::{AllocError, Global};

/// How a node was reached: by a side, at a place in the queue, by a way with room for `most`.
#[derive(Debug, Clone, Copy)]
pub struct Mark {
    pub side: usize,
    pub place: usize,
    pub most: u128,
}

/// The marks of the nodes that a search has reached, and these nodes in their order.
#[derive(Debug, Drop)]
pub struct Reach {
    pub marks: Vec<Option<Mark>>,
    pub queue: Vec<u32>,
}

impl Reach {
    /// Room for the searches of a net.
    pub fn new(alloc: Global, net: &Net) -> Result<Reach, AllocError>
        ensures { IfOk result (λ reach. length reach.marks.items ≡ net.now.nodes) }
    {
        Ok(Reach {
            marks: vec![in alloc; None; net.nodes as usize]?,
            queue: Vec::with_capacity(alloc, net.nodes as usize)?,
        })
    }

    /// Searches from a node until the goal is reached or nothing more can be.
    pub fn search(
        &mut self,
        net: &Net,
        star: &Star,
        room: &[u128],
        from: u32,
        goal: u32,
    ) -> Result<(), AllocError>
        requires net { IsNet net.now }
        requires star { IsStar net.now star.now }
        requires room { length room.now ≡ sides net.now }
        requires marks { length self.old.marks.items ≡ net.now.nodes }
        requires from { from < net.now.nodes }
        requires goal { goal < net.now.nodes }
        ensures reached { OnOk result (AreReached net.now room.now from self.new.marks.items) }
        ensures closed { OnOk result (is_marked self.new.marks.items goal ≡ false
            → IsClosed net.now room.now (is_marked self.new.marks.items)) }
    {
        self.start(net, from)?;
        let mut at = 0;
        while at < self.queue.len() && self.marks[goal as usize].is_none() {
            let node = self.queue[at];
            self.visit(net, star, room, node)?;
            at += 1;
        }
        Ok(())
    }

    /// Begins a search from a node.
    fn start(&mut self, net: &Net, from: u32) -> Result<(), AllocError>
        requires from { from < net.now.nodes }
        requires long { length self.old.marks.items ≡ net.now.nodes }
        ensures { OnOk result ((room : List ℕ)
            → IsSearch net.now room from self.new.marks.items self.new.queue.items) }
    {
        clear(self.marks.as_mut_slice());
        self.queue.clear();
        self.queue.push(from)?;
        let mark = Mark {
            side: 0,
            place: 0,
            most: u128::MAX,
        };
        self.marks[from as usize] = Some(mark);
        Ok(())
    }

    /// Reaches the nodes to which sides with room lead from a node with a mark.
    fn visit(&mut self, net: &Net, star: &Star, room: &[u128], node: u32) -> Result<(), AllocError>
        requires net { IsNet net.now }
        requires star { IsStar net.now star.now }
        requires room { length room.now ≡ sides net.now }
        requires marks { length self.old.marks.items ≡ net.now.nodes }
        requires node { is_marked self.old.marks.items node ≡ true }
        ensures more { OnOk result (GoesOn net.now room.now self.old.marks.items
            self.old.queue.items self.new.marks.items self.new.queue.items) }
        ensures done { OnOk result (IsDone net.now room.now self.new.marks.items node) }
    {
        let mut next = star.last[node as usize];
        while let Some(side) = next {
            self.meet(net, room, node, side)?;
            next = star.before[side];
        }
        Ok(())
    }

    /// Reaches the end of a side that begins at a node with a mark, where it has room and the end
    /// has no mark yet.
    fn meet(&mut self, net: &Net, room: &[u128], node: u32, side: usize) -> Result<(), AllocError>
        requires net { IsNet net.now }
        requires inside { side < sides net.now }
        requires room { length room.now ≡ sides net.now }
        requires marks { length self.old.marks.items ≡ net.now.nodes }
        requires begins { begin_in net.now side ≡ node }
        requires node { is_marked self.old.marks.items node ≡ true }
        ensures more { OnOk result (GoesOn net.now room.now self.old.marks.items
            self.old.queue.items self.new.marks.items self.new.queue.items) }
        ensures done { OnOk result (0 < slice_index room.now side
            → is_marked self.new.marks.items (end_in net.now side) ≡ true) }
    {
        let head = end(net, side);
        if room[side] == 0 || self.marks[head as usize].is_some() {
            return Ok(());
        }
        let most = room[side].min(mark_of(self.marks.as_slice(), node).most);
        let place = self.queue.len();
        self.queue.push(head)?;
        self.marks[head as usize] = Some(Mark { side, place, most });
        Ok(())
    }
}

/// Takes all marks away.
fn clear(marks: &mut [Option<Mark>])
    ensures { (j : ℕ) → mark_at marks.new j ≡ None }
{
    for mark in marks.iter_mut() {
        *mark = None;
    }
}

/// The mark of a node that was reached.
pub fn mark_of(marks: &[Option<Mark>], node: u32) -> Mark
    requires { is_marked marks.now node ≡ true }
    ensures { mark_at marks.now node ≡ Some result }
{
    match marks[node as usize] {
        Some(mark) => mark,
        None => unreachable!(),
    }
}
