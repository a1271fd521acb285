//! A flow pushed along the way by which a search reached its goal.
ghost use Rattle.std.specs.Prelude.{◌≡◌, ◌≤◌, ◌<◌, ◌+◌, ◌^◌, ℕ, true, length, slice_index};
ghost use Rattle.wrp_flow.specs.Flows.{IsNet, ArePoles};
ghost use Rattle.wrp_flow.specs.Sides.{sides, twin_of, IsResidual};
ghost use Rattle.wrp_flow.specs.Searches.{is_marked, AreReached};
ghost use Rattle.wrp_flow.specs.Pushes.{IsShifted};

use crate::net::Net;
use crate::reach::{Mark, mark_of};
use crate::star::{begin, twin};

/// Moves room from a side to the other side of its arc.
fn shift(net: &Net, room: &mut [u128], side: usize, much: u128)
    requires inside { side < sides net.now }
    requires room { length room.old ≡ sides net.now }
    requires fits { much ≤ slice_index room.old side }
    requires small { slice_index room.old side + slice_index room.old (twin_of side) < 2 ^ 100 }
    ensures { IsShifted side much room.old room.new }
{
    let other = twin(net, side);
    room[side] -= much;
    room[other] += much;
}

/// Pushes as much along the way to the sink as fits, and answers how much that is.
pub fn push(net: &Net, marks: &[Option<Mark>], room: &mut [u128], s: u32, t: u32) -> u128
    requires net { IsNet net.now }
    requires poles { ArePoles net.now s t }
    requires reached { AreReached net.now room.old s marks.now }
    requires goal { is_marked marks.now t ≡ true }
    requires flow { (value : ℕ) × IsResidual net.now s t value room.old }
    ensures some { 0 < result }
    ensures pushed { (value : ℕ) → IsResidual net.now s t value room.old
        → IsResidual net.now s t (value + result) room.new }
{
    let most = mark_of(marks, t).most;
    let mut node = t;
    while node != s {
        let side = mark_of(marks, node).side;
        shift(net, room, side, most);
        node = begin(net, side);
    }
    most
}
