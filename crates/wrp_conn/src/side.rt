//! Sets of junctions as marks, and the cuts of these sets.
ghost use Rattle.std.specs.Prelude.{◌≡◌, ℕ, ◌/◌, ◌^◌, ◌<◌, ◌≤◌, true, cond, not, [], length, filter, IfOk};
ghost use Rattle.std.specs.List.{All, range_with_len};
ghost use Rattle.wrp_rules.specs.Rules.{all_below};
ghost use Rattle.wrp_rules.specs.Sets.{is_in};
ghost use Rattle.wrp_rows.specs.Marks.{is_marked, AreMarks};
ghost use Rattle.wrp_conn.specs.Founds.{IsSide, IsCutOfSide};

use crate::found::Broken;
use std::alloc::{AllocError, Global};
use wrp_town::List;

/// Marks for the junctions whose node is among these nodes, or for the others.
pub(crate) fn side_of(
    alloc: Global,
    nodes: &[u32],
    set: &[u32],
    inside: bool,
) -> Result<Vec<bool>, AllocError>
    requires nodes { All (λ node. node < length nodes.now) nodes.now }
    requires set { all_below (length nodes.now) set.now ≡ true }
    ensures { IfOk result (λ side. IsSide nodes.now
        (λ node. cond inside (is_in set.now node) (not (is_in set.now node))) side.items) }
{
    let mut marks = vec![in alloc; false; nodes.len()]?;
    mark(set, marks.as_mut_slice());
    let mut side = Vec::with_capacity(alloc, nodes.len())?;
    for node in nodes {
        side.push(is_kept(marks[*node as usize], inside))?;
    }
    Ok(side)
}

/// Marks nodes, where none is marked yet.
fn mark(nodes: &[u32], marks: &mut [bool])
    requires none { AreMarks [] marks.old }
    requires nodes { all_below (length marks.old) nodes.now ≡ true }
    ensures { AreMarks nodes.now marks.new }
{
    for node in nodes {
        marks[*node as usize] = true;
    }
}

/// Whether a mark is that of the side.
fn is_kept(mark: bool, inside: bool) -> bool
    ensures { result ≡ cond inside mark (not mark) }
{
    if inside { mark } else { !mark }
}

/// The cut of the junctions with marks, or of the others where these are fewer: the first street
/// begins in its set.
pub(crate) fn cut_of(
    alloc: Global,
    side: &[bool],
    r1: u32,
    r2: u32,
    value: u128,
) -> Result<Broken, AllocError>
    requires { length side.now < 2 ^ 32 }
    ensures set { IfOk result (IsCutOfSide side.now r1 r2) }
    ensures small { IfOk result (λ cut. length cut.set ≤ length side.now / 2) }
    ensures value { IfOk result (λ cut. cut.value ≡ value) }
{
    let set = members(alloc, side, true)?;
    if set.len() <= side.len() / 2 {
        return Ok(Broken { value, r1, r2, set });
    }
    let set = members(alloc, side, false)?;
    Ok(Broken {
        value,
        r1: r2,
        r2: r1,
        set,
    })
}

/// The junctions with marks or those without, ascending.
fn members(alloc: Global, side: &[bool], inside: bool) -> Result<List<u32>, AllocError>
    requires { length side.now < 2 ^ 32 }
    ensures { IfOk result (λ set. set ≡ filter
        (λ j. cond inside (is_marked side.now j) (not (is_marked side.now j)))
        (range_with_len 0 (length side.now))) }
{
    let mut set = List::new(alloc);
    for (j, mark) in side.iter().enumerate() {
        if is_kept(*mark, inside) {
            set.push(j as u32)?;
        }
    }
    Ok(set)
}
