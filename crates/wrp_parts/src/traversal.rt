//! Traversal of a network of neighbours, and the parts into which it falls.
ghost use Rattle.std.specs.Prelude.{◌+◌, ◌<◌, [], ◌∷◌, length, IfOk, OnOk};
ghost use Rattle.std.specs.List.{All};
ghost use Rattle.wrp_parts.specs.Traversal.{IsNetwork, IsFresh, IsSpread, HaveParts, AreNumbered, IsVisit};

use std::alloc::{AllocError, Global};
use wrp_graph::Buckets;

/// Numbers the parts of a network by their least junctions. Junctions without neighbours have none.
/// The answer is the number of parts.
pub fn number_parts(
    alloc: Global,
    rows: &Buckets,
    of: &mut [Option<u32>],
) -> Result<u32, AllocError>
    requires network { IsNetwork rows.now }
    requires none { AreNumbered rows.now 0 0 of.old }
    ensures { IfOk result (λ count. AreNumbered rows.now count (length rows.now) of.new) }
{
    let mut count = 0;
    for root in 0..of.len() as u32 {
        count = number_from(alloc, rows, count, root, of)?;
    }
    Ok(count)
}

/// Gives a junction its part, where it has neighbours and no part yet. The answer is the number of
/// parts.
fn number_from(
    alloc: Global,
    rows: &Buckets,
    count: u32,
    root: u32,
    of: &mut [Option<u32>],
) -> Result<u32, AllocError>
    requires network { IsNetwork rows.now }
    requires root { root < length rows.now }
    requires before { AreNumbered rows.now count root of.old }
    ensures { IfOk result (λ number. AreNumbered rows.now number (root + 1) of.new) }
{
    if of[root as usize].is_some() || rows.bucket(root as usize).is_empty() {
        return Ok(count);
    }
    spread(alloc, rows, root, count, of)?;
    Ok(count + 1)
}

/// Gives a part to a junction and to all that it reaches.
fn spread(
    alloc: Global,
    rows: &Buckets,
    root: u32,
    part: u32,
    of: &mut [Option<u32>],
) -> Result<(), AllocError>
    requires network { IsNetwork rows.now }
    requires fresh { IsFresh rows.now root of.old }
    requires parts { HaveParts rows.now part of.old }
    ensures { OnOk result (IsSpread rows.now root part of.old of.new) }
{
    let mut stack = Vec::new(alloc);
    meet(root, part, of, &mut stack)?;
    while let Some(j) = stack.pop() {
        visit(rows.bucket(j as usize), part, of, &mut stack)?;
    }
    Ok(())
}

/// Visits junctions one after the other.
fn visit(
    junctions: &[u32],
    part: u32,
    of: &mut [Option<u32>],
    stack: &mut Vec<u32>,
) -> Result<(), AllocError>
    requires { All (λ j. j < length of.old) junctions.now }
    ensures { OnOk result
        (IsVisit junctions.now part of.old stack.old.items of.new stack.new.items) }
{
    for j in junctions {
        meet(*j, part, of, stack)?;
    }
    Ok(())
}

/// Gives a junction a part and puts it on the stack, where it has no part yet.
fn meet(j: u32, part: u32, of: &mut [Option<u32>], stack: &mut Vec<u32>) -> Result<(), AllocError>
    requires { j < length of.old }
    ensures { OnOk result
        (IsVisit (j ∷ []) part of.old stack.old.items of.new stack.new.items) }
{
    if of[j as usize].is_none() {
        of[j as usize] = Some(part);
        stack.push(j)?;
    }
    Ok(())
}
