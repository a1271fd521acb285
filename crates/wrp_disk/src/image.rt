// What a crash leaves of a disk in memory, by the changes that it has kept.
ghost use Rattle.std.specs.Prelude.{◌≡◌, IfOk, OnOk, length, replicate, take};
ghost use Rattle.wrp_disk.specs.Changes.{changed_by, ones_by, pending_by, left_by, image_of};
ghost use Rattle.wrp_disk.specs.Memory.{change_of, changes_of};

use crate::Choice;
use crate::change::MemChange;
use crate::put::put;
use std::alloc::{AllocError, Global};

/// An image of a disk that began with these bytes, and changed so.
pub(crate) fn image_after(
    alloc: Global,
    first: &[u8],
    changes: &[MemChange],
    choice: Choice,
) -> Result<Vec<u8>, AllocError>
    ensures { IfOk result (λ image.
        image.items ≡ image_of choice first.now (changes_of changes.now)) }
{
    let mut bytes = Vec::from_slice(alloc, first)?;
    let mut image = Vec::from_slice(alloc, first)?;
    for change in changes {
        leave(alloc, &mut image, choice, change, &bytes)?;
        apply(&mut bytes, change)?;
    }
    Ok(image)
}

/// What a read gives after a change.
fn apply(bytes: &mut Vec<u8>, change: &MemChange) -> Result<(), AllocError>
    ensures { OnOk result (bytes.new.items ≡ changed_by (change_of change.now) bytes.old.items) }
{
    match change {
        MemChange::Wrote { at, bytes: piece } => put(bytes, *at, piece),
        _ => Ok(()),
    }
}

/// What a crash leaves after a change of a disk with these bytes.
fn leave(
    alloc: Global,
    image: &mut Vec<u8>,
    choice: Choice,
    change: &MemChange,
    bytes: &[u8],
) -> Result<(), AllocError>
    ensures { OnOk result (image.new.items
        ≡ left_by choice (change_of change.now) bytes.now image.old.items) }
{
    match change {
        MemChange::Wrote { .. } => leave_pending(alloc, image, choice, change),
        MemChange::Tore { .. } => leave_pending(alloc, image, choice, change),
        MemChange::Synced => {
            image.clear();
            image.extend_from_slice(bytes)
        }
    }
}

/// What a crash leaves after a pending change.
fn leave_pending(
    alloc: Global,
    image: &mut Vec<u8>,
    choice: Choice,
    change: &MemChange,
) -> Result<(), AllocError>
    ensures { OnOk result
        (image.new.items ≡ pending_by choice (change_of change.now) image.old.items) }
{
    match choice {
        Choice::Old => Ok(()),
        Choice::New => apply(image, change),
        Choice::Ones => put_ones(alloc, image, change),
        Choice::Short => {
            let length = image.len();
            put_ones(alloc, image, change)?;
            image.truncate(length);
            Ok(())
        }
    }
}

/// Writes ones in the range of a write.
fn put_ones(alloc: Global, bytes: &mut Vec<u8>, change: &MemChange) -> Result<(), AllocError>
    ensures { OnOk result (bytes.new.items ≡ ones_by (change_of change.now) bytes.old.items) }
{
    match change {
        MemChange::Wrote { at, bytes: piece } => put(bytes, *at, &ones(alloc, piece.len())?),
        MemChange::Tore { at, count } => put(bytes, *at, &ones(alloc, *count)?),
        MemChange::Synced => Ok(()),
    }
}

/// So many ones.
fn ones(alloc: Global, count: usize) -> Result<Vec<u8>, AllocError>
    ensures { IfOk result (λ all. all.items ≡ replicate count 1) }
{
    vec![in alloc; 1; count]
}
