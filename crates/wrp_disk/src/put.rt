// Bytes, written over those of a vector.
ghost use Rattle.std.specs.Prelude.{◌≡◌, ◌≤◌, ◌+◌, min, length, take, drop, ◌++◌, OnOk, OnErr};
ghost use Rattle.std.specs.Vec.{vec_capacity};
ghost use Rattle.wrp_disk.specs.Disks.{put_at};

use std::alloc::AllocError;

/// Writes a piece over what is there, and past the end.
pub(crate) fn put(bytes: &mut Vec<u8>, at: u64, piece: &[u8]) -> Result<(), AllocError>
    ensures ok { OnOk result (bytes.new.items ≡ put_at at piece.now bytes.old.items) }
    ensures err { OnErr result (bytes.new.items ≡ bytes.old.items) }
{
    let place = at.min(bytes.len() as u64) as usize;
    let behind = bytes.len() - place;
    bytes.try_reserve(piece.len().saturating_sub(behind))?;
    put_over(bytes, place, piece);
    Ok(())
}

/// Writes a piece over what is there, and past the end, where there is room for it.
pub(crate) fn put_over(bytes: &mut Vec<u8>, at: usize, piece: &[u8])
    requires no_gap { at ≤ length bytes.old.items }
    requires room { at + length piece.now ≤ vec_capacity bytes.old }
    ensures put { bytes.new.items ≡ put_at at piece.now bytes.old.items }
    ensures capacity { vec_capacity bytes.old ≤ vec_capacity bytes.new }
{
    let over = piece.len().min(bytes.len() - at);
    bytes[at..at + over].copy_from_slice(&piece[..over]);
    add(bytes, &piece[over..]);
}

/// Adds bytes for which there is room.
pub(crate) fn add(bytes: &mut Vec<u8>, piece: &[u8])
    requires { length bytes.old.items + length piece.now ≤ vec_capacity bytes.old }
    ensures items { bytes.new.items ≡ bytes.old.items ++ piece.now }
    ensures capacity { vec_capacity bytes.old ≤ vec_capacity bytes.new }
{
    match bytes.extend_from_slice(piece) {
        Ok(()) => {}
        Err(_) => unreachable!(),
    }
}

/// Copies as many bytes from a place on as there are and `into` has room for, and answers how many.
pub(crate) fn copy_from(bytes: &[u8], at: u64, into: &mut [u8]) -> usize
    ensures fits { result ≤ length into.old }
    ensures copied { take result into.new ≡ take (length into.old) (drop at bytes.now) }
    ensures others { drop result into.new ≡ drop result into.old }
{
    if at >= bytes.len() as u64 {
        return 0;
    }
    let rest = &bytes[at as usize..];
    let count = into.len().min(rest.len());
    into[..count].copy_from_slice(&rest[..count]);
    count
}
