// Reading one payload of a log.
ghost use Rattle.std.specs.Prelude.{◌≡◌, ◌<◌, ◌≤◌, ◌+◌, ◌^◌, min, true, ℕ, List, length, take, drop, Some, IfSome, IfOk, OnErr};
ghost use Rattle.std.specs.Vec.{vec_capacity};
ghost use Rattle.byteorder.specs.Endian.{big_number};
ghost use Rattle.wrp_out.specs.Counts.{Rose};
ghost use Rattle.wrp_disk.specs.Disks.{Looks, greatest_limit};
ghost use Rattle.wrp_log.specs.Steps.{HasPayload};

use byteorder::{BigEndian, ByteOrder};
use wrp_disk::Disk;
use wrp_out::Failed;

/// Reads the payload behind the gate at a place into the buffer, and answers whether the disk has
/// it: no later than at the last gate, and no longer than `most`.
pub(crate) fn read_payload<D: Disk>(
    disk: &mut D,
    at: u64,
    last: u64,
    most: u64,
    buffer: &mut Vec<u8>,
) -> Result<bool, Failed>
    requires small { last ≤ greatest_limit }
    requires before { at ≤ last }
    requires room { min last most ≤ vec_capacity buffer.old }
    ensures looks { Looks (D.meaning disk.old) (D.meaning disk.new) }
    ensures read { IfOk result (λ whole. IfSome (D.meaning disk.old).told (λ bytes.
        (payload : List ℕ) → length payload ≤ most → HasPayload at last payload bytes
        → (whole ≡ true) × (buffer.new.items ≡ payload))) }
    ensures within { IfOk result (λ whole. whole ≡ true
        → at + 5 + length buffer.new.items ≤ last) }
    ensures short { IfOk result (λ whole. whole ≡ true → length buffer.new.items ≤ most) }
    ensures capacity { vec_capacity buffer.old ≤ vec_capacity buffer.new }
    ensures failed { OnErr result (Rose (D.meaning disk.old).faults (D.meaning disk.new).faults) }
{
    match read_length(disk, at + 1)? {
        Some(size) if size <= most && at + 5 + size <= last => {
            read_into(disk, at + 5, size as usize, buffer)
        }
        _ => Ok(false),
    }
}

/// Reads the four bytes of a length.
fn read_length<D: Disk>(disk: &mut D, at: u64) -> Result<Option<u64>, Failed>
    ensures looks { Looks (D.meaning disk.old) (D.meaning disk.new) }
    ensures read { IfOk result (λ size. IfSome (D.meaning disk.old).told (λ bytes.
        at + 4 ≤ length bytes → size ≡ Some (big_number 4 (drop at bytes)))) }
    ensures small { IfOk result (λ size. IfSome size (λ n. n < 2 ^ 32)) }
    ensures failed { OnErr result (Rose (D.meaning disk.old).faults (D.meaning disk.new).faults) }
{
    let mut front = [0; 4];
    let got = disk.read(at, &mut front)?;
    if got < 4 {
        return Ok(None);
    }
    Ok(Some(u64::from(BigEndian::read_u32(&front))))
}

/// Reads so many bytes into the buffer, and answers whether there were as many.
fn read_into<D: Disk>(
    disk: &mut D,
    at: u64,
    size: usize,
    buffer: &mut Vec<u8>,
) -> Result<bool, Failed>
    requires room { size ≤ vec_capacity buffer.old }
    ensures looks { Looks (D.meaning disk.old) (D.meaning disk.new) }
    ensures read { IfOk result (λ whole. IfSome (D.meaning disk.old).told (λ bytes.
        at + size ≤ length bytes
        → (whole ≡ true) × (buffer.new.items ≡ take size (drop at bytes)))) }
    ensures size { length buffer.new.items ≡ size }
    ensures capacity { vec_capacity buffer.old ≤ vec_capacity buffer.new }
    ensures failed { OnErr result (Rose (D.meaning disk.old).faults (D.meaning disk.new).faults) }
{
    set_length(buffer, size);
    let count = disk.read(at, buffer)?;
    Ok(count == size)
}

/// Makes the buffer so long. It has room for that.
fn set_length(buffer: &mut Vec<u8>, size: usize)
    requires { size ≤ vec_capacity buffer.old }
    ensures size { length buffer.new.items ≡ size }
    ensures capacity { vec_capacity buffer.old ≤ vec_capacity buffer.new }
{
    match buffer.resize_with(size, || 0) {
        Ok(()) => {}
        Err(_) => unreachable!(),
    }
}
