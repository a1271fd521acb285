// What stands behind a gate, and how it is put on a disk.
ghost use Rattle.std.specs.Prelude.{◌≡◌, ◌<◌, ◌≤◌, ◌+◌, ◌^◌, ◌++◌, [], ◌∷◌, List, ℕ, length, IfSome, IsSome, OnOk, OnErr};
ghost use Rattle.std.specs.Vec.{vec_capacity};
ghost use Rattle.byteorder.specs.Endian.{big_bytes};
ghost use Rattle.wrp_out.specs.Counts.{Rose};
ghost use Rattle.wrp_disk.specs.Disks.{EachImage, Passes, Lasts};
ghost use Rattle.wrp_log.specs.Payloads.{IsWritten, StandsFor, closed_gate, head_size};
ghost use Rattle.wrp_log.specs.Logs.{IsBeforeOrAfter, IsBlock, Stands};

use byteorder::{BigEndian, ByteOrder};
use wrp_disk::Disk;
use wrp_out::Failed;

/// The byte of an open gate.
pub(crate) const OPEN: u8 = 1;

/// The byte of a closed gate.
const CLOSED: u8 = 0;

/// The place of the version, and the byte of version 2.
const VERSION_AT: u64 = 7;

const SECOND_VERSION: u8 = b'2';

/// Writes the mark of version 2 and a closed gate.
pub(crate) fn write_head<D: Disk>(disk: &mut D) -> Result<(), Failed>
    requires fits { head_size ≤ (D.meaning disk.old).limit }
    ensures lasts { Lasts (D.meaning disk.old) (D.meaning disk.new) }
    ensures any_moment { EachImage (λ c. length c ≤ head_size) (D.meaning disk.old)
        → Passes (λ c. length c ≤ head_size) (D.meaning disk.old) (D.meaning disk.new) }
    ensures begun { OnOk result (IsSome (D.meaning disk.old).told
        → EachImage (λ c. length c ≤ head_size) (D.meaning disk.old)
        → EachImage (IsWritten 2 []) (D.meaning disk.new)) }
    ensures failed { OnErr result (Rose (D.meaning disk.old).faults (D.meaning disk.new).faults) }
{
    disk.write_at(0, b"WRPLOG02\0")?;
    disk.sync()
}

/// Writes the byte of version 2.
pub(crate) fn write_version<D: Disk>(disk: &mut D) -> Result<(), Failed>
    requires fits { 8 ≤ (D.meaning disk.old).limit }
    requires no_gap { IfSome (D.meaning disk.old).told (λ bytes. 7 ≤ length bytes) }
    ensures lasts { Lasts (D.meaning disk.old) (D.meaning disk.new) }
    ensures any_moment { (payloads : List (List ℕ))
        → EachImage (IsWritten 1 payloads) (D.meaning disk.old)
        → Passes (StandsFor payloads) (D.meaning disk.old) (D.meaning disk.new) }
    ensures written { OnOk result ((payloads : List (List ℕ)) → IsSome (D.meaning disk.old).told
        → EachImage (IsWritten 1 payloads) (D.meaning disk.old)
        → EachImage (IsWritten 2 payloads) (D.meaning disk.new)) }
    ensures failed { OnErr result (Rose (D.meaning disk.old).faults (D.meaning disk.new).faults) }
{
    disk.write_at(VERSION_AT, &[SECOND_VERSION])?;
    disk.sync()
}

/// Puts a block behind a closed gate, and then opens the gate.
pub(crate) fn add_block<D: Disk>(disk: &mut D, gate: u64, block: &[u8]) -> Result<(), Failed>
    requires fits { gate + 1 + length block.now ≤ (D.meaning disk.old).limit }
    requires small { gate < 2 ^ 62 }
    requires no_gap { IfSome (D.meaning disk.old).told (λ bytes. gate + 1 ≤ length bytes) }
    ensures lasts { Lasts (D.meaning disk.old) (D.meaning disk.new) }
    ensures any_moment { (version : ℕ) (payloads : List (List ℕ)) (payload : List ℕ)
        → Stands version payloads gate (D.meaning disk.old) → IsBlock version payload block.now
        → Passes (IsBeforeOrAfter payloads payload) (D.meaning disk.old) (D.meaning disk.new) }
    ensures added { OnOk result ((version : ℕ) (payloads : List (List ℕ)) (payload : List ℕ)
        → Stands version payloads gate (D.meaning disk.old) → IsBlock version payload block.now
        → EachImage (IsWritten version (payloads ++ payload ∷ [])) (D.meaning disk.new)) }
    ensures failed { OnErr result (Rose (D.meaning disk.old).faults (D.meaning disk.new).faults) }
{
    disk.write_at(gate + 1, block)?;
    disk.sync()?;
    disk.write_at(gate, &[OPEN])?;
    disk.sync()
}

/// What stands behind a gate: the length of a payload, the payload and a closed gate.
pub(crate) fn fill_block(block: &mut Vec<u8>, payload: &[u8])
    requires room { 5 + length payload.now ≤ vec_capacity block.old }
    requires small { length payload.now < 2 ^ 32 }
    ensures is { block.new.items
        ≡ (big_bytes 4 (length payload.now) ++ payload.now) ++ closed_gate ∷ [] }
    ensures capacity { vec_capacity block.old ≤ vec_capacity block.new }
{
    let mut size = [0; 4];
    BigEndian::write_u32(&mut size, payload.len() as u32);
    block.clear();
    put(block, &size);
    put(block, payload);
    put(block, &[CLOSED]);
}

/// Adds bytes for which there is room.
fn put(block: &mut Vec<u8>, bytes: &[u8])
    requires { length block.old.items + length bytes.now ≤ vec_capacity block.old }
    ensures items { block.new.items ≡ block.old.items ++ bytes.now }
    ensures capacity { vec_capacity block.old ≤ vec_capacity block.new }
{
    match block.extend_from_slice(bytes) {
        Ok(()) => {}
        Err(_) => unreachable!(),
    }
}
