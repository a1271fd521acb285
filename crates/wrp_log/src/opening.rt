// Reading a log from gate to gate.
ghost use Rattle.std.specs.Prelude.{◌≡◌, ◌<◌, ◌≤◌, ◌+◌, ℕ, List, length, take, drop, Some, None, if◌then◌else◌, IfSome, IfOk, IsErrOf};
ghost use Rattle.std.specs.Str.{bytes_eq};
ghost use Rattle.wrp_out.specs.Counts.{Rose, NeverFalls};
ghost use Rattle.wrp_disk.specs.Disks.{Looks, greatest_limit};
ghost use Rattle.wrp_log.specs.Payloads.{IsVersion, gates, payload_limit, version_of, head_size, first_gate};
ghost use Rattle.wrp_log.specs.Steps.{WalkIs, PlaceIs};

use crate::OpenFault;
use crate::log::FIRST_GATE;
use crate::step::{Step, step_of};
use wrp_disk::Disk;

/// The version, the number of payloads and the first closed gate of a log of this many bytes.
pub(crate) fn read_place<D: Disk>(disk: &mut D, total: u64) -> Result<(u8, u64, u64), OpenFault>
    requires long { head_size < total }
    requires small { total ≤ greatest_limit }
    requires all { IfSome (D.meaning disk.old).told (λ bytes. length bytes ≡ total) }
    ensures looks { Looks (D.meaning disk.old) (D.meaning disk.new) }
    ensures place { IfSome (D.meaning disk.old).told (PlaceIs result) }
    ensures range { IfOk result (λ place.
        (place.2 < total) × (place.1 + first_gate ≤ place.2)) }
    ensures version { IfOk result (λ place. IsVersion place.0) }
    ensures memory { IsErrOf result OpenFault.Memory → ⊥ }
    ensures failed { IsErrOf result OpenFault.Disk
        → Rose (D.meaning disk.old).faults (D.meaning disk.new).faults }
{
    let mut head = [0; 8];
    let got = disk.read(0, &mut head)?;
    match version_in(&head[..got], b"WRPLOG0") {
        Some(version) => {
            let (count, gate) = walk(disk, total, limit_of(version))?;
            Ok((version, count, gate))
        }
        None => Err(OpenFault::NotALog { length: total }),
    }
}

/// The greatest length of a payload.
pub(crate) fn limit_of(version: u8) -> u64
    ensures { result ≡ payload_limit version }
{
    if version == 2 { 1 << 28 } else { 1 << 24 }
}

/// The version of a log whose first eight bytes these are.
fn version_in(head: &[u8], mark: &[u8]) -> Option<u8>
    requires { length mark.now ≡ 7 }
    ensures known { IfSome result IsVersion }
    ensures is { (bytes : List ℕ) → take 8 bytes ≡ head.now → result
        ≡ (if bytes_eq (take 7 bytes) mark.now then Some (version_of bytes) else None) }
{
    if head.len() < 7 || !is_same(&head[..7], mark) {
        return None;
    }
    if head.len() == 8 && head[7] == b'2' {
        return Some(2);
    }
    Some(1)
}

/// Whether these bytes are the same.
fn is_same(bytes: &[u8], others: &[u8]) -> bool
    ensures { result ≡ bytes_eq bytes.now others.now }
{
    bytes == others
}

/// Counts the payloads of a log of this many bytes, and finds its first closed gate.
fn walk<D: Disk>(disk: &mut D, total: u64, most: u64) -> Result<(u64, u64), OpenFault>
    requires long { head_size ≤ total }
    requires small { total ≤ greatest_limit }
    requires all { IfSome (D.meaning disk.old).told (λ bytes. length bytes ≡ total) }
    ensures looks { Looks (D.meaning disk.old) (D.meaning disk.new) }
    ensures walked { IfSome (D.meaning disk.old).told (λ bytes.
        WalkIs result (gates most first_gate 0 (drop first_gate bytes))) }
    ensures range { IfOk result (λ place.
        (place.1 < total) × (place.0 + first_gate ≤ place.1)) }
    ensures memory { IsErrOf result OpenFault.Memory → ⊥ }
    ensures failed { IsErrOf result OpenFault.Disk
        → Rose (D.meaning disk.old).faults (D.meaning disk.new).faults }
{
    let mut count = 0;
    let mut gate = FIRST_GATE;
    loop {
        let mut front = [0; 5];
        let got = disk.read(gate, &mut front)?;
        match step_of(&front[..got], total - gate, most) {
            Step::Closed => return Ok((count, gate)),
            Step::Broken => return Err(OpenFault::Broken { at: gate }),
            Step::Open { size } => {
                gate += 5 + size;
                count += 1;
            }
        }
    }
}
