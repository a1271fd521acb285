// One step from a gate of a log.
ghost use Rattle.std.specs.Prelude.{◌≡◌, ◌+◌, ◌<◌, ◌≤◌, List, ℕ, length, take, drop};
ghost use Rattle.byteorder.specs.Endian.{big_number};
ghost use Rattle.wrp_log.specs.Steps.{StepIs};

use crate::block::OPEN;
use byteorder::{BigEndian, ByteOrder};

/// What stands at a gate.
#[derive(Clone, Copy, Debug, PartialEq, Eq)]
pub enum Step {
    /// The gate is closed.
    Closed,
    /// The gate is open, and a payload of this many bytes stands behind it.
    Open { size: u64 },
    /// The gate is open, and no payload stands behind it.
    Broken,
}

/// The step at a gate: the first five bytes from it on, the number of all bytes from it on, and the
/// greatest length of a payload.
pub(crate) fn step_of(front: &[u8], left: u64, most: u64) -> Step
    ensures is { (at : ℕ) (bytes : List ℕ) → take 5 bytes ≡ front.now → length bytes ≡ left
        → StepIs most at bytes result }
    ensures within { (size : ℕ) → result ≡ Step.Open size → 5 + size < left }
{
    if front.is_empty() || front[0] != OPEN {
        return Step::Closed;
    }
    if front.len() < 5 {
        return Step::Broken;
    }
    let size = length_in(front);
    if size > most || left <= 5 + size {
        return Step::Broken;
    }
    Step::Open { size }
}

/// The length behind a gate.
fn length_in(front: &[u8]) -> u64
    requires { 5 ≤ length front.now }
    ensures { result ≡ big_number 4 (drop 1 front.now) }
{
    u64::from(BigEndian::read_u32(&front[1..]))
}
