//! What can be wrong with bans.
ghost use Rattle.std.specs.Prelude.{◌≡◌};
ghost use Rattle.wrp_turn.specs.declared.fault.TurnFault.TheVariants.{Memory};

use std::alloc::{AllocError, AllocFailed};
use thiserror::Error;

/// Why bans were not read, or a town has no turn town. Lines are numbered from 1.
#[derive(Clone, Copy, Debug, PartialEq, Eq, Error)]
pub enum TurnFault {
    /// The line isn't two steps with one space between them.
    #[error("bans Form line {line}")]
    Form { line: u32 },
    /// A step of the line isn't legal, or the second doesn't begin where the first ends.
    #[error("bans Turn line {line}")]
    Turn { line: u32 },
    /// The street may be driven either way, and both of its directions are legal.
    #[error("bans Either street {street}")]
    Either { street: u32 },
    /// The turn town would have so many junctions and streets, which passes a limit.
    #[error("bans Size {junctions} {streets}")]
    Size { junctions: u64, streets: u64 },
    /// No memory was found.
    #[error("no memory")]
    Memory,
}

impl From<AllocError> for TurnFault {
    ghost from_gives = { λ _ fault. fault ≡ Memory };

    fn from(_error: AllocError) -> TurnFault {
        TurnFault::Memory
    }
}

impl<T: Drop> From<AllocFailed<T>> for TurnFault {
    ghost from_gives = { λ _ fault. fault ≡ Memory };

    fn from(_error: AllocFailed<T>) -> TurnFault {
        TurnFault::Memory
    }
}
