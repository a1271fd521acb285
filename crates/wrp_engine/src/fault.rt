//! Why a search stops.
use std::alloc::AllocError;
use thiserror::Error;
use wrp_keep::FlushFault;

/// Why a search stops before its end. What it added so far stands.
#[derive(Clone, Copy, Debug, PartialEq, Eq, Error)]
pub enum SearchFault {
    /// The log would have this length, above the limit of its disk.
    #[error("the log would have {length} bytes, above {limit}")]
    Full { length: u64, limit: u64 },
    /// The disk failed.
    #[error("the disk failed")]
    Disk,
    /// Want of memory.
    #[error("no memory")]
    Memory,
}

impl From<AllocError> for SearchFault {
    ghost use Rattle.std.specs.Prelude.{◌≡◌};
    ghost use Rattle.wrp_engine.specs.declared.fault.SearchFault.TheVariants.{Memory};

    ghost from_gives = { λ _ fault. fault ≡ Memory };

    fn from(_: AllocError) -> SearchFault {
        SearchFault::Memory
    }
}

impl From<FlushFault> for SearchFault {
    ghost use Rattle.std.specs.Prelude.{◌≡◌};
    ghost use Rattle.wrp_engine.specs.Faults.{of_flush};

    ghost from_gives = { λ fault search. search ≡ of_flush fault };

    fn from(fault: FlushFault) -> SearchFault {
        match fault {
            FlushFault::Full { length, limit } => SearchFault::Full { length, limit },
            FlushFault::Disk => SearchFault::Disk,
        }
    }
}
