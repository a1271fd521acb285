// Why records aren't added, staged or acknowledged.
use std::alloc::AllocError;
use thiserror::Error;
use wrp_log::{AppendFault, OpenFault};
use wrp_rules::{Record, Rule};

/// Why a record isn't added.
#[derive(Debug, Drop, Error)]
pub enum AddFault {
    /// The record, and the first rule that it breaks.
    #[error("the record breaks the rule {rule:?}")]
    Refused { item: Record, rule: Rule },
    /// The log would have this length, above the limit of its disk.
    #[error("the log would have {length} bytes, above {limit}")]
    Full { length: u64, limit: u64 },
    /// The disk failed.
    #[error("the disk failed")]
    Disk,
    /// Want of memory.
    #[error("no memory")]
    Memory,
}

/// Why a record isn't staged.
#[derive(Debug, Drop, Error)]
pub enum StageFault {
    /// The record, and the first rule that it breaks.
    #[error("the record breaks the rule {rule:?}")]
    Refused { item: Record, rule: Rule },
    /// The record, and the length of the payload that it would make too long.
    #[error("the payload would have {length} bytes")]
    Long { item: Record, length: u64 },
    /// Want of memory.
    #[error("no memory")]
    Memory,
}

/// Why the staged records aren't acknowledged.
#[derive(Clone, Copy, Debug, PartialEq, Eq, Error)]
pub enum FlushFault {
    /// The log would have this length, above the limit of its disk.
    #[error("the log would have {length} bytes, above {limit}")]
    Full { length: u64, limit: u64 },
    /// The disk failed.
    #[error("the disk failed")]
    Disk,
}

/// Why a log isn't started.
#[derive(Clone, Copy, Debug, PartialEq, Eq, Error)]
pub enum StartFault {
    /// The log has so many payloads already.
    #[error("the log has {count} payloads")]
    HasRecords { count: u64 },
    /// The bytes are not a log.
    #[error("the {length} bytes are not a log")]
    NotALog { length: u64 },
    /// The log is broken at a place.
    #[error("the log is broken at {at}")]
    Broken { at: u64 },
    /// The log would have this length, above the limit of its disk.
    #[error("the log would have {length} bytes, above {limit}")]
    Full { length: u64, limit: u64 },
    /// The disk failed.
    #[error("the disk failed")]
    Disk,
    /// Want of memory.
    #[error("no memory")]
    Memory,
}

/// Why a log isn't opened again.
#[derive(Clone, Copy, Debug, PartialEq, Eq, Error)]
pub enum ReopenFault {
    /// The log has no payload.
    #[error("the log has no records")]
    NoRecords,
    /// The bytes are not a log.
    #[error("the {length} bytes are not a log")]
    NotALog { length: u64 },
    /// The log is broken at a place.
    #[error("the log is broken at {at}")]
    Broken { at: u64 },
    /// The log is of another table: they have so many bytes in common at their front.
    #[error("the log is of another table from byte {at} on")]
    OtherTable { at: u64 },
    /// The first line, counted from 1, that spells no record or whose record breaks a rule, and the
    /// first rule.
    #[error("record {index} breaks the rule {rule:?}")]
    BadRecord { index: u64, rule: Rule },
    /// The disk failed.
    #[error("the disk failed")]
    Disk,
    /// Want of memory.
    #[error("no memory")]
    Memory,
}

impl From<AllocError> for ReopenFault {
    ghost use Rattle.std.specs.Prelude.{◌≡◌};
    ghost use Rattle.wrp_keep.specs.declared.fault.ReopenFault.TheVariants.{Memory};

    ghost from_gives = { λ _ fault. fault ≡ Memory };

    fn from(_: AllocError) -> ReopenFault {
        ReopenFault::Memory
    }
}

impl From<OpenFault> for ReopenFault {
    ghost use Rattle.std.specs.Prelude.{◌≡◌};
    ghost use Rattle.wrp_keep.specs.Faults.{open_as_reopen};

    ghost from_gives = { λ fault kept. kept ≡ open_as_reopen fault };

    fn from(fault: OpenFault) -> ReopenFault {
        match fault {
            OpenFault::NotALog { length } => ReopenFault::NotALog { length },
            OpenFault::Broken { at } => ReopenFault::Broken { at },
            OpenFault::Disk => ReopenFault::Disk,
            OpenFault::Memory => ReopenFault::Memory,
        }
    }
}

impl From<AllocError> for StartFault {
    ghost use Rattle.std.specs.Prelude.{◌≡◌};
    ghost use Rattle.wrp_keep.specs.declared.fault.StartFault.TheVariants.{Memory};

    ghost from_gives = { λ _ fault. fault ≡ Memory };

    fn from(_: AllocError) -> StartFault {
        StartFault::Memory
    }
}

impl From<OpenFault> for StartFault {
    ghost use Rattle.std.specs.Prelude.{◌≡◌};
    ghost use Rattle.wrp_keep.specs.Faults.{open_as_start};

    ghost from_gives = { λ fault kept. kept ≡ open_as_start fault };

    fn from(fault: OpenFault) -> StartFault {
        match fault {
            OpenFault::NotALog { length } => StartFault::NotALog { length },
            OpenFault::Broken { at } => StartFault::Broken { at },
            OpenFault::Disk => StartFault::Disk,
            OpenFault::Memory => StartFault::Memory,
        }
    }
}

impl From<AppendFault> for StartFault {
    ghost use Rattle.std.specs.Prelude.{◌≡◌};
    ghost use Rattle.wrp_keep.specs.Faults.{append_as_start};

    ghost from_gives = { λ fault kept. kept ≡ append_as_start fault };

    fn from(fault: AppendFault) -> StartFault {
        match fault {
            AppendFault::Full { length, limit } => StartFault::Full { length, limit },
            AppendFault::Disk => StartFault::Disk,
        }
    }
}

impl From<AllocError> for AddFault {
    ghost use Rattle.std.specs.Prelude.{◌≡◌};
    ghost use Rattle.wrp_keep.specs.declared.fault.AddFault.TheVariants.{Memory};

    ghost from_gives = { λ _ fault. fault ≡ Memory };

    fn from(_: AllocError) -> AddFault {
        AddFault::Memory
    }
}

impl From<AppendFault> for AddFault {
    ghost use Rattle.std.specs.Prelude.{◌≡◌};
    ghost use Rattle.wrp_keep.specs.Faults.{as_add};

    ghost from_gives = { λ fault kept. kept ≡ as_add fault };

    fn from(fault: AppendFault) -> AddFault {
        match fault {
            AppendFault::Full { length, limit } => AddFault::Full { length, limit },
            AppendFault::Disk => AddFault::Disk,
        }
    }
}

impl From<AppendFault> for FlushFault {
    ghost use Rattle.std.specs.Prelude.{◌≡◌};
    ghost use Rattle.wrp_keep.specs.Faults.{as_flush};

    ghost from_gives = { λ fault kept. kept ≡ as_flush fault };

    fn from(fault: AppendFault) -> FlushFault {
        match fault {
            AppendFault::Full { length, limit } => FlushFault::Full { length, limit },
            AppendFault::Disk => FlushFault::Disk,
        }
    }
}
