//! How a run of the program ends.
ghost use Rattle.std.specs.Prelude.{◌≡◌};
ghost use Rattle.wrp_postman.specs.Statuses.{code_of};

use thiserror::Error;
use wrp_proof::{End, Rule};
use wrp_street::TableFault;

/// Why a file of stops was refused. Lines are numbered from 1.
#[derive(Clone, Copy, Debug, PartialEq, Eq, Error)]
pub enum VisitFault {
    /// The line names no junction.
    #[error("stops Unknown line {line}")]
    Unknown { line: u32 },
    /// An earlier line names the same junction.
    #[error("stops Repeat line {line}")]
    Repeat { line: u32 },
    /// The stop would pass the limits of a town.
    #[error("stops Full line {line}")]
    Full { line: u32 },
    /// No memory was found.
    #[error("no memory")]
    Memory,
}

/// Why a file of turn bans was refused. Lines are numbered from 1.
#[derive(Clone, Copy, Debug, PartialEq, Eq, Error)]
pub enum TurnFault {
    /// The line isn't two steps.
    #[error("bans Form line {line}")]
    Form { line: u32 },
    /// The two steps are no turn of the town.
    #[error("bans Turn line {line}")]
    Turn { line: u32 },
    /// The street may be driven either way and has two legal directions.
    #[error("bans Either street {street}")]
    Either { street: u32 },
    /// The expanded town would pass the limits.
    #[error("bans Size {junctions} {streets}")]
    Size { junctions: u64, streets: u64 },
    /// No memory was found.
    #[error("no memory")]
    Memory,
}

/// Why a log was refused.
#[derive(Clone, Copy, Debug, PartialEq, Eq, Error)]
pub enum LogCause {
    /// The log holds payloads already.
    #[error("log HasRecords {count}")]
    HasRecords { count: u64 },
    /// The log holds no payload.
    #[error("log NoRecords")]
    NoRecords,
    /// The file is no log.
    #[error("log NotALog {length}")]
    NotALog { length: u64 },
    /// The log is broken at this place.
    #[error("log Broken at {at}")]
    Broken { at: u64 },
    /// The log is of another table, which differs at this place.
    #[error("log OtherTable at {at}")]
    OtherTable { at: u64 },
    /// This record, counted from 1, breaks the rule.
    #[error("log BadRecord {index} {rule:?}")]
    BadRecord { index: u64, rule: Rule },
}

/// How a run of the program ended.
#[derive(Clone, Copy, Debug, PartialEq, Eq)]
pub enum Status {
    /// The least cost of a tour was found.
    Optimal {
        cost: u64,
    },
    /// The proof was accepted, with this end.
    Accepted {
        end: End,
    },
    /// The text was written.
    Done,
    /// The budget was spent before the least cost was found.
    Unfinished {
        low: u64,
        high: u64,
        before: u64,
        after: u64,
    },
    /// There is no tour.
    Infeasible,
    /// This line of the proof, counted from 1, breaks the rule.
    ProofRefused {
        line: u64,
        rule: Rule,
    },
    /// The words are no command.
    Usage,
    /// The street table has this fault first.
    TableRefused {
        fault: TableFault,
    },
    /// An input could not be read.
    ReadFault,
    /// An output could not be written.
    WriteFault,
    /// The disk failed.
    DiskFault,
    /// The log was refused.
    LogRefused {
        cause: LogCause,
    },
    /// The log would pass the disk's limit.
    LogFull {
        length: u64,
        limit: u64,
    },
    /// An input is too long.
    TooLong,
    /// The stops were refused.
    StopsRefused {
        fault: VisitFault,
    },
    /// The bans were refused.
    BansRefused {
        fault: TurnFault,
    },
    /// No memory was found.
    Memory,
}

impl Status {
    /// The exit status of the program.
    pub fn code(self) -> u8
        ensures { result ≡ code_of self }
    {
        match self {
            Status::Optimal { .. } | Status::Accepted { .. } | Status::Done => 0,
            Status::Unfinished { .. } => 1,
            Status::Infeasible => 2,
            Status::ProofRefused { .. } => 3,
            Status::Usage => 4,
            Status::TableRefused { .. } => 5,
            Status::ReadFault => 6,
            Status::WriteFault => 7,
            Status::DiskFault => 8,
            Status::LogRefused { .. } => 9,
            Status::LogFull { .. } => 10,
            Status::TooLong => 11,
            Status::StopsRefused { .. } => 12,
            Status::BansRefused { .. } => 13,
            Status::Memory => 20,
        }
    }
}
