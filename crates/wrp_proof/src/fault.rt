//! Why a line isn't read.
use thiserror::Error;

/// Why a line of a proof isn't read. Places count from 0.
#[derive(Clone, Copy, Debug, PartialEq, Eq, Error)]
pub enum LineFault {
    /// The line isn't in its shape: the longest front of it that is a front of such a line.
    #[error("the line leaves its shape at byte {at}")]
    Form { at: u64 },
    /// A number is written otherwise than it has to be, or out of its range or order: the place of
    /// its first digit.
    #[error("a number breaks a rule at byte {at}")]
    Number { at: u64 },
    /// The line has more than 2^28 bytes.
    #[error("the line is too long")]
    Long,
    /// Memory is wanting.
    #[error("no memory")]
    Memory,
}
