// What can be wrong with a table.

ghost use Rattle.std.specs.Prelude.{◌≡◌};
ghost use Rattle.wrp_street.specs.declared.table.TableFault.TheVariants.{Memory};

use std::alloc::{AllocError, AllocFailed};
use thiserror::Error;

/// Why a table makes no town. Rows are numbered from 1 behind the header, fields from 1 to 6.
#[derive(Clone, Copy, Debug, PartialEq, Eq, Error)]
pub enum TableFault {
    /// The first record doesn't name the six columns, or there is none.
    #[error("table Header")]
    Header,
    /// The row doesn't have six fields.
    #[error("table Fields row {row}")]
    Fields { row: u32 },
    /// The field breaks the rule of names.
    #[error("table Name row {row} field {field}")]
    Name { row: u32, field: u32 },
    /// The field is no cost.
    #[error("table Cost row {row} field {field}")]
    Cost { row: u32, field: u32 },
    /// The sixth field is no need.
    #[error("table Need row {row}")]
    Need { row: u32 },
    /// The row is the 4,001st street.
    #[error("table Streets row {row}")]
    Streets { row: u32 },
    /// The row names the 2,001st junction.
    #[error("table Junctions row {row}")]
    Junctions { row: u32 },
    /// The row makes more than 4,000 demands.
    #[error("table Demands row {row}")]
    Demands { row: u32 },
    /// No memory was found.
    #[error("no memory")]
    Memory,
}

impl From<AllocError> for TableFault {
    ghost from_gives = { λ _ fault. fault ≡ Memory };

    fn from(_error: AllocError) -> TableFault {
        TableFault::Memory
    }
}

impl<T: Drop> From<AllocFailed<T>> for TableFault {
    ghost from_gives = { λ _ fault. fault ≡ Memory };

    fn from(_error: AllocFailed<T>) -> TableFault {
        TableFault::Memory
    }
}
