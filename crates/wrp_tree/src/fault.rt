use std::alloc::AllocError;
use thiserror::Error;
use wrp_rows::RowFault;
use wrp_rules::{Record, Rule};

/// Why a record isn't added.
#[derive(Debug, Drop, Error)]
pub enum ApplyFault {
    /// The record, and the first rule that it breaks.
    #[error("the record breaks the rule {rule:?}")]
    Refused { item: Record, rule: Rule },
    /// Want of memory.
    #[error("no memory")]
    Memory,
}

/// Why a record isn't prepared.
#[derive(Clone, Copy, Debug, PartialEq, Eq, Error)]
pub enum PrepareFault {
    /// The first rule that the record breaks.
    #[error("the record breaks the rule {rule:?}")]
    Refused { rule: Rule },
    /// Want of memory.
    #[error("no memory")]
    Memory,
}

impl From<AllocError> for PrepareFault {
    ghost use Rattle.std.specs.Prelude.{◌≡◌};
    ghost use Rattle.wrp_tree.specs.declared.fault.PrepareFault.TheVariants.{Memory};

    ghost from_gives = { λ _ fault. fault ≡ Memory };

    fn from(_: AllocError) -> PrepareFault {
        PrepareFault::Memory
    }
}

impl From<Rule> for PrepareFault {
    ghost use Rattle.std.specs.Prelude.{◌≡◌};
    ghost use Rattle.wrp_tree.specs.declared.fault.PrepareFault.TheVariants.{Refused};

    ghost from_gives = { λ rule fault. fault ≡ Refused rule };

    fn from(rule: Rule) -> PrepareFault {
        PrepareFault::Refused { rule }
    }
}
