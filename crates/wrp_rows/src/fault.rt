use std::alloc::AllocError;
use thiserror::Error;
use wrp_rules::Rule;

/// Why a cut has no row.
#[derive(Clone, Copy, Debug, PartialEq, Eq, Error)]
pub enum RowFault {
    /// The first rule that the cut breaks.
    #[error("the cut breaks the rule {rule:?}")]
    Broken { rule: Rule },
    /// Want of memory.
    #[error("no memory")]
    Memory,
}

impl From<AllocError> for RowFault {
    ghost use Rattle.std.specs.Prelude.{◌≡◌};
    ghost use Rattle.wrp_rows.specs.declared.fault.RowFault.TheVariants.{Memory};

    ghost from_gives = { λ _ fault. fault ≡ Memory };

    fn from(_: AllocError) -> RowFault {
        RowFault::Memory
    }
}

impl From<Rule> for RowFault {
    ghost use Rattle.std.specs.Prelude.{◌≡◌};
    ghost use Rattle.wrp_rows.specs.declared.fault.RowFault.TheVariants.{Broken};

    ghost from_gives = { λ rule fault. fault ≡ Broken rule };

    fn from(rule: Rule) -> RowFault {
        RowFault::Broken { rule }
    }
}
