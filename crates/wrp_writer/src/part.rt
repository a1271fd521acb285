//! The parts of a line, which spaces separate.
ghost use Rattle.std.specs.Prelude.{◌≡◌, ◌≤◌, length, string_bytes, IfOk};
ghost use Rattle.wrp_writer.specs.Seen.{part_text};

use crate::lengths::digits;
use std::alloc::{AllocError, Global};
use wrp_town::Step;

/// One part of a line.
#[derive(Clone, Copy)]
pub(crate) enum Part {
    Number(u64),
    Step(Step),
    Pair(u32, u128),
    Slash,
}

impl Part {
    /// Its text.
    pub(crate) fn text(self, alloc: Global) -> Result<String, AllocError>
        ensures { IfOk result (λ text. string_bytes text ≡ part_text self) }
    {
        match self {
            Part::Number(number) => format!(in alloc; "{number}"),
            Part::Step(Step { street, back: true }) => format!(in alloc; "{street}-"),
            Part::Step(
                Step {
                    street,
                    back: false,
                },
            ) => format!(in alloc; "{street}+"),
            Part::Pair(first, second) => format!(in alloc; "{first}:{second}"),
            Part::Slash => format!(in alloc; "/"),
        }
    }

    /// The length of its text, which is not written for it.
    pub(crate) fn len(self) -> u128
        ensures value { result ≡ length (part_text self) }
        ensures small { result ≤ 99 }
    {
        match self {
            Part::Number(number) => digits(u128::from(number)),
            Part::Step(step) => digits(u128::from(step.street)) + 1,
            Part::Pair(first, second) => digits(u128::from(first)) + 1 + digits(second),
            Part::Slash => 1,
        }
    }
}
