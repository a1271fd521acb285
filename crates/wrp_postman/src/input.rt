//! Reads a whole source into memory, up to a limit.
ghost use Rattle.std.specs.Prelude.{◌≡◌, ◌+◌, ◌<◌, ◌≤◌, ◌^◌, [], length, IfOk, IfErr};
ghost use Rattle.wrp_out.specs.Outside.{Tells, TookAtMost};
ghost use Rattle.wrp_postman.specs.Inputs.{Adds, Fails, IsWhole, Stops};
ghost use Rattle.wrp_postman.specs.declared.input.InputFault.TheVariants.{Memory};

use std::alloc::{AllocError, Global};
use thiserror::Error;
use wrp_out::Source;

/// The bytes that one read asks for.
const CHUNK: usize = 65_536;

/// Why a source was not read to its end.
#[derive(Clone, Copy, Debug, PartialEq, Eq, Error)]
pub(crate) enum InputFault {
    /// It holds more bytes than the limit.
    #[error("too long")]
    TooLong,
    /// A read failed.
    #[error("read fault")]
    Read,
    /// No memory was found.
    #[error("no memory")]
    Memory,
}

impl From<AllocError> for InputFault {
    ghost from_gives = { λ _ e. e ≡ Memory };

    fn from(_error: AllocError) -> InputFault {
        InputFault::Memory
    }
}

/// This many bytes, each 0.
fn zeros(alloc: Global, count: usize) -> Result<Vec<u8>, AllocError>
    ensures { IfOk result (λ bytes. length bytes.items ≡ count) }
{
    vec![in alloc; 0u8; count]
}

/// One read into the chunk, whose bytes are added at the end. Answers how many: none at the end.
fn read_piece<S: Source>(
    source: &mut S,
    chunk: &mut [u8],
    bytes: &mut Vec<u8>,
) -> Result<usize, InputFault>
    requires { 0 < length chunk.old }
    ensures adds { IfOk result
        (Adds (S.input source.old) (S.input source.new) bytes.old.items bytes.new.items) }
    ensures few { IfOk result (λ count. count ≤ length chunk.old) }
    ensures end { IfOk result (λ count. count ≡ 0 → Tells (S.input source.new).left []) }
    ensures fails { IfErr result (Fails (S.input source.old) (S.input source.new)) }
    ensures taken { TookAtMost (length chunk.old) (S.input source.old) (S.input source.new) }
{
    let Ok(count) = source.read(chunk) else {
        return Err(InputFault::Read);
    };
    bytes.extend_from_slice(&chunk[..count])?;
    Ok(count)
}

/// All bytes of the source, at most `limit`. It asks for no byte past `limit + 1`.
pub(crate) fn read_all<S: Source>(
    alloc: Global,
    source: &mut S,
    limit: usize,
) -> Result<Vec<u8>, InputFault>
    requires { limit < 2 ^ 40 }
    ensures whole { IfOk result
        (λ bytes. IsWhole limit (S.input source.old) (S.input source.new) bytes.items) }
    ensures stops { IfErr result (Stops limit (S.input source.old) (S.input source.new)) }
    ensures taken { TookAtMost (limit + 1) (S.input source.old) (S.input source.new) }
{
    let mut chunk = zeros(alloc, CHUNK)?;
    let mut bytes = Vec::new(alloc);
    while bytes.len() <= limit {
        let room = CHUNK.min(limit + 1 - bytes.len());
        if read_piece(source, &mut chunk[..room], &mut bytes)? == 0 {
            return Ok(bytes);
        }
    }
    Err(InputFault::TooLong)
}
