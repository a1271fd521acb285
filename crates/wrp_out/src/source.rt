// A source of bytes, as a reader of a stream sees it.
ghost use Rattle.std.specs.Prelude.{◌≡◌, ◌<◌, ◌≤◌, length, take, drop, IfOk, IsSome, OnErr};
ghost use Rattle.wrp_out.specs.Outside.{Input, Took, ReadFailed, IsZeroAtEnd};

use thiserror::Error;

/// A call of an outside object failed.
#[derive(Clone, Copy, Debug, PartialEq, Eq, Error)]
#[error("a read or a write failed")]
pub struct Failed;

/// Gives bytes in order, until there are none left.
pub trait Source {
    /// What contracts see of the source.
    ghost input: { Self → Input };

    /// Takes the next bytes into the front of `into`, and answers how many. `Ok(0)` is the end.
    fn read(&mut self, into: &mut [u8]) -> Result<usize, Failed>
        requires { 0 < length into.old }
        ensures fits { IfOk result (λ count. count ≤ length into.old) }
        ensures took { IfOk result (λ count.
            Took (input self.old) (input self.new) (take count into.new)) }
        ensures others { IfOk result (λ count. IsSome (input self.old).left
            → drop count into.new ≡ drop count into.old) }
        ensures end { IfOk result (λ count. IsZeroAtEnd (input self.old) count) }
        ensures failed { OnErr result (ReadFailed (input self.old) (input self.new)) };
}
