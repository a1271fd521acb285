// A sink of bytes, as a writer sees it, and the write of a whole piece.
ghost use Rattle.std.specs.Prelude.{◌≡◌, ◌<◌, ◌≤◌, length, take, IfOk, OnOk, OnErr};
ghost use Rattle.wrp_out.specs.Outside.{Output, Gained, GainedPrefix, WriteFailed, EmptyTake, WriteStopped};

use crate::Failed;

/// Takes bytes in order.
pub trait Sink {
    /// What contracts see of the sink.
    ghost output: { Self → Output };

    /// Adds the first bytes of a piece, and answers how many.
    fn write(&mut self, bytes: &[u8]) -> Result<usize, Failed>
        ensures fits { IfOk result (λ count. count ≤ length bytes.now) }
        ensures gained { IfOk result (λ count.
            Gained (output self.old) (output self.new) (take count bytes.now)) }
        ensures empty { IfOk result (λ count. count ≡ 0 → 0 < length bytes.now
            → EmptyTake (output self.old) (output self.new)) }
        ensures failed { OnErr result (WriteFailed (output self.old) (output self.new)) };
}

/// Adds a whole piece.
pub fn write_all<S: Sink>(sink: &mut S, bytes: &[u8]) -> Result<(), Failed>
    ensures ok { OnOk result (Gained (S.output sink.old) (S.output sink.new) bytes.now) }
    ensures err { OnErr result (GainedPrefix (S.output sink.old) (S.output sink.new) bytes.now) }
    ensures cause { OnErr result (WriteStopped (S.output sink.old) (S.output sink.new)) }
{
    let mut done = 0;
    while done < bytes.len() {
        let taken = sink.write(&bytes[done..])?;
        if taken == 0 {
            return Err(Failed);
        }
        done += taken;
    }
    Ok(())
}
