//! A reader of the lines of a source, which holds one line and a chunk of the bytes behind it.
ghost use Rattle.std.specs.Prelude.{◌≡◌, ◌≢◌, ◌+◌, ◌-◌, ◌<◌, ◌≤◌, ◌^◌, ◌⊎◌, [], length, take, min, position, ◌==◌, IsTrue, IfOk, IfSome, OnErr, IsErrOf};
ghost use Rattle.wrp_out.specs.Outside.{Tells, Took, FaultRose, ReadFailed};
ghost use Rattle.wrp_rules.specs.Proofs.{version_2, line_feed};
ghost use Rattle.wrp_rules.specs.Proofs.{most_bytes};
ghost use Rattle.wrp_check.specs.Streams.{Draws, HandsOut, PassesLimit, Peeks, PieceTooLong, TakesPiece, ahead, drawn, line_len};
ghost use Rattle.wrp_check.specs.declared.lines.LinesFault.TheVariants.{TooLong, Read, Memory};

use std::alloc::{AllocError, Global};
use std::marker::Model;
use wrp_out::{Failed, Source};

/// The length of a chunk, in bytes.
const CHUNK_BYTES: usize = 65_536;

/// The greatest number of bytes of an input.
const MOST_BYTES: u64 = 1 << 40;

/// How a line of the input ended.
#[derive(Clone, Copy, Debug, PartialEq, Eq)]
pub(crate) enum Ending {
    /// By a line feed.
    Feed,
    /// By the end of the input.
    Input,
}

/// Why a line was not read.
#[derive(Debug, Drop)]
pub(crate) enum LinesFault {
    /// The line passes its limit, or the input passes the greatest number of bytes.
    TooLong,
    /// The source failed.
    Read,
    /// Memory ran out.
    Memory,
}

impl From<AllocError> for LinesFault {
    ghost from_gives = { λ _ fault. fault ≡ Memory };

    fn from(_: AllocError) -> LinesFault {
        LinesFault::Memory
    }
}

impl From<Failed> for LinesFault {
    ghost from_gives = { λ _ fault. fault ≡ Read };

    fn from(_: Failed) -> LinesFault {
        LinesFault::Read
    }
}

/// Reads the lines of a source, one after another.
#[derive(Debug, Drop)]
pub(crate) struct Lines {
    /// What was read last. The bytes from `at` to `end` are pending.
    chunk: Vec<u8>,
    at: usize,
    end: usize,
    /// The line read last, without its line feed.
    line: Vec<u8>,
    /// How many bytes have been handed out in lines, their line feeds too.
    taken: u64,
}

impl Model for Lines {
    ghost use Rattle.std.specs.Prelude.{◌-◌, ◌<◌, ◌≤◌, length, take, drop};
    ghost use Rattle.wrp_check.specs.Streams.{IsWithin, Buffered};

    ghost Value = { Buffered };

    ghost view = { λ l. record {
      pending = take (l.end - l.at) (drop l.at l.chunk.items);
      line = l.line.items;
      taken = l.taken;
    } };

    ghost invariant = { λ l. IsWithin l.at l.end (length l.chunk.items) l.taken };
}

impl Lines {
    /// A reader at the start of an input.
    pub(crate) fn new(alloc: Global) -> Result<Lines, AllocError>
        ensures { IfOk result (λ lines. lines ≡ record { pending = []; line = []; taken = 0 }) }
    {
        Ok(Lines {
            chunk: zeros(alloc, CHUNK_BYTES)?,
            at: 0,
            end: 0,
            line: Vec::new(alloc),
            taken: 0,
        })
    }

    /// The line read last, without its line feed.
    pub(crate) fn line(&self) -> &[u8]
        ensures { result.now ≡ self.now.line }
    {
        &self.line
    }

    /// Reads the next line, whose bytes without the line feed are at most `limit`.
    ///
    /// After an error the reader is of no more use.
    pub(crate) fn next<P: Source>(
        &mut self,
        source: &mut P,
        limit: u64,
    ) -> Result<Ending, LinesFault>
        requires { limit ≤ version_2.limit }
        ensures line { IfOk result (λ ending.
            HandsOut limit ending self.old self.new (P.input source.old) (P.input source.new)) }
        ensures too_long { IsErrOf result TooLong
            → IfSome (ahead self.old (P.input source.old)).left (PassesLimit limit self.old.taken) }
        ensures read { IsErrOf result Read → FaultRose (P.input source.old) (P.input source.new) }
        ensures draws { Draws self.old self.new (P.input source.old) (P.input source.new) }
    {
        self.line.clear();
        while self.is_ready(source)? {
            if self.take_piece(limit)? {
                return Ok(Ending::Feed);
            }
        }
        Ok(Ending::Input)
    }

    /// Whether a byte is left in the input. It takes none.
    ///
    /// After an error the reader is of no more use.
    pub(crate) fn has_more<P: Source>(&mut self, source: &mut P) -> Result<bool, LinesFault>
        ensures more { IfOk result (λ more.
            Peeks more self.old self.new (P.input source.old) (P.input source.new)) }
        ensures below { IfOk result (λ more. IsTrue more → self.old.taken < most_bytes) }

        // A byte is left, and the input has the greatest number of bytes without it.
        ensures too_long { IsErrOf result TooLong → (self.old.taken ≡ most_bytes)
            × IfSome (ahead self.old (P.input source.old)).left (λ bytes. bytes ≢ []) }
        ensures read { IsErrOf result Read → FaultRose (P.input source.old) (P.input source.new) }
        ensures memory { IsErrOf result Memory → ⊥ }
        ensures draws { Draws self.old self.new (P.input source.old) (P.input source.new) }
    {
        let more = self.is_ready(source)?;
        if more && self.taken == MOST_BYTES {
            return Err(LinesFault::TooLong);
        }
        Ok(more)
    }

    /// Reads a chunk where nothing is pending. Answers whether a byte is pending then.
    fn is_ready<P: Source>(&mut self, source: &mut P) -> Result<bool, Failed>
        ensures ready { IfOk result (λ ready.
            Peeks ready self.old self.new (P.input source.old) (P.input source.new)) }
        ensures most { self.old.taken ≤ most_bytes }
        ensures read { OnErr result (FaultRose (P.input source.old) (P.input source.new)) }
        ensures draws { Draws self.old self.new (P.input source.old) (P.input source.new) }
    {
        if self.at < self.end {
            return Ok(true);
        }
        self.fill(source)
    }

    /// Reads a chunk in place of the last one, of which nothing is pending. Answers whether a byte
    /// came.
    fn fill<P: Source>(&mut self, source: &mut P) -> Result<bool, Failed>
        requires { length self.old.pending ≡ 0 }
        ensures came { IfOk result (λ came.
            Peeks came self.old self.new (P.input source.old) (P.input source.new)) }
        ensures read { OnErr result (FaultRose (P.input source.old) (P.input source.new)) }
        ensures draws { Draws self.old self.new (P.input source.old) (P.input source.new) }
    {
        let room = room_for(self.chunk.len(), self.taken);
        let count = read_front(source, &mut self.chunk, room)?;
        self.at = 0;
        self.end = count;
        Ok(count > 0)
    }

    /// Moves the pending bytes up to the first line feed, or all of them, to the end of the line.
    /// Answers whether there was a line feed, which is taken too.
    fn take_piece(&mut self, limit: u64) -> Result<bool, LinesFault>
        requires limit { limit ≤ version_2.limit }
        requires within { length self.old.line ≤ limit }
        ensures piece { IfOk result (λ feed. TakesPiece limit feed self.old self.new) }
        ensures too_long { IsErrOf result TooLong → PieceTooLong limit self.old }
        ensures drawn { drawn self.new ≡ drawn self.old }
        ensures read { IsErrOf result Read → ⊥ }
    {
        let pending = &self.chunk[self.at..self.end];
        let count = line_length(pending);
        let size = (count + 1).min(pending.len());
        if limit < (self.line.len() + count) as u64 {
            return Err(LinesFault::TooLong);
        }
        if MOST_BYTES - self.taken < size as u64 {
            return Err(LinesFault::TooLong);
        }
        let has_feed = count < pending.len();
        self.line.extend_from_slice(&pending[..count])?;
        self.at += size;
        self.taken += size as u64;
        Ok(has_feed)
    }
}

/// Reads at most this many bytes into the front of a chunk. Answers how many came.
fn read_front<P: Source>(source: &mut P, chunk: &mut [u8], room: usize) -> Result<usize, Failed>
    requires some { 0 < room }
    requires inside { room ≤ length chunk.old }
    ensures fits { IfOk result (λ count. count ≤ room) }
    ensures took { IfOk result (λ count.
        Took (P.input source.old) (P.input source.new) (take count chunk.new)) }
    ensures end { IfOk result (λ count. count ≡ 0 → Tells (P.input source.old).left []) }
    ensures failed { OnErr result (ReadFailed (P.input source.old) (P.input source.new)) }
{
    source.read(&mut chunk[..room])
}

/// A vector of this many zeros.
fn zeros(alloc: Global, count: usize) -> Result<Vec<u8>, AllocError>
    ensures { IfOk result (λ bytes. length bytes.items ≡ count) }
{
    vec![in alloc; 0; count]
}

/// How many bytes to ask for: at most one more than the input may still have.
fn room_for(chunk: usize, taken: u64) -> usize
    requires chunk { 0 < chunk }
    requires taken { taken ≤ most_bytes }
    ensures { result ≡ min chunk (most_bytes + 1 - taken) }
{
    chunk.min((MOST_BYTES + 1 - taken) as usize)
}

/// How many bytes stand before the first line feed, or all where there is none.
fn line_length(bytes: &[u8]) -> usize
    ensures count { result ≡ line_len bytes.now }
    ensures within { result ≤ length bytes.now }
{
    match feed_at(bytes) {
        Some(at) => at,
        None => bytes.len(),
    }
}

/// Where the first line feed stands.
fn feed_at(bytes: &[u8]) -> Option<usize>
    ensures { result ≡ position (λ byte. byte == line_feed) bytes.now }
{
    bytes.iter().position(|byte| *byte == b'\n')
}

#[cfg(test)]
mod tests {
    use super::{Ending, Lines, LinesFault};
    use std::test::Fail;
    use wrp_out::{MemSource, SteadySource};

    #[test]
    fn three_lines_are_read(rt: HostRuntime) -> Result<(), Fail> {
        let mut source = SteadySource::new(rt.alloc(), b"rural\n\npost")?;
        let mut lines = Lines::new(rt.alloc())?;
        assert_eq!(rt; lines.next(&mut source, 5)?, Ending::Feed);
        assert_eq!(rt; lines.line(), b"rural".as_slice());
        assert_eq!(rt; lines.next(&mut source, 5)?, Ending::Feed);
        assert!(rt; lines.line().is_empty());
        assert!(rt; lines.has_more(&mut source)?);
        assert_eq!(rt; lines.next(&mut source, 5)?, Ending::Input);
        assert_eq!(rt; lines.line(), b"post".as_slice());
        assert!(rt; !lines.has_more(&mut source)?);
        Ok(())
    }

    #[test]
    fn a_line_may_be_too_long_or_fail(rt: HostRuntime) -> Result<(), Fail> {
        let mut source = MemSource::new(rt.alloc(), b"rural\npost", &[2])?;
        let mut lines = Lines::new(rt.alloc())?;
        assert!(rt; matches!(lines.next(&mut source, 4), Err(LinesFault::TooLong)));
        let mut others = Lines::new(rt.alloc())?;
        assert!(rt; matches!(others.next(&mut source, 4), Err(LinesFault::Read)));
        Ok(())
    }
}
