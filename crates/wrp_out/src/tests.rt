// Each call once, and a caller that knows the traits alone.
ghost use Rattle.std.specs.Prelude.{IfOk};
ghost use Rattle.wrp_out.specs.Outside.{Tells};

use crate::{
    Failed, FileSink, FileSource, MemSink, MemSource, Sink, Source, StdoutSink, SteadySink,
    SteadySource, write_all,
};
use std::alloc::{AllocError, Global};
use std::fs;
use std::test::Fail;

#[derive(Debug, Drop)]
enum Refusal {
    Failed,
    TooLong,
    Memory,
}

impl From<Failed> for Refusal {
    fn from(_: Failed) -> Self {
        Refusal::Failed
    }
}

impl From<AllocError> for Refusal {
    fn from(_: AllocError) -> Self {
        Refusal::Memory
    }
}

/// Reads a source to its end, in pieces of three bytes.
fn read_whole<S: Source>(alloc: Global, source: &mut S) -> Result<Vec<u8>, Refusal>
    ensures { IfOk result (λ whole. Tells (S.input source.old).left whole.items) }
{
    let mut whole = Vec::new(alloc);
    let mut piece = [0; 3];
    'reads: while whole.len() < 100 {
        let count = source.read(&mut piece)?;
        if count == 0 {
            return Ok(whole);
        }
        whole.extend_from_slice(&piece[..count])?;
    }
    Err(Refusal::TooLong)
}

/// Writes two pieces.
fn write_both<S: Sink>(sink: &mut S, first: &[u8], second: &[u8]) -> Result<(), Failed> {
    write_all(sink, first)?;
    write_all(sink, second)
}

#[test]
fn a_steady_source_is_read_in_pieces(rt: HostRuntime) -> Result<(), Fail> {
    let mut source = SteadySource::new(rt.alloc(), b"postman")?;
    let whole = read_whole(rt.alloc(), &mut source)?;
    assert_eq!(rt; whole.as_slice(), b"postman".as_slice());
    Ok(())
}

#[test]
fn a_source_fails_at_its_second_call(rt: HostRuntime) -> Result<(), Fail> {
    let mut source = MemSource::new(rt.alloc(), b"postman", &[2])?;
    let mut piece = [0; 4];
    assert_eq!(rt; source.read(&mut piece), Ok(4));
    assert_eq!(rt; source.read(&mut piece), Err(Failed));
    assert_eq!(rt; source.read(&mut piece), Ok(3));
    assert_eq!(rt; piece.as_slice(), b"mant".as_slice());
    assert_eq!(rt; source.read(&mut piece), Ok(0));
    Ok(())
}

#[test]
fn a_sink_fails_at_its_second_call(rt: HostRuntime) -> Result<(), Fail> {
    let mut sink = MemSink::new(rt.alloc(), &[2])?;
    assert_eq!(rt; write_both(&mut sink, b"post", b"man"), Err(Failed));
    assert_eq!(rt; sink.bytes(), b"post".as_slice());
    write_all(&mut sink, b"age")?;
    assert_eq!(rt; sink.bytes(), b"postage".as_slice());
    assert_eq!(rt; sink.starved(), 0);
    Ok(())
}

#[test]
fn a_steady_sink_takes_what_it_has_room_for(rt: HostRuntime) -> Result<(), Fail> {
    let mut sink = SteadySink::new(rt.alloc(), 6)?;
    assert_eq!(rt; write_both(&mut sink, b"post", b"man"), Err(Failed));
    assert_eq!(rt; sink.bytes(), b"postma".as_slice());
    Ok(())
}

#[test]
fn a_file_is_written_and_read(rt: HostRuntime) -> Result<(), Fail> {
    let name = "wrp_out_bytes";
    {
        let mut sink = FileSink::new(&rt, name);
        write_both(&mut sink, b"post", b"man")?;
    }
    let whole = read_whole(rt.alloc(), &mut FileSource::new(&rt, name))?;
    assert_eq!(rt; whole.as_slice(), b"postman".as_slice());
    fs::remove_file(&rt, name)?;
    Ok(())
}

#[test]
fn a_missing_file_fails(rt: HostRuntime) {
    let mut source = FileSource::new(&rt, "wrp_out_missing");
    assert_eq!(rt; source.read(&mut [0; 4]), Err(Failed));
}

#[test]
fn standard_output_takes_bytes(rt: HostRuntime) -> Result<(), Fail> {
    write_all(&mut StdoutSink::new(&rt), b"postman\n")?;
    Ok(())
}
