// Files and standard output as a source and as sinks. They tell no bytes, since no contract can say
// what the system does.
ghost use Rattle.std.specs.Prelude.{◌≡◌, ◌<◌, ◌≤◌, None, [], length, Ok, IfOk, OnOk, OnErr, IsErr};
ghost use Rattle.wrp_out.specs.Outside.{Gained, WriteFailed, EmptyTake, untold};

use crate::{Failed, Sink, Source};
use std::fs::File;
use std::io;
use std::io::{Read, Write};
use std::marker::Model;
use std::rt::Files;

/// The bytes of a file, which is opened at the first read. Contracts see the count of its faults.
#[derive(Drop)]
#[derive_where(Debug)]
pub struct FileSource<'a, R: Files> {
    #[derive_where(skip)]
    files: &'a R,
    name: &'a str,
    #[derive_where(skip)]
    file: Option<R::File>,
    faults: u64,
}

impl<'a, R: Files> Model for FileSource<'a, R> {
    ghost use Rattle.std.specs.Prelude.{ℕ};

    ghost Value = { ℕ };

    ghost view = { λ s. s.faults };
}

impl<'a, R: Files> FileSource<'a, R> {
    /// A source of the file of this name. It opens nothing yet.
    pub fn new(files: &'a R, name: &'a str) -> FileSource<'a, R>
        ensures { result ≡ 0 }
    {
        FileSource {
            files,
            name,
            file: None,
            faults: 0,
        }
    }
}

impl<'a, R: Files> Source for FileSource<'a, R> {
    ghost input = { λ faults. record { left = None; faults = faults } };

    fn read(&mut self, into: &mut [u8]) -> Result<usize, Failed> {
        match read_from(self.files, self.name, &mut self.file, into) {
            Ok(count) => Ok(count),
            Err(_) => {
                self.faults = self.faults.saturating_add(1);
                Err(Failed)
            }
        }
    }
}

/// Reads from the file of this name, and opens it where it isn't open yet.
fn read_from<R: Files>(
    files: &R,
    name: &str,
    file: &mut Option<R::File>,
    into: &mut [u8],
) -> io::Result<usize>
    ensures { IfOk result (λ count. count ≤ length into.old) }
{
    let mut opened = match file.take() {
        Some(opened) => opened,
        None => File::open(files, name)?,
    };
    let count = opened.read(into);
    *file = Some(opened);
    count
}

/// A file, which is created or emptied at the first write. Contracts see its counts.
#[derive(Drop)]
#[derive_where(Debug)]
pub struct FileSink<'a, R: Files> {
    #[derive_where(skip)]
    files: &'a R,
    name: &'a str,
    #[derive_where(skip)]
    file: Option<R::File>,
    faults: u64,
    empties: u64,
}

impl<'a, R: Files> Model for FileSink<'a, R> {
    ghost use Rattle.wrp_out.specs.Tally.{Tally};

    ghost Value = { Tally };

    ghost view = { λ s. record { faults = s.faults; empties = s.empties } };
}

impl<'a, R: Files> FileSink<'a, R> {
    /// A sink into the file of this name. It opens nothing yet.
    pub fn new(files: &'a R, name: &'a str) -> FileSink<'a, R>
        ensures { result ≡ record { faults = 0; empties = 0 } }
    {
        FileSink {
            files,
            name,
            file: None,
            faults: 0,
            empties: 0,
        }
    }
}

impl<'a, R: Files> Sink for FileSink<'a, R> {
    ghost output = { λ tally. untold tally.faults tally.empties };

    fn write(&mut self, bytes: &[u8]) -> Result<usize, Failed> {
        let outcome = write_to(self.files, self.name, &mut self.file, bytes);
        counted(outcome, bytes.len(), &mut self.faults, &mut self.empties)
    }
}

/// Writes to the file of this name, and creates or empties it where it isn't open yet.
fn write_to<R: Files>(
    files: &R,
    name: &str,
    file: &mut Option<R::File>,
    bytes: &[u8],
) -> io::Result<usize>
    ensures { IfOk result (λ count. count ≤ length bytes.now) }
{
    let mut opened = match file.take() {
        Some(opened) => opened,
        None => File::create(files, name)?,
    };
    let count = opened.write(bytes);
    *file = Some(opened);
    count
}

/// Standard output, which holds nothing back. Contracts see its counts.
#[derive(Drop)]
#[derive_where(Debug)]
pub struct StdoutSink<'a, R: Print> {
    #[derive_where(skip)]
    output: &'a R,
    faults: u64,
    empties: u64,
}

impl<'a, R: Print> Model for StdoutSink<'a, R> {
    ghost use Rattle.wrp_out.specs.Tally.{Tally};

    ghost Value = { Tally };

    ghost view = { λ s. record { faults = s.faults; empties = s.empties } };
}

impl<'a, R: Print> StdoutSink<'a, R> {
    /// A sink into standard output.
    pub fn new(output: &'a R) -> StdoutSink<'a, R>
        ensures { result ≡ record { faults = 0; empties = 0 } }
    {
        StdoutSink {
            output,
            faults: 0,
            empties: 0,
        }
    }
}

impl<'a, R: Print> Sink for StdoutSink<'a, R> {
    ghost output = { λ tally. untold tally.faults tally.empties };

    fn write(&mut self, bytes: &[u8]) -> Result<usize, Failed> {
        let outcome = io::writer(self.output).write(bytes);
        counted(outcome, bytes.len(), &mut self.faults, &mut self.empties)
    }
}

/// Passes on how many bytes of a piece of this length were taken. Counts a fault and an empty take.
fn counted(
    outcome: io::Result<usize>,
    piece: usize,
    faults: &mut u64,
    empties: &mut u64,
) -> Result<usize, Failed>
    ensures ok { IfOk result (λ count. outcome ≡ Ok count) }
    ensures err { OnErr result (IsErr outcome) }
    ensures gained { OnOk result (Gained
        (untold faults.old empties.old) (untold faults.new empties.new) []) }
    ensures empty { IfOk result (λ count. count ≡ 0 → 0 < piece
        → EmptyTake (untold faults.old empties.old) (untold faults.new empties.new)) }
    ensures failed { OnErr result (WriteFailed
        (untold faults.old empties.old) (untold faults.new empties.new)) }
{
    match outcome {
        Ok(count) => {
            if count == 0 && piece > 0 {
                *empties = empties.saturating_add(1);
            }
            Ok(count)
        }
        Err(_) => {
            *faults = faults.saturating_add(1);
            Err(Failed)
        }
    }
}
