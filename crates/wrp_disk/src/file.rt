// A file as a disk. It tells no bytes, since no contract can say what the system does.
ghost use Rattle.std.specs.Prelude.{◌≡◌, ◌≤◌, length, Ok, IfOk, OnOk, OnErr};
ghost use Rattle.wrp_out.specs.Counts.{NeverFalls, Rose};
ghost use Rattle.wrp_disk.specs.Silent.{silent, lawful_silent, file_limit};

use crate::Disk;
use std::fs::{OpenFile, OpenOptions};
use std::io;
use std::io::{ErrorKind, Read, Seek, SeekFrom, Write};
use std::marker::Model;
use std::rt::Files;
use wrp_out::Failed;

/// The greatest length of a file.
const FILE_LIMIT: u64 = 1 << 40;

/// A file, which is opened at the first call, and made where it is missing. Contracts see the count
/// of its faults.
#[derive(Drop)]
#[derive_where(Debug)]
pub struct FileDisk<'a, R: Files> {
    #[derive_where(skip)]
    files: &'a R,
    name: &'a str,
    #[derive_where(skip)]
    file: Option<R::File>,
    faults: u64,
}

impl<'a, R: Files> Model for FileDisk<'a, R> {
    ghost use Rattle.std.specs.Prelude.{ℕ};

    ghost Value = { ℕ };

    ghost view = { λ d. d.faults };
}

impl<'a, R: Files> FileDisk<'a, R> {
    /// A disk over the file of this name. It opens nothing yet.
    pub fn new(files: &'a R, name: &'a str) -> FileDisk<'a, R>
        ensures { result ≡ 0 }
    {
        FileDisk {
            files,
            name,
            file: None,
            faults: 0,
        }
    }
}

impl<'a, R: Files> Disk for FileDisk<'a, R> {
    ghost meaning = { λ faults. silent faults file_limit };

    ghost lawful = { λ faults. lawful_silent faults file_limit };

    fn limit(&self) -> u64 {
        FILE_LIMIT
    }

    fn len(&mut self) -> Result<u64, Failed> {
        counted(
            length_of(self.files, self.name, &mut self.file),
            &mut self.faults,
        )
    }

    fn read(&mut self, at: u64, into: &mut [u8]) -> Result<usize, Failed> {
        counted(
            read_from(self.files, self.name, &mut self.file, at, into),
            &mut self.faults,
        )
    }

    fn write_at(&mut self, at: u64, bytes: &[u8]) -> Result<(), Failed> {
        counted(
            write_to(self.files, self.name, &mut self.file, at, bytes),
            &mut self.faults,
        )
    }

    fn sync(&mut self) -> Result<(), Failed> {
        counted(
            sync_all(self.files, self.name, &mut self.file),
            &mut self.faults,
        )
    }
}

/// The file of this name, which is opened where it isn't open yet.
fn opened<R: Files>(files: &R, name: &str, file: &mut Option<R::File>) -> io::Result<R::File> {
    match file.take() {
        Some(opened) => Ok(opened),
        None => OpenOptions::new()
            .read(true)
            .write(true)
            .create(true)
            .open(files, name),
    }
}

/// The number of bytes of the file, which is refused where it is too large.
fn length_of<R: Files>(files: &R, name: &str, file: &mut Option<R::File>) -> io::Result<u64>
    ensures { IfOk result (λ count. count ≤ file_limit) }
{
    let opened = opened(files, name, file)?;
    let attributes = opened.metadata();
    *file = Some(opened);
    let count = attributes?.len();
    if count > FILE_LIMIT {
        return Err(ErrorKind::FileTooLarge.into());
    }
    Ok(count)
}

/// Reads from a place of the file on, as many bytes as there are and `into` has room for.
fn read_from<R: Files>(
    files: &R,
    name: &str,
    file: &mut Option<R::File>,
    at: u64,
    into: &mut [u8],
) -> io::Result<usize>
    ensures { IfOk result (λ count. count ≤ length into.old) }
{
    let mut opened = opened(files, name, file)?;
    let count = match opened.seek(SeekFrom::Start(at)) {
        Ok(_) => fill(&mut opened, into),
        Err(error) => Err(error),
    };
    *file = Some(opened);
    count
}

/// Reads until there is no more, or no more room.
fn fill<F: Read>(file: &mut F, into: &mut [u8]) -> io::Result<usize>
    ensures { IfOk result (λ count. count ≤ length into.old) }
{
    let mut done = 0;
    while done < into.len() {
        let count = file.read(&mut into[done..])?;
        if count == 0 {
            return Ok(done);
        }
        done += count;
    }
    Ok(done)
}

/// Writes over the file's bytes from a place on.
fn write_to<R: Files>(
    files: &R,
    name: &str,
    file: &mut Option<R::File>,
    at: u64,
    bytes: &[u8],
) -> io::Result<()> {
    let mut opened = opened(files, name, file)?;
    let outcome = match opened.seek(SeekFrom::Start(at)) {
        Ok(_) => opened.write_all(bytes),
        Err(error) => Err(error),
    };
    *file = Some(opened);
    outcome
}

/// Waits until the system has the file's bytes on its device.
fn sync_all<R: Files>(files: &R, name: &str, file: &mut Option<R::File>) -> io::Result<()> {
    let opened = opened(files, name, file)?;
    let outcome = opened.sync_all();
    *file = Some(opened);
    outcome
}

/// Passes on what came of a call, and counts a fault.
fn counted<T>(outcome: io::Result<T>, faults: &mut u64) -> Result<T, Failed>
    ensures ok { IfOk result (λ value. outcome ≡ Ok value) }
    ensures counts { NeverFalls faults.old faults.new }
    ensures err { OnErr result (Rose faults.old faults.new) }
{
    match outcome {
        Ok(value) => Ok(value),
        Err(_) => {
            *faults = faults.saturating_add(1);
            Err(Failed)
        }
    }
}
