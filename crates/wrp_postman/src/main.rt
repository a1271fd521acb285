//! The program: finds tours over street tables, and checks proofs of them.
#![tactic(auto)]

#[cfg(test)]
mod cases;
mod command;
mod demo;
mod files;
mod info;
mod input;
mod run;
mod search;
mod solve;
#[cfg(test)]
mod solve_tests;
mod status;
mod telling;
#[cfg(test)]
mod tests;
mod text;
mod words;

use files::files_of;
use run::postman;
use status::Status;
use std::io::ErrorKind;
use std::process::ExitCode;
use std::{env, io};
use telling::tell;
use wrp_out::{FileSink, FileSource, StdoutSink};

/// The words of the command line, without the program's name.
fn words_of(rt: &(impl std::rt::Env + AllocGlobal)) -> io::Result<Vec<String>> {
    let mut words = Vec::new(rt.alloc());
    for word in env::args(rt)?.skip(1) {
        words.push(word)?;
    }
    Ok(words)
}

/// The status of the command that these words are, over files and standard output.
fn status_of(rt: &HostRuntime, words: &[String]) -> Status {
    let files = files_of(words::names(words));
    let mut streets = FileSource::new(rt, files.streets);
    let mut proof_in = FileSource::new(rt, files.proof_in);
    let mut proof_out = FileSink::new(rt, files.proof_out);
    let mut out = StdoutSink::new(rt);
    postman(
        rt.alloc(),
        words,
        &mut streets,
        &mut proof_in,
        &mut proof_out,
        &mut out,
    )
}

fn main(rt: HostRuntime) -> ExitCode {
    let status = match words_of(&rt) {
        Ok(words) => status_of(&rt, &words),
        Err(error) if error.kind() == ErrorKind::OutOfMemory => {
            tell(rt.alloc(), &mut StdoutSink::new(&rt), Status::Memory)
        }
        // Words that aren't text are no command.
        Err(_) => status_of(&rt, &[]),
    };
    ExitCode::from(status.code())
}
