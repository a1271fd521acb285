//! The files that a command names.
ghost use Rattle.wrp_postman.specs.Files.{AreFilesOf};

use crate::command::Names;

/// The files of a command: the streets, the proof that it reads, and the proof that it writes.
#[derive(Drop)]
pub(crate) struct Files<'a> {
    pub(crate) streets: &'a str,
    pub(crate) proof_in: &'a str,
    pub(crate) proof_out: &'a str,
}

/// The files that a command names. It opens no other.
pub(crate) fn files_of<'a>(names: Option<Names<'a>>) -> Files<'a>
    ensures { AreFilesOf names.entry result }
{
    let (streets, proof_in, proof_out) = match names {
        Some(Names::Solve { streets, proof, .. }) => (streets, "", proof),
        Some(Names::Check { streets, proof }) => (streets, proof, ""),
        Some(Names::Info { streets }) => (streets, "", ""),
        Some(Names::Town { .. } | Names::Demo { .. }) | None => ("", "", ""),
    };
    Files {
        streets,
        proof_in,
        proof_out,
    }
}
