//! The top call: a command over its sources and its outputs.
ghost use Rattle.std.specs.Prelude.{◌≡◌, ◌+◌, ◌<◌, ◌≤◌, ◌^◌, ◌⊎◌, false, IfOk, IfErr, map};
ghost use Rattle.std.specs.String.{string_bytes};
ghost use Rattle.wrp_out.specs.Outside.{Input, TookAtMost};
ghost use Rattle.wrp_rules.specs.Proofs.{most_bytes};
ghost use Rattle.wrp_report.specs.Grid.{grid_of};
ghost use Rattle.wrp_postman.specs.Words.{command_of};
ghost use Rattle.wrp_postman.specs.Inputs.{Stops};
ghost use Rattle.wrp_postman.specs.Outsides.{sources, outputs, outside, WritesSome, LeavesOthers, TakesFew, has_searched};
ghost use Rattle.wrp_postman.specs.Searches.{Solves};
ghost use Rattle.wrp_postman.specs.Runs.{table_bytes, TellsTable, TellsTown, EndsAtTable, EndsAtProof, EndsBehindTable, FindsCheck, IsInfo, IsCanonical, WritesTable, IsDrawnSummary, AnswersDemo, Answers, WritesLine};

use crate::command::Names;
use crate::demo::{SummaryText, put_summary, summary_of};
use crate::info::info_of;
use crate::input::{InputFault, read_all};
use crate::solve::{put_texts, texts_of};
use crate::status::Status;
use crate::telling::{put_text, tell};
use crate::words::names;
use std::alloc::{AllocError, Global};
use wrp_check::{CheckFault, check};
use wrp_out::{Sink, Source};
use wrp_report::town_of;
use wrp_street::{TableFault, Town, canonical, read_town};

/// The bytes that a table may have.
const TABLE_BYTES: usize = 1 << 22;

/// The status of a table that was not read to its end.
fn input_status(fault: InputFault) -> Status
    ensures { (old new : Input) → Stops table_bytes old new fault → EndsAtTable result old new }
{
    match fault {
        InputFault::TooLong => Status::TooLong,
        InputFault::Read => Status::ReadFault,
        InputFault::Memory => Status::Memory,
    }
}

/// The town of the table that a source gives, or the status of a run that ends there.
fn table_of<S: Source>(alloc: Global, streets: &mut S) -> Result<Town, Status>
    ensures town { IfOk result (TellsTable (S.input streets.old)) }
    ensures ends { IfErr result
        (λ status. EndsAtTable status (S.input streets.old) (S.input streets.new)) }
    ensures taken { TookAtMost (table_bytes + 1) (S.input streets.old) (S.input streets.new) }
{
    let bytes = match read_all(alloc, streets, TABLE_BYTES) {
        Ok(bytes) => bytes,
        Err(fault) => return Err(input_status(fault)),
    };
    match read_town(alloc, &bytes) {
        Ok(town) => Ok(town),
        Err(TableFault::Memory) => Err(Status::Memory),
        Err(fault) => Err(Status::TableRefused { fault }),
    }
}

/// The status of a proof of the town.
fn check_proof<P: Source>(alloc: Global, town: &Town, proof: &mut P) -> Status
    ensures ends { EndsAtProof town.now result (P.input proof.old) (P.input proof.new) }
    ensures taken { TookAtMost (most_bytes + 1) (P.input proof.old) (P.input proof.new) }
{
    match check(alloc, town, proof) {
        Ok(end) => Status::Accepted { end },
        Err(CheckFault::Refused { line, rule }) => Status::ProofRefused { line, rule },
        Err(CheckFault::TooLong) => Status::TooLong,
        Err(CheckFault::Read) => Status::ReadFault,
        Err(CheckFault::Memory) => Status::Memory,
    }
}

/// What a check of a proof over a table of streets finds.
fn check_files<S: Source, P: Source>(alloc: Global, streets: &mut S, proof: &mut P) -> Status
    ensures found { FindsCheck result (sources (S.input streets.old) (P.input proof.old))
        (sources (S.input streets.new) (P.input proof.new)) }
    ensures behind { (proof.new ≡ proof.old) ⊎ TellsTown (S.input streets.old) }
    ensures table_taken { TookAtMost (table_bytes + 1) (S.input streets.old) (S.input streets.new) }
    ensures proof_taken { TookAtMost (most_bytes + 1) (P.input proof.old) (P.input proof.new) }
{
    match table_of(alloc, streets) {
        Ok(town) => check_proof(alloc, &town, proof),
        Err(status) => status,
    }
}

/// Tells what the table of streets holds.
fn run_info<S: Source, O: Sink>(alloc: Global, streets: &mut S, out: &mut O) -> Status
    ensures answer { EndsBehindTable
        (λ town. WritesSome (IsInfo town) result (O.output out.old) (O.output out.new))
        result (S.input streets.old) (S.input streets.new) }
    ensures taken { TookAtMost (table_bytes + 1) (S.input streets.old) (S.input streets.new) }
    ensures line { WritesLine result (O.output out.old) (O.output out.new) }
{
    let town = match table_of(alloc, streets) {
        Ok(town) => town,
        Err(status) => return tell(alloc, out, status),
    };
    match info_of(alloc, &town) {
        Ok(text) => put_text(out, &text),
        Err(AllocError) => tell(alloc, out, Status::Memory),
    }
}

/// The table of a town that is drawn.
fn drawn_table(alloc: Global, seed: u32, width: u32, height: u32) -> Result<Vec<u8>, AllocError>
    requires seed { seed < 2 ^ 31 }
    requires width { width ≤ 20 }
    requires height { height ≤ 20 }
    ensures { IfOk result (λ text. IsCanonical (grid_of seed width height) text.items) }
{
    let town = town_of(alloc, seed, width, height)?;
    canonical(alloc, &town)
}

/// Writes the table of a town that is drawn.
fn run_town<O: Sink>(alloc: Global, seed: u32, width: u32, height: u32, out: &mut O) -> Status
    requires seed { seed < 2 ^ 31 }
    requires width { width ≤ 20 }
    requires height { height ≤ 20 }
    ensures answer { WritesTable (grid_of seed width height) result
        (O.output out.old) (O.output out.new) }
    ensures line { WritesLine result (O.output out.old) (O.output out.new) }
{
    match drawn_table(alloc, seed, width, height) {
        Ok(text) => put_text(out, &text),
        Err(AllocError) => tell(alloc, out, Status::Memory),
    }
}

/// The summary of the search of a town that is drawn.
fn drawn_summary(
    alloc: Global,
    seed: u32,
    width: u32,
    height: u32,
    budget: u64,
) -> Result<SummaryText, AllocError>
    requires seed { seed < 2 ^ 31 }
    requires width { width ≤ 20 }
    requires height { height ≤ 20 }
    ensures { IfOk result (IsDrawnSummary (grid_of seed width height) budget) }
{
    let town = town_of(alloc, seed, width, height)?;
    summary_of(alloc, &town, budget)
}

/// Searches a town that is drawn, and writes the summary.
fn run_demo<O: Sink>(
    alloc: Global,
    seed: u32,
    width: u32,
    height: u32,
    budget: u64,
    out: &mut O,
) -> Status
    requires seed { seed < 2 ^ 31 }
    requires width { width ≤ 20 }
    requires height { height ≤ 20 }
    ensures answer { AnswersDemo (grid_of seed width height) budget result
        (O.output out.old) (O.output out.new) }
    ensures line { WritesLine result (O.output out.old) (O.output out.new) }
{
    match drawn_summary(alloc, seed, width, height, budget) {
        Ok(summary) => put_summary(out, &summary),
        Err(AllocError) => tell(alloc, out, Status::Memory),
    }
}

/// Searches the town of the table of streets, and writes what is found.
fn run_solve<S: Source, Q: Sink, O: Sink>(
    alloc: Global,
    budget: u64,
    streets: &mut S,
    proof_out: &mut Q,
    out: &mut O,
) -> Status
    ensures answer { EndsBehindTable
        (λ town. Solves town budget result (outputs (Q.output proof_out.old) (O.output out.old))
        (outputs (Q.output proof_out.new) (O.output out.new)))
        result (S.input streets.old) (S.input streets.new) }
    ensures unwritten { has_searched result ≡ false → proof_out.new ≡ proof_out.old }
    ensures taken { TookAtMost (table_bytes + 1) (S.input streets.old) (S.input streets.new) }
    ensures line { WritesLine result (O.output out.old) (O.output out.new) }
{
    let town = match table_of(alloc, streets) {
        Ok(town) => town,
        Err(status) => return tell(alloc, out, status),
    };
    match texts_of(alloc, &town, budget) {
        Ok(texts) => put_texts(proof_out, out, &texts),
        Err(AllocError) => tell(alloc, out, Status::Memory),
    }
}

/// Runs the command that the words are, over its sources, and writes its text or the line of its
/// status to `out`, and a proof of what a search found to `proof_out`.
///
/// A command calls only its own objects: words that are no command call `out` alone.
pub fn postman<S: Source, P: Source, Q: Sink, O: Sink>(
    alloc: Global,
    words: &[String],
    streets: &mut S,
    proof_in: &mut P,
    proof_out: &mut Q,
    out: &mut O,
) -> Status
    // What the command answers, by what its sources tell, and what it writes.
    ensures answer { Answers (command_of (map string_bytes words.now)) result
        (outside (sources (S.input streets.old) (P.input proof_in.old))
        (outputs (Q.output proof_out.old) (O.output out.old)))
        (outside (sources (S.input streets.new) (P.input proof_in.new))
        (outputs (Q.output proof_out.new) (O.output out.new))) }

    // Other objects than those of the command are as before.
    ensures others { LeavesOthers (command_of (map string_bytes words.now)) result
        (streets.new ≡ streets.old) (proof_in.new ≡ proof_in.old) (proof_out.new ≡ proof_out.old) }

    // A proof is read only behind the table of a town.
    ensures proof_behind_table { (proof_in.new ≡ proof_in.old) ⊎ TellsTown (S.input streets.old) }

    // At most one byte more is read than a table and a proof may have, whatever they hold.
    ensures taken { TakesFew (table_bytes + 1) (most_bytes + 1)
        (sources (S.input streets.old) (P.input proof_in.old))
        (sources (S.input streets.new) (P.input proof_in.new)) }

    // The line of the status was written, or a part of it where a write failed or took nothing.
    ensures line { WritesLine result (O.output out.old) (O.output out.new) }
{
    match names(words) {
        Some(Names::Solve { budget, .. }) => run_solve(alloc, budget, streets, proof_out, out),
        Some(Names::Check { .. }) => {
            let status = check_files(alloc, streets, proof_in);
            tell(alloc, out, status)
        }
        Some(Names::Info { .. }) => run_info(alloc, streets, out),
        Some(
            Names::Town {
                seed,
                width,
                height,
            },
        ) => run_town(alloc, seed, width, height, out),
        Some(
            Names::Demo {
                seed,
                width,
                height,
                budget,
            },
        ) => run_demo(alloc, seed, width, height, budget, out),
        None => tell(alloc, out, Status::Usage),
    }
}
