//! The checker's pass over a whole proof.
ghost use Rattle.std.specs.Prelude.{◌≡◌, ◌+◌, ◌<◌, ◌≤◌, ◌^◌, ◌↔◌, ℕ, false, List, [], Some, None, Ok, Err, length, IfOk, IfErr, IfSome, OnOk, IsErrOf};
ghost use Rattle.std.specs.Str.{bytes_eq};
ghost use Rattle.wrp_out.specs.Outside.{Input, Tells, TookAtMost, FaultRose};
ghost use Rattle.wrp_town.specs.declared.town.Town.{Town};
ghost use Rattle.wrp_rules.specs.declared.record.End.{End};
ghost use Rattle.wrp_rules.specs.Proofs.{IsProof, version_2};
ghost use Rattle.wrp_laws.specs.Ends.{EndHolds};
ghost use Rattle.wrp_check.specs.declared.lines.LinesFault.TheVariants as line_faults;
ghost use Rattle.wrp_check.specs.declared.pass.CheckFault.TheVariants as faults;
ghost use Rattle.wrp_rules.specs.Proofs.{most_bytes};
ghost use Rattle.wrp_check.specs.Streams.{ahead, Draws, HasDrawn, Peeks};
ghost use Rattle.wrp_proof.specs.JudgedLines.{is_end as is_end_text};
ghost use Rattle.wrp_check.specs.Verdicts.{Verdict, verdict, limit_of, first_place, Accepted, AnswerIs, FaultOn};
ghost use Rattle.wrp_check.specs.Passes.{TakesLine, Unread, Behind, IsUnderWay, Begins, Steps, MovesOn, Reaches, Whole};

use crate::judge::Judge;
use crate::lines::{Ending, Lines, LinesFault};
use std::alloc::{AllocError, Global};
use thiserror::Error;
use wrp_out::Source;
use wrp_proof::{End, Rule};
use wrp_town::{Town, small};

/// The bytes that a line of version 1 may have, and the first line of any proof.
const LINE_OF_1: u64 = 1 << 24;

/// The bytes that a line of version 2 may have.
const LINE_OF_2: u64 = 1 << 28;

/// Why a proof was not accepted. Lines are numbered from 1.
#[derive(Clone, Copy, Debug, PartialEq, Eq, Error)]
pub enum CheckFault {
    /// This is the first line that breaks a rule, and the rule the first that it breaks.
    #[error("refused {line} {rule:?}")]
    Refused { line: u64, rule: Rule },
    /// A line passes its limit of bytes, or the proof does.
    #[error("too long")]
    TooLong,
    /// A read of the proof failed.
    #[error("read fault")]
    Read,
    /// No memory was found.
    #[error("no memory")]
    Memory,
}

impl From<AllocError> for CheckFault {
    ghost use Rattle.std.specs.Prelude.{◌≡◌};
    ghost use Rattle.wrp_check.specs.declared.pass.CheckFault.TheVariants.{Memory};

    ghost from_gives = { λ _ fault. fault ≡ Memory };

    fn from(_error: AllocError) -> CheckFault {
        CheckFault::Memory
    }
}

/// The fault of a line that was not read.
fn fault_of(fault: LinesFault) -> CheckFault
    ensures too_long { fault ≡ line_faults.TooLong → result ≡ faults.TooLong }
    ensures read { fault ≡ line_faults.Read → result ≡ faults.Read }
    ensures memory { fault ≡ line_faults.Memory → result ≡ faults.Memory }
{
    match fault {
        LinesFault::TooLong => CheckFault::TooLong,
        LinesFault::Read => CheckFault::Read,
        LinesFault::Memory => CheckFault::Memory,
    }
}

/// Where the pass stands, behind the version line.
#[derive(Debug, Drop)]
struct Progress<'t> {
    lines: Lines,
    judge: Judge<'t>,
    /// The bytes that a line may have.
    limit: u64,
    /// The number of the next line.
    number: u64,
}

/// Reads a line, which has to end with a line feed.
fn read_line<P: Source>(
    lines: &mut Lines,
    proof: &mut P,
    limit: u64,
    number: u64,
) -> Result<(), CheckFault>
    requires { limit ≤ version_2.limit }
    ensures line { OnOk result (
        TakesLine limit lines.old lines.new (P.input proof.old) (P.input proof.new)) }
    ensures unread { IfErr result (λ fault.
        IfSome (ahead lines.old (P.input proof.old)).left
        (Unread fault limit number lines.old.taken)) }
    ensures read { IsErrOf result faults.Read → FaultRose (P.input proof.old) (P.input proof.new) }
    ensures draws { Draws lines.old lines.new (P.input proof.old) (P.input proof.new) }
{
    match lines.next(proof, limit) {
        Ok(Ending::Feed) => Ok(()),
        Ok(Ending::Input) => Err(CheckFault::Refused {
            line: number,
            rule: Rule::Missing,
        }),
        Err(fault) => Err(fault_of(fault)),
    }
}

/// Whether a line is this word.
fn is_word(line: &[u8], word: &[u8]) -> bool
    ensures { result ≡ bytes_eq line.now word.now }
{
    line == word
}

/// The bytes that a line may have behind this version line.
fn limit_behind(town: &Town, line: &[u8]) -> Option<u64>
    ensures { result ≡ limit_of town.now line.now }
{
    if is_word(line, b"postman-proof 2") {
        Some(LINE_OF_2)
    } else if is_word(line, b"postman-proof 1") && small(town) {
        Some(LINE_OF_1)
    } else {
        None
    }
}

/// Reads the version line. Answers how many bytes a line may have behind it.
fn read_version<P: Source>(town: &Town, lines: &mut Lines, proof: &mut P) -> Result<u64, CheckFault>
    requires { lines.old.taken ≡ 0 }
    ensures begins { IfOk result (λ limit.
        Begins town.now limit lines.old lines.new (P.input proof.old) (P.input proof.new)) }
    ensures fault { IfErr result (λ fault.
        FaultOn town.now first_place (ahead lines.old (P.input proof.old)) fault) }
    ensures read { IsErrOf result faults.Read → FaultRose (P.input proof.old) (P.input proof.new) }
    ensures draws { Draws lines.old lines.new (P.input proof.old) (P.input proof.new) }
{
    if let Err(fault) = read_line(lines, proof, LINE_OF_1, 1) {
        return Err(fault);
    }
    match limit_behind(town, lines.line()) {
        Some(limit) => Ok(limit),
        None => Err(CheckFault::Refused {
            line: 1,
            rule: Rule::Start,
        }),
    }
}

/// Whether a line begins as an end line does.
fn is_end(line: &[u8]) -> bool
    ensures { result ≡ is_end_text line.now }
{
    line.starts_with(b"end")
}

/// Finds nothing behind the end line, of which this would be the number of the next.
fn close<P: Source>(lines: &mut Lines, proof: &mut P, number: u64) -> Result<(), CheckFault>
    ensures closed { OnOk result (
        Peeks false lines.old lines.new (P.input proof.old) (P.input proof.new)) }
    ensures behind { IfErr result (λ fault.
        IfSome (ahead lines.old (P.input proof.old)).left (Behind fault number lines.old.taken)) }
    ensures read { IsErrOf result faults.Read → FaultRose (P.input proof.old) (P.input proof.new) }
    ensures draws { Draws lines.old lines.new (P.input proof.old) (P.input proof.new) }
{
    match lines.has_more(proof) {
        Ok(false) => Ok(()),
        Ok(true) => Err(CheckFault::Refused {
            line: number,
            rule: Rule::After,
        }),
        Err(fault) => Err(fault_of(fault)),
    }
}

impl<'t> Progress<'t> {
    /// Judges the next line: takes one more record, or answers the end of the proof.
    fn step<P: Source>(&mut self, town: &Town, proof: &mut P) -> Result<Option<End>, CheckFault>
        requires { IsUnderWay town.now self.old }
        ensures steps { Steps town.now self.old self.new
            (P.input proof.old) (P.input proof.new) result }
        ensures moves { result ≡ Ok None → MovesOn town.now self.old self.new }
        ensures read { IsErrOf result faults.Read
            → FaultRose (P.input proof.old) (P.input proof.new) }
        ensures draws { Draws self.old.lines self.new.lines
            (P.input proof.old) (P.input proof.new) }
    {
        let number = self.number;
        if let Err(fault) = read_line(&mut self.lines, proof, self.limit, number) {
            return Err(fault);
        }
        self.number = number + 1;
        if is_end(self.lines.line()) {
            let end = match self.judge.end(self.lines.line()) {
                Ok(end) => end,
                Err(rule) => return Err(CheckFault::Refused { line: number, rule }),
            };
            return match close(&mut self.lines, proof, number + 1) {
                Ok(()) => Ok(Some(end)),
                Err(fault) => Err(fault),
            };
        }
        match self.judge.take(town, self.lines.line()) {
            Ok(Some(rule)) => Err(CheckFault::Refused { line: number, rule }),
            Ok(None) => Ok(None),
            Err(_) => Err(CheckFault::Memory),
        }
    }
}

/// Reads the version line, and stands behind it.
fn begin<'t, P: Source>(
    alloc: Global,
    town: &'t Town,
    proof: &mut P,
) -> Result<Progress<'t>, CheckFault>
    ensures under_way { IfOk result (λ pass. IsUnderWay town.now pass) }
    ensures reaches { IfOk result (λ pass.
        Reaches town.now (P.input proof.old) pass (P.input proof.new)) }
    ensures drawn { IfOk result (λ pass.
        HasDrawn pass.lines (P.input proof.old) (P.input proof.new)) }
    ensures fault { IfErr result (λ fault. FaultOn town.now first_place (P.input proof.old) fault) }
    ensures taken { TookAtMost (most_bytes + 1) (P.input proof.old) (P.input proof.new) }
    ensures read { IsErrOf result faults.Read → FaultRose (P.input proof.old) (P.input proof.new) }
{
    let mut lines = Lines::new(alloc)?;
    let judge = Judge::new(alloc, town)?;
    match read_version(town, &mut lines, proof) {
        Ok(limit) => Ok(Progress {
            lines,
            judge,
            limit,
            number: 2,
        }),
        Err(fault) => Err(fault),
    }
}

/// Reads the whole proof.
fn judge_proof<P: Source>(alloc: Global, town: &Town, proof: &mut P) -> Result<End, CheckFault>
    ensures whole { IfOk result (λ end. Whole town.now (P.input proof.old) end) }
    ensures end { OnOk result (Tells (P.input proof.new).left []) }
    ensures fault { IfErr result (λ fault. FaultOn town.now first_place (P.input proof.old) fault) }
    ensures taken { TookAtMost (most_bytes + 1) (P.input proof.old) (P.input proof.new) }
    ensures read { IsErrOf result faults.Read → FaultRose (P.input proof.old) (P.input proof.new) }
{
    let mut pass = match begin(alloc, town, proof) {
        Ok(pass) => pass,
        Err(fault) => return Err(fault),
    };
    'lines: loop {
        match pass.step(town, proof) {
            Ok(None) => {}
            Ok(Some(end)) => return Ok(end),
            Err(fault) => return Err(fault),
        }
    }
}

/// Reads a proof to its end and says what it proves of the town.
///
/// # Errors
///
/// The first line that breaks a rule, with the first rule that it breaks; or that a line or the
/// whole is too long, where the byte that passes the limit comes before; or a fault of the source;
/// or want of memory.
pub fn check<P: Source>(alloc: Global, town: &Town, proof: &mut P) -> Result<End, CheckFault>
    // The answer is the verdict on the bytes, want of memory and faults of the source apart.
    ensures exact { IfSome (P.input proof.old).left
        (λ bytes. AnswerIs result (verdict town.now bytes)) }
    ensures accepted { IfOk result (λ end. IfSome (P.input proof.old).left
        (λ bytes. IsProof town.now end bytes)) }
    ensures accepts { IfSome (P.input proof.old).left (λ bytes. (end : End)
        → IsProof town.now end bytes → AnswerIs result (Accepted end)) }
    ensures end { OnOk result (Tells (P.input proof.new).left []) }

    // What was accepted is true, whoever wrote the proof.
    ensures holds { IfOk result (λ end. EndHolds town.now end) }

    // It reads at most one byte more than a proof may have, whatever the source holds.
    ensures taken { TookAtMost (most_bytes + 1) (P.input proof.old) (P.input proof.new) }
    ensures read { IsErrOf result faults.Read → FaultRose (P.input proof.old) (P.input proof.new) }
{
    judge_proof(alloc, town, proof)
}

/// The verdict accepts exactly the proofs, each with its end, and that end is true. So no proof has
/// two ends.
pub fn verdict_laws()
    ensures accepts { (town : Town) (end : End) (bytes : List ℕ)
        → IsProof town end bytes ↔ (verdict town bytes ≡ Accepted end) }
    ensures holds { (town : Town) (end : End) (bytes : List ℕ)
        → verdict town bytes ≡ Accepted end → EndHolds town end }
{}
