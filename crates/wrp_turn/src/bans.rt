//! Bans, read from a file.
ghost use Rattle.std.specs.Prelude.{◌≡◌, ◌+◌, ◌*◌, ◌<◌, ◌≤◌, ◌^◌, Some, None, true, length, IfOk};
ghost use Rattle.wrp_turn.specs.Turns.{follows, are_bans, file_limit};
ghost use Rattle.wrp_turn.specs.Faults.{Answers};
ghost use Rattle.wrp_grammar.specs.Parts.{parts_of};
ghost use Rattle.wrp_turn.specs.BanFiles.{words_of, steps_in, ban_in, wrong_line, wrong_file, bans_in};
ghost use Rattle.wrp_town.specs.Arcs.{arc_of};

use crate::fault::TurnFault;
use std::alloc::{AllocError, Global};
use wrp_grammar::StepsOf;
use wrp_lines::split_line;
use wrp_town::{List, Step, Town};

/// Pairs of arcs of which the second must not follow the first, in the order of their file.
#[derive(Debug, Drop)]
pub struct Bans {
    pub list: List<(u32, u32)>,
}

/// Reads a file of bans over the streets of a town.
///
/// # Errors
///
/// What is wrong with the first bad line: [`TurnFault::Form`], else [`TurnFault::Turn`]. And want
/// of memory.
pub fn read_bans(alloc: Global, town: &Town, bytes: &[u8]) -> Result<Bans, TurnFault>
    requires { length bytes.now ≤ file_limit }
    ensures file { Answers result (wrong_file town.now bytes.now)
        (λ bans. bans.list ≡ bans_in bytes.now) }
    ensures bans { IfOk result (λ bans. are_bans town.now bans.list ≡ true) }
{
    let mut list = List::new(alloc);
    let mut left = bytes;
    let mut number = 1;
    while let Some((line, others)) = split_line(left) {
        list.push(read_ban(alloc, town, number, line)?)?;
        left = others;
        number += 1;
    }
    Ok(Bans { list })
}

/// The ban of a line.
fn read_ban(alloc: Global, town: &Town, number: u32, line: &[u8]) -> Result<(u32, u32), TurnFault>
    ensures line { Answers result (wrong_line town.now number line.now)
        (λ ban. ban ≡ ban_in line.now) }
    ensures follows { IfOk result (λ ban. follows town.now ban.0 ban.1 ≡ true) }
{
    let Some((first, second)) = read_steps(alloc, line)? else {
        return Err(TurnFault::Form { line: number });
    };
    if !is_followed(town, first, second) {
        return Err(TurnFault::Turn { line: number });
    }
    Ok((first.arc(), second.arc()))
}

/// The two steps of a line, or `None` where it is no ban.
fn read_steps(alloc: Global, line: &[u8]) -> Result<Option<(Step, Step)>, AllocError>
    ensures { IfOk result (λ steps. steps ≡ steps_in (words_of line.now)) }
{
    let mut text = Vec::new(alloc);
    text.push(b' ')?;
    text.extend_from_slice(line)?;
    Ok(two_steps(text.as_slice()))
}

/// The two steps of a text with a space before each of them.
fn two_steps(text: &[u8]) -> Option<(Step, Step)>
    ensures { result ≡ steps_in (parts_of text.now) }
{
    let mut steps = StepsOf::new(text)?;
    match (steps.next(), steps.next(), steps.next()) {
        (Some(first), Some(second), None) => Some((first, second)),
        _ => None,
    }
}

/// Whether both steps are legal and the second begins where the first ends.
fn is_followed(town: &Town, first: Step, second: Step) -> bool
    ensures { result ≡ follows town.now (arc_of first) (arc_of second) }
{
    town.is_step_legal(first)
        && town.is_step_legal(second)
        && town.head(first.arc()) == town.tail(second.arc())
}
