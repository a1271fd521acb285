//! Reads the words of the command line.
ghost use Rattle.std.specs.Prelude.{◌≡◌, ◌<◌, ◌≤◌, ◌^◌, map, IfSome};
ghost use Rattle.std.specs.Option.{option_map};
ghost use Rattle.std.specs.String.{string_bytes};
ghost use Rattle.wrp_postman.specs.Words.{command_of, command_in, number_in as number_of_word, info_of, check_of, town_of, solve_of, demo_of, search_of, AreInRanges};

use crate::command::Names;
use wrp_grammar::read_count;

/// The most digits of a number.
const MOST_DIGITS: usize = 18;

/// The greatest seed of a town, and the greatest width and height.
const MOST_SEED: u64 = (1 << 31) - 1;

const MOST_SIDE: u64 = 20;

/// The greatest budget.
const MOST_BUDGET: u64 = 999_999_999_999_999_999;

/// The command that the words are, without the program's name. `None` where they are no command. It
/// takes no memory.
pub fn names(words: &[String]) -> Option<Names<'_>>
    ensures command { option_map command_in result ≡ command_of (map string_bytes words.now) }
    ensures ranges { IfSome result AreInRanges }
{
    match words {
        [command, streets] => info_names(command.as_str(), streets.as_str()),
        [command, streets, proof] => {
            check_names(command.as_str(), streets.as_str(), proof.as_str())
        }
        [command, seed, width, height] => town_names(
            command.as_str(),
            seed.as_str(),
            width.as_str(),
            height.as_str(),
        ),
        [command, first, second, third, budget] => search_names(
            command.as_str(),
            first.as_str(),
            second.as_str(),
            third.as_str(),
            budget.as_str(),
        ),
        [] => None,
        [_] => None,
        [_, _, _, _, _, _, ..] => None,
    }
}

/// `info STREETS`.
fn info_names<'a>(command: &'a str, streets: &'a str) -> Option<Names<'a>>
    ensures command { option_map command_in result ≡ info_of command.now streets.now }
    ensures ranges { IfSome result AreInRanges }
{
    if command == "info" {
        Some(Names::Info { streets })
    } else {
        None
    }
}

/// `check STREETS PROOF`.
fn check_names<'a>(command: &'a str, streets: &'a str, proof: &'a str) -> Option<Names<'a>>
    ensures command { option_map command_in result ≡ check_of command.now streets.now proof.now }
    ensures ranges { IfSome result AreInRanges }
{
    if command == "check" {
        Some(Names::Check { streets, proof })
    } else {
        None
    }
}

/// `town SEED W H`.
fn town_names<'a>(
    command: &'a str,
    seed: &'a str,
    width: &'a str,
    height: &'a str,
) -> Option<Names<'a>>
    ensures command { option_map command_in result
        ≡ town_of command.now seed.now width.now height.now }
    ensures ranges { IfSome result AreInRanges }
{
    if command != "town" {
        return None;
    }
    let seed = number_in(0, MOST_SEED, seed)? as u32;
    let width = number_in(1, MOST_SIDE, width)? as u32;
    let height = number_in(1, MOST_SIDE, height)? as u32;
    Some(Names::Town {
        seed,
        width,
        height,
    })
}

/// A command with a budget: `solve` or `demo`.
fn search_names<'a>(
    command: &'a str,
    first: &'a str,
    second: &'a str,
    third: &'a str,
    budget: &'a str,
) -> Option<Names<'a>>
    ensures command { option_map command_in result
        ≡ search_of command.now first.now second.now third.now budget.now }
    ensures ranges { IfSome result AreInRanges }
{
    let budget = number_in(0, MOST_BUDGET, budget)?;
    match command {
        "solve" => solve_names(first, second, third, budget),
        "demo" => demo_names(first, second, third, budget),
        _ => None,
    }
}

/// `solve STREETS PROOF - BUDGET`.
fn solve_names<'a>(streets: &'a str, proof: &'a str, log: &'a str, budget: u64) -> Option<Names<'a>>
    ensures command { option_map command_in result
        ≡ solve_of streets.now proof.now log.now budget }
    ensures ranges { IfSome result AreInRanges }
{
    if log == "-" && streets != proof && streets != log && proof != log {
        Some(Names::Solve {
            streets,
            proof,
            log: None,
            budget,
        })
    } else {
        None
    }
}

/// `demo SEED W H BUDGET`.
fn demo_names<'a>(seed: &'a str, width: &'a str, height: &'a str, budget: u64) -> Option<Names<'a>>
    ensures command { option_map command_in result
        ≡ demo_of seed.now width.now height.now budget }
    ensures ranges { IfSome result AreInRanges }
{
    let seed = number_in(0, MOST_SEED, seed)? as u32;
    let width = number_in(1, MOST_SIDE, width)? as u32;
    let height = number_in(1, MOST_SIDE, height)? as u32;
    Some(Names::Demo {
        seed,
        width,
        height,
        budget,
    })
}

/// The number that a word is, in this range.
fn number_in(least: u64, most: u64, word: &str) -> Option<u64>
    ensures { result ≡ number_of_word least most word.now }
{
    if word.len() > MOST_DIGITS {
        return None;
    }
    let number = read_count(word.as_bytes())?;
    if least <= number && number <= most {
        Some(number)
    } else {
        None
    }
}
