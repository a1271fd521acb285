//! What is told of a town without a search.
ghost use Rattle.std.specs.Prelude.{◌≡◌, codes, length, IfOk};
ghost use Rattle.std.specs.List.{count_by};
ghost use Rattle.std.specs.String.{string_bytes};
ghost use Rattle.wrp_report.specs.Texts.{text_of, info_lines, ways_line as line_of_ways, ways_text as text_of_ways, number_line, is_one_way, is_two_way, is_closed};

use crate::lines::{push_line, town_line};
use std::alloc::{AllocError, Global};
use wrp_town::{Street, Town};

/// How large a town is, how many of its streets may be driven in one direction, in two and in none,
/// how many required parts it has, and whether it has a tour.
///
/// # Errors
///
/// Want of memory alone.
pub fn info_text(alloc: Global, town: &Town, parts: u32, tour: bool) -> Result<Vec<u8>, AllocError>
    ensures { IfOk result (λ text. text.items ≡ text_of (info_lines town.now parts tour)) }
{
    let mut text = Vec::new(alloc);
    push_line(&mut text, town_line(alloc, town)?.as_bytes())?;
    push_line(&mut text, ways_line(alloc, town)?.as_bytes())?;
    push_line(&mut text, parts_line(alloc, parts)?.as_bytes())?;
    push_line(&mut text, if tour { b"tour yes" } else { b"tour no" })?;
    Ok(text)
}

/// How many streets have one legal direction, two and none.
fn ways_line(alloc: Global, town: &Town) -> Result<String, AllocError>
    ensures { IfOk result (λ line. string_bytes line ≡ line_of_ways town.now) }
{
    let streets = town.streets.as_slice();
    ways_text(alloc, one_way(streets), two_way(streets), closed(streets))
}

fn ways_text(alloc: Global, one: usize, two: usize, none: usize) -> Result<String, AllocError>
    ensures { IfOk result (λ line. string_bytes line ≡ text_of_ways one two none) }
{
    format!(in alloc; "one-way {one} two-way {two} closed {none}")
}

fn one_way(streets: &[Street]) -> usize
    ensures { result ≡ count_by is_one_way streets.now }
{
    streets
        .iter()
        .filter(|street| street.forward.is_some() != street.backward.is_some())
        .count()
}

fn two_way(streets: &[Street]) -> usize
    ensures { result ≡ count_by is_two_way streets.now }
{
    streets
        .iter()
        .filter(|street| street.forward.is_some() && street.backward.is_some())
        .count()
}

fn closed(streets: &[Street]) -> usize
    ensures { result ≡ count_by is_closed streets.now }
{
    streets
        .iter()
        .filter(|street| street.forward.is_none() && street.backward.is_none())
        .count()
}

/// How many parts there are.
fn parts_line(alloc: Global, parts: u32) -> Result<String, AllocError>
    ensures { IfOk result (λ line. string_bytes line ≡ number_line (codes "parts") parts) }
{
    format!(in alloc; "parts {parts}")
}
