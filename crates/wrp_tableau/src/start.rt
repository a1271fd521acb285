//! The rows of a tableau at its start.

ghost use Rattle.std.specs.Prelude.{◌≡◌, ◌+◌, ◌≤◌, ◌<◌, ◌^◌, unsigned_abs, length, map, All, IfOk};
ghost use Rattle.wrp_tableau.specs.Systems as systems;
ghost use Rattle.wrp_tableau.specs.Rows.{equation, IsStored};
ghost use Rattle.wrp_tableau.specs.Starts.{IsLine};

use crate::line::Line;
use crate::row::Row;
use std::alloc::{AllocError, Global};
use wrp_town::List;

/// The row in which `coefs * x` less the slack is the right side.
pub fn slack_row(alloc: Global, coefs: &[i128], right: i128, slack: u32) -> Result<Row, AllocError>
    requires before { length coefs.now ≤ slack }
    requires coefs_small { All (λ z. unsigned_abs z ≤ 2 ^ 60) coefs.now }
    requires right_small { unsigned_abs right ≤ 2 ^ 60 }
    ensures is { IfOk result (λ row. equation row ≡ systems.slack_row slack coefs.now right) }
    ensures stored { IfOk result (λ row. IsStored row) }
{
    let mut terms = Vec::new(alloc);
    for number in 0..coefs.len() {
        if coefs[number] != 0 {
            terms.push((number as u32, coefs[number]))?;
        }
    }
    terms.push((slack, -1))?;
    Ok(Row {
        terms: List::from_vec(terms),
        right,
    })
}

/// The rows of lines, with the slacks from `width` on.
pub fn line_rows(alloc: Global, width: u32, lines: &[Line]) -> Result<Vec<Row>, AllocError>
    requires lines { All (IsLine width) lines.now }
    requires few { width + length lines.now < 2 ^ 32 }
    ensures are { IfOk result (λ rows.
        map equation rows.items ≡ systems.line_rows width lines.now) }
    ensures stored { IfOk result (λ rows. All IsStored rows.items) }
{
    let mut rows = Vec::with_capacity(alloc, lines.len())?;
    for k in 0..lines.len() {
        let line = &lines[k];
        rows.push(slack_row(alloc, line.coefs.as_slice(), line.rhs, width + k as u32)?)?;
    }
    Ok(rows)
}

/// The slacks of so many lines, from `width` on.
pub fn slack_numbers(alloc: Global, width: u32, lines: &[Line]) -> Result<Vec<u32>, AllocError>
    requires few { width + length lines.now < 2 ^ 32 }
    ensures { IfOk result (λ basics. basics.items ≡ systems.slacks width lines.now) }
{
    let mut basics = Vec::with_capacity(alloc, lines.len())?;
    for k in 0..lines.len() {
        basics.push(width + k as u32)?;
    }
    Ok(basics)
}
