// One row of a table.

ghost use Rattle.std.specs.Prelude.{◌≡◌};
ghost use Rattle.wrp_records.specs.Streams.{fields_of};
ghost use Rattle.wrp_street.specs.Faults.{Gives};
ghost use Rattle.wrp_street.specs.Rows.{row_of, six_of, name_in, cost_in, need_of, need_in};

use crate::cost::read_cost;
use crate::table::TableFault;
use std::alloc::Global;
use wrp_records::{ByteRecord, field_count, is_text, text_at, trim};
use wrp_town::{Name, Need};

/// What a row says, with its junctions by name.
#[derive(Debug, Drop)]
pub struct Row {
    pub street: Name,
    pub from: Name,
    pub to: Name,
    pub forward: Option<u32>,
    pub backward: Option<u32>,
    pub need: Need,
}

fn read_name(alloc: Global, row: u32, field: u32, text: &[u8]) -> Result<Name, TableFault>
    ensures { Gives result (name_in row field text.now) }
{
    match Name::new(alloc, trim(text))? {
        Some(name) => Ok(name),
        None => Err(TableFault::Name { row, field }),
    }
}

fn cost_or_fault(row: u32, field: u32, text: &[u8]) -> Result<Option<u32>, TableFault>
    ensures { Gives result (cost_in row field text.now) }
{
    match read_cost(text) {
        Some(cost) => Ok(cost),
        None => Err(TableFault::Cost { row, field }),
    }
}

// The need that a text names.
fn read_need(text: &[u8]) -> Option<Need>
    ensures { result ≡ need_of text.now }
{
    if is_text(text, b"yes") || is_text(text, b"1") {
        Some(Need::Either)
    } else if is_text(text, b"no") || is_text(text, b"0") {
        Some(Need::No)
    } else if is_text(text, b"forward") {
        Some(Need::Forward)
    } else if is_text(text, b"backward") {
        Some(Need::Backward)
    } else if is_text(text, b"both") {
        Some(Need::Both)
    } else {
        None
    }
}

fn need_or_fault(row: u32, text: &[u8]) -> Result<Need, TableFault>
    ensures { Gives result (need_in row text.now) }
{
    match read_need(trim(text)) {
        Some(need) => Ok(need),
        None => Err(TableFault::Need { row }),
    }
}

// What six fields say as the row of this number.
#[tactic(auto, using(crate::proofs::Stops::fails_on), unfolding(crate::specs::Rows::six_of))]
fn read_six(alloc: Global, row: u32, line: &ByteRecord) -> Result<Row, TableFault>
    ensures { Gives result (six_of row (fields_of line.now)) }
{
    let street = read_name(alloc, row, 1, text_at(line, 0))?;
    let from = read_name(alloc, row, 2, text_at(line, 1))?;
    let to = read_name(alloc, row, 3, text_at(line, 2))?;
    let forward = cost_or_fault(row, 4, text_at(line, 3))?;
    let backward = cost_or_fault(row, 5, text_at(line, 4))?;
    let need = need_or_fault(row, text_at(line, 5))?;
    Ok(Row {
        street,
        from,
        to,
        forward,
        backward,
        need,
    })
}

/// What a record says as the row of this number, or its first fault from the left.
#[tactic(auto, unfolding(crate::specs::Rows::row_of))]
pub fn read_row(alloc: Global, row: u32, line: &ByteRecord) -> Result<Row, TableFault>
    ensures { Gives result (row_of row (fields_of line.now)) }
{
    if field_count(line) != 6 {
        return Err(TableFault::Fields { row });
    }
    read_six(alloc, row, line)
}
