// A whole table.

ghost use Rattle.std.specs.Prelude.{◌≡◌, [], length, IfOk, OnOk};
ghost use Rattle.wrp_records.specs.Streams.{fields_of};
ghost use Rattle.wrp_town.specs.Streets.{IsTown, demands_from};
ghost use Rattle.wrp_street.specs.Faults.{Gives, GivesNew, GivesAs};
ghost use Rattle.wrp_street.specs.Tables.{no_rows, with_row, with_record, with_records, within_limits, table_in, table_of, Reads};
ghost use Rattle.wrp_street.specs.Growing.{rows_in, IsGrowing};

use crate::header::is_header;
use crate::junctions::Junctions;
use crate::row::{Row, read_row};
use crate::table::TableFault;
use std::alloc::{AllocError, Global};
use wrp_records::{ByteRecord, Records};
use wrp_town::{DEMAND_LIMIT, JUNCTION_LIMIT, List, STREET_LIMIT, Street, Town};

/// The rows of a table so far, which become a town. Contracts see the junctions that they name and
/// the streets that they are.
#[derive(Drop)]
pub struct TableReader {
    junctions: Junctions,
    streets: List<Street>,
    demands: u32,
}

impl TableReader {
    /// No rows.
    pub fn new(alloc: Global) -> TableReader
        ensures rows { rows_in result ≡ no_rows }
        ensures growing { IsGrowing result }
    {
        TableReader {
            junctions: Junctions::new(alloc),
            streets: List::new(alloc),
            demands: 0,
        }
    }

    /// Adds a row at the end, whatever the limits.
    ///
    /// # Errors
    ///
    /// Want of memory alone.
    pub fn add(&mut self, row: Row) -> Result<(), AllocError>
        requires { IsGrowing self.old }
        ensures rows { OnOk result (rows_in self.new ≡ with_row (rows_in self.old) row) }
        ensures counted { OnOk result
            (self.new.demands ≡ length (demands_from 0 self.new.streets)) }
    {
        let from = self.junctions.add(row.from)?;
        let to = self.junctions.add(row.to)?;
        self.demands += row.need.demand_count();
        self.streets.push(Street {
            name: row.street,
            from,
            to,
            forward: row.forward,
            backward: row.backward,
            need: row.need,
        })?;
        Ok(())
    }

    // Whether the rows are within the limits of a town.
    #[tactic(auto, unfolding(crate::specs::Tables::within_limits))]
    fn keep_limits(&self, row: u32) -> Result<(), TableFault>
        requires { self.now.demands ≡ length (demands_from 0 self.now.streets) }
        ensures { GivesNew (rows_in self.now) result (within_limits row (rows_in self.now)) }
    {
        if self.streets.len() > STREET_LIMIT {
            return Err(TableFault::Streets { row });
        }
        if self.junctions.len() > JUNCTION_LIMIT {
            return Err(TableFault::Junctions { row });
        }
        if self.demands > DEMAND_LIMIT {
            return Err(TableFault::Demands { row });
        }
        Ok(())
    }

    // Adds a record as the next row.
    fn add_record(&mut self, alloc: Global, line: &ByteRecord) -> Result<(), TableFault>
        requires { IsGrowing self.old }
        ensures rows { GivesNew (rows_in self.new) result
            (with_record (rows_in self.old) (fields_of line.now)) }
        ensures growing { OnOk result (IsGrowing self.new) }
    {
        let number = self.streets.len() as u32 + 1;
        let row = read_row(alloc, number, line)?;
        self.add(row)?;
        self.keep_limits(number)
    }

    /// The town of the rows.
    ///
    /// # Errors
    ///
    /// Want of memory alone.
    pub fn into_town(self, alloc: Global) -> Result<Town, AllocError>
        requires { IsTown self.junctions self.streets }
        ensures { IfOk result (λ town. table_in town ≡ rows_in self) }
    {
        Ok(Town {
            junctions: self.junctions.into_list(alloc)?,
            streets: self.streets,
        })
    }
}

// The rows of the records that are left, or the first fault.
#[tactic(auto, unfolding(crate::specs::Tables::with_records))]
fn read_rows(alloc: Global, records: &mut Records) -> Result<TableReader, TableFault>
    ensures { GivesAs rows_in result (with_records no_rows records.old) }
{
    let mut table = TableReader::new(alloc);
    let mut line = ByteRecord::new(alloc);
    while records.next(&mut line)? {
        table.add_record(alloc, &line)?;
    }
    Ok(table)
}

/// Reads a street table of all these bytes.
///
/// # Errors
///
/// The first fault of the table: of the first row that has one, the first from the left, and then
/// the limits of streets, junctions and demands. [`TableFault::Memory`] stands for want of memory.
#[tactic(auto, unfolding(crate::specs::Tables::under_header))]
pub fn read_town(alloc: Global, bytes: &[u8]) -> Result<Town, TableFault>
    ensures { Reads result (table_of bytes.now) }
{
    let mut records = Records::new(alloc, bytes);
    let mut line = ByteRecord::new(alloc);
    if !records.next(&mut line)? {
        return Err(TableFault::Header);
    }
    if !is_header(&line) {
        return Err(TableFault::Header);
    }
    let table = read_rows(alloc, &mut records)?;
    Ok(table.into_town(alloc)?)
}
