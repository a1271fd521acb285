// Laws of the definitions of a table.

ghost use Rattle.std.specs.Prelude.{◌≡◌, ℕ, List, Ok};
ghost use Rattle.wrp_records.specs.Streams.{records_of};
ghost use Rattle.wrp_town.specs.Streets.{IsTown};
ghost use Rattle.wrp_street.specs.Tables.{Table, table_of};
ghost use Rattle.wrp_street.specs.Spelled.{AreRecordsOf};

/// The table that bytes spell is a town, and behind a header each record is the row of one street,
/// whose ends are the places of their names among all junctions.
pub fn table_laws()
    ensures town { (bytes : List ℕ) (table : Table) → table_of bytes ≡ Ok table
        → IsTown table.junctions table.streets }
    ensures records { (bytes : List ℕ) (table : Table) → table_of bytes ≡ Ok table
        → AreRecordsOf table (records_of bytes) }
{}
