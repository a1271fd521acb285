// What no clause says: that the definitions read a table as its author means it.

use crate::{Class, TableFault, canonical, class_of, read_town};
use std::alloc::{AllocError, Global};
use std::test::Fail;

const HEADER: &[u8] = b"street,from,to,forward,backward,need\n";

// So many rows that are alike, and one more.
fn rows_like(alloc: Global, count: u32, row: &[u8], last: &[u8]) -> Result<Vec<u8>, AllocError> {
    let mut rows = Vec::new(alloc);
    for _ in 0..count {
        rows.extend_from_slice(row)?;
    }
    rows.extend_from_slice(last)?;
    Ok(rows)
}

// A chain of so many streets: each brings one new junction, and the first brings two.
fn chain(alloc: Global, count: u32) -> Result<Vec<u8>, AllocError> {
    let mut rows = Vec::new(alloc);
    for number in 0..count {
        let row = format!(in alloc; "a,{number},{},1,1,no\n", number + 1)?;
        rows.extend_from_slice(row.as_bytes())?;
    }
    Ok(rows)
}

// What is wrong with these bytes.
fn fault_in(alloc: Global, bytes: &[u8]) -> Option<TableFault> {
    match read_town(alloc, bytes) {
        Ok(_) => None,
        Err(fault) => Some(fault),
    }
}

// What is wrong with these rows behind a header.
fn fault_of(alloc: Global, rows: &[u8]) -> Result<Option<TableFault>, AllocError> {
    let bytes = rows_like(alloc, 1, HEADER, rows)?;
    Ok(fault_in(alloc, bytes.as_slice()))
}

#[test]
fn names_first_faults(rt: HostRuntime) -> Result<(), Fail> {
    let alloc = rt.alloc();
    for (rows, want) in [
        (b"a,b,c,1,1\n".as_slice(), TableFault::Fields { row: 1 }),
        (
            b"a,b,c,1,1,no\na,, d,x,1,no\n",
            TableFault::Name { row: 2, field: 2 },
        ),
        (
            b"a,b,c,1000000001,x,no\n",
            TableFault::Cost { row: 1, field: 4 },
        ),
        (
            b"a,b,c,1000000000,00000000001,maybe\n",
            TableFault::Cost { row: 1, field: 5 },
        ),
        (b"a,b,c,\t, - ,Yes\na,b\n", TableFault::Need { row: 1 }),
    ] {
        assert_eq!(rt; fault_of(alloc, rows)?, Some(want));
    }
    assert_eq!(rt; fault_in(alloc, b""), Some(TableFault::Header));
    assert_eq!(rt;
        fault_in(alloc, b"a,b,c,1,1,no\n"),
        Some(TableFault::Header)
    );
    Ok(())
}

#[test]
fn keeps_limits(rt: HostRuntime) -> Result<(), Fail> {
    let alloc = rt.alloc();
    let street = b"a,b,c,1,1,no\n";
    let twice = b"a,b,c,1,1,both\n";
    for (count, row, last, want) in [
        (4_000, street.as_slice(), b"".as_slice(), None),
        (
            4_000,
            street,
            street,
            Some(TableFault::Streets { row: 4_001 }),
        ),
        (
            4_000,
            street,
            b"a,b,c,1,1,maybe\n",
            Some(TableFault::Need { row: 4_001 }),
        ),
        (2_000, twice, b"", None),
        (
            2_000,
            twice,
            b"a,b,c,1,1,1\n",
            Some(TableFault::Demands { row: 2_001 }),
        ),
    ] {
        let rows = rows_like(alloc, count, row, last)?;
        assert_eq!(rt; fault_of(alloc, rows.as_slice())?, want);
    }
    let junctions = TableFault::Junctions { row: 2_000 };
    assert_eq!(rt; fault_of(alloc, chain(alloc, 1_999)?.as_slice())?, None);
    assert_eq!(rt;
        fault_of(alloc, chain(alloc, 2_000)?.as_slice())?,
        Some(junctions)
    );
    Ok(())
}

#[test]
fn writes_what_it_reads(rt: HostRuntime) -> Result<(), Fail> {
    let mut bytes = Vec::new(rt.alloc());
    for line in [
        b"\xEF\xBB\xBF street,from ,\tto,forward,backward,need\r\n".as_slice(),
        b"Quay, Mole ,\"Pier, \"\"A\"\"\",007,,1\n\n",
        b"\"The \"\"Lane\"\"\",\"Pier, \"\"A\"\"\",Mole,-,12, backward\r\n",
        b"Loop,Mole,Mole,1000000000,0,0",
    ] {
        bytes.extend_from_slice(line)?;
    }
    let mut want = Vec::new(rt.alloc());
    for line in [
        HEADER,
        b"Quay,Mole,\"Pier, \"\"A\"\"\",7,-,yes\n",
        b"\"The \"\"Lane\"\"\",\"Pier, \"\"A\"\"\",Mole,-,12,backward\n",
        b"Loop,Mole,Mole,1000000000,0,no\n",
    ] {
        want.extend_from_slice(line)?;
    }
    match read_town(rt.alloc(), bytes.as_slice()) {
        Ok(town) => {
            let table = canonical(rt.alloc(), &town)?;
            assert!(rt; table.as_slice() == want.as_slice());
            assert!(rt; class_of(&town) == Class::Windy);
        }
        Err(fault) => assert!(rt; false, "{fault}"),
    }
    Ok(())
}
