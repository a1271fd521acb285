// What no clause says: that the definitions read lines as their author means them, and give the
// places of faults that a person counts.

use crate::{LineFault, read_end, read_record, write_end, write_record};
use std::alloc::{AllocError, Global};
use std::test::Fail;

// A line of each kind of record, with the greatest numbers.
const RECORDS: &[&str] = &[
    "t 9223372036854775807 0+ 4294967295-",
    "c 4294967295 2 0 4294967295",
    "o 0 1 4294967295",
    "o",
    "r 1048576 1:1 4294967295:1099511627776",
    "k 3 0 3 4294967295 2",
    "b 9223372036854775807 1099511627776 4294967295:1152921504606846976",
    "e 1 0:1 2:1152921504606846976",
    "a 1 0 2 0 1",
    "p 0 1152921504606846976 4294967295:4722366482869645213696",
    "z 0",
    "s 0 4294967295 0",
    "n 1 0 / 4294967295 0",
];

// A line of each kind of end.
const ENDS: &[&str] = &[
    "end optimal 9223372036854775807",
    "end infeasible",
    "end unfinished 0 5",
];

// Lines of no record, and why.
const FAULTS: &[(&str, LineFault)] = &[
    ("x 5", LineFault::Form { at: 0 }),
    ("t  5", LineFault::Form { at: 2 }),
    ("t 5 0*", LineFault::Form { at: 5 }),
    ("b 00 x", LineFault::Form { at: 5 }),
    ("z 0 1", LineFault::Form { at: 3 }),
    ("n 0 1", LineFault::Form { at: 5 }),
    ("t 05 0+", LineFault::Number { at: 2 }),
    ("b 0 1 3:03 4:4", LineFault::Number { at: 8 }),
    ("b 0 1 4:4 3:3", LineFault::Number { at: 10 }),
    ("o 2 1", LineFault::Number { at: 4 }),
    ("s 0 0 4294967296", LineFault::Number { at: 6 }),
];

// Lines of no end, and why.
const END_FAULTS: &[(&str, LineFault)] = &[
    ("end best 5", LineFault::Form { at: 4 }),
    ("end infinite", LineFault::Form { at: 7 }),
    ("end optimal 5 6", LineFault::Form { at: 13 }),
    ("end unfinished 0 05", LineFault::Number { at: 17 }),
];

// Whether a line spells a record with this line.
fn is_kept(alloc: Global, line: &[u8]) -> Result<bool, AllocError> {
    match read_record(alloc, line) {
        Ok(item) => Ok(write_record(alloc, &item)?.as_slice() == line),
        Err(_fault) => Ok(false),
    }
}

// Whether a line spells an end with this line.
fn is_kept_end(alloc: Global, line: &[u8]) -> Result<bool, AllocError> {
    match read_end(line) {
        Ok(end) => Ok(write_end(alloc, &end)?.as_slice() == line),
        Err(_fault) => Ok(false),
    }
}

fn record_fault(alloc: Global, line: &[u8]) -> Option<LineFault> {
    match read_record(alloc, line) {
        Ok(_) => None,
        Err(fault) => Some(fault),
    }
}

fn end_fault(line: &[u8]) -> Option<LineFault> {
    match read_end(line) {
        Ok(_) => None,
        Err(fault) => Some(fault),
    }
}

#[test]
fn lines_are_read_and_written(rt: HostRuntime) -> Result<(), Fail> {
    for line in RECORDS {
        assert!(rt; is_kept(rt.alloc(), line.as_bytes())?);
    }
    for line in ENDS {
        assert!(rt; is_kept_end(rt.alloc(), line.as_bytes())?);
    }
    Ok(())
}

#[test]
fn faults_have_their_places(rt: HostRuntime) -> Result<(), Fail> {
    for (line, fault) in FAULTS {
        assert_eq!(rt; record_fault(rt.alloc(), line.as_bytes()), Some(*fault));
    }
    for (line, fault) in END_FAULTS {
        assert_eq!(rt; end_fault(line.as_bytes()), Some(*fault));
    }
    Ok(())
}
