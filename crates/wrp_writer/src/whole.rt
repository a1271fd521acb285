//! Writes whole proofs.
ghost use Rattle.std.specs.Prelude.{◌≡◌, ◌++◌, IfOk};
ghost use Rattle.wrp_rules.specs.Proofs.{record_lines, version_2, proof_text as text_of_proof};

use crate::writing::{write_end, write_record};
use std::alloc::{AllocError, Global};
use wrp_rules::{End, Record};

/// The text of a proof: the line of version 2, the lines of the records and the line of the end,
/// each followed by a line feed.
///
/// # Errors
///
/// Want of memory alone.
pub fn proof_text(alloc: Global, records: &[Record], end: &End) -> Result<Vec<u8>, AllocError>
    ensures { IfOk result (λ text. text.items ≡ text_of_proof version_2 records.now end.now) }
{
    let version = format!(in alloc; "postman-proof 2\n")?.into_bytes();
    let mut text = with_records(alloc, version, records)?;
    text.extend_from_slice(write_end(alloc, end)?.as_slice())?;
    text.push(b'\n')?;
    Ok(text)
}

/// A text with the lines of records behind it, a line feed behind each.
fn with_records(alloc: Global, start: Vec<u8>, records: &[Record]) -> Result<Vec<u8>, AllocError>
    ensures { IfOk result (λ text. text.items ≡ start.items ++ record_lines records.now) }
{
    let mut text = start;
    for item in records {
        text.extend_from_slice(write_record(alloc, item)?.as_slice())?;
        text.push(b'\n')?;
    }
    Ok(text)
}

#[cfg(test)]
mod tests {
    use super::*;
    use crate::limits::writable;
    use std::test::Fail;
    use wrp_town::{List, Step};

    #[test]
    fn proofs_are_written(rt: HostRuntime) -> Result<(), Fail> {
        let mut steps = List::new(rt.alloc());
        steps.push(Step {
            street: 7,
            back: true,
        })?;
        let records = [Record::Tour { cost: 12, steps }];
        assert!(rt; writable(&records[0]));
        let text = proof_text(rt.alloc(), records.as_slice(), &End::Infeasible)?;
        assert_eq!(rt;
            text.as_slice(),
            b"postman-proof 2\nt 12 7-\nend infeasible\n".as_slice()
        );
        Ok(())
    }
}
