//! Reads records with lists of their own.
ghost use Rattle.std.specs.Prelude.{◌≡◌, ◌^◌, ◌≤◌, true, Some, length, IfOk, IfErr};
ghost use Rattle.wrp_rules.specs.Proofs.{longest_line};
ghost use Rattle.wrp_rules.specs.declared.record.Record.{Record};
ghost use Rattle.wrp_proof.specs.declared.fault.LineFault.TheVariants as faults;
ghost use Rattle.wrp_grammar.specs.Spelling.{spelled as record_spelled};
ghost use Rattle.wrp_proof.specs.Views.{record_of, has_narrow_multipliers, IsLineFaultOf, IsWithoutRecord};

use crate::fault::LineFault;
use crate::reading::view;
use crate::records::to_record;
use crate::views::{View, ViewFault};
use std::alloc::Global;
use wrp_rules::Record;

/// The record that a line spells.
///
/// # Errors
///
/// Form, Number or Long as of the line's view, or Memory.
pub fn read_record(alloc: Global, line: &[u8]) -> Result<Record, LineFault>
    ensures spelled { IfOk result (λ item. record_spelled line.now ≡ Some item) }
    ensures short { IfOk result (λ item. length line.now ≤ longest_line) }
    ensures fault { IfErr result (λ fault. IsLineFaultOf line.now fault) }
    // No record is spelled by a line that is refused, unless it is long or memory is wanting.
    ensures none { IfErr result (λ fault. IsWithoutRecord line.now fault) }
{
    match view(line) {
        Ok(view) => record_from_view(alloc, &view),
        Err(ViewFault::Form { at }) => Err(LineFault::Form { at }),
        Err(ViewFault::Number { at }) => Err(LineFault::Number { at }),
        Err(ViewFault::Long) => Err(LineFault::Long),
    }
}

/// The record of a view, or the fault that memory is wanting.
fn record_from_view(alloc: Global, view: &View<'_>) -> Result<Record, LineFault>
    requires { has_narrow_multipliers (record_of view.now) ≡ true }
    ensures record { IfOk result (λ item. item ≡ record_of view.now) }
    ensures memory { IfErr result (λ fault. fault ≡ faults.Memory) }
{
    match to_record(alloc, view) {
        Ok(item) => Ok(item),
        Err(_) => Err(LineFault::Memory),
    }
}

#[cfg(test)]
mod tests {
    use super::*;
    use std::test::Fail;

    #[test]
    fn records_are_read(rt: HostRuntime) -> Result<(), Fail> {
        let item = match read_record(rt.alloc(), b"n 0 1 / 7") {
            Ok(item) => Some(item),
            Err(_fault) => None,
        };
        match &item {
            Some(Record::Labels { labels, streets }) => {
                assert_eq!(rt; labels.as_slice(), [0, 1].as_slice());
                assert_eq!(rt; streets.as_slice(), [7].as_slice());
            }
            _ => assert!(rt; false),
        }
        Ok(())
    }
}
