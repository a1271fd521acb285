//! What no clause says: that records of a town in which nothing is to be served are staged.
ghost use Rattle.std.specs.Prelude.{◌≡◌, true};
ghost use Rattle.wrp_writer.specs.Limits.{is_writable};

use crate::Keep;
use std::test::Fail;
use wrp_rules::Record;
use wrp_town::{List, Town};

/// Leave to split the first node.
fn blind() -> Record
    ensures { is_writable result ≡ true }
{
    Record::Blind { node: 0 }
}

#[test]
fn records_are_staged(rt: HostRuntime) -> Result<(), Fail> {
    let town = Town {
        junctions: List::new(rt.alloc()),
        streets: List::new(rt.alloc()),
    };
    let mut keep = Keep::bare(rt.alloc(), &town)?;
    assert!(rt; keep.stage(blind()).is_ok());
    assert_eq!(rt; (keep.staged(), keep.acknowledged()), (1, 0));
    assert_eq!(rt; keep.tree().records().len(), 1);
    assert!(rt; !keep.stopped());
    assert_eq!(rt; keep.version(), 2);
    Ok(())
}
