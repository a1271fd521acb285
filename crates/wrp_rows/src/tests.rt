use crate::{RowFault, Rows};
use std::test::Fail;
use wrp_rules::{Record, Rule};
use wrp_town::{List, Town};
use wrp_writer::writable;

#[test]
fn cuts_of_no_streets(rt: HostRuntime) -> Result<(), Fail> {
    let town = Town {
        junctions: List::new(rt.alloc()),
        streets: List::new(rt.alloc()),
    };
    let mut rows = Rows::new(rt.alloc(), &town)?;
    let rounding = Record::Round {
        divisor: 1,
        mult: List::new(rt.alloc()),
    };
    let odd = Record::Odd {
        set: List::new(rt.alloc()),
    };
    let refused = rows.push_cut(&odd);
    assert!(rt; refused == Err(RowFault::Broken { rule: Rule::Even }));
    assert!(rt; writable(&rounding));
    rows.push_cut(&rounding)?;
    rows.prepare_cut(&rounding)?;
    assert_eq!(rt; rows.len(), 1);
    rows.commit_cut();
    assert_eq!(rt; rows.len(), 2);
    assert_eq!(rt; rows.rhs(1), 0);
    assert!(rt; rows.terms(1).is_empty());
    assert!(rt; rows.town().streets.is_empty());
    Ok(())
}
