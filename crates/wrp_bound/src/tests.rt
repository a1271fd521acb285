use crate::{bound_of, empty_value, to_mult};
use std::test::Fail;
use wrp_rows::{Bounds, Rows};
use wrp_town::{List, Town};

#[test]
fn multipliers_that_fit(rt: HostRuntime) -> Result<(), Fail> {
    let made = to_mult(rt.alloc(), 2, &[(1, 1), (2, 0), (3, 5)])?;
    assert_eq!(rt; made.den, 2);
    assert!(rt; made.mult.as_slice() == [(1, 1), (3, 5)].as_slice());
    Ok(())
}

#[test]
fn multipliers_that_do_not_fit(rt: HostRuntime) -> Result<(), Fail> {
    let made = to_mult(rt.alloc(), 1 << 41, &[(0, 1), (7, 9)])?;
    assert_eq!(rt; made.den, 733_007_751_850);
    assert!(rt; made.mult.as_slice() == [(7, 3)].as_slice());
    Ok(())
}

#[test]
fn values_of_no_streets(rt: HostRuntime) -> Result<(), Fail> {
    let town = Town {
        junctions: List::new(rt.alloc()),
        streets: List::new(rt.alloc()),
    };
    let rows = Rows::new(rt.alloc(), &town)?;
    let bounds = Bounds {
        lo: List::new(rt.alloc()),
        hi: List::new(rt.alloc()),
    };
    assert_eq!(rt; bound_of(&rows, &bounds, 1, &[], &mut []), 0);
    assert_eq!(rt; empty_value(&rows, &bounds, &[], &mut []), 0);
    Ok(())
}
