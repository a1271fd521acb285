use crate::{Lp, relax};
use std::test::Fail;
use wrp_rows::{Bounds, Rows};
use wrp_town::{List, Town};

// Whether it has an optimum without numbers, which no pivot led to.
fn is_bare(lp: &Lp) -> bool {
    match lp {
        Lp::Optimal {
            point,
            mult,
            taken,
            ..
        } => point.den == 1 && point.at.is_empty() && mult.is_empty() && taken.is_empty(),
        _ => false,
    }
}

#[test]
fn a_town_without_streets(rt: HostRuntime) -> Result<(), Fail> {
    let town = Town {
        junctions: List::new(rt.alloc()),
        streets: List::new(rt.alloc()),
    };
    let rows = Rows::new(rt.alloc(), &town)?;
    let bounds = Bounds {
        lo: List::new(rt.alloc()),
        hi: List::new(rt.alloc()),
    };
    let lp = relax(rt.alloc(), &rows, &[], &bounds, 0)?;
    assert!(rt; is_bare(&lp));
    Ok(())
}
