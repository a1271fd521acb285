ghost use Rattle.std.specs.Prelude.{IsTrue};
ghost use Rattle.wrp_rows.specs.Points.{AreBounds};
ghost use Rattle.wrp_round.specs.Optima.{IsOptimal};

use crate::round_candidates;
use std::alloc::{AllocError, Global};
use std::test::Fail;
use wrp_lp::{Lp, relax};
use wrp_rows::{Bounds, Rows};
use wrp_town::{List, Town};

// Whether a relaxation has an optimum.
fn is_optimal(lp: &Lp) -> bool
    ensures { IsTrue result → IsOptimal lp.now }
{
    match lp {
        Lp::Optimal { .. } => true,
        _ => false,
    }
}

// How many roundings an optimum without rows has, where it has an optimum.
fn count(alloc: Global, rows: &Rows<'_>, bounds: &Bounds) -> Result<Option<usize>, AllocError>
    requires { AreBounds rows.now.town bounds.now }
{
    let lp = relax(alloc, rows, &[], bounds, 0)?;
    if is_optimal(&lp) {
        let found = round_candidates(alloc, rows, &[], &lp)?;
        Ok(Some(found.len()))
    } else {
        Ok(None)
    }
}

#[test]
fn no_candidates_without_streets(rt: HostRuntime) -> Result<(), Fail> {
    let town = Town {
        junctions: List::new(rt.alloc()),
        streets: List::new(rt.alloc()),
    };
    let rows = Rows::new(rt.alloc(), &town)?;
    let bounds = Bounds {
        lo: List::new(rt.alloc()),
        hi: List::new(rt.alloc()),
    };
    let found = count(rt.alloc(), &rows, &bounds)?;
    assert_eq!(rt; found, Some(0));
    Ok(())
}
