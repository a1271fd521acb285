use crate::{Single, all_rows, branch_of, only_point, relax_box, shown_record};
use std::test::Fail;
use wrp_lp::Lp;
use wrp_rows::{Bounds, Rows};
use wrp_rules::Record;
use wrp_town::{List, Town};

#[test]
fn a_town_without_streets(rt: HostRuntime) -> Result<(), Fail> {
    let town = Town {
        junctions: List::new(rt.alloc()),
        streets: List::new(rt.alloc()),
    };
    let bounds = Bounds {
        lo: List::new(rt.alloc()),
        hi: List::new(rt.alloc()),
    };
    let rows = Rows::new(rt.alloc(), &town)?;
    let chosen = all_rows(rt.alloc(), &rows)?;
    assert!(rt; chosen.is_empty());
    let lp = relax_box(rt.alloc(), &rows, &chosen, &bounds, 10)?;
    assert!(rt; matches!(lp, Lp::Optimal { .. }));
    let shown = shown_record(rt.alloc(), 0, &lp)?;
    assert!(rt;
        matches!(
            shown,
            Some(Record::Bound {
                node: 0,
                den: 1,
                ..
            })
        )
    );
    assert!(rt; branch_of(&town, &bounds, None).is_none());
    let single = only_point(rt.alloc(), &rows, &bounds, &mut [])?;
    assert!(rt; matches!(single, Single::Met { .. }));
    Ok(())
}
