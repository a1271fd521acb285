//! What no clause says: the call answers, and the numbers of a worked chain are judged as a person
//! judges them.

use crate::chain::Chain;
use crate::kc_candidates;
use std::test::Fail;
use wrp_graph::Graph;
use wrp_parts::required_parts;
use wrp_rows::{Point, Rows};
use wrp_town::{List, Town};

#[test]
fn a_town_without_streets_has_no_candidate(rt: HostRuntime) -> Result<(), Fail> {
    let alloc = rt.alloc();
    let town = Town {
        junctions: List::new(alloc),
        streets: List::new(alloc),
    };
    let graph = Graph::new(alloc, &town)?;
    let parts = required_parts(alloc, &graph)?;
    let rows = Rows::new(alloc, &town)?;
    let point = Point {
        den: 1,
        at: List::new(alloc),
    };
    assert!(rt; kc_candidates(alloc, &parts, &rows, &point)?.is_empty());
    Ok(())
}

// Two required streets join the ends of a chain of four sets, and three streets lead along it: a
// tour uses these five 6 times or more.
#[test]
fn chains_with_too_little_are_broken(rt: HostRuntime) {
    for (sum, joining, broken) in [
        (10, 2, true),
        (11, 2, true),
        (12, 2, false),
        (10, 3, false),
        (7, 0, false),
    ] {
        let chain = Chain { sum, joining };
        assert_eq!(rt; chain.is_broken(3, 2), broken, "at {sum} and {joining}");
    }
}
