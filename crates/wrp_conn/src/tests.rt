//! What no clause says: the calls answer.

use crate::{all_violated, violated};
use std::test::Fail;
use wrp_graph::Graph;
use wrp_parts::required_parts;
use wrp_rows::{Point, Rows};
use wrp_town::{List, Town};

#[test]
fn a_town_without_streets_is_connected(rt: HostRuntime) -> Result<(), Fail> {
    let alloc = rt.alloc();
    let town = Town {
        junctions: List::new(alloc),
        streets: List::new(alloc),
    };
    let graph = Graph::new(alloc, &town)?;
    let parts = required_parts(alloc, &graph)?;
    let rows = Rows::new(alloc, &town)?;
    let point = Point {
        den: 1,
        at: List::new(alloc),
    };
    assert!(rt; violated(alloc, &parts, &rows, &point)?.is_none());
    assert!(rt; all_violated(alloc, &parts, &rows, &point)?.is_empty());
    Ok(())
}
