//! What no clause says: that the tour of a town in which nothing is to be served is found at once.
ghost use Rattle.std.specs.Prelude.{◌≡◌};

use crate::{Found, search};
use std::test::Fail;
use wrp_disk::SteadyDisk;
use wrp_graph::Graph;
use wrp_keep::Keep;
use wrp_town::{List, Town};

#[test]
fn a_town_without_streets(rt: HostRuntime) -> Result<(), Fail> {
    let town = Town {
        junctions: List::new(rt.alloc()),
        streets: List::new(rt.alloc()),
    };
    let graph = Graph::new(rt.alloc(), &town)?;
    let mut keep = Keep::bare(rt.alloc(), &town)?;
    let mut disk = SteadyDisk::new(rt.alloc(), 0)?;
    let found = search(rt.alloc(), &graph, &mut keep, &mut disk, 1)?;
    assert_eq!(rt; found, Found::Optimal { cost: 0 });
    assert_eq!(rt; (keep.staged(), keep.tree().done()), (0, 1));
    Ok(())
}
