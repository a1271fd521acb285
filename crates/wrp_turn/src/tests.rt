use crate::{TurnFault, arcs_of, drop_turns, read_bans, turn_town};
use std::alloc::Global;
use std::test::Fail;
use wrp_graph::Graph;
use wrp_street::{TableFault, Town, read_town};
use wrp_town::Step;

/// The header of a table.
const HEADER: &str = "street,from,to,forward,backward,need\n";

/// A triangle with one street that has to be driven both ways.
const TRIANGLE: &str = "a,A,B,1,1,both\nb,B,C,1,1,no\nc,C,A,1,1,no\n";

fn town_of(alloc: Global, rows: &str, count: u32) -> Result<Town, TableFault> {
    let mut table = String::from_str(alloc, HEADER)?;
    for _ in 0..count {
        table.push_str(rows)?;
    }
    if table.len() > 1 << 22 {
        return Err(TableFault::Memory);
    }
    read_town(alloc, table.as_bytes())
}

#[test]
fn bans_are_read(rt: HostRuntime) -> Result<(), Fail> {
    let town = town_of(rt.alloc(), TRIANGLE, 1)?;
    let bans = read_bans(rt.alloc(), &town, b"0+ 0-\r\n0- 0+\n0+ 1+")?;
    assert_eq!(rt; bans.list.as_slice(), [(0, 1), (1, 0), (0, 2)].as_slice());
    for (bytes, want) in [
        (b"0+ 2+\n".as_slice(), TurnFault::Turn { line: 1 }),
        (b"0+ 0-\n9+ 0-", TurnFault::Turn { line: 2 }),
        (b"0+ 0-\n\n0- 0+", TurnFault::Form { line: 2 }),
        (b"0+ 0-\r", TurnFault::Form { line: 1 }),
        (b"0+  0-", TurnFault::Form { line: 1 }),
        (b"00+ 0-", TurnFault::Form { line: 1 }),
        (b"4294967296+ 0-", TurnFault::Form { line: 1 }),
    ] {
        match read_bans(rt.alloc(), &town, bytes) {
            Ok(_) => assert!(rt; false),
            Err(fault) => assert_eq!(rt; fault, want),
        }
    }
    Ok(())
}

#[test]
fn turns_are_streets(rt: HostRuntime) -> Result<(), Fail> {
    let town = town_of(rt.alloc(), TRIANGLE, 1)?;
    let graph = Graph::new(rt.alloc(), &town)?;
    let bans = read_bans(rt.alloc(), &town, b"0+ 0-\n0- 0+\n")?;
    let big = turn_town(rt.alloc(), &graph, &bans)?;
    assert_eq!(rt; big.junctions.len(), 12);
    assert_eq!(rt; big.streets.len(), 16);
    assert_eq!(rt; big.junctions.as_slice()[0].as_str(), "0+i");
    assert_eq!(rt; big.junctions.as_slice()[11].as_str(), "2-o");
    assert_eq!(rt; big.streets.as_slice()[1].name.as_str(), "a");
    assert_eq!(rt; big.streets.as_slice()[6].name.as_str(), "0+ 1+");
    assert_eq!(rt; big.streets.as_slice()[7].name.as_str(), "0- 2-");
    Ok(())
}

#[test]
fn walks_lose_their_turns(rt: HostRuntime) -> Result<(), Fail> {
    let town = town_of(rt.alloc(), TRIANGLE, 1)?;
    let graph = Graph::new(rt.alloc(), &town)?;
    let arcs = arcs_of(rt.alloc(), &graph)?;
    let walk = [Step::along(0), Step::along(12), Step::along(4)];
    let left = drop_turns(rt.alloc(), &town, walk.as_slice(), arcs.as_slice())?;
    assert_eq!(rt;
        left.as_slice(),
        [Step::along(0), Step::along(2)].as_slice()
    );
    Ok(())
}

#[test]
fn refusals_name_their_causes(rt: HostRuntime) -> Result<(), Fail> {
    for (rows, count, want) in [
        ("e,A,B,2,3,yes\n", 1, TurnFault::Either { street: 0 }),
        (
            "l,A,A,1,1,no\n",
            501,
            TurnFault::Size {
                junctions: 2_004,
                streets: 1_005_006,
            },
        ),
    ] {
        let town = town_of(rt.alloc(), rows, count)?;
        let graph = Graph::new(rt.alloc(), &town)?;
        let bans = read_bans(rt.alloc(), &town, b"")?;
        match turn_town(rt.alloc(), &graph, &bans) {
            Ok(_) => assert!(rt; false),
            Err(fault) => assert_eq!(rt; fault, want),
        }
    }
    Ok(())
}
