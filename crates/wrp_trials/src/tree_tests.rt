//! What no clause says: that the tree means on worked lists what their author means, and the checker
//! the same.

use crate::lists::{NO_END, Verdict, by_check, by_tree, records_of, refusal};
use crate::towns::{CHAIN, WINDY};
use std::alloc::{AllocError, Global};
use std::test::Fail;
use wrp_rules::{End, Record, Rule};
use wrp_street::{Town, read_town};
use wrp_tree::Tree;

/// The list of a tour of the windy street at the first end, and what the list leads to.
const WINDY_LISTS: [(&str, Verdict); 12] = [
    // An odd cut and a denominator.
    (
        "t 5 0+ 0-\no 0\nb 0 2 1:1 3:5\n",
        Ok(End::Optimal { cost: 5 }),
    ),
    // A tree without cuts.
    (
        "t 5 0+ 0-\nz 0\ns 0 0 0\ne 1 0:1 2:1\nb 2 1 1:3\n",
        Ok(End::Optimal { cost: 5 }),
    ),
    ("t 5 0+ 0-\nz 0\ns 0 0 1\n", Err((4, Rule::Part))),
    ("t 5 0+ 0-\ns 0 0 0\n", Err((3, Rule::Alone))),
    // A point before a split.
    (
        "t 5 0+ 0-\nb 0 2 1:1 2:5\np 0 2 0:1 1:1\ns 0 0 0\ne 1 0:1 2:1\nb 2 1 1:3\n",
        Ok(End::Optimal { cost: 5 }),
    ),
    (
        "t 5 0+ 0-\nb 0 1 2:2\np 0 2 0:1 1:1\n",
        Err((4, Rule::Price)),
    ),
    (
        "t 5 0+ 0-\nb 0 2 1:1 2:5\n",
        Ok(End::Unfinished { low: 3, high: 5 }),
    ),
    // The order of the rules of a tour.
    ("t 5 0+\n", Err((2, Rule::Walk))),
    ("t 0\n", Err((2, Rule::Serve))),
    ("t 6 0+ 0-\n", Err((2, Rule::Cost))),
    ("t 5 0+ 0-\nt 5 0- 0+\n", Err((3, Rule::Dear))),
    ("z 0\n", Err((3, Rule::End))),
];

/// The same of the chain.
const CHAIN_LISTS: [(&str, Verdict); 4] = [
    (
        "t 24 0+ 1+ 2+ 2- 1- 0-\no 0\no 3\nc 0 2 0 1\nc 2 0 2 3\nb 0 1 6:1 7:1 8:10 9:10\n",
        Ok(End::Optimal { cost: 24 }),
    ),
    (
        "t 24 0+ 1+ 2+ 2- 1- 0-\nz 0\ns 0 2 0\na 1 0 2 0 1\n",
        Ok(End::Unfinished { low: 0, high: 24 }),
    ),
    (
        "t 24 0+ 1+ 2+ 2- 1- 0-\nz 0\ns 0 2 0\na 2 0 2 0 1\n",
        Err((5, Rule::Leak)),
    ),
    ("t 24 0+ 1+ 2+ 2- 1- 0-\nc 0 2 0\n", Err((3, Rule::Cross))),
];

/// Whether the tree and the checker both judge a list so.
fn lead_to(alloc: Global, town: &Town, records: &str, want: Verdict) -> Result<bool, Fail> {
    let items = records_of(alloc, records)?;
    let own = by_tree(alloc, town, items.as_slice())?;
    let other = by_check(alloc, town, items.as_slice(), want.unwrap_or(NO_END))?;
    Ok(own == want && other == want)
}

#[test]
fn lists_of_the_windy_street(rt: HostRuntime) -> Result<(), Fail> {
    let town = read_town(rt.alloc(), WINDY)?;
    for (records, want) in &WINDY_LISTS {
        assert!(rt; lead_to(rt.alloc(), &town, records, *want)?, "{records}");
    }
    Ok(())
}

#[test]
fn lists_of_the_chain(rt: HostRuntime) -> Result<(), Fail> {
    let town = read_town(rt.alloc(), CHAIN)?;
    for (records, want) in &CHAIN_LISTS {
        assert!(rt; lead_to(rt.alloc(), &town, records, *want)?, "{records}");
    }
    Ok(())
}

/// The number of nodes, those that aren't open, cuts, blind marks, and the bounds and the next node.
type State = (u64, u64, u32, u64, Option<i128>, Option<u64>, Option<u64>);

/// Lists of the windy street, and the states that they lead to.
const STATES: [(&str, State); 4] = [
    ("", (1, 0, 0, 0, Some(0), None, Some(0))),
    (
        "t 5 0+ 0-\no 0\nb 0 2 1:1 3:5\n",
        (1, 1, 1, 0, Some(5), Some(5), None),
    ),
    (
        "t 5 0+ 0-\nz 0\ns 0 0 0\n",
        (3, 1, 0, 1, Some(0), Some(5), Some(1)),
    ),
    (
        "t 5 0+ 0-\nb 0 2 1:1 2:5\np 0 2 0:1 1:1\ns 0 0 0\ne 1 0:1 2:1\n",
        (3, 2, 0, 0, Some(3), Some(5), Some(2)),
    ),
];

/// What a tree knows.
fn state_of(tree: &Tree<'_>) -> State {
    (
        tree.nodes(),
        tree.done(),
        tree.cuts(),
        tree.blind(),
        tree.lower(),
        tree.upper(),
        tree.open_node(),
    )
}

/// The same after these records, where they are valid.
fn state_behind(tree: &mut Tree<'_>, items: &[Record]) -> Result<Option<State>, AllocError> {
    match refusal(tree, items)? {
        Some(_) => Ok(None),
        None => Ok(Some(state_of(tree))),
    }
}

/// The same of the tree of a town.
fn state_after(alloc: Global, town: &Town, items: &[Record]) -> Result<Option<State>, AllocError> {
    let mut tree = Tree::new(alloc, town)?;
    state_behind(&mut tree, items)
}

/// Whether a list of the windy street leads to a state.
fn is_state(alloc: Global, town: &Town, records: &str, want: State) -> Result<bool, Fail> {
    let items = records_of(alloc, records)?;
    Ok(state_after(alloc, town, items.as_slice())? == Some(want))
}

#[test]
fn trees_know_their_state(rt: HostRuntime) -> Result<(), Fail> {
    let town = read_town(rt.alloc(), WINDY)?;
    for (records, want) in &STATES {
        assert!(rt; is_state(rt.alloc(), &town, records, *want)?, "{records}");
    }
    Ok(())
}
