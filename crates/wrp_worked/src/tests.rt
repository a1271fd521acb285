// What no clause says: that the definitions of the street network mean on worked towns what their
// author means.
ghost use Rattle.std.specs.Prelude.{◌≡◌, ℕ, ◌*◌, ◌≤◌, ◌^◌, false, IsTrue, length, sum, slice_index};
ghost use Rattle.wrp_town.specs.Arcs.{is_legal};
ghost use Rattle.wrp_euler.specs.Circuits.{AreCounts};

use std::alloc::Global;
use std::test::Fail;
use wrp_euler::{CircuitFault, circuit};
use wrp_graph::Graph;
use wrp_parts::required_parts;
use wrp_paths::shortest;
use wrp_reach::{Reach, labels};
use wrp_street::{List, Step, TableFault, Town, read_town, walk_cost};
use wrp_tour::{first_tour, improve};

// A street, driven in its first direction.
const ONE_WAY: &[u8] = b"street,from,to,forward,backward,need\ne,A,B,2,-,yes\n";

// Two required streets, and one between them that is not.
const CHAIN: &[u8] =
    b"street,from,to,forward,backward,need\ne,A,B,1,1,yes\nf,B,C,10,10,no\ng,C,D,1,1,yes\n";

// A triangle that is driven one way round, and a street against it.
const TRIANGLE: &[u8] = b"street,from,to,forward,backward,need\n\
a,A,B,1,-,no\nb,B,C,1,-,yes\nc,C,A,1,-,no\nd,B,A,5,-,yes\n";

// Required streets that nobody may drive, a loop, and junctions where none ends.
const CLOSED: &[u8] = b"street,from,to,forward,backward,need\n\
a,A,B,1,1,no\nb,C,B,-,-,yes\nl,D,D,1,-,backward\nc,E,C,-,4,both\nd,E,D,1,1,no\n";

// Two required streets, whose ends come in turn.
const CROSSED: &[u8] =
    b"street,from,to,forward,backward,need\na,A,B,1,1,no\nb,A,C,1,1,yes\nc,D,B,1,1,forward\n";

// Whether these arcs leave and enter a junction.
fn has_star(
    alloc: Global,
    table: &[u8],
    j: u32,
    leaving: &[u32],
    entering: &[u32],
) -> Result<bool, TableFault> {
    let town = read_town(alloc, table)?;
    let graph = &Graph::new(alloc, &town)?;
    if (j as usize) < town.junctions.len() {
        Ok(graph.out_of(j) == leaving && graph.into(j) == entering)
    } else {
        Ok(false)
    }
}

// Whether a town has so many parts, of these junctions.
fn has_parts(
    alloc: Global,
    table: &[u8],
    count: u32,
    of: &[Option<u32>],
) -> Result<bool, TableFault> {
    let town = read_town(alloc, table)?;
    let graph = Graph::new(alloc, &town)?;
    let parts = required_parts(alloc, &graph)?;
    Ok(parts.count == count && parts.of.as_slice() == of)
}

// The distance from one junction to another; none where there is no walk, or no such junction.
fn distance(alloc: Global, table: &[u8], from: u32, to: u32) -> Result<Option<u64>, TableFault> {
    let town = read_town(alloc, table)?;
    let graph = Graph::new(alloc, &town)?;
    let count = town.junctions.len();
    if (from as usize) < count && (to as usize) < count {
        Ok(shortest(alloc, &graph, from)?.dist(to))
    } else {
        Ok(None)
    }
}

// A shortest walk from one junction to another.
fn path(alloc: Global, table: &[u8], from: u32, to: u32) -> Result<Option<List<Step>>, TableFault> {
    let town = read_town(alloc, table)?;
    let graph = Graph::new(alloc, &town)?;
    let count = town.junctions.len();
    if (from as usize) < count && (to as usize) < count {
        Ok(shortest(alloc, &graph, from)?.path(to)?)
    } else {
        Ok(None)
    }
}

// Whether the sum of the counts is at most 2^25.
fn are_few(counts: &[u32]) -> bool
    ensures { IsTrue result → sum counts.now ≤ 2 ^ 25 }
{
    let mut total = 0;
    for count in counts {
        total += u64::from(*count);
        if total > 1 << 25 {
            return false;
        }
    }
    true
}

// Whether no illegal arc has a count.
fn are_on_legal_arcs(town: &Town, counts: &[u32]) -> bool
    requires { length counts.now ≡ 2 * length town.now.streets }
    ensures { IsTrue result
        → (arc : ℕ) → is_legal town.now arc ≡ false → slice_index counts.now arc ≡ 0 }
{
    for (arc, count) in counts.iter().enumerate() {
        if *count > 0 && town.cost(arc as u32).is_none() {
            return false;
        }
    }
    true
}

// Whether these are counts of the arcs of a town, of which a circuit may be asked.
fn are_counts(town: &Town, counts: &[u32]) -> bool
    ensures counts { IsTrue result → AreCounts town.now counts.now }
    ensures sum { IsTrue result → sum counts.now ≤ 2 ^ 25 }
{
    counts.len() == 2 * town.streets.len() && are_on_legal_arcs(town, counts) && are_few(counts)
}

// How many steps a circuit with these counts has, or why there is none; no answer where they are no
// counts of the town.
fn circuit_length(
    alloc: Global,
    table: &[u8],
    counts: &[u32],
) -> Result<Option<Result<usize, CircuitFault>>, TableFault> {
    let town = read_town(alloc, table)?;
    let graph = Graph::new(alloc, &town)?;
    if !are_counts(&town, counts) {
        return Ok(None);
    }
    match circuit(alloc, &graph, counts) {
        Ok(steps) => Ok(Some(Ok(steps.len()))),
        Err(fault) => Ok(Some(Err(fault))),
    }
}

// The junctions of the component that holds every demand, where a town has a tour.
fn joined(alloc: Global, table: &[u8]) -> Result<Option<List<u32>>, TableFault> {
    let town = read_town(alloc, table)?;
    let graph = Graph::new(alloc, &town)?;
    match labels(alloc, &graph)? {
        Reach::Joined { part } => Ok(Some(part)),
        Reach::Split { .. } => Ok(None),
    }
}

// What a first tour costs, and a better one; nothing where a town has no tour.
fn tour_costs(alloc: Global, table: &[u8]) -> Result<Option<(u64, u64)>, TableFault> {
    let town = read_town(alloc, table)?;
    let graph = Graph::new(alloc, &town)?;
    match labels(alloc, &graph)? {
        Reach::Joined { .. } => {
            let parts = required_parts(alloc, &graph)?;
            let first = first_tour(alloc, &graph, &parts)?;
            if first.len() > 1000 {
                return Ok(None);
            }
            let better = improve(alloc, &graph, first.as_slice())?;
            if better.len() > 1000 {
                return Ok(None);
            }
            let old = walk_cost(&town, first.as_slice()).unwrap_or(0);
            let new = walk_cost(&town, better.as_slice()).unwrap_or(0);
            Ok(Some((old, new)))
        }
        Reach::Split { .. } => Ok(None),
    }
}

// A step along a street.
fn forward(street: u32) -> Step {
    Step {
        street,
        back: false,
    }
}

#[test]
fn stars_have_the_legal_arcs(rt: HostRuntime) -> Result<(), Fail> {
    let alloc = rt.alloc();
    assert!(rt; has_star(alloc, TRIANGLE, 1, &[2, 6], &[0])?);
    assert!(rt; has_star(alloc, CLOSED, 3, &[4, 9], &[4, 8])?);
    Ok(())
}

#[test]
fn parts_come_by_their_least_junctions(rt: HostRuntime) -> Result<(), Fail> {
    let alloc = rt.alloc();
    let closed = [None, Some(0), Some(0), Some(1), Some(0)];
    assert!(rt; has_parts(alloc, CLOSED, 2, &closed)?);
    let crossed = [Some(0), Some(1), Some(0), Some(1)];
    assert!(rt; has_parts(alloc, CROSSED, 2, &crossed)?);
    Ok(())
}

#[test]
fn walks_are_shortest(rt: HostRuntime) -> Result<(), Fail> {
    let alloc = rt.alloc();
    assert_eq!(rt; distance(alloc, TRIANGLE, 2, 1)?, Some(2));
    let round = List::from_vec(Vec::from_slice(alloc, &[forward(2), forward(0)])?);
    assert_eq!(rt; path(alloc, TRIANGLE, 2, 1)?, Some(round));
    assert_eq!(rt; distance(alloc, ONE_WAY, 1, 0)?, None);
    assert_eq!(rt; path(alloc, ONE_WAY, 1, 1)?, Some(List::new(alloc)));
    Ok(())
}

#[test]
fn counts_have_a_circuit_or_a_fault(rt: HostRuntime) -> Result<(), Fail> {
    let alloc = rt.alloc();
    let round = circuit_length(alloc, TRIANGLE, &[2, 0, 1, 0, 1, 0, 1, 0])?;
    assert_eq!(rt; round, Some(Ok(5)));
    let unbalanced = CircuitFault::Unbalanced { junction: 0 };
    assert_eq!(rt;
        circuit_length(alloc, ONE_WAY, &[1, 0])?,
        Some(Err(unbalanced))
    );
    let apart = CircuitFault::Apart { first: 0, other: 4 };
    assert_eq!(rt;
        circuit_length(alloc, CHAIN, &[1, 1, 0, 0, 1, 1])?,
        Some(Err(apart))
    );
    assert_eq!(rt; circuit_length(alloc, CHAIN, &[0; 6])?, Some(Ok(0)));
    Ok(())
}

#[test]
fn tours_stay_in_a_component(rt: HostRuntime) -> Result<(), Fail> {
    let alloc = rt.alloc();
    let chain = List::from_vec(Vec::from_slice(alloc, &[0, 1, 2, 3])?);
    assert_eq!(rt; joined(alloc, CHAIN)?, Some(chain));
    assert_eq!(rt; joined(alloc, ONE_WAY)?, None);
    assert_eq!(rt; joined(alloc, CLOSED)?, None);
    Ok(())
}

#[test]
fn tours_are_short(rt: HostRuntime) -> Result<(), Fail> {
    let alloc = rt.alloc();
    assert_eq!(rt; tour_costs(alloc, CHAIN)?, Some((24, 24)));
    assert_eq!(rt; tour_costs(alloc, TRIANGLE)?, Some((9, 9)));
    assert_eq!(rt; tour_costs(alloc, ONE_WAY)?, None);
    Ok(())
}
