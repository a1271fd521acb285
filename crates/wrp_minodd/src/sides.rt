//! Sets of junctions as labels, 1 inside and 0 outside.
ghost use Rattle.std.specs.Prelude.{◌≡◌, ℕ, ◌<◌, ◌^◌, ◌==◌, ◌%◌, ◌≤◌, true, cond, [], length, IfOk, slice_index};
ghost use Rattle.std.specs.List.{All, filter, range_with_len};
ghost use Rattle.wrp_rules.specs.Rules.{all_below};
ghost use Rattle.wrp_rules.specs.Sets.{is_in};
ghost use Rattle.wrp_rows.specs.Points.{IsPoint};
ghost use Rattle.wrp_rows.specs.Marks.{AreMarks};
ghost use Rattle.wrp_webs.specs.Searching.{reading, IsShrunkTo, IsPending};
ghost use Rattle.wrp_webs.specs.Webs.{outside};
ghost use Rattle.wrp_odd.specs.Points.{HasNumbers};
ghost use Rattle.wrp_minodd.specs.Looks.{web_of, odd_nodes_of, inner, IsSide};

use std::alloc::{AllocError, Global};
use wrp_odd::tallies;
use wrp_rows::Point;
use wrp_town::{List, Town};

/// The odd nodes of a web, ascending.
pub(crate) fn odd_nodes(
    alloc: Global,
    town: &Town,
    point: &Point,
    map: &[u32],
) -> Result<Vec<u32>, AllocError>
    requires point { IsPoint town.now point.now }
    requires numbers { HasNumbers point.now }
    requires long { length map.now ≡ length town.now.junctions }
    requires map { All (λ node. node < length town.now.junctions) map.now }
    ensures { IfOk result (λ nodes. nodes.items ≡ odd_nodes_of town.now point.now map.now) }
{
    let tallies = tallies(alloc, town, point, map)?;
    let mut nodes = Vec::new(alloc);
    for node in 0..town.junctions.len() as u32 {
        if tallies[node as usize].demands % 2 == 1 {
            nodes.push(node)?;
        }
    }
    Ok(nodes)
}

/// The labels of junctions: the one where its node is among the nodes, else the other.
pub(crate) fn side_of(
    alloc: Global,
    map: &[u32],
    nodes: &[u32],
    inside: u32,
    outside: u32,
) -> Result<Vec<u32>, AllocError>
    requires map { All (λ node. node < length map.now) map.now }
    requires nodes { all_below (length map.now) nodes.now ≡ true }
    ensures { IfOk result (λ labels. IsSide map.now nodes.now inside outside labels.items) }
{
    let mut marks = vec![in alloc; false; map.len()]?;
    mark(nodes, marks.as_mut_slice());
    let mut labels = Vec::with_capacity(alloc, map.len())?;
    for node in map {
        labels.push(if marks[*node as usize] {
            inside
        } else {
            outside
        })?;
    }
    Ok(labels)
}

/// Marks nodes, where none is marked yet.
fn mark(nodes: &[u32], marks: &mut [bool])
    requires none { AreMarks [] marks.old }
    requires nodes { all_below (length marks.old) nodes.now ≡ true }
    ensures { AreMarks nodes.now marks.new }
{
    for node in nodes {
        marks[*node as usize] = true;
    }
}

/// The junctions with label 1, ascending.
pub(crate) fn members(alloc: Global, labels: &[u32]) -> Result<List<u32>, AllocError>
    requires { length labels.now < 2 ^ 32 }
    ensures { IfOk result (λ set. set
        ≡ filter (inner labels.now) (range_with_len 0 (length labels.now))) }
{
    let mut set = List::new(alloc);
    for (j, label) in labels.iter().enumerate() {
        if *label == 1 {
            set.push(j as u32)?;
        }
    }
    Ok(set)
}

/// The map in which the junctions that don't have a label are merged into t.
pub(crate) fn shrunk(
    alloc: Global,
    map: &[u32],
    labels: &[u32],
    label: u32,
    t: u32,
) -> Result<List<u32>, AllocError>
    requires { length labels.now ≡ length map.now }
    ensures long { IfOk result (λ new. length new ≡ length map.now) }
    ensures is { IfOk result (λ new. (j : ℕ) → j < length map.now → slice_index new j
        ≡ cond (slice_index labels.now j == label) (slice_index map.now j) t) }
{
    let mut new = List::new(alloc);
    for (j, node) in map.iter().enumerate() {
        new.push(if labels[j] == label { *node } else { t })?;
    }
    Ok(new)
}
