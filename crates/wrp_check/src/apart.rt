//! The record that empties a node by a set that no tour within its box leaves.
ghost use Rattle.std.specs.Prelude.{◌≡◌, ◌*◌, ◌<◌, ◌==◌, ◌||◌, not, None, Ok, true, length, IfOk};
ghost use Rattle.std.specs.List.{list_all};
ghost use Rattle.wrp_graph.specs.Stars.{out_of};
ghost use Rattle.wrp_town.specs.Arcs.{legal_arcs};
ghost use Rattle.wrp_rules.specs.declared.record.Record.TheVariants.{Apart};
ghost use Rattle.wrp_rules.specs.Contents.{has_number_rules};
ghost use Rattle.wrp_rules.specs.Nodes.{Standing, node_at};
ghost use Rattle.wrp_rules.specs.Sets.{leaves};
ghost use Rattle.wrp_pool.specs.Cuts.{IsSetOf};
ghost use Rattle.wrp_nodes.specs.Tables.{Fits, IsAtRest};
ghost use Rattle.wrp_check.specs.Judging.{IsKept, IsSound, IsIdle, HasSameTables, Tries};
ghost use Rattle.wrp_check.specs.Leaks.{stays_at, are_shut};

use crate::cuts::are_streets;
use crate::gather::gather_set;
use crate::kept::{Kept, Past};
use crate::work::Work;
use std::alloc::AllocError;
use wrp_graph::Graph;
use wrp_nodes::Boxes;
use wrp_pool::{JunctionSet, is_parted};
use wrp_proof::{NumbersOf, Rule};

/// Whether an arc that leaves a junction of the set stays in it, or can't be used.
fn stays(graph: &Graph<'_>, set: &JunctionSet, boxes: &Boxes, arc: u32) -> bool
    requires there { arc < 2 * length graph.now.streets }
    requires set { IsSetOf graph.now set.now }
    requires fits { Fits graph.now boxes.now }
    ensures { result ≡ stays_at graph.now set.now.set boxes.now arc }
{
    set.contains(graph.town().head(arc)) || boxes.range(arc).hi == 0
}

/// Whether every arc of the star of a junction stays in the set, or can't be used.
#[tactic(auto, using(wrp_pool::proofs::Borders::out_below))]
fn is_star_shut(graph: &Graph<'_>, set: &JunctionSet, boxes: &Boxes, junction: u32) -> bool
    requires there { junction < length graph.now.junctions }
    requires set { IsSetOf graph.now set.now }
    requires fits { Fits graph.now boxes.now }
    ensures { result
        ≡ list_all (stays_at graph.now set.now.set boxes.now) (out_of graph.now junction) }
{
    for arc in graph.out_of(junction) {
        if !stays(graph, set, boxes, *arc) {
            return false;
        }
    }
    true
}

/// Whether no arc that leaves the set can be used.
fn is_shut(graph: &Graph<'_>, set: &JunctionSet, boxes: &Boxes) -> bool
    requires set { IsSetOf graph.now set.now }
    requires fits { Fits graph.now boxes.now }
    ensures { result ≡ are_shut graph.now set.now.set boxes.now set.now.set }
{
    for junction in set.as_slice() {
        if !is_star_shut(graph, set, boxes, *junction) {
            return false;
        }
    }
    true
}

impl Work {
    /// Whether no arc that leaves the set can be used in the box of a node.
    fn is_shut_at(&mut self, graph: &Graph<'_>, kept: &Kept, node: u64) -> bool
        requires set { IsSetOf graph.now self.old.set }
        requires rest { IsAtRest graph.now self.old.boxes }
        requires sound { IsSound graph.now kept.now }
        requires there { node < length kept.now.nodes }
        ensures rest { IsAtRest graph.now self.new.boxes }
        ensures others { HasSameTables self.old self.new }
        ensures shut { (s : Standing) → IsKept graph.now s kept.now → result
            ≡ list_all (λ arc. not (leaves graph.now self.old.set.set arc)
            || ((node_at graph.now s node).hi arc == 0)) (legal_arcs graph.now) }
    {
        self.boxes.enter(&kept.nodes, node);
        let shut = is_shut(graph, &self.set, &self.boxes);
        self.boxes.leave(&kept.nodes, node);
        shut
    }
}

/// Takes the record that empties a node by a set, or says which rule it breaks.
pub(crate) fn take_apart(
    graph: &Graph<'_>,
    work: &mut Work,
    kept: &mut Kept,
    node: u64,
    inside: u32,
    outside: u32,
    junctions: &NumbersOf<'_>,
) -> Result<Option<Rule>, AllocError>
    requires idle { IsIdle graph.now work.old }
    requires sound { IsSound graph.now kept.old }
    requires numbers { has_number_rules (Apart node inside outside junctions.now) ≡ true }
    ensures idle { result ≡ Ok None → IsIdle graph.now work.new }
    ensures tries { IfOk result (λ broken.
        Tries graph.now (Apart node inside outside junctions.now) broken kept.old kept.new) }
{
    let town = graph.town();
    if node >= kept.nodes.len()
        || !are_streets(town, inside, outside)
        || !gather_set(&mut work.set, junctions)?
    {
        return Ok(Some(Rule::Range));
    }
    if !kept.nodes.is_open(node, kept.upper) {
        return Ok(Some(Rule::Closed));
    }
    if !is_parted(town, inside, outside, &work.set) {
        return Ok(Some(Rule::Cross));
    }
    if !work.is_shut_at(graph, kept, node) {
        return Ok(Some(Rule::Leak));
    }
    kept.nodes.close(node);
    kept.past = Past::plain();
    work.set.clear();
    Ok(None)
}
