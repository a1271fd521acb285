//! The arcs between a set of junctions and the others, found from the junctions of the set.
ghost use Rattle.std.specs.Prelude.{◌≡◌, ◌<◌, if◌then◌else◌, [], ◌∷◌, ◌++◌, length, OnOk};
ghost use Rattle.wrp_rules.specs.Sets.{is_in};
ghost use Rattle.std.specs.List.{flat_map};
ghost use Rattle.wrp_pool.specs.Cuts.{IsSetOf, leaving_star, entering_star, ones_on};

use crate::members::JunctionSet;
use std::alloc::AllocError;
use wrp_graph::Graph;

/// Adds an arc, where its far end is outside the set.
fn push_outside(
    set: &JunctionSet,
    far_end: u32,
    arc: u16,
    terms: &mut Vec<(u16, i32)>,
) -> Result<(), AllocError>
    requires { far_end < set.now.among }
    ensures { OnOk result (terms.new.items
        ≡ terms.old.items ++ ones_on (if is_in set.now.set far_end then [] else arc ∷ [])) }
{
    if !set.contains(far_end) {
        terms.push((arc, 1))?;
    }
    Ok(())
}

/// Adds the arcs that leave a junction for one outside the set.
#[tactic(auto, using(crate::proofs::Borders::out_below, wrp_town::proofs::TownLaws::few_streets))]
fn push_leaving(
    graph: &Graph<'_>,
    set: &JunctionSet,
    junction: u32,
    terms: &mut Vec<(u16, i32)>,
) -> Result<(), AllocError>
    requires there { junction < length graph.now.junctions }
    requires set { IsSetOf graph.now set.now }
    ensures { OnOk result (terms.new.items
        ≡ terms.old.items ++ ones_on (leaving_star graph.now set.now.set junction)) }
{
    for arc in graph.out_of(junction) {
        push_outside(set, graph.town().head(*arc), *arc as u16, terms)?;
    }
    Ok(())
}

/// Adds the arcs that enter a junction from one outside the set.
#[tactic(auto, using(crate::proofs::Borders::into_below, wrp_town::proofs::TownLaws::few_streets))]
fn push_entering(
    graph: &Graph<'_>,
    set: &JunctionSet,
    junction: u32,
    terms: &mut Vec<(u16, i32)>,
) -> Result<(), AllocError>
    requires there { junction < length graph.now.junctions }
    requires set { IsSetOf graph.now set.now }
    ensures { OnOk result (terms.new.items
        ≡ terms.old.items ++ ones_on (entering_star graph.now set.now.set junction)) }
{
    for arc in graph.into(junction) {
        push_outside(set, graph.town().tail(*arc), *arc as u16, terms)?;
    }
    Ok(())
}

/// Adds the arcs that leave the set.
pub(crate) fn push_outward(
    graph: &Graph<'_>,
    set: &JunctionSet,
    terms: &mut Vec<(u16, i32)>,
) -> Result<(), AllocError>
    requires { IsSetOf graph.now set.now }
    ensures { OnOk result (terms.new.items
        ≡ terms.old.items ++ ones_on (flat_map (leaving_star graph.now set.now.set) set.now.set)) }
{
    for junction in set.as_slice() {
        push_leaving(graph, set, *junction, terms)?;
    }
    Ok(())
}

/// Adds the arcs that enter the set.
pub(crate) fn push_inward(
    graph: &Graph<'_>,
    set: &JunctionSet,
    terms: &mut Vec<(u16, i32)>,
) -> Result<(), AllocError>
    requires { IsSetOf graph.now set.now }
    ensures { OnOk result (terms.new.items
        ≡ terms.old.items ++ ones_on (flat_map (entering_star graph.now set.now.set) set.now.set)) }
{
    for junction in set.as_slice() {
        push_entering(graph, set, *junction, terms)?;
    }
    Ok(())
}
