//! The values of multipliers of rows in the box of a node.
ghost use Rattle.std.specs.Prelude.{◌≡◌, ◌+◌, ◌*◌, ◌^◌, ◌<◌, ◌≤◌, true, pos, ◌+ℤ◌, ◌-ℤ◌, unsigned_abs, length, IfOk, OnOk};
ghost use Rattle.wrp_sums.specs.Sums.{sum_over};
ghost use Rattle.wrp_sums.specs.Duality as duality;
ghost use Rattle.wrp_town.specs.Limits.{cost_limit};
ghost use Rattle.wrp_town.specs.Arcs.{cost_or_zero};
ghost use Rattle.wrp_rules.specs.Ranges.{are_multipliers};
ghost use Rattle.wrp_rules.specs.Nodes.{Standing, node_at};
ghost use Rattle.wrp_pool.specs.Pools.{has_rows};
ghost use Rattle.wrp_pool.specs.Tallies.{IsTally, AreWithin, most_combined, most_combined_side};
ghost use Rattle.wrp_nodes.specs.Kept.{AreLinked};
ghost use Rattle.wrp_nodes.specs.Tables.{Fits};
ghost use Rattle.wrp_check.specs.Judging.{IsKept, IsSound, IsIdle};
ghost use Rattle.wrp_check.specs.Values.{term_at, AreCutsLegal, ListsCut, priced_value};

use crate::kept::Kept;
use crate::work::Work;
use std::alloc::AllocError;
use wrp_nodes::{Boxes, Nodes, UseRange};
use wrp_pool::Tally;
use wrp_town::Town;

/// The least that the uses of an arc within a range cost, at a reduced cost.
fn least_term(reduced: i128, range: UseRange) -> i128
    requires { unsigned_abs reduced ≤ 2 ^ 93 }
    ensures value { result ≡ duality.least_term reduced range.lo range.hi }
    ensures size { unsigned_abs result ≤ 2 ^ 109 }
{
    let uses = if reduced < 0 { range.hi } else { range.lo };
    reduced * i128::from(uses)
}

/// A cost times the scale, less a number.
#[tactic(auto, using(crate::proofs::Values::scaled_cost))]
fn reduced_cost(scale: u64, cost: u32, number: i128) -> i128
    requires scale { scale ≤ 2 ^ 40 }
    requires cost { cost ≤ cost_limit }
    requires small { unsigned_abs number ≤ most_combined }
    ensures value { result ≡ pos (scale * cost) -ℤ number }
    ensures size { unsigned_abs result ≤ 2 ^ 93 }
{
    let price = u128::from(scale) * u128::from(cost);
    price as i128 - number
}

/// The cost of driving an arc, and 0 where it is illegal.
fn cost_or_zero(town: &Town, arc: u32) -> u32
    requires { arc < 2 * length town.now.streets }
    ensures value { result ≡ cost_or_zero town.now arc }
    ensures limit { result ≤ cost_limit }
{
    match town.cost(arc) {
        Some(cost) => cost,
        None => 0,
    }
}

/// The least that the uses of an arc cost, where `scale` is the denominator, or 0 for no costs.
fn term(town: &Town, boxes: &Boxes, tally: &Tally, scale: u64, arc: u16) -> i128
    requires there { arc < 2 * length town.now.streets }
    requires fits { Fits town.now boxes.now }
    requires tally { IsTally town.now tally.now }
    requires small { AreWithin most_combined tally.now }
    requires scale { scale ≤ 2 ^ 40 }
    ensures value { result ≡ term_at town.now boxes.now tally.now scale arc }
    ensures size { unsigned_abs result ≤ 2 ^ 109 }
{
    let cost = cost_or_zero(town, u32::from(arc));
    let reduced = reduced_cost(scale, cost, tally.number(arc));
    least_term(reduced, boxes.range(u32::from(arc)))
}

/// The right side of the combined rows and the terms of the listed arcs, added up.
#[tactic(auto, using(crate::proofs::Values::few_listed))]
fn listed_value(town: &Town, boxes: &Boxes, tally: &Tally, scale: u64, side: i128) -> i128
    requires fits { Fits town.now boxes.now }
    requires tally { IsTally town.now tally.now }
    requires small { AreWithin most_combined tally.now }
    requires small_side { unsigned_abs side ≤ most_combined_side }
    requires scale { scale ≤ 2 ^ 40 }
    ensures value { result ≡ side
        +ℤ sum_over (term_at town.now boxes.now tally.now scale) tally.now.listed.items }
    ensures size { unsigned_abs result ≤ 2 ^ 124 }
{
    let mut value = side;
    for arc in tally.listed() {
        value += term(town, boxes, tally, scale, *arc);
    }
    value
}

/// Lists the arcs whose ranges are cut on the way from a node to the root.
fn list_cut(town: &Town, nodes: &Nodes, node: u64, tally: &mut Tally) -> Result<(), AllocError>
    requires there { node < length nodes.now }
    requires linked { AreLinked (2 * length town.now.streets) nodes.now }
    requires legal { AreCutsLegal town.now nodes.now }
    requires tally { IsTally town.now tally.old }
    ensures { OnOk result (ListsCut town.now nodes.now node tally.old tally.new) }
{
    let mut at = node;
    while at != 0 {
        let kept = nodes.kept(at);
        tally.list(town, kept.arc)?;
        at = kept.parent;
    }
    Ok(())
}

impl Work {
    /// The value of multipliers at a node, where `scale` is the denominator, or 0 for no costs.
    pub(crate) fn value(
        &mut self,
        town: &Town,
        kept: &Kept,
        node: u64,
        scale: u64,
    ) -> Result<i128, AllocError>
        requires idle { IsIdle town.now self.old }
        requires sound { IsSound town.now kept.now }
        requires there { node < length kept.now.nodes }
        requires rows { has_rows kept.now.pool self.old.pairs.items ≡ true }
        requires multipliers { are_multipliers (2 ^ 60) self.old.pairs.items ≡ true }
        requires scale { scale ≤ 2 ^ 40 }
        ensures idle { OnOk result (IsIdle town.now self.new) }
        ensures value { IfOk result (λ value. (s : Standing) → IsKept town.now s kept.now → value
            ≡ priced_value town.now s.rows (node_at town.now s node) scale self.old.pairs.items) }
        ensures size { IfOk result (λ value. unsigned_abs value ≤ 2 ^ 124) }
    {
        let side = kept
            .pool
            .combine(town, self.pairs.as_slice(), &mut self.tally)?;
        list_cut(town, &kept.nodes, node, &mut self.tally)?;
        self.boxes.enter(&kept.nodes, node);
        let value = listed_value(town, &self.boxes, &self.tally, scale, side);
        self.boxes.leave(&kept.nodes, node);
        self.tally.clear(town);
        Ok(value)
    }
}
