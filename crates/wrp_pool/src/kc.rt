//! The rows of K-C cuts.
ghost use Rattle.std.specs.Prelude.{◌≡◌, ◌+◌, ◌*◌, ◌<◌, ◌≤◌, true, pos, unsigned_abs, ◌-◌, ◌++◌, if◌then◌else◌, [], ◌∷◌, length, OnOk};
ghost use Rattle.wrp_town.specs.Arcs.{is_legal, legal_arcs};
ghost use Rattle.wrp_rules.specs.Rules.{is_partition};
ghost use Rattle.wrp_rules.specs.Rows.{joining_demands, chain_distance, kc_row, is_chain};
ghost use Rattle.wrp_pool.specs.Pools.{most_right_side};
ghost use Rattle.wrp_pool.specs.Chains.{distance_at};
ghost use Rattle.wrp_pool.specs.Cuts.{terms_unless_zero, Gains};

use crate::chain::{head_set, joins_ends, tail_set};
use crate::row::Pool;
use std::alloc::{AllocError, Global};
use wrp_town::Town;

/// How far apart the sets of the ends of an arc are, where the first and the last count as
/// `last - 2`.
fn chain_distance(town: &Town, last: u32, of: &[u32], arc: u32) -> u32
    requires there { arc < 2 * length town.now.streets }
    requires sets { is_partition town.now last of.now ≡ true }
    ensures value { result ≡ chain_distance town.now last of.now arc }
    ensures most { result ≤ last }
{
    if joins_ends(town, last, of, arc) {
        last - 2
    } else {
        tail_set(town, of, arc).abs_diff(head_set(town, of, arc))
    }
}

/// Adds the term of an arc, where it is legal and has ends in different sets.
fn push_distance(
    town: &Town,
    last: u32,
    of: &[u32],
    arc: u32,
    terms: &mut Vec<(u16, i32)>,
) -> Result<(), AllocError>
    requires there { arc < 2 * length town.now.streets }
    requires sets { is_partition town.now last of.now ≡ true }
    requires few { last ≤ length of.now + 1 }
    ensures { OnOk result (terms.new.items ≡ terms.old.items
        ++ terms_unless_zero (distance_at town.now last of.now)
        (if is_legal town.now arc then arc ∷ [] else [])) }
{
    if town.cost(arc).is_none() {
        return Ok(());
    }
    let distance = chain_distance(town, last, of, arc);
    if distance != 0 {
        terms.push((arc as u16, distance as i32))?;
    }
    Ok(())
}

/// Adds the terms of all arcs.
fn push_distances(
    town: &Town,
    last: u32,
    of: &[u32],
    terms: &mut Vec<(u16, i32)>,
) -> Result<(), AllocError>
    requires sets { is_partition town.now last of.now ≡ true }
    requires few { last ≤ length of.now + 1 }
    ensures { OnOk result (terms.new.items ≡ terms.old.items
        ++ terms_unless_zero (distance_at town.now last of.now) (legal_arcs town.now)) }
{
    for arc in 0..2 * town.streets.len() as u32 {
        push_distance(town, last, of, arc, terms)?;
    }
    Ok(())
}

/// The right side of a K-C cut.
#[tactic(auto, using(crate::proofs::Distances::product_fits))]
fn right_side(last: u32, joining: u32) -> i32
    requires least { 3 ≤ last }
    requires most { last ≤ 2001 }
    requires joining { joining ≤ 4000 }
    ensures value { result ≡ pos (2 * (last - 1) + (last - 2) * joining) }
    ensures size { unsigned_abs result ≤ most_right_side }
{
    (2 * (last - 1) + (last - 2) * joining) as i32
}

impl Pool {
    /// Adds the row of a K-C cut, where so many demands join the first set and the last.
    ///
    /// # Errors
    ///
    /// Want of memory alone.
    #[tactic(auto, using(crate::proofs::Distances::last_is_small, crate::proofs::Distances::least_last, crate::proofs::Distances::few_joining, crate::proofs::Holders::few_sets))]
    pub fn push_kc(
        &mut self,
        alloc: Global,
        town: &Town,
        last: u32,
        of: &[u32],
        joining: u32,
    ) -> Result<(), AllocError>
        requires sets { is_partition town.now last of.now ≡ true }
        requires chain { is_chain town.now last of.now ≡ true }
        requires joining { joining ≡ joining_demands town.now last of.now }
        ensures { OnOk result (Gains town.now (kc_row town.now last of.now) self.old self.new) }
    {
        let mut terms = Vec::new(alloc);
        push_distances(town, last, of, &mut terms)?;
        self.push_row(terms, right_side(last, joining))
    }
}
