//! The terms and the right side of new rows, by patterns.
ghost use Rattle.std.specs.Prelude.{◌≡◌, ◌*◌, ◌<◌, ◌≤◌, [], ◌∷◌, ◌++◌, map, length, OnOk};
ghost use Rattle.std.specs.List.{filter};
ghost use Rattle.wrp_town.specs.Limits.{demand_limit};
ghost use Rattle.wrp_rows.specs.Pools.{is_term, terms_of};
ghost use Rattle.wrp_rows.specs.Sizes.{AreSmallTerms};
ghost use Rattle.wrp_rows.specs.Patterns.{coef_by, demands_by, Fits};

use crate::pattern::Pattern;
use std::alloc::AllocError;
use wrp_town::Town;

/// Puts the terms of a row into `terms`, in place of what was there.
pub(crate) fn gather(
    terms: &mut Vec<(u32, i64)>,
    town: &Town,
    pattern: Pattern<'_>,
) -> Result<(), AllocError>
    requires { Fits town.now pattern }
    ensures terms { OnOk result
        (terms.new.items ≡ terms_of town.now (coef_by town.now pattern.entry)) }
    ensures small { OnOk result (AreSmallTerms (2 * length town.now.streets) terms.new.items) }
{
    terms.clear();
    for arc in 0..2 * town.streets.len() as u32 {
        add_term(terms, town, pattern, arc)?;
    }
    Ok(())
}

/// Adds the term of an arc, where it is legal and its coefficient isn't 0.
fn add_term(
    terms: &mut Vec<(u32, i64)>,
    town: &Town,
    pattern: Pattern<'_>,
    arc: u32,
) -> Result<(), AllocError>
    requires below { arc < 2 * length town.now.streets }
    requires fits { Fits town.now pattern }
    ensures { let coef = coef_by town.now pattern.entry in OnOk result
        (terms.new.items
        ≡ terms.old.items ++ map (λ a. (a, coef a)) (filter (is_term town.now coef) (arc ∷ []))) }
{
    if town.cost(arc).is_some() {
        let coef = pattern.coef(town, arc);
        if coef != 0 {
            terms.push((arc, coef))?;
        }
    }
    Ok(())
}

/// The number of demands that count for the right side.
pub(crate) fn demands_by(town: &Town, pattern: Pattern<'_>) -> u32
    requires { Fits town.now pattern }
    ensures value { result ≡ demands_by town.now pattern.entry }
    ensures few { result ≤ demand_limit }
{
    let mut count = 0;
    for (i, street) in town.streets.as_slice().iter().enumerate() {
        if pattern.joins(town, 2 * i as u32) {
            count += street.need.demand_count();
        }
    }
    count
}
