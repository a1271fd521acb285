//! Which cuts a round adds.
ghost use Rattle.std.specs.Prelude.{◌≡◌, ◌+◌, ◌≤◌, true, [], length, IfOk, OnOk};
ghost use Rattle.wrp_parts.specs.RequiredParts.{AreParts};
ghost use Rattle.wrp_rows.specs.declared.point.Point.{Point as APoint};
ghost use Rattle.wrp_minodd.specs.Answers.{MeetsOdd};
ghost use Rattle.wrp_conn.specs.Conns.{IsConnected};
ghost use Rattle.wrp_round.specs.Optima.{IsOptimal, IsOptimumOver, point_of};
ghost use Rattle.wrp_licence.specs.Causes.{most_round_cuts};
ghost use Rattle.wrp_engine.specs.Cuts.{IsServing, IsServed, AreUseful, AreOddCuts, AreBrokenOdds, MeetsNamed, IsUnbroken};

use std::alloc::{AllocError, Global};
use wrp_conn::all_violated;
use wrp_kc::kc_candidates;
use wrp_lp::Lp;
use wrp_minodd::broken_odd_sets;
use wrp_odd::odd_candidates;
use wrp_parts::Parts;
use wrp_round::{round_candidates, round_of_odd};
use wrp_rows::{Point, Rows};
use wrp_rules::Record;

/// Up to this round of a turn, cuts of every kind are added; behind it, those of the exact searches
/// alone.
const LAST_OPEN_ROUND: u32 = 200;

/// The most cuts that a round adds.
const MOST_CUTS: usize = 200;

/// Where a round has found so many other cuts, it looks for no roundings.
const ENOUGH_CUTS: usize = 10;

/// The most roundings that a round adds.
const MOST_ROUNDINGS: usize = 2;

/// The most K-C cuts that a round adds.
const MOST_KC: usize = 10;

/// The cuts that a round adds, all broken by the point of its relaxation over the chosen rows.
pub(crate) fn cuts_of(
    alloc: Global,
    parts: &Parts,
    rows: &Rows<'_>,
    chosen: &[u32],
    lp: &Lp,
    round: u32,
) -> Result<Vec<Record>, AllocError>
    requires parts { AreParts rows.now.town parts.now.count parts.now.of }
    requires lp { IsServed rows.now chosen.now lp.now }
    ensures useful { IfOk result (λ cuts. AreUseful rows.now (point_of lp.now) cuts.items) }
    ensures few { IfOk result (λ cuts. length cuts.items ≤ most_round_cuts) }
    ensures none { IfOk result (λ cuts. cuts.items ≡ [] → IsOptimal lp.now
        → IsUnbroken rows.now chosen.now round lp.now) }
    ensures idle { (IsOptimal lp.now → ⊥) → IfOk result (λ cuts. cuts.items ≡ []) }
{
    let Lp::Optimal { point, .. } = lp else {
        return Ok(Vec::new(alloc));
    };
    let mut cuts = exact_cuts(alloc, parts, rows, point, round)?;
    if round <= LAST_OPEN_ROUND {
        if wants_roundings(round, cuts.len()) {
            add_roundings(alloc, rows, chosen, lp, &mut cuts)?;
        }
        if cuts.is_empty() {
            cuts = kc_cuts(alloc, parts, rows, point)?;
        }
    }
    cuts.truncate(MOST_CUTS);
    Ok(cuts)
}

/// Some of the K-C cuts.
fn kc_cuts(
    alloc: Global,
    parts: &Parts,
    rows: &Rows<'_>,
    point: &Point,
) -> Result<Vec<Record>, AllocError>
    requires parts { AreParts rows.now.town parts.now.count parts.now.of }
    requires point { IsServing rows.now.town point.now }
    ensures { IfOk result (λ cuts. AreUseful rows.now point.now cuts.items) }
{
    let mut cuts = kc_candidates(alloc, parts, rows, point)?;
    cuts.truncate(MOST_KC);
    Ok(cuts)
}

/// Whether a round that has found so many cuts looks for roundings.
fn wants_roundings(round: u32, found: usize) -> bool
    ensures { found ≡ 0 → result ≡ true }
{
    found == 0 || (round > 1 && found < ENOUGH_CUTS)
}

/// Connectivity cuts and odd cuts: none only where the point breaks none.
fn exact_cuts(
    alloc: Global,
    parts: &Parts,
    rows: &Rows<'_>,
    point: &Point,
    round: u32,
) -> Result<Vec<Record>, AllocError>
    requires parts { AreParts rows.now.town parts.now.count parts.now.of }
    requires point { IsServing rows.now.town point.now }
    ensures useful { IfOk result (λ cuts. AreUseful rows.now point.now cuts.items) }
    ensures conns { IfOk result (λ cuts. cuts.items ≡ [] → IsConnected rows.now.town point.now) }
    ensures odds { IfOk result (λ cuts. cuts.items ≡ [] → MeetsOdd rows.now.town point.now) }
{
    let mut cuts = all_violated(alloc, parts, rows, point)?;
    if round <= LAST_OPEN_ROUND {
        add_forms(alloc, rows, odd_candidates(alloc, rows, point)?, &mut cuts)?;
    }
    if cuts.is_empty() {
        add_odd_sets(alloc, rows, point, round, &mut cuts)?;
    }
    Ok(cuts)
}

/// Adds the odd cuts that the exact search finds.
fn add_odd_sets(
    alloc: Global,
    rows: &Rows<'_>,
    point: &Point,
    round: u32,
    cuts: &mut Vec<Record>,
) -> Result<(), AllocError>
    requires point { IsServing rows.now.town point.now }
    requires useful { AreUseful rows.now point.now cuts.old.items }
    ensures useful { OnOk result (AreUseful rows.now point.now cuts.new.items) }
    ensures odds { OnOk result (cuts.new.items ≡ [] → MeetsOdd rows.now.town point.now) }
{
    let mut found = broken_odd_sets(alloc, rows, point)?;
    if round <= LAST_OPEN_ROUND {
        add_forms(alloc, rows, found, cuts)
    } else {
        cuts.append(&mut found)
    }
}

/// Adds odd cuts in their Round form, which has half the terms.
fn add_forms(
    alloc: Global,
    rows: &Rows<'_>,
    found: Vec<Record>,
    cuts: &mut Vec<Record>,
) -> Result<(), AllocError>
    requires { AreOddCuts rows.now.town found.items }
    ensures useful { (point : APoint) → AreBrokenOdds rows.now.town point found.items
        → AreUseful rows.now point cuts.old.items
        → OnOk result (AreUseful rows.now point cuts.new.items) }
    ensures long { OnOk result (length cuts.new.items
        ≡ length cuts.old.items + length found.items) }
{
    for item in found {
        cuts.push(round_of_odd(alloc, rows, item)?)?;
    }
    Ok(())
}

/// Adds those roundings of the table whose numbers are least.
fn add_roundings(
    alloc: Global,
    rows: &Rows<'_>,
    chosen: &[u32],
    lp: &Lp,
    cuts: &mut Vec<Record>,
) -> Result<(), AllocError>
    requires optimum { IsOptimumOver rows.now chosen.now lp.now }
    requires useful { AreUseful rows.now (point_of lp.now) cuts.old.items }
    ensures useful { OnOk result (AreUseful rows.now (point_of lp.now) cuts.new.items) }
    ensures old { OnOk result (cuts.new.items ≡ [] → cuts.old.items ≡ []) }
    ensures named { OnOk result (cuts.new.items ≡ [] → MeetsNamed rows.now chosen.now lp.now) }
{
    let mut found = round_candidates(alloc, rows, chosen, lp)?;
    found.truncate(MOST_ROUNDINGS);
    cuts.append(&mut found)
}
