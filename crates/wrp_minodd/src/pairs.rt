//! Least cuts between pairs of odd nodes.
ghost use Rattle.std.specs.Prelude.{◌≡◌, ◌≢◌, pos, ◌≤ℤ◌, ℕ, ◌<◌, ◌≤◌, ◌∷◌, ◌++◌, [], List as Many, length, Contains, IsTrue, ◌↔◌, IfOk, OnOk};
ghost use Rattle.std.specs.List.{All};
ghost use Rattle.wrp_rules.specs.declared.record.Record.TheVariants.{Odd};
ghost use Rattle.wrp_rows.specs.Points.{IsPoint};
ghost use Rattle.wrp_webs.specs.Webs.{cut, IsOdd, IsOddNode};
ghost use Rattle.wrp_webs.specs.TownWebs.{MeetsServices};
ghost use Rattle.wrp_webs.specs.Searching.{reading, IsPending};
ghost use Rattle.wrp_odd.specs.Points.{HasNumbers, denominator_of, numbers_of};
ghost use Rattle.wrp_minodd.specs.Looks.{web_of, inner, IsNetOf, HasSeen, IsKept, least_of, IsAddedOnce, AreBrokenOnce};

use crate::sides::{members, side_of};
use std::alloc::{AllocError, Global};
use wrp_flow::{Cut, Net, min_cut_below};
use wrp_odd::{denominator, tallies};
use wrp_rows::Point;
use wrp_rules::Record;
use wrp_town::{List, Town};

/// The lightest set so far that holds the first odd node: its weight, its labels, and an odd node
/// outside.
#[derive(Drop)]
pub(crate) struct Best {
    pub(crate) value: u128,
    pub(crate) inside: Vec<u32>,
    pub(crate) t: u32,
}

/// What the least cuts so far have shown: records of broken odd cuts, and the lightest set.
#[derive(Drop)]
pub(crate) struct Seen {
    pub(crate) records: Vec<Record>,
    pub(crate) best: Option<Best>,
}

/// Looks at the least cut between two odd nodes, where it is lighter than the denominator.
pub(crate) fn see(
    alloc: Global,
    town: &Town,
    point: &Point,
    map: &[u32],
    net: &Net,
    s: u32,
    t: u32,
    seen: &mut Seen,
) -> Result<(), AllocError>
    requires point { IsPoint town.now point.now }
    requires numbers { HasNumbers point.now }
    requires services { MeetsServices town.now (denominator_of point.now) (numbers_of point.now) }
    requires map { IsPending (web_of town.now point.now) map.now }
    requires net { IsNetOf (web_of town.now point.now) (reading map.now) net.now }
    requires s { IsOddNode (web_of town.now point.now) (reading map.now) s }
    requires t { IsOddNode (web_of town.now point.now) (reading map.now) t }
    requires apart { s ≢ t }
    requires broken { AreBrokenOnce town.now point.now seen.old.records.items }
    ensures { (nodes : Many ℕ) → HasSeen town.now point.now map.now s nodes seen.old
        → OnOk result (HasSeen town.now point.now map.now s (nodes ++ t ∷ []) seen.new) }
{
    let Some(both) = min_cut_below(alloc, net, s, t, point.den)? else {
        return Ok(());
    };
    let near = side_of(alloc, map, both.cut.set.as_slice(), 1, 0)?;
    let far = side_of(alloc, map, both.sink_side.as_slice(), 0, 1)?;
    note(alloc, town, point, near.as_slice(), &mut seen.records)?;
    note(alloc, town, point, far.as_slice(), &mut seen.records)?;
    keep(seen, denominator(point), weight_of(&both.cut), near, t);
    Ok(())
}

/// The weight of a cut.
fn weight_of(cut: &Cut) -> u128
    requires { pos 0 ≤ℤ cut.now.value }
    ensures { pos result ≡ cut.now.value }
{
    cut.value.unsigned_abs()
}

/// Keeps a set where it is lighter than the lightest so far, or than the bound where there is none.
fn keep(seen: &mut Seen, bound: u128, value: u128, inside: Vec<u32>, t: u32)
    ensures { IsKept bound value inside.items t seen.old seen.new }
{
    if value < least_of(&seen.best, bound) {
        seen.best = Some(Best { value, inside, t });
    }
}

/// The weight of the lightest set, or the bound.
fn least_of(best: &Option<Best>, bound: u128) -> u128
    ensures { result ≡ least_of bound best.now }
{
    match best {
        None => bound,
        Some(best) => best.value,
    }
}

/// Adds the record of the junctions with label 1, where the point breaks its odd cut and it isn't
/// there yet.
fn note(
    alloc: Global,
    town: &Town,
    point: &Point,
    labels: &[u32],
    records: &mut Vec<Record>,
) -> Result<(), AllocError>
    requires point { IsPoint town.now point.now }
    requires numbers { HasNumbers point.now }
    requires long { length labels.now ≡ length town.now.junctions }
    requires labels { All (λ label. label < length town.now.junctions) labels.now }
    requires two { 1 < length town.now.junctions }
    requires broken { AreBrokenOnce town.now point.now records.old.items }
    ensures broken { OnOk result (AreBrokenOnce town.now point.now records.new.items) }
    ensures grown { OnOk result (length records.old.items ≤ length records.new.items) }
    ensures found { OnOk result (MeetsServices town.now (denominator_of point.now)
        (numbers_of point.now)
        → IsOdd (web_of town.now point.now) (inner labels.now)
        → cut (web_of town.now point.now) (inner labels.now) < denominator_of point.now
        → 0 < length records.new.items) }
{
    let tallies = tallies(alloc, town, point, labels)?;
    if tallies[1].is_broken(denominator(point)) {
        let set = members(alloc, labels)?;
        add_once(records, set)?;
    }
    Ok(())
}

/// Adds the record of a set where it isn't there yet.
fn add_once(records: &mut Vec<Record>, set: List<u32>) -> Result<(), AllocError>
    ensures { OnOk result (IsAddedOnce (Odd set) records.old.items records.new.items) }
{
    if !is_there(records.as_slice(), set.as_slice()) {
        records.push(Record::Odd { set })?;
    }
    Ok(())
}

/// Whether the record of a set is there.
fn is_there(records: &[Record], set: &[u32]) -> bool
    ensures { IsTrue result ↔ Contains records.now (Odd set.now) }
{
    for item in records {
        if is_odd_of(item, set) {
            return true;
        }
    }
    false
}

/// Whether a record is the Odd record of a set.
fn is_odd_of(item: &Record, set: &[u32]) -> bool
    ensures { IsTrue result ↔ (item.now ≡ Odd set.now) }
{
    match item {
        Record::Odd { set: own } => own.as_slice() == set,
        _ => false,
    }
}
