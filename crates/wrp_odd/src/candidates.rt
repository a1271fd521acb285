//! The odd cuts that are easily found broken.
ghost use Rattle.std.specs.Prelude.{◌≡◌, ℕ, ◌≢◌, ◌==◌, ◌^◌, ◌<◌, ◌≤◌, true, [], ◌∷◌, length, map, replicate, slice_index, AllPairs, Contains, IfOk, OnOk, unsigned_abs};
ghost use Rattle.std.specs.List.{All, filter, range_with_len};
ghost use Rattle.wrp_rules.specs.declared.record.Record.{Record};
ghost use Rattle.wrp_rules.specs.declared.record.Record.TheVariants.{Odd};
ghost use Rattle.wrp_rules.specs.Rows.{odd_row};
ghost use Rattle.wrp_rows.specs.Points.{IsPoint};
ghost use Rattle.wrp_webs.specs.Webs.{class};
ghost use Rattle.wrp_webs.specs.Searching.{reading};
ghost use Rattle.wrp_odd.specs.Points.{HasNumbers, Breaks};
ghost use Rattle.wrp_odd.specs.Merging.{AreParents};
ghost use Rattle.wrp_odd.specs.Found.{IsBrokenOddCut, IsOddSet, IsFound};

use crate::found::Found;
use crate::merging::{Merged, own_labels};
use crate::tally::{denominator, tallies, tally_of};
use std::alloc::{AllocError, Global};
use wrp_graph::Buckets;
use wrp_rows::{Point, Rows};
use wrp_rules::Record;
use wrp_town::Town;

/// The sets of one junction whose odd row the point breaks, and such sets among the components of
/// the streets that have more than so many eighths of the denominator beyond their demands, for 7
/// eighths down to none. Each as an Odd record, each once, in time linear in the streets.
///
/// # Errors
///
/// Want of memory alone.
pub fn odd_candidates(alloc: Global, rows: &Rows, point: &Point) -> Result<Vec<Record>, AllocError>
    requires point { IsPoint rows.now.town point.now }
    requires numbers { HasNumbers point.now }
    ensures broken { IfOk result (λ found.
        All (IsBrokenOddCut rows.now.town point.now) found.items) }
    ensures single { IfOk result (λ found. (j : ℕ) → j < length rows.now.town.junctions
        → IsOddSet rows.now.town (j ∷ [])
        → Breaks rows.now.town point.now (odd_row rows.now.town (j ∷ []))
        → Contains found.items (Odd (j ∷ []))) }
    ensures once { IfOk result (λ found. AllPairs (λ a b. a ≢ b) found.items) }
{
    let found = candidates_of(alloc, rows.town(), point)?;
    Ok(found)
}

/// The same for a town.
fn candidates_of(alloc: Global, town: &Town, point: &Point) -> Result<Vec<Record>, AllocError>
    requires point { IsPoint town.now point.now }
    requires numbers { HasNumbers point.now }
    ensures broken { IfOk result (λ found. All (IsBrokenOddCut town.now point.now) found.items) }
    ensures single { IfOk result (λ found. (j : ℕ) → j < length town.now.junctions
        → IsOddSet town.now (j ∷ []) → Breaks town.now point.now (odd_row town.now (j ∷ []))
        → Contains found.items (Odd (j ∷ []))) }
    ensures once { IfOk result (λ found. AllPairs (λ a b. a ≢ b) found.items) }
{
    let count = town.junctions.len();
    let mut found = Found::new(alloc, count)?;
    add_singles(alloc, town, point, &mut found)?;
    let mut merged = Merged::new(alloc, count as u32)?;
    for eighth in 0..8 {
        join_streets(town, point, 7 - eighth, &mut merged);
        let labels = merged.labels(alloc)?;
        add_classes(alloc, town, point, labels.as_slice(), &mut found)?;
    }
    Ok(found.records)
}

/// Adds the sets of one junction whose odd row the point breaks.
fn add_singles(
    alloc: Global,
    town: &Town,
    point: &Point,
    found: &mut Found,
) -> Result<(), AllocError>
    requires point { IsPoint town.now point.now }
    requires numbers { HasNumbers point.now }
    requires found { IsFound town.now point.now found.old }
    requires none { found.old.longest.items ≡ replicate (length town.now.junctions) 0 }
    ensures found { OnOk result (IsFound town.now point.now found.new) }
    ensures single { OnOk result ((j : ℕ) → j < length town.now.junctions
        → IsOddSet town.now (j ∷ []) → Breaks town.now point.now (odd_row town.now (j ∷ []))
        → Contains found.new.records.items (Odd (j ∷ []))) }
{
    let count = town.junctions.len() as u32;
    let own = own_labels(alloc, count)?;
    let tallies = tallies(alloc, town, point, own.as_slice())?;
    let den = denominator(point);
    for j in 0..count {
        if tallies[j as usize].is_broken(den) {
            found.add(alloc, [j].as_slice())?;
        }
    }
    Ok(())
}

/// Joins the ends of each street with more than so many eighths of the denominator beyond its
/// demands.
fn join_streets(town: &Town, point: &Point, eighths: u128, merged: &mut Merged)
    requires point { IsPoint town.now point.now }
    requires numbers { HasNumbers point.now }
    requires few { eighths < 8 }
    requires parents { AreParents (length town.now.junctions) merged.old.parents.items }
    ensures { AreParents (length town.now.junctions) merged.new.parents.items }
{
    let den = denominator(point);
    for street in 0..town.streets.len() as u32 {
        let tally = tally_of(town, point, street);
        if 8 * tally.sum > den * (eighths + 8 * u128::from(tally.demands)) {
            merged.join(town.tail(2 * street), town.head(2 * street));
        }
    }
}

/// Adds the classes of junctions with one label whose odd row the point breaks.
fn add_classes(
    alloc: Global,
    town: &Town,
    point: &Point,
    labels: &[u32],
    found: &mut Found,
) -> Result<(), AllocError>
    requires point { IsPoint town.now point.now }
    requires numbers { HasNumbers point.now }
    requires long { length labels.now ≡ length town.now.junctions }
    requires labels { All (λ label. label < length town.now.junctions) labels.now }
    requires found { IsFound town.now point.now found.old }
    ensures found { OnOk result (IsFound town.now point.now found.new) }
    ensures kept { OnOk result ((item : Record)
        → Contains found.old.records.items item → Contains found.new.records.items item) }
{
    let tallies = tallies(alloc, town, point, labels)?;
    let classes = classes(alloc, labels)?;
    let den = denominator(point);
    for label in 0..town.junctions.len() {
        if tallies[label].is_broken(den) {
            found.add(alloc, classes.bucket(label))?;
        }
    }
    Ok(())
}

/// The junctions with each label, ascending.
fn classes(alloc: Global, labels: &[u32]) -> Result<Buckets, AllocError>
    requires few { length labels.now < 2 ^ 32 }
    requires labels { All (λ label. label < length labels.now) labels.now }
    ensures { IfOk result (λ classes. classes
        ≡ map (λ c. filter (class (reading labels.now) c) (range_with_len 0 (length labels.now)))
        (range_with_len 0 (length labels.now))) }
{
    let mut entries = Vec::with_capacity(alloc, labels.len())?;
    for (j, label) in labels.iter().enumerate() {
        entries.push((*label, j as u32))?;
    }
    let classes = Buckets::new(alloc, labels.len(), entries.as_slice())?;
    Ok(classes)
}
