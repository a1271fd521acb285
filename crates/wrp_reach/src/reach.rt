//! Whether a town has a tour, and what shows it.
ghost use Rattle.std.specs.Prelude.{◌≡◌, ◌↔◌, ◌*◌, ◌^◌, ◌<◌, ℕ, ◌&&◌, ◌==◌, true, false, length, IfOk, MatchOption, slice_index, slice_set, replicate};
ghost use Rattle.std.specs.List.{filter, range_with_len};
ghost use Rattle.wrp_town.specs.Arcs.{demands, is_legal, is_required, tail_of};
ghost use Rattle.wrp_town.specs.Walks.{HasNoTour};
ghost use Rattle.wrp_rules.specs.declared.record.Record.TheVariants.{Labels};
ghost use Rattle.wrp_rules.specs.Rules.{keeps_label, breaks_label};
ghost use Rattle.wrp_reach.specs.Answers.{IsReach, is_split};
ghost use Rattle.wrp_reach.specs.Outside.{HasOutside, HasNoneOutside};

use crate::components::{Components, find_components};
use std::alloc::{AllocError, Global};
use wrp_graph::Graph;
use wrp_rules::Record;
use wrp_town::{List, Need, Town};

/// Whether a town has a tour, and what shows it.
#[derive(Debug, Drop)]
pub enum Reach {
    /// There is a tour: the junctions of a strongly connected component that holds a legal arc of
    /// every demand. No junctions where there is no demand.
    Joined { part: List<u32> },
    /// There is no tour: a Labels record that shows it.
    Split { item: Record },
}

/// Whether a town has a tour, in linear time.
///
/// Junctions are labelled by their strongly connected components, so that no arc leads to a higher
/// label. A tour stays within one component, and where one holds every demand there is a tour.
///
/// # Errors
///
/// Want of memory alone.
pub fn labels(alloc: Global, graph: &Graph) -> Result<Reach, AllocError>
    ensures exactly { IfOk result (λ reach. (is_split reach ≡ true) ↔ HasNoTour graph.now) }
    ensures shown { IfOk result (λ reach. IsReach graph.now reach) }
{
    let town = graph.town();
    let Some(base) = first_required(town) else {
        return Ok(Reach::Joined {
            part: List::new(alloc),
        });
    };
    let found = find_components(alloc, graph)?;
    let home = found.labels[town.tail(2 * base) as usize];
    match first_outside(town, &found.labels, home) {
        None => Ok(Reach::Joined {
            part: junctions_at(alloc, &found.labels, home)?,
        }),
        Some(street) => Ok(Reach::Split {
            item: labels_record(alloc, found, base, home, street)?,
        }),
    }
}

/// The first street with a demand.
fn first_required(town: &Town) -> Option<u32>
    ensures { MatchOption result (length (demands town.now) ≡ 0)
        (λ street. is_required town.now street ≡ true) }
{
    for (s, street) in town.streets.as_slice().iter().enumerate() {
        if street.need.demand_count() > 0 {
            return Some(s as u32);
        }
    }
    None
}

/// The first street with a demand that no legal arc within a label serves.
fn first_outside(town: &Town, labels: &[u32], label: u32) -> Option<u32>
    requires { length labels.now ≡ length town.now.junctions }
    ensures { MatchOption result (HasNoneOutside town.now labels.now label)
        (λ street. HasOutside town.now labels.now label street) }
{
    for street in 0..town.streets.len() as u32 {
        if breaks_label(town, labels, label, street) {
            return Some(street);
        }
    }
    None
}

/// Whether a street has a demand none of whose legal arcs has both ends at a label.
fn breaks_label(town: &Town, labels: &[u32], label: u32, street: u32) -> bool
    requires labels { length labels.now ≡ length town.now.junctions }
    requires street { street < length town.now.streets }
    ensures { result ≡ breaks_label town.now labels.now label street }
{
    let forward = 2 * street;
    let backward = forward + 1;
    match town.streets.as_slice()[street as usize].need {
        Need::No => false,
        Need::Either => {
            !keeps_label(town, labels, label, forward)
                && !keeps_label(town, labels, label, backward)
        }
        Need::Forward => !keeps_label(town, labels, label, forward),
        Need::Backward => !keeps_label(town, labels, label, backward),
        Need::Both => {
            !keeps_label(town, labels, label, forward)
                || !keeps_label(town, labels, label, backward)
        }
    }
}

/// Whether an arc is legal and has both ends at a label.
fn keeps_label(town: &Town, labels: &[u32], label: u32, arc: u32) -> bool
    requires labels { length labels.now ≡ length town.now.junctions }
    requires arc { arc < 2 * length town.now.streets }
    ensures { result ≡ (is_legal town.now arc && keeps_label town.now labels.now label arc) }
{
    town.cost(arc).is_some()
        && labels[town.tail(arc) as usize] == label
        && labels[town.head(arc) as usize] == label
}

/// The junctions with a label, ascending.
fn junctions_at(alloc: Global, labels: &[u32], label: u32) -> Result<List<u32>, AllocError>
    requires { length labels.now < 2 ^ 32 }
    ensures { IfOk result (λ part. part
        ≡ filter (λ j. slice_index labels.now j == label)
        (range_with_len 0 (length labels.now))) }
{
    let mut part = List::new(alloc);
    for (j, found) in labels.iter().enumerate() {
        if *found == label {
            part.push(j as u32)?;
        }
    }
    Ok(part)
}

/// The record of the components' labels: the street of each label is the base, but for one label.
fn labels_record(
    alloc: Global,
    found: Components,
    base: u32,
    home: u32,
    street: u32,
) -> Result<Record, AllocError>
    requires { home < found.count }
    ensures { IfOk result (λ item. item ≡ Labels found.labels.items
        (slice_set (replicate found.count base) home street)) }
{
    let mut streets = vec![in alloc; base; found.count as usize]?;
    streets[home as usize] = street;
    Ok(Record::Labels {
        labels: List::from_vec(found.labels),
        streets: List::from_vec(streets),
    })
}

#[cfg(test)]
mod tests {
    use super::*;
    use std::test::Fail;
    use wrp_graph::Graph;

    #[test]
    fn a_town_of_no_streets_has_a_tour(rt: HostRuntime) -> Result<(), Fail> {
        let town = Town {
            junctions: List::new(rt.alloc()),
            streets: List::new(rt.alloc()),
        };
        let graph = Graph::new(rt.alloc(), &town)?;
        match labels(rt.alloc(), &graph)? {
            Reach::Joined { part } => assert!(rt; part.is_empty()),
            Reach::Split { .. } => assert!(rt; false),
        }
        Ok(())
    }
}
