//! The rules of labels.
ghost use Rattle.std.specs.Prelude.{◌≡◌, ◌*◌, ◌<◌, ◌&&◌, ◌==◌, nat_lt, true, length, slice_index};
ghost use Rattle.std.specs.List.{list_all};
ghost use Rattle.wrp_town.specs.Arcs.{is_legal, legal_arcs};
ghost use Rattle.wrp_rules.specs.declared.record.Record.TheVariants.{Labels};
ghost use Rattle.wrp_rules.specs.Nodes.{Standing};
ghost use Rattle.wrp_rules.specs.Rules.{all_below, streets_are_there, falls_along, keeps_label, breaks_label, rules_of, first_broken};

use wrp_rules::Rule;
use wrp_town::{Need, Town};

/// The first of Range, Rise and Label that labels break.
pub fn broken_labels(town: &Town, labels: &[u32], streets: &[u32]) -> Option<Rule>
    ensures { (s : Standing)
        → result ≡ first_broken (rules_of town.now s (Labels labels.now streets.now)) }
{
    if labels.len() != town.junctions.len()
        || streets.is_empty()
        || !are_below(labels, streets.len())
        || !are_below(streets, town.streets.len())
    {
        Some(Rule::Range)
    } else if !fall(town, labels) {
        Some(Rule::Rise)
    } else if !break_each(town, labels, streets) {
        Some(Rule::Label)
    } else {
        None
    }
}

/// Whether all numbers are below a limit.
fn are_below(numbers: &[u32], limit: usize) -> bool
    ensures { result ≡ all_below limit numbers.now }
{
    numbers.iter().all(|number| (*number as usize) < limit)
}

/// Whether no label rises along a legal arc.
fn fall(town: &Town, labels: &[u32]) -> bool
    requires { length labels.now ≡ length town.now.junctions }
    ensures { result ≡ list_all (falls_along town.now labels.now) (legal_arcs town.now) }
{
    let arcs = 2 * town.streets.len() as u32;
    for arc in 0..arcs {
        if town.cost(arc).is_some() && !falls(town, labels, arc) {
            return false;
        }
    }
    true
}

/// Whether the label doesn't rise along an arc.
fn falls(town: &Town, labels: &[u32], arc: u32) -> bool
    requires labels { length labels.now ≡ length town.now.junctions }
    requires arc { arc < 2 * length town.now.streets }
    ensures { result ≡ falls_along town.now labels.now arc }
{
    labels[town.head(arc) as usize] <= labels[town.tail(arc) as usize]
}

/// Whether each label has a street with a demand that no legal arc at the label meets.
fn break_each(town: &Town, labels: &[u32], streets: &[u32]) -> bool
    requires labels { length labels.now ≡ length town.now.junctions }
    requires below { all_below (length streets.now) labels.now ≡ true }
    requires streets { streets_are_there town.now streets.now ≡ true }
    ensures { result
        ≡ list_all (λ label. breaks_label town.now labels.now label (slice_index streets.now label))
        labels.now }
{
    for label in labels {
        if !breaks(town, labels, *label, streets[*label as usize]) {
            return false;
        }
    }
    true
}

/// Whether a street has a demand that no legal arc with both ends at the label meets.
fn breaks(town: &Town, labels: &[u32], label: u32, street: u32) -> bool
    requires labels { length labels.now ≡ length town.now.junctions }
    requires street { street < length town.now.streets }
    ensures { result ≡ breaks_label town.now labels.now label street }
{
    let forward = keeps(town, labels, label, 2 * street);
    let backward = keeps(town, labels, label, 2 * street + 1);
    match town.streets.as_slice()[street as usize].need {
        Need::No => false,
        Need::Either => !forward && !backward,
        Need::Forward => !forward,
        Need::Backward => !backward,
        Need::Both => !forward || !backward,
    }
}

/// Whether a legal arc has both ends at the label.
fn keeps(town: &Town, labels: &[u32], label: u32, arc: u32) -> bool
    requires labels { length labels.now ≡ length town.now.junctions }
    requires arc { arc < 2 * length town.now.streets }
    ensures { result ≡ (is_legal town.now arc && keeps_label town.now labels.now label arc) }
{
    town.cost(arc).is_some()
        && labels[town.tail(arc) as usize] == label
        && labels[town.head(arc) as usize] == label
}
