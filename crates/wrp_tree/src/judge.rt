//! The judgement of a record behind those that are kept.
ghost use Rattle.std.specs.Prelude.{◌≡◌, true, false, length};
ghost use Rattle.wrp_rules.specs.Contents.{has_number_rules};
ghost use Rattle.wrp_rules.specs.Nodes.{Standing};
ghost use Rattle.wrp_rules.specs.Rules.{is_cut};
ghost use Rattle.wrp_tree.specs.Keeping.{IsKept, IsSoundOf, IsDeskOf};
ghost use Rattle.wrp_tree.specs.Plans.{Judged, plain_unless};

use crate::apart::judge_apart;
use crate::branch::{judge_blind, judge_point, judge_split};
use crate::closing::{judge_bound, judge_empty};
use crate::desk::Desk;
use crate::kept::Kept;
use crate::plan::Plan;
use crate::tour::broken_tour;
use wrp_points::broken_labels;
use wrp_rules::{Record, Rule};
use wrp_town::Town;

/// A plain plan, or the rule that is broken.
fn unless(broken: Option<Rule>) -> Result<Plan, Rule>
    ensures { result ≡ plain_unless broken }
{
    match broken {
        Some(rule) => Err(rule),
        None => Ok(Plan::Plain),
    }
}

/// Judges a record that adds no row, by the rules of its kind.
pub(crate) fn judge(
    town: &Town,
    kept: &Kept<'_>,
    desk: &mut Desk,
    item: &Record,
) -> Result<Plan, Rule>
    requires desk { IsDeskOf town.now desk.old }
    requires kept { IsSoundOf town.now kept.now }
    requires alone { length kept.now.index.nodes ≡ kept.now.index.count }
    requires numbers { has_number_rules item.now ≡ true }
    requires plain { is_cut item.now ≡ false }
    ensures desk { IsDeskOf town.now desk.new }
    ensures judged { (s : Standing) → IsKept town.now s kept.now
        → Judged town.now s item.now result }
{
    match item {
        Record::Tour { cost, steps } => {
            unless(broken_tour(town, kept.index.upper, *cost, steps.as_slice()))
        }
        Record::Bound { node, den, mult } => {
            judge_bound(town, kept, desk, *node, *den, mult.as_slice())
        }
        Record::Empty { node, mult } => judge_empty(town, kept, desk, *node, mult.as_slice()),
        Record::Apart { node, r1, r2, set } => {
            judge_apart(town, kept, desk, *node, *r1, *r2, set.as_slice())
        }
        Record::Point { node, den, numbers } => {
            judge_point(town, kept, desk, *node, *den, numbers.as_slice())
        }
        Record::Blind { node } => judge_blind(town, kept, *node),
        Record::Split { node, arc, k } => judge_split(town, kept, desk, *node, *arc, *k),
        Record::Labels { labels, streets } => {
            unless(broken_labels(town, labels.as_slice(), streets.as_slice()))
        }
        _ => unreachable!(),
    }
}
