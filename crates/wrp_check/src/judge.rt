//! The judgement of a line behind what stands.
ghost use Rattle.std.specs.Prelude.{◌≡◌, ◌≤◌, None, Ok, true, length, IfOk};
ghost use Rattle.wrp_rules.specs.Proofs.{longest_line};
ghost use Rattle.wrp_town.specs.declared.town.Town.{Town};
ghost use Rattle.wrp_rules.specs.declared.record.Record.TheVariants.{Tour};
ghost use Rattle.wrp_rules.specs.Nodes.{Standing, start};
ghost use Rattle.wrp_rules.specs.Lists.{agrees};
ghost use Rattle.wrp_rules.specs.Rules.{is_labels};
ghost use Rattle.wrp_rules.specs.Contents.{has_number_rules};
ghost use Rattle.wrp_proof.specs.Views.{IsLineOf, record_of};
ghost use Rattle.wrp_proof.specs.JudgedLines.{judged_line, judged_end};
ghost use Rattle.wrp_check.specs.Judging.{IsKept, IsReady, Stands, Judges, Tries, IsSound, IsIdle};

use crate::apart::take_apart;
use crate::branch::{take_blind, take_labels, take_point, take_split};
use crate::closing::{take_bound, take_empty};
use crate::cuts::{take_conn, take_kc, take_odd, take_round};
use crate::kept::{Kept, Past};
use crate::tour::broken_tour;
use crate::work::Work;
use std::alloc::{AllocError, Global};
use wrp_graph::Graph;
use wrp_nodes::Nodes;
use wrp_pool::Pool;
use wrp_proof::{End, LineFault, Rule, StepsOf, View, ViewFault, read_end, view};
use wrp_town::Town;

/// What the checker keeps of the records so far, with the tables that it works on.
#[derive(Debug, Drop)]
pub(crate) struct Judge<'t> {
    alloc: Global,
    pub(crate) graph: Graph<'t>,
    pub(crate) kept: Kept,
    pub(crate) work: Work,
}

impl Kept {
    /// Before any record.
    pub(crate) fn start(alloc: Global, town: &Town) -> Result<Kept, AllocError>
        ensures { IfOk result (λ kept. IsKept town.now (start town.now) kept) }
    {
        Ok(Kept {
            pool: Pool::new(alloc, town)?,
            nodes: Nodes::new(alloc)?,
            upper: None,
            cuts: 0,
            past: Past {
                has_records: false,
                is_labelled: false,
                leads: None,
            },
        })
    }

    /// Whether an end agrees with what stands.
    fn agrees_with(&self, end: End) -> bool
        ensures { (town : Town) (s : Standing) → IsKept town s self.now
            → result ≡ agrees s end }
    {
        match end {
            End::Optimal { cost } => self.nodes.is_done(self.upper) && self.upper == Some(cost),
            End::Infeasible => self.past.is_labelled,
            End::Unfinished { low, high } => {
                !self.nodes.is_done(self.upper)
                    && self.upper == Some(high)
                    && self.nodes.lower(self.upper) == Some(i128::from(low))
            }
        }
    }
}

/// Whether a view is that of labels.
fn has_labels(view: &View<'_>) -> bool
    ensures { result ≡ is_labels (record_of view.now) }
{
    matches!(view, View::Labels { .. })
}

/// Takes a tour, or says which rule it breaks.
fn take_tour(
    town: &Town,
    work: &mut Work,
    kept: &mut Kept,
    cost: u64,
    steps: &StepsOf<'_>,
) -> Option<Rule>
    requires idle { IsIdle town.now work.old }
    requires sound { IsSound town.now kept.old }
    ensures idle { IsIdle town.now work.new }
    ensures tries { Tries town.now (Tour cost steps.now) result kept.old kept.new }
{
    let broken = broken_tour(town, &mut work.used, kept.upper, cost, steps);
    if broken.is_none() {
        kept.upper = Some(cost);
        kept.past = Past::plain();
    }
    broken
}

impl<'t> Judge<'t> {
    /// Before any record.
    pub(crate) fn new(alloc: Global, town: &'t Town) -> Result<Judge<'t>, AllocError>
        ensures { IfOk result (λ judge. Stands town.now (start town.now) judge) }
    {
        Ok(Judge {
            alloc,
            graph: Graph::new(alloc, town)?,
            kept: Kept::start(alloc, town)?,
            work: Work::new(alloc, town)?,
        })
    }

    /// Takes the record of a line, or says which rule it breaks.
    ///
    /// # Errors
    ///
    /// Want of memory alone.
    pub(crate) fn take(&mut self, town: &Town, line: &[u8]) -> Result<Option<Rule>, AllocError>
        requires ready { IsReady town.now self.old }
        requires short { length line.now ≤ longest_line }
        ensures { IfOk result (λ broken. (s : Standing) → Stands town.now s self.old
            → Judges town.now s (judged_line town.now s line.now) broken self.new) }
    {
        match view(line) {
            Ok(view) => {
                if self.kept.past.admits(has_labels(&view)) {
                    self.take_view(town, &view)
                } else {
                    Ok(Some(Rule::Lonely))
                }
            }
            Err(ViewFault::Form { .. }) => Ok(Some(Rule::Form)),
            Err(ViewFault::Number { .. }) => Ok(Some(Rule::Number)),
            Err(ViewFault::Long) => unreachable!(),
        }
    }

    /// Takes a record that may stand next, or says which rule of its kind it breaks.
    fn take_view(&mut self, town: &Town, view: &View<'_>) -> Result<Option<Rule>, AllocError>
        requires ready { IsReady town.now self.old }
        requires numbers { has_number_rules (record_of view.now) ≡ true }
        ensures graph { self.new.graph ≡ self.old.graph }
        ensures idle { result ≡ Ok None → IsIdle town.now self.new.work }
        ensures tries { IfOk result (λ broken.
            Tries town.now (record_of view.now) broken self.old.kept self.new.kept) }
    {
        let alloc = self.alloc;
        let graph = &self.graph;
        let work = &mut self.work;
        let kept = &mut self.kept;
        match view {
            View::Tour { cost, steps } => Ok(take_tour(town, work, kept, *cost, steps)),
            View::Conn { r1, r2, set } => take_conn(alloc, graph, work, kept, *r1, *r2, set),
            View::Odd { set } => take_odd(alloc, graph, work, kept, set),
            View::Round { divisor, mult } => take_round(alloc, town, work, kept, *divisor, mult),
            View::Kc { k, of } => take_kc(alloc, town, work, kept, *k, of),
            View::Bound { node, den, mult } => take_bound(town, work, kept, *node, *den, mult),
            View::Empty { node, mult } => take_empty(town, work, kept, *node, mult),
            View::Apart { node, r1, r2, set } => {
                take_apart(graph, work, kept, *node, *r1, *r2, set)
            }
            View::Point { node, den, numbers } => {
                take_point(town, work, kept, *node, *den, numbers)
            }
            View::Blind { node } => Ok(take_blind(town, kept, *node)),
            View::Split { node, arc, k } => take_split(town, work, kept, *node, *arc, *k),
            View::Labels { labels, streets } => take_labels(town, work, kept, labels, streets),
        }
    }

    /// The end of an end line, or the rule that the line breaks.
    pub(crate) fn end(&self, line: &[u8]) -> Result<End, Rule>
        requires { length line.now ≤ longest_line }
        ensures { (town : Town) (s : Standing) → Stands town s self.now
            → judged_end s line.now ≡ result }
    {
        match read_end(line) {
            Ok(end) => {
                if self.kept.agrees_with(end) {
                    Ok(end)
                } else {
                    Err(Rule::End)
                }
            }
            Err(LineFault::Form { .. }) => Err(Rule::Form),
            Err(LineFault::Number { .. }) => Err(Rule::Number),
            Err(LineFault::Long | LineFault::Memory) => unreachable!(),
        }
    }
}
