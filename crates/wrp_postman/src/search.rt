//! Searches a town without a log.
ghost use Rattle.std.specs.Prelude.{◌≡◌, ℕ, [], ◌∷◌, IfOk};
ghost use Rattle.wrp_town.specs.declared.town.Town.{Town};
ghost use Rattle.wrp_rules.specs.declared.record.Record.{Record};
ghost use Rattle.wrp_tour.specs.Tours.{HasTour};
ghost use Rattle.wrp_report.specs.Lists.{tour_after as steps_after, last_tour as last_tour_in, answer_of as answer_of_list};
ghost use Rattle.wrp_reach.specs.Answers.{IsSplit};
ghost use Rattle.wrp_engine.specs.Found.{end_of as end_of_found};
ghost use Rattle.wrp_postman.specs.Searches.{bare_of, FindsIn, IsAnswer, status_found};

use crate::status::Status;
use std::alloc::{AllocError, Global};
use wrp_disk::SteadyDisk;
use wrp_engine::{Found, SearchFault, search};
use wrp_graph::Graph;
use wrp_keep::Keep;
use wrp_report::Answer;
use wrp_rules::{End, Record};
use wrp_town::{List, Step, Town};
use wrp_tree::Tree;

/// What is told of a search: the status in which it ends, and the answer of its list.
#[derive(Debug, Drop)]
pub(crate) struct Solved {
    pub(crate) status: Status,
    pub(crate) answer: Answer,
}

/// What is told of a town without a tour.
pub(crate) fn without_tour(alloc: Global) -> Solved
    ensures { (town : Town) (item : Record) (budget : ℕ) → IsSplit town item
        → IsAnswer town budget (item ∷ []) result }
{
    Solved {
        status: Status::Infeasible,
        answer: Answer {
            end: End::Infeasible,
            nodes: 1,
            done: 0,
            cuts: 0,
            blind: 0,
            steps: List::new(alloc),
        },
    }
}

/// Searches a town that has a tour, and leaves the list in the keep.
pub(crate) fn with_tour(
    alloc: Global,
    graph: &Graph<'_>,
    keep: &mut Keep<'_>,
    budget: u64,
) -> Result<Solved, AllocError>
    requires bare { keep.old ≡ bare_of graph.now }
    requires tour { HasTour graph.now }
    ensures { IfOk result (IsAnswer graph.now budget keep.new.records) }
{
    let found = found_in(alloc, graph, keep, budget)?;
    let answer = answer_of(alloc, keep.tree(), end_of(found))?;
    Ok(Solved {
        status: status_of(found),
        answer,
    })
}

/// What a search finds. It has no log, so want of memory alone stops it.
#[tactic(auto, using(crate::proofs::Solutions::whole_list))]
fn found_in(
    alloc: Global,
    graph: &Graph<'_>,
    keep: &mut Keep<'_>,
    budget: u64,
) -> Result<Found, AllocError>
    requires bare { keep.old ≡ bare_of graph.now }
    requires tour { HasTour graph.now }
    ensures { IfOk result (FindsIn graph.now budget keep.new) }
{
    let mut disk = SteadyDisk::new(alloc, 0)?;
    match search(alloc, graph, keep, &mut disk, budget) {
        Ok(found) => Ok(found),
        Err(SearchFault::Memory) => Err(AllocError),
        Err(SearchFault::Full { .. } | SearchFault::Disk) => unreachable!(),
    }
}

/// The end that was found.
fn end_of(found: Found) -> End
    ensures { result ≡ end_of_found found }
{
    match found {
        Found::Optimal { cost } => End::Optimal { cost },
        Found::Unfinished { low, high, .. } => End::Unfinished { low, high },
    }
}

/// The status in which a search ends that found this.
fn status_of(found: Found) -> Status
    ensures { result ≡ status_found found }
{
    match found {
        Found::Optimal { cost } => Status::Optimal { cost },
        Found::Unfinished {
            low,
            high,
            before,
            after,
        } => Status::Unfinished {
            low,
            high,
            before,
            after,
        },
    }
}

/// The answer of a whole list and this end.
fn answer_of(alloc: Global, tree: &Tree<'_>, end: End) -> Result<Answer, AllocError>
    ensures { IfOk result (λ answer. answer ≡ answer_of_list tree.now.town tree.now.records end) }
{
    let steps = last_tour(tree.records()).to_vec(alloc)?;
    Ok(Answer {
        end,
        nodes: tree.nodes(),
        done: tree.done(),
        cuts: tree.cuts(),
        blind: tree.blind(),
        steps: List::from_vec(steps),
    })
}

/// The steps of the last tour of a list, none where there is no tour.
fn last_tour(records: &[Record]) -> &[Step]
    ensures { result.now ≡ last_tour_in records.now }
{
    let mut steps: &[Step] = &[];
    for item in records {
        steps = tour_after(steps, item);
    }
    steps
}

/// The steps of a tour, those before where the record is none.
fn tour_after<'a>(steps: &'a [Step], item: &'a Record) -> &'a [Step]
    ensures { result.now ≡ steps_after steps.now item.now }
{
    match item {
        Record::Tour { steps, .. } => steps.as_slice(),
        _ => steps,
    }
}
