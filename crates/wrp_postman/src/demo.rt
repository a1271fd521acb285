//! Searches a town that is drawn, and tells what is found.
ghost use Rattle.std.specs.Prelude.{ℕ, IfOk};
ghost use Rattle.wrp_town.specs.declared.town.Town.{Town};
ghost use Rattle.wrp_postman.specs.Searches.{IsAnswerOfSome, IsSummary, Demonstrates};

use crate::search::{Solved, with_tour, without_tour};
use crate::status::Status;
use std::alloc::{AllocError, Global};
use wrp_graph::Graph;
use wrp_keep::Keep;
use wrp_out::{Sink, write_all};
use wrp_reach::{Reach, labels};
use wrp_report::summary;
use wrp_street::Town;

/// The summary of a search, and the status in which it ends.
#[derive(Debug, Drop)]
pub(crate) struct SummaryText {
    status: Status,
    text: Vec<u8>,
}

/// The summary of a search that ends where so many nodes are done.
pub(crate) fn summary_of(alloc: Global, town: &Town, budget: u64) -> Result<SummaryText, AllocError>
    ensures { IfOk result (IsSummary town.now budget) }
{
    let solved = solved_town(alloc, town, budget)?;
    Ok(SummaryText {
        status: solved.status,
        text: summary(alloc, town, &solved.answer)?,
    })
}

/// What is told of the search of a town.
fn solved_town(alloc: Global, town: &Town, budget: u64) -> Result<Solved, AllocError>
    ensures { IfOk result (IsAnswerOfSome town.now budget) }
{
    let graph = Graph::new(alloc, town)?;
    match labels(alloc, &graph)? {
        Reach::Split { .. } => Ok(without_tour(alloc)),
        Reach::Joined { .. } => {
            let mut keep = Keep::bare(alloc, town)?;
            with_tour(alloc, &graph, &mut keep, budget)
        }
    }
}

/// Writes the summary.
pub(crate) fn put_summary<O: Sink>(out: &mut O, summary: &SummaryText) -> Status
    ensures { (town : Town) (budget : ℕ) → IsSummary town budget summary.now
        → Demonstrates town budget result (O.output out.old) (O.output out.new) }
{
    match write_all(out, &summary.text) {
        Ok(()) => summary.status,
        Err(_) => Status::WriteFault,
    }
}
