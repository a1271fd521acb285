//! Searches for the cheapest tour of a town, and writes what is found.
ghost use Rattle.std.specs.Prelude.{ℕ, IfOk};
ghost use Rattle.wrp_town.specs.declared.town.Town.{Town};
ghost use Rattle.wrp_reach.specs.Answers.{IsSplit};
ghost use Rattle.wrp_tour.specs.Tours.{HasTour};
ghost use Rattle.wrp_postman.specs.Outsides.{outputs};
ghost use Rattle.wrp_postman.specs.Searches.{IsListed, IsAnswer, AreTexts, Solves};

use crate::search::{Solved, with_tour, without_tour};
use crate::status::Status;
use std::alloc::{AllocError, Global};
use wrp_graph::Graph;
use wrp_keep::Keep;
use wrp_out::{Sink, write_all};
use wrp_reach::{Reach, labels};
use wrp_report::report;
use wrp_rules::Record;
use wrp_street::Town;
use wrp_writer::proof_text;

/// What is written of a search, and the status in which it ends.
#[derive(Debug, Drop)]
pub(crate) struct Texts {
    status: Status,
    proof: Vec<u8>,
    report: Vec<u8>,
}

/// What is written of a search that ends where so many nodes are done.
pub(crate) fn texts_of(alloc: Global, town: &Town, budget: u64) -> Result<Texts, AllocError>
    ensures { IfOk result (AreTexts town.now budget) }
{
    let graph = Graph::new(alloc, town)?;
    match labels(alloc, &graph)? {
        Reach::Split { item } => texts_without_tour(alloc, town, item),
        Reach::Joined { .. } => texts_with_tour(alloc, &graph, budget),
    }
}

/// What is written where there is no tour.
fn texts_without_tour(alloc: Global, town: &Town, item: Record) -> Result<Texts, AllocError>
    requires { IsSplit town.now item }
    ensures { (budget : ℕ) → IfOk result (AreTexts town.now budget) }
{
    let records = vec![in alloc; item]?;
    texts_from(alloc, town, &records, &without_tour(alloc))
}

/// What is written of a search where there is a tour.
fn texts_with_tour(alloc: Global, graph: &Graph<'_>, budget: u64) -> Result<Texts, AllocError>
    requires { HasTour graph.now }
    ensures { IfOk result (AreTexts graph.now budget) }
{
    let mut keep = Keep::bare(alloc, graph.town())?;
    let solved = with_tour(alloc, graph, &mut keep, budget)?;
    texts_from(alloc, graph.town(), keep.tree().records(), &solved)
}

/// The texts of a list.
fn texts_from(
    alloc: Global,
    town: &Town,
    records: &[Record],
    solved: &Solved,
) -> Result<Texts, AllocError>
    requires { IsListed town.now records.now solved.now.answer }
    ensures { (budget : ℕ) → IsAnswer town.now budget records.now solved.now
        → IfOk result (AreTexts town.now budget) }
{
    let proof = proof_text(alloc, records, &solved.answer.end)?;
    let report = report(alloc, town, &solved.answer)?;
    Ok(Texts {
        status: solved.status,
        proof,
        report,
    })
}

/// Writes the proof, and then the report.
pub(crate) fn put_texts<Q: Sink, O: Sink>(proof_out: &mut Q, out: &mut O, texts: &Texts) -> Status
    ensures { (town : Town) (budget : ℕ) → AreTexts town budget texts.now
        → Solves town budget result (outputs (Q.output proof_out.old) (O.output out.old))
        (outputs (Q.output proof_out.new) (O.output out.new)) }
{
    if write_all(proof_out, &texts.proof).is_err() {
        return Status::WriteFault;
    }
    match write_all(out, &texts.report) {
        Ok(()) => texts.status,
        Err(_) => Status::WriteFault,
    }
}
