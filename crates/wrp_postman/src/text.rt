//! The lines that the program prints.
ghost use Rattle.std.specs.Prelude.{◌≡◌, ◌++◌, codes, IfOk};
ghost use Rattle.std.specs.Fmt.{decimal};
ghost use Rattle.std.specs.Option.{option_map};
ghost use Rattle.std.specs.String.{string_bytes};
ghost use Rattle.wrp_postman.specs.Statuses.{rule_name as name_of_rule, fault_text as text_of_fault, accepted_text as text_of_end, refused_text as text_of_refusal, full_text as text_of_full, usage_text as text_of_usage, status_text as text_of_status, log_text as text_of_log, visit_text as text_of_visit, turn_text as text_of_turn};

use crate::status::{LogCause, Status, TurnFault, VisitFault};
use std::alloc::{AllocError, Global};
use wrp_proof::{End, Rule};
use wrp_street::TableFault;

/// The commands and their words.
const USAGE: &str = "usage: solve STREETS PROOF LOG BUDGET | resume STREETS PROOF LOG BUDGET \
    | check STREETS PROOF | info STREETS | town SEED W H | demo SEED W H BUDGET \
    | expand STREETS STOPS | visit STREETS STOPS PROOF LOG BUDGET | unfold STREETS BANS \
    | turns STREETS BANS PROOF LOG BUDGET";

/// A rule's name.
fn rule_name(rule: Rule) -> &'static str
    ensures { result.now ≡ name_of_rule rule }
{
    match rule {
        Rule::Start => "Start",
        Rule::Form => "Form",
        Rule::Number => "Number",
        Rule::Lonely => "Lonely",
        Rule::Range => "Range",
        Rule::Walk => "Walk",
        Rule::Serve => "Serve",
        Rule::Cost => "Cost",
        Rule::Dear => "Dear",
        Rule::Cuts => "Cuts",
        Rule::Cross => "Cross",
        Rule::Even => "Even",
        Rule::Wide => "Wide",
        Rule::Chain => "Chain",
        Rule::Closed => "Closed",
        Rule::Low => "Low",
        Rule::Leak => "Leak",
        Rule::Box => "Box",
        Rule::Balance => "Balance",
        Rule::Service => "Service",
        Rule::Price => "Price",
        Rule::Alone => "Alone",
        Rule::Part => "Part",
        Rule::Rise => "Rise",
        Rule::Label => "Label",
        Rule::End => "End",
        Rule::Missing => "Missing",
        Rule::After => "After",
    }
}

/// A fault of a table, with its row and field.
fn fault_text(alloc: Global, fault: TableFault) -> Result<String, AllocError>
    ensures { IfOk result (λ text. string_bytes text ≡ text_of_fault fault) }
{
    match fault {
        TableFault::Header => String::from_str(alloc, "table Header"),
        TableFault::Fields { row } => format!(in alloc; "table Fields row {row}"),
        TableFault::Name { row, field } => format!(in alloc; "table Name row {row} field {field}"),
        TableFault::Cost { row, field } => format!(in alloc; "table Cost row {row} field {field}"),
        TableFault::Need { row } => format!(in alloc; "table Need row {row}"),
        TableFault::Streets { row } => format!(in alloc; "table Streets row {row}"),
        TableFault::Junctions { row } => format!(in alloc; "table Junctions row {row}"),
        TableFault::Demands { row } => format!(in alloc; "table Demands row {row}"),
        TableFault::Memory => String::from_str(alloc, "no memory"),
    }
}

/// What an accepted end says.
fn accepted_text(alloc: Global, end: End) -> Result<String, AllocError>
    ensures { IfOk result (λ text. string_bytes text ≡ text_of_end end) }
{
    match end {
        End::Optimal { cost } => optimal_text(alloc, cost),
        End::Infeasible => String::from_str(alloc, "accepted infeasible"),
        End::Unfinished { low, high } => unfinished_text(alloc, low, high),
    }
}

/// The least cost.
fn optimal_text(alloc: Global, cost: u64) -> Result<String, AllocError>
    ensures { IfOk result (λ text. string_bytes text ≡ codes "accepted optimal " ++ decimal cost) }
{
    format!(in alloc; "accepted optimal {cost}")
}

/// A lower bound, and the cost of a tour.
fn unfinished_text(alloc: Global, low: u64, high: u64) -> Result<String, AllocError>
    ensures { IfOk result (λ text. string_bytes text
        ≡ codes "accepted unfinished " ++ (decimal low ++ (codes " " ++ decimal high))) }
{
    format!(in alloc; "accepted unfinished {low} {high}")
}

/// Which line of a proof was refused, and by which rule.
fn refused_text(alloc: Global, line: u64, rule: Rule) -> Result<String, AllocError>
    ensures { IfOk result (λ text. string_bytes text ≡ text_of_refusal line rule) }
{
    let name = rule_name(rule);
    format!(in alloc; "refused {line} {name}")
}

/// The length that a log would have, and the limit of its disk.
fn full_text(alloc: Global, length: u64, limit: u64) -> Result<String, AllocError>
    ensures { IfOk result (λ text. string_bytes text ≡ text_of_full length limit) }
{
    format!(in alloc; "log full {length} {limit}")
}

/// The commands and their words.
fn usage_text(alloc: Global) -> Result<String, AllocError>
    ensures { IfOk result (λ text. string_bytes text ≡ text_of_usage) }
{
    String::from_str(alloc, USAGE)
}

/// Why a log was refused.
fn log_text(alloc: Global, cause: LogCause) -> Result<String, AllocError>
    ensures { IfOk result (λ text. string_bytes text ≡ text_of_log cause) }
{
    match cause {
        LogCause::HasRecords { count } => format!(in alloc; "log HasRecords {count}"),
        LogCause::NoRecords => String::from_str(alloc, "log NoRecords"),
        LogCause::NotALog { length } => format!(in alloc; "log NotALog {length}"),
        LogCause::Broken { at } => format!(in alloc; "log Broken at {at}"),
        LogCause::OtherTable { at } => format!(in alloc; "log OtherTable at {at}"),
        LogCause::BadRecord { index, rule } => {
            let name = rule_name(rule);
            format!(in alloc; "log BadRecord {index} {name}")
        }
    }
}

/// Why stops were refused.
fn visit_text(alloc: Global, fault: VisitFault) -> Result<String, AllocError>
    ensures { IfOk result (λ text. string_bytes text ≡ text_of_visit fault) }
{
    match fault {
        VisitFault::Unknown { line } => format!(in alloc; "stops Unknown line {line}"),
        VisitFault::Repeat { line } => format!(in alloc; "stops Repeat line {line}"),
        VisitFault::Full { line } => format!(in alloc; "stops Full line {line}"),
        VisitFault::Memory => String::from_str(alloc, "no memory"),
    }
}

/// Why bans were refused.
fn turn_text(alloc: Global, fault: TurnFault) -> Result<String, AllocError>
    ensures { IfOk result (λ text. string_bytes text ≡ text_of_turn fault) }
{
    match fault {
        TurnFault::Form { line } => format!(in alloc; "bans Form line {line}"),
        TurnFault::Turn { line } => format!(in alloc; "bans Turn line {line}"),
        TurnFault::Either { street } => format!(in alloc; "bans Either street {street}"),
        TurnFault::Size { junctions, streets } => {
            format!(in alloc; "bans Size {junctions} {streets}")
        }
        TurnFault::Memory => String::from_str(alloc, "no memory"),
    }
}

/// The line of a status, without its line feed. `None` where a report stands for it, and after a
/// fault of a write.
pub(crate) fn status_text(alloc: Global, status: Status) -> Result<Option<String>, AllocError>
    ensures { IfOk result (λ text. option_map string_bytes text ≡ text_of_status status) }
{
    match status {
        Status::Accepted { end } => accepted_text(alloc, end).map(Some),
        Status::ProofRefused { line, rule } => refused_text(alloc, line, rule).map(Some),
        Status::Usage => usage_text(alloc).map(Some),
        Status::TableRefused { fault } => fault_text(alloc, fault).map(Some),
        Status::ReadFault => String::from_str(alloc, "read fault").map(Some),
        Status::DiskFault => String::from_str(alloc, "disk fault").map(Some),
        Status::LogRefused { cause } => log_text(alloc, cause).map(Some),
        Status::LogFull { length, limit } => full_text(alloc, length, limit).map(Some),
        Status::TooLong => String::from_str(alloc, "too long").map(Some),
        Status::StopsRefused { fault } => visit_text(alloc, fault).map(Some),
        Status::BansRefused { fault } => turn_text(alloc, fault).map(Some),
        Status::Memory => String::from_str(alloc, "no memory").map(Some),
        Status::Optimal { .. }
        | Status::Done
        | Status::Unfinished { .. }
        | Status::Infeasible
        | Status::WriteFault => Ok(None),
    }
}
