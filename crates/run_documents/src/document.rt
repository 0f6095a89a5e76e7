//! The document of an outcome: an answer, a report, or one line with the text of a refusal or a fault.

ghost use Rattle.std.specs.Prelude.{◌≡◌, ◌++◌, IfOk, string_bytes};
ghost use Rattle.answer_text.specs.Texts.{head_line};
ghost use Rattle.run_documents.specs.AnswerFiles.{answer_file};
ghost use Rattle.run_documents.specs.Lines.{answer_refusal_text, balance_text, cannot_read_line, fault_text};
ghost use Rattle.run_documents.specs.Lines.{file_refused_line, line_end, not_ready_text};
ghost use Rattle.run_documents.specs.Lines.{refused_line, runs_line, stops_line, usage_text};
ghost use Rattle.run_documents.specs.Texts.{IsDocument};
ghost use Rattle.run_documents.specs.TrialTexts.{summary_by, trial_text};

use crate::answer_file::{ANSWER_FILE, AnswerError};
use crate::check_lines::check_line;
use crate::outcome::Outcome;
use answer_text::{Answer, AnswerRefusal, Head, print, write_head};
use day_files::{Refusal, file_name, file_refused_line, file_unread_line};
use day_simulator::StepFault;
use rail_base::{Money, NoMemory, StationNo, TripNo, TypeNo, UnitNo};
use rail_csv::Table;
use std::alloc::Global;

/// The document that a run writes for its outcome: the text of an answer, a report, how the program is used, or one
/// line with its line feed. There is none for want of memory, which is the error.
pub fn document(alloc: Global, outcome: &Outcome) -> Result<Vec<u8>, NoMemory>
    ensures { IfOk result (λ text. IsDocument outcome.now text.items) }
{
    match outcome {
        Outcome::Planned(answer) => print(alloc, answer),
        Outcome::Tried {
            seed,
            trips,
            answer,
        } => trial_text(alloc, *seed, *trips, answer),
        Outcome::Runs(cost) => Ok(runs_line(alloc, *cost)?.into_bytes()),
        Outcome::Stops(fault) => Ok(stops_line(alloc, fault)?.into_bytes()),
        Outcome::Checked { head, verdict } => Ok(check_line(alloc, head, verdict)?.into_bytes()),
        Outcome::Reported(report) => Ok(report.items().to_vec(alloc)?),
        Outcome::NoPlan => Ok(String::from_str(alloc, "no plan\n")?.into_bytes()),
        Outcome::Usage => Ok(usage_text(alloc)?.into_bytes()),
        Outcome::Refused(refusal) => Ok(refused_line(alloc, refusal)?.into_bytes()),
        Outcome::CannotRead(table) => Ok(cannot_read_line(alloc, *table)?.into_bytes()),
        Outcome::NoAnswer(error) => Ok(no_answer_line(alloc, error)?.into_bytes()),
        Outcome::NoMemory => Err(NoMemory),
    }
}

/// The commands, one a line.
const USAGE: &str = "usage: railplan plan DIR [--nodes N] [--rounds K]
       railplan simulate DIR
       railplan check DIR
       railplan duties DIR
       railplan yards DIR
       railplan costs DIR
       railplan trial SEED TRIPS [--nodes N] [--rounds K]
";

/// How the program is used.
fn usage_text(alloc: Global) -> Result<String, NoMemory>
    ensures { IfOk result (λ text. string_bytes text ≡ usage_text) }
{
    Ok(String::from_str(alloc, USAGE)?)
}

/// The text of a trial day that was planned: which day it is, and what the answer says where that is all, else the
/// answer.
fn trial_text(alloc: Global, seed: u32, trips: u32, answer: &Answer) -> Result<Vec<u8>, NoMemory>
    ensures { IfOk result (λ text. text.items ≡ trial_text seed trips answer.now) }
{
    let mut text = format!(in alloc; "trial {seed} {trips}\n")?.into_bytes();
    let summary = summary_of(alloc, answer)?;
    text.extend_from_slice(summary.as_slice())?;
    Ok(text)
}

/// What an answer says, in a line, where it says all of the day; else the whole answer.
fn summary_of(alloc: Global, answer: &Answer) -> Result<Vec<u8>, NoMemory>
    ensures { IfOk result (λ text. text.items ≡ summary_by answer.now.head answer.now) }
{
    match answer.head {
        Head::Optimal { .. } | Head::Infeasible => head_line(alloc, &answer.head),
        Head::Bounded { .. } | Head::BoundedPlan { .. } => print(alloc, answer),
    }
}

/// The line that tells what an answer says.
fn head_line(alloc: Global, head: &Head) -> Result<Vec<u8>, NoMemory>
    ensures { IfOk result (λ text. text.items ≡ head_line head.now ++ line_end) }
{
    let mut line = String::new(alloc);
    write_head(&mut line, head)?;
    Ok(line.into_bytes())
}

/// The line of an answer that was not read.
fn no_answer_line(alloc: Global, error: &AnswerError) -> Result<String, NoMemory>
    ensures { IfOk result (λ text. IsDocument (Outcome.NoAnswer error.now) (string_bytes text)) }
{
    match *error {
        AnswerError::CannotRead => file_unread_line(alloc, ANSWER_FILE),
        AnswerError::TooLong => file_refused_line(alloc, ANSWER_FILE, "too long"),
        AnswerError::Refused(refusal) => refused_answer_line(alloc, refusal),
    }
}

/// The line of an answer file that is the text of no answer.
fn refused_answer_line(alloc: Global, refusal: AnswerRefusal) -> Result<String, NoMemory>
    ensures { IfOk result (λ line. string_bytes line ≡ file_refused_line answer_file (answer_refusal_text refusal)) }
{
    let why = answer_refusal_text(alloc, refusal)?;
    file_refused_line(alloc, ANSWER_FILE, why.as_str())
}

/// Why bytes are no answer. Want of memory has the empty text, which is never written.
fn answer_refusal_text(alloc: Global, refusal: AnswerRefusal) -> Result<String, NoMemory>
    ensures { IfOk result (λ text. string_bytes text ≡ answer_refusal_text refusal) }
{
    match refusal {
        AnswerRefusal::BadLine(line) => Ok(format!(in alloc; "line {line}")?),
        AnswerRefusal::MissingEnd => Ok(String::from_str(alloc, "no end line")?),
        AnswerRefusal::Trailing(line) => Ok(format!(in alloc; "line {line} after the end")?),
        AnswerRefusal::TooManyNodes => Ok(String::from_str(alloc, "too many nodes")?),
        AnswerRefusal::NoMemory => Ok(String::new(alloc)),
    }
}

/// The line of a plan that runs at this cost.
fn runs_line(alloc: Global, cost: Money) -> Result<String, NoMemory>
    ensures { IfOk result (λ line. string_bytes line ≡ runs_line cost) }
{
    Ok(format!(in alloc; "runs {}\n", cost.0)?)
}

/// The line of a plan that stops with this fault.
fn stops_line(alloc: Global, fault: &StepFault) -> Result<String, NoMemory>
    ensures { IfOk result (λ line. string_bytes line ≡ stops_line fault.now) }
{
    let text = fault_text(alloc, fault)?;
    Ok(format!(in alloc; "stops: {text}\n")?)
}

/// The line of a table's file that is refused.
fn refused_line(alloc: Global, refusal: &Refusal) -> Result<String, NoMemory>
    ensures { IfOk result (λ line. string_bytes line ≡ refused_line refusal.now) }
{
    let why = refusal.text(alloc)?;
    file_refused_line(alloc, file_name(refusal.table()), why.as_str())
}

/// The line of a table's file that could not be read.
fn cannot_read_line(alloc: Global, table: Table) -> Result<String, NoMemory>
    ensures { IfOk result (λ line. string_bytes line ≡ cannot_read_line table) }
{
    file_unread_line(alloc, file_name(table))
}

/// Why a plan stops.
pub(crate) fn fault_text(alloc: Global, fault: &StepFault) -> Result<String, NoMemory>
    ensures { IfOk result (λ text. string_bytes text ≡ fault_text fault.now) }
{
    match *fault {
        StepFault::NotNow(_) => Ok(String::from_str(alloc, "event out of turn")?),
        StepFault::NoUnits(trip) => Ok(format!(in alloc; "trip {} has no units", trip.0)?),
        StepFault::NotAdmissible(trip) => {
            Ok(format!(in alloc; "trip {} has no admissible composition", trip.0)?)
        }
        StepFault::LinkBroken(link) => Ok(format!(in alloc; "link {} is broken", link.0)?),
        StepFault::NotInYard { unit, trip } => not_ready_text(alloc, unit, trip),
        StepFault::Balance {
            station,
            unit_type,
            count,
            wanted,
        } => balance_text(alloc, station, unit_type, count, wanted),
    }
}

/// A unit that a trip should take is not there and ready.
fn not_ready_text(alloc: Global, unit: UnitNo, trip: TripNo) -> Result<String, NoMemory>
    ensures { IfOk result (λ text. string_bytes text ≡ not_ready_text unit trip) }
{
    Ok(format!(in alloc; "unit {} is not ready for trip {}", unit.0, trip.0)?)
}

/// A station has another number of units of a type at the end than is wanted.
fn balance_text(
    alloc: Global,
    station: StationNo,
    unit_type: TypeNo,
    count: u32,
    wanted: u32,
) -> Result<String, NoMemory>
    ensures { IfOk result (λ text. string_bytes text ≡ balance_text station unit_type count wanted) }
{
    let station = station.0;
    let unit_type = unit_type.0;
    Ok(format!(in alloc;
        "station {station} has {count} units of type {unit_type}, {wanted} wanted"
    )?)
}
