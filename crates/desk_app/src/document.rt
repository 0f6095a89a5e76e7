//! The document of an outcome: an answer, a plan with units swapped, the answer to a disturbed day or to a week, a
//! fleet, or one line.

ghost use Rattle.std.specs.Prelude.{◌≡◌, IfOk, string_bytes};
ghost use Rattle.desk_app.specs.Documents.{IsDocument, refused_line, stops_line, unread_line, usage_line};

use crate::files::DeskFile;
use crate::outcome::{DeskOutcome, FoundFleet, PlannedRest};
use crate::swapped_text::swapped_text;
use answer_text::print;
use day_files::{file_refused_alone_line, file_unread_line};
use fleet_text::print_fleet;
use rail_base::NoMemory;
use replan_text::print_replanned;
use std::alloc::Global;
use week_text::print_week;

/// The document that a run writes for its outcome: the text of an answer, of a plan with units swapped, of the answer
/// to a disturbed day or to a week, or of a fleet, or one line with its line feed. There is none for want of memory,
/// which is the error.
pub fn document(alloc: Global, outcome: DeskOutcome) -> Result<Vec<u8>, NoMemory>
    ensures { IfOk result (λ text. IsDocument outcome text.items) }
{
    match outcome {
        DeskOutcome::Planned(answer) => print(alloc, &answer),
        DeskOutcome::Swapped(swapped) => swapped_text(alloc, &swapped),
        DeskOutcome::Replanned(PlannedRest { later, replanned }) => {
            print_replanned(alloc, &later, replanned)
        }
        DeskOutcome::PlannedWeek(week) => print_week(alloc, &week),
        DeskOutcome::FleetFound(FoundFleet { types, fleet }) => print_fleet(alloc, types, fleet),
        DeskOutcome::Stops => Ok(stops_line(alloc)?.into_bytes()),
        DeskOutcome::Usage => Ok(usage_line(alloc)?.into_bytes()),
        DeskOutcome::Refused(file) => refused_line(alloc, file),
        DeskOutcome::CannotRead(file) => unread_line(alloc, file),
        DeskOutcome::NoMemory => Err(NoMemory),
    }
}

/// The line of a file that is refused.
fn refused_line(alloc: Global, file: DeskFile) -> Result<Vec<u8>, NoMemory>
    ensures { IfOk result (λ line. line.items ≡ refused_line file) }
{
    let name = file.name(alloc)?;
    Ok(file_refused_alone_line(alloc, name.as_str())?.into_bytes())
}

/// The line of a file that could not be read.
fn unread_line(alloc: Global, file: DeskFile) -> Result<Vec<u8>, NoMemory>
    ensures { IfOk result (λ line. line.items ≡ unread_line file) }
{
    let name = file.name(alloc)?;
    Ok(file_unread_line(alloc, name.as_str())?.into_bytes())
}

/// The line of a plan that doesn't run.
fn stops_line(alloc: Global) -> Result<String, NoMemory>
    ensures { IfOk result (λ line. string_bytes line ≡ stops_line) }
{
    Ok(String::from_str(alloc, "stops\n")?)
}

/// The line of words that are not understood.
fn usage_line(alloc: Global) -> Result<String, NoMemory>
    ensures { IfOk result (λ line. string_bytes line ≡ usage_line) }
{
    Ok(String::from_str(alloc, "usage\n")?)
}
