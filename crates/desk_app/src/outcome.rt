//! What a run of the planner's desk comes to.

ghost use Rattle.std.specs.Prelude.{◌≡◌};
ghost use Rattle.desk_app.specs.Outcomes.{status_of};
ghost use Rattle.desk_app.specs.WeekDays.{fault_file};

use crate::files::DeskFile;
use answer_text::Answer;
use cancellations::Later;
use day_files::ReadError;
use fleet_check::Fleet;
use rail_csv::Table;
use replan::Replanned;
use run_documents::status_said;
use statuses::{FAILURE, NO_MEMORY, REFUSED, SUCCESS, UNREAD, USAGE};
use urgent_units::Swapped;
use week_files::DayError;
use week_plan::Week;
use week_units::WeekRefusal;

/// The rest of a disturbed day, planned.
#[derive(Drop)]
pub struct PlannedRest {
    /// The later day, and the numbers that its trips had.
    pub later: Later,
    /// The answer to it.
    pub replanned: Replanned,
}

/// The fleet of least cost for a day, as it was found.
#[derive(Drop)]
pub struct FoundFleet {
    /// How many types the day has.
    pub types: u32,
    /// The fleet and its plan, and what is said of all fleets with the boxes that prove it.
    pub fleet: Fleet,
}

/// What a run comes to: the document that it writes and the status that it ends with follow from it.
#[derive(Drop)]
pub enum DeskOutcome {
    /// The day is planned, and this is the answer to it.
    Planned(Answer),
    /// Units of the plan are swapped: a plan that brings as many urgent ones to the depot as can be, and a cut that
    /// shows that no other brings more.
    Swapped(Swapped),
    /// The rest of the day is planned, and this is the answer to it.
    Replanned(PlannedRest),
    /// The days of a week are planned, and this is the answer to it.
    PlannedWeek(Week),
    /// The fleet of least cost is found, or the best within what was granted.
    FleetFound(FoundFleet),
    /// The plan doesn't run.
    Stops,
    /// The words are not understood.
    Usage,
    /// This file is refused.
    Refused(DeskFile),
    /// This file could not be read.
    CannotRead(DeskFile),
    /// Memory ran out; there is no document.
    NoMemory,
}

impl From<ReadError> for DeskOutcome {
    ghost use Rattle.std.specs.Prelude.{◌≡◌};
    ghost use Rattle.desk_app.specs.ReadErrors.{outcome_of_error};

    ghost from_gives = { λ error outcome. outcome ≡ outcome_of_error error };

    fn from(error: ReadError) -> DeskOutcome {
        match error {
            ReadError::Refused(refusal) => DeskOutcome::Refused(DeskFile::OfTable(refusal.table())),
            ReadError::CannotRead(table) => DeskOutcome::CannotRead(DeskFile::OfTable(table)),
            ReadError::NoMemory => DeskOutcome::NoMemory,
        }
    }
}

impl From<DayError> for DeskOutcome {
    ghost use Rattle.std.specs.Prelude.{◌≡◌};
    ghost use Rattle.desk_app.specs.WeekOutcomes.{outcome_of_day_error};

    ghost from_gives = { λ error outcome. outcome ≡ outcome_of_day_error error };

    fn from(error: DayError) -> DeskOutcome {
        let day = error.day;
        match error.error {
            ReadError::Refused(refusal) => DeskOutcome::Refused(DeskFile::OfDay(
                day,
                refusal.table(),
            )),
            ReadError::CannotRead(table) => DeskOutcome::CannotRead(DeskFile::OfDay(day, table)),
            ReadError::NoMemory => DeskOutcome::NoMemory,
        }
    }
}

impl From<WeekRefusal> for DeskOutcome {
    ghost use Rattle.std.specs.Prelude.{◌≡◌};
    ghost use Rattle.desk_app.specs.WeekOutcomes.{outcome_of_fault};

    ghost from_gives = { λ fault outcome. outcome ≡ outcome_of_fault fault };

    fn from(fault: WeekRefusal) -> DeskOutcome {
        match fault_file(&fault) {
            Some(file) => DeskOutcome::Refused(file),
            None => DeskOutcome::NoMemory,
        }
    }
}

/// The file that tells why days make no week: one of the day that doesn't go on from the day before, and where a trip
/// is late, that of the trips of the day before. Want of memory tells of none.
fn fault_file(fault: &WeekRefusal) -> Option<DeskFile>
    ensures { result ≡ fault_file fault.now }
{
    match *fault {
        WeekRefusal::TypesDiffer(day) => Some(DeskFile::OfDay(day, Table::Types)),
        WeekRefusal::StationsDiffer(day) => Some(DeskFile::OfDay(day, Table::Stations)),
        WeekRefusal::NightDiffers { day, .. } => Some(DeskFile::OfDay(day, Table::Stock)),
        WeekRefusal::LateTrip { day, .. } => {
            Some(DeskFile::OfDay(day.saturating_sub(1), Table::Trips))
        }
        WeekRefusal::NoMemory => None,
    }
}

impl DeskOutcome {
    /// The status of an outcome whose document was written, and of want of memory.
    pub fn status(&self) -> u8
        ensures { result ≡ status_of self.now }
    {
        match self {
            DeskOutcome::Planned(answer) => status_said(answer.head),
            DeskOutcome::Swapped(_) => SUCCESS,
            DeskOutcome::Replanned(rest) => status_said(rest.replanned.head),
            DeskOutcome::PlannedWeek(week) => status_said(week.head),
            DeskOutcome::FleetFound(found) => status_said(found.fleet.head),
            DeskOutcome::Stops => FAILURE,
            DeskOutcome::Usage => USAGE,
            DeskOutcome::Refused(_) => REFUSED,
            DeskOutcome::CannotRead(_) => UNREAD,
            DeskOutcome::NoMemory => NO_MEMORY,
        }
    }
}
