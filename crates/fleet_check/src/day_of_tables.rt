//! A day, and the tables that made it.

use rail_csv::TableBytes;
use timetable::Instance;

/// A day with the bytes of the tables that made it, from which the days with other fleets are made.
#[derive(Clone, Copy)]
pub struct DayOfTables<'a> {
    /// The bytes.
    pub bytes: &'a TableBytes,
    /// The day, whose stock at its start is the most units that a fleet may have.
    pub instance: &'a Instance,
}
