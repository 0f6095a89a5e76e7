//! The later day, made of the tables of a day.

ghost use Rattle.std.specs.Prelude.{IfOk};
ghost use Rattle.timetable.specs.DayTables.{IsDayOfBytes};
ghost use Rattle.cancellations.specs.DaysWithout.{IsLaterOf};

use crate::cancelling::Cancelled;
use crate::later_day::Later;
use rail_base::NoMemory;
use rail_csv::TableBytes;
use std::alloc::Global;
use timetable::Instance;

/// The day without the cancelled trips. The bytes are those of the tables that made the day, at most `MAX_TABLE_BYTES`
/// of each. The error is want of memory.
pub fn later(
    alloc: Global,
    tables: &TableBytes,
    instance: &Instance,
    cancelled: &Cancelled,
) -> Result<Later, NoMemory>
    requires { IsDayOfBytes tables.now instance.now }
    ensures { IfOk result (IsLaterOf instance.now cancelled.now) }
{
    let gone = cancelled.items();
    Ok(Later {
        instance: instance.without_trips(alloc, tables, gone)?,
        numbers: instance.trips_left(alloc, gone)?,
    })
}
