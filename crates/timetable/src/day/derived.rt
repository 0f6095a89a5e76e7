//! Days that derive from a day.

ghost use Rattle.std.specs.Prelude.{◌≡◌, IfOk};
ghost use Rattle.timetable.specs.DayTables.{IsDayOfBytes};
ghost use Rattle.timetable.specs.DerivedDays.{old_numbers, without_trips};
ghost use Rattle.timetable.specs.Lists.{listed};

use crate::day::instance::Instance;
use day_tables::{tables_of, take_out};
use rail_base::{NoMemory, TripNo};
use rail_csv::TableBytes;
use std::alloc::Global;

impl Instance {
    /// The instance of the day without some of its trips, which are told by their numbers, and without the links that
    /// name one of them. The other trips and links keep their order, and units keep their numbers. The bytes are those
    /// of the tables that made this day, so its tables make a day without these trips too, and the error is want of
    /// memory alone.
    pub fn without_trips(
        &self,
        alloc: Global,
        bytes: &TableBytes,
        gone: &[TripNo],
    ) -> Result<Instance, NoMemory>
        requires { IsDayOfBytes bytes.now self.now }
        ensures { IfOk result (λ later. later ≡ without_trips gone.now self.now) }
    {
        let Ok(tables) = tables_of(alloc, bytes) else {
            return Err(NoMemory);
        };
        match Instance::build(alloc, tables.without_trips(gone)) {
            Ok(later) => Ok(later),
            Err(_) => Err(NoMemory),
        }
    }

    /// The numbers of the trips that are left without some, in order: each is at the place of the number that the trip
    /// has on the day without them, by the law `trips_that_are_left`.
    pub fn trips_left(&self, alloc: Global, gone: &[TripNo]) -> Result<Vec<TripNo>, NoMemory>
        ensures { IfOk result (λ trips. trips.items ≡ old_numbers self.now gone.now) }
    {
        let mut trips = numbers_below(alloc, self.trips())?;
        take_out(&mut trips, gone);
        Ok(trips)
    }
}

/// The numbers of so many trips, in order.
fn numbers_below(alloc: Global, trips: u32) -> Result<Vec<TripNo>, NoMemory>
    ensures { IfOk result (λ numbers. numbers.items ≡ listed (λ k. k) trips) }
{
    let mut numbers = Vec::new(alloc);
    for trip in 0..trips {
        numbers.push(TripNo(trip))?;
    }
    Ok(numbers)
}
