//! The minutes at which trips leave each station.

ghost use Rattle.std.specs.Prelude.{◌≡◌, ◌<◌, ◌≤◌, length, OnOk, IfOk};
ghost use Rattle.std.specs.List.{AllPairs};
ghost use Rattle.timetable.specs.Lists.{listed};
ghost use Rattle.timetable.specs.Minutes.{inserted, with_departure, minutes_in};

use crate::day::records::Trip;
use rail_base::limits::{MAX_STATIONS, MAX_TRIPS};
use rail_base::{Minute, NoMemory, StationNo};
use std::alloc::Global;
use std::marker::Model;

/// Minutes in rising order. A contract sees the list of their numbers.
#[derive(Drop)]
pub struct Minutes {
    minutes: Vec<Minute>,
}

impl Model for Minutes {
    ghost use Rattle.std.specs.Prelude.{List, ℕ};

    ghost Value = { List ℕ };

    ghost view = { λ a. a.minutes.items };
}

impl Minutes {
    /// The minutes in order. It takes no memory.
    pub fn items(&self) -> &[Minute]
        ensures { result.now ≡ self.now }
    {
        self.minutes.as_slice()
    }
}

/// Puts a minute at its place among minutes that rise, where it isn't there yet. The error is want of memory.
pub fn insert_minute(minutes: &mut Vec<Minute>, minute: Minute) -> Result<(), NoMemory>
    requires { AllPairs (λ a b. a < b) minutes.old.items }
    ensures inserted { OnOk result (minutes.new.items ≡ inserted minute minutes.old.items) }
    ensures rise { OnOk result (AllPairs (λ a b. a < b) minutes.new.items) }
{
    match minutes.binary_search(&minute) {
        Ok(_) => Ok(()),
        Err(place) => {
            minutes.insert(place, minute)?;
            Ok(())
        }
    }
}

/// Puts the departure of a trip among minutes that rise, if it leaves the station.
fn insert_departure(
    minutes: &mut Vec<Minute>,
    trip: &Trip,
    station: StationNo,
) -> Result<(), NoMemory>
    requires { AllPairs (λ a b. a < b) minutes.old.items }
    ensures { OnOk result (minutes.new.items ≡ with_departure station trip.now minutes.old.items) }
{
    if trip.from == station {
        insert_minute(minutes, trip.departure)?;
    }
    Ok(())
}

/// The minutes at which trips leave a station, each once.
fn minutes_at(alloc: Global, trips: &[Trip], station: StationNo) -> Result<Minutes, NoMemory>
    requires { length trips.now ≤ MAX_TRIPS }
    ensures { IfOk result (λ minutes. minutes ≡ minutes_in trips.now station) }
{
    let mut minutes = Vec::new(alloc);
    let mut left = trips.len();
    while left > 0 {
        left -= 1;
        insert_departure(&mut minutes, &trips[left], station)?;
    }
    Ok(Minutes { minutes })
}

/// The departure minutes of each of so many stations.
pub fn minutes_of(alloc: Global, trips: &[Trip], stations: u32) -> Result<Vec<Minutes>, NoMemory>
    requires trips { length trips.now ≤ MAX_TRIPS }
    requires stations { stations ≤ MAX_STATIONS }
    ensures { IfOk result (λ minutes. minutes.items ≡ listed (minutes_in trips.now) stations) }
{
    let mut minutes = Vec::new(alloc);
    for station in 0..stations {
        minutes.push(minutes_at(alloc, trips, StationNo(station))?)?;
    }
    Ok(minutes)
}
