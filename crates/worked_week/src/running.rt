//! Weeks that are run unit by unit, as they are written: by the runs of each day and the names of its units alone. Of
//! each unit of the week it is kept where it stands, and from which minute of the week on it may be taken.

ghost use Rattle.std.specs.Prelude.{◌<◌, length};

use answer_text::Answer;
use rail_base::{StationNo, TripNo, TypeNo, UnitNo};
use std::alloc::Global;
use std::test::Fail;
use timetable::Instance;
use week_plan::Week;

/// The minutes of one day.
const ONE_DAY: u32 = 24 * 60;

/// A trip that a unit came with, and the day of it, counted from 0.
#[derive(Clone, Copy)]
struct Came {
    day: u32,
    trip: TripNo,
}

/// A unit of the week.
#[derive(Clone, Copy)]
struct WeekUnit {
    unit_type: TypeNo,
    station: StationNo,
    /// The minute of the week from which it may be taken.
    ready: u32,
    /// The last trip that it came with.
    came: Option<Came>,
}

/// Runs a week that has a plan. What cannot be run fails the test.
pub(crate) fn run(alloc: Global, days: &[Instance], week: &Week) -> Result<(), Fail> {
    let Some(first) = days.first() else {
        return Ok(());
    };
    let mut units = units_of(alloc, first)?;
    let mut number = 0u32;
    for day in days {
        let Some(answer) = week.days.items().get(number as usize) else {
            return Err(Fail::new("a day has no answer"));
        };
        let Some(names) = week.names(number.saturating_add(1)) else {
            return Err(Fail::new("the units of a day have no names"));
        };
        run_day(day, number, answer, names, &mut units)?;
        number = number.saturating_add(1);
    }
    Ok(())
}

/// The units that stand at the stations as a day begins.
fn units_of(alloc: Global, day: &Instance) -> Result<Vec<WeekUnit>, Fail> {
    let mut units = Vec::new(alloc);
    for number in 0..day.units() {
        let unit = day.unit(UnitNo(number));
        units.push(WeekUnit {
            unit_type: unit.unit_type,
            station: unit.home,
            ready: 0,
            came: None,
        })?;
    }
    Ok(units)
}

/// Runs a day, its trips in the order in which they leave, and looks where its units stand at the end.
fn run_day(
    day: &Instance,
    number: u32,
    answer: &Answer,
    names: &[UnitNo],
    units: &mut Vec<WeekUnit>,
) -> Result<(), Fail> {
    for minute in 0..2 * ONE_DAY {
        for trip in 0..day.trips() {
            let trip = TripNo(trip);
            if u32::from(day.trip(trip).departure.0) == minute {
                run_trip(day, number, trip, answer, names, units)?;
            }
        }
    }
    end_day(day, units)
}

/// Runs a trip of a day.
fn run_trip(
    day: &Instance,
    number: u32,
    trip: TripNo,
    answer: &Answer,
    names: &[UnitNo],
    units: &mut Vec<WeekUnit>,
) -> Result<(), Fail>
    requires { trip < length day.now.trips }
{
    let Some(run) = answer.runs.items().get(trip.place()) else {
        return Err(Fail::new("a trip has no run"));
    };
    if run.items().is_empty() {
        return Err(Fail::new("a trip has no units"));
    }
    for unit in run.items() {
        let Some(name) = names.get(unit.place()) else {
            return Err(Fail::new("a unit has no name"));
        };
        let Some(stands) = units.get(name.place()) else {
            return Err(Fail::new("a name is of no unit"));
        };
        let moved = moved(day, number, trip, *unit, *stands)?;
        if name.place() < units.len() {
            units[name.place()] = moved;
        }
    }
    Ok(())
}

/// A unit that stands so, after a trip of a day, on which the day knows it by this number.
fn moved(
    day: &Instance,
    number: u32,
    trip: TripNo,
    unit: UnitNo,
    stands: WeekUnit,
) -> Result<WeekUnit, Fail>
    requires { trip < length day.now.trips }
{
    if unit.0 >= day.units() || day.unit(unit).unit_type != stands.unit_type {
        return Err(Fail::new("a unit is of another type"));
    }
    let row = day.trip(trip);
    let start = number.saturating_mul(ONE_DAY);
    if stands.station != row.from {
        return Err(Fail::new("a unit stands elsewhere"));
    }
    let leaves = start.saturating_add(u32::from(row.departure.0));
    if stands.ready > leaves && !stays_on(day, number, trip, stands) {
        return Err(Fail::new("a unit is not ready"));
    }
    Ok(WeekUnit {
        station: row.to,
        ready: start.saturating_add(u32::from(day.ready_at(trip).0)),
        came: Some(Came { day: number, trip }),
        ..stands
    })
}

/// Whether a unit came with a trip of this day from which a link leads on to this one.
fn stays_on(day: &Instance, number: u32, trip: TripNo, stands: WeekUnit) -> bool
    requires { trip < length day.now.trips }
{
    let Some(came) = stands.came else {
        return false;
    };
    let Some(link) = day.incoming(trip) else {
        return false;
    };
    came.day == number && day.link(link).kind.leads(came.trip, trip)
}

/// Looks whether as many units of each type stand at each station as are wanted there at the end of a day.
fn end_day(day: &Instance, units: &[WeekUnit]) -> Result<(), Fail> {
    for station in 0..day.stations() {
        for unit_type in 0..day.types().len() {
            let (station, unit_type) = (StationNo(station), TypeNo(unit_type));
            if count_at(units, station, unit_type) != day.end(station, unit_type) {
                return Err(Fail::new("other units stand there at the end of a day"));
            }
        }
    }
    Ok(())
}

/// How many units of a type stand at a station.
fn count_at(units: &[WeekUnit], station: StationNo, unit_type: TypeNo) -> u32 {
    let mut count = 0u32;
    for unit in units {
        if unit.station == station && unit.unit_type == unit_type {
            count = count.saturating_add(1);
        }
    }
    count
}
