//! The nights of a week: whether each day goes on from the day before.

ghost use Rattle.std.specs.Prelude.{All, ◌≡◌, ◌≤◌, ◌<◌, ◌+◌, ◌^◌, ◌⊎◌, length, MatchOption};
ghost use Rattle.timetable.specs.Accepted.{IsSoundDay};
ghost use Rattle.timetable.specs.Day.{leaves};
ghost use Rattle.week_units.specs.Weeks.{AreWeek, BeginsAsEnded, EachGoesOn, GoesOnFrom, IsFaultOf, IsFirstFault};
ghost use Rattle.week_units.specs.Weeks.{IsFirstFaultFrom, IsFirstLate, NoneLate};
ghost use Rattle.week_units.specs.NightParts.{AreSameIn, IsDifference, IsFirstDifferingIn, IsFirstMinute};

use crate::refusal::WeekRefusal;
use crate::rows::{has_stations_of, has_types_of};
use rail_base::{StationNo, TripNo, TypeNo};
use timetable::Instance;

/// Days of a week at most.
pub const MAX_DAYS: usize = 7;
/// Minutes from the start of a day to that of the next.
pub const MINUTES_OF_A_DAY: u32 = 1_440;

/// The first reason why these days, at most seven, make no week; nothing where they make one. It takes no memory, and
/// is never want of memory.
pub fn week_fault(days: &[Instance]) -> Option<WeekRefusal>
    requires { length days.now ≤ MAX_DAYS }
    ensures { MatchOption result (AreWeek days.now) (IsFirstFault days.now) }
{
    let Some((first, rest)) = days.split_first() else {
        return None;
    };
    // What is known of an accepted day.
    first.is_sound();
    fault_from(2, first, first, rest)
}

/// The first reason why one of these days, of which the first has this number, does not go on from the day before.
fn fault_from(
    number: u32,
    first: &Instance,
    before: &Instance,
    days: &[Instance],
) -> Option<WeekRefusal>
    requires { number + length days.now ≤ MAX_DAYS + 1 }
    ensures { MatchOption result (All IsSoundDay days.now × EachGoesOn first.now before.now days.now)
        (IsFirstFaultFrom number first.now before.now days.now) }
{
    let Some((day, rest)) = days.split_first() else {
        return None;
    };
    // What is known of an accepted day.
    day.is_sound();
    if let Some(fault) = night_fault(number, first, before, day) {
        return Some(fault);
    }
    fault_from(number + 1, first, day, rest)
}

/// The first reason why the day of this number does not go on from the day before.
fn night_fault(
    number: u32,
    first: &Instance,
    before: &Instance,
    day: &Instance,
) -> Option<WeekRefusal>
    ensures { MatchOption result (GoesOnFrom first.now before.now day.now)
        (IsFaultOf number first.now before.now day.now) }
{
    if !has_types_of(first, day) {
        return Some(WeekRefusal::TypesDiffer(number));
    }
    if !has_stations_of(first, day) {
        return Some(WeekRefusal::StationsDiffer(number));
    }
    if let Some(found) = first_differing(before, day) {
        return Some(WeekRefusal::NightDiffers {
            day: number,
            station: found.station,
            unit_type: found.unit_type,
            end: found.end,
            start: found.start,
        });
    }
    if let Some(trip) = first_late(before, day) {
        return Some(WeekRefusal::LateTrip { day: number, trip });
    }
    None
}

/// A station and a type of which another number of units ends a day than starts the next.
#[derive(Clone, Copy)]
struct Difference {
    station: StationNo,
    unit_type: TypeNo,
    end: u32,
    start: u32,
}

/// The first station and type of which another number of units starts the day than is wanted at the end of the day
/// before.
fn first_differing(before: &Instance, day: &Instance) -> Option<Difference>
    ensures { MatchOption result (BeginsAsEnded before.now day.now) (IsDifference before.now day.now) }
{
    for station in 0..day.stations() {
        if let Some(found) = differing_in(before, day, StationNo(station)) {
            return Some(found);
        }
    }
    None
}

/// The first type of which it is so at a station.
fn differing_in(before: &Instance, day: &Instance, station: StationNo) -> Option<Difference>
    requires { station < length day.now.stations }
    ensures { MatchOption result (AreSameIn before.now day.now station)
        (IsFirstDifferingIn before.now day.now station) }
{
    for unit_type in 0..day.types().len() {
        let unit_type = TypeNo(unit_type);
        let end = before.end(station, unit_type);
        let start = day.start(station, unit_type);
        if end != start {
            return Some(Difference {
                station,
                unit_type,
                end,
                start,
            });
        }
    }
    None
}

/// The minute at which the first trip of a day leaves, and 0 where it has none.
fn first_minute(day: &Instance) -> u32
    ensures is { IsFirstMinute day.now result }
    ensures range { result < 2 ^ 16 }
{
    if day.trips() == 0 {
        return 0;
    }
    let mut least = leaves(day, TripNo(0));
    for trip in 1..day.trips() {
        least = lesser(least, leaves(day, TripNo(trip)));
    }
    least
}

/// The lesser of two numbers.
fn lesser(one: u32, other: u32) -> u32
    ensures of_one { result ≤ one }
    ensures of_other { result ≤ other }
    ensures is { (result ≡ one) ⊎ (result ≡ other) }
{
    if one < other { one } else { other }
}

/// The minute at which a trip leaves.
#[tactic(auto, unfolding(rules::specs::Day::leaves))]
fn leaves(day: &Instance, trip: TripNo) -> u32
    requires { trip < length day.now.trips }
    ensures value { result ≡ leaves day.now trip }
    ensures range { result < 2 ^ 16 }
{
    u32::from(day.trip(trip).departure.0)
}

/// The first trip of the day before that is late.
fn first_late(before: &Instance, day: &Instance) -> Option<TripNo>
    ensures { MatchOption result (NoneLate before.now day.now) (IsFirstLate before.now day.now) }
{
    let last = MINUTES_OF_A_DAY + first_minute(day);
    for trip in 0..before.trips() {
        if u32::from(before.ready_at(TripNo(trip)).0) > last {
            return Some(TripNo(trip));
        }
    }
    None
}
