//! The parts of a day as fields of a report: names, and times of trips.

ghost use Rattle.std.specs.Prelude.{◌≡◌, ◌<◌, length};
ghost use Rattle.rail_base.specs.Times.{clock_text};
ghost use Rattle.timetable.specs.Day.{arrives, from_of, home_of, leaves, to_of, type_of, unit_count};
ghost use Rattle.day_reports.specs.Named.{station_name, trip_name, type_name};

use rail_base::{StationNo, TripNo, TypeNo, UnitNo, clock};
use timetable::Instance;

/// The name of a type.
#[tactic(auto, unfolding(crate::specs::Named::type_name))]
pub(crate) fn type_name(instance: &Instance, unit_type: TypeNo) -> &[u8]
    requires { unit_type < length instance.now.types }
    ensures { result.now ≡ type_name instance.now unit_type }
{
    instance.types().get(unit_type).name.as_str().as_bytes()
}

/// The name of a station.
#[tactic(auto, unfolding(crate::specs::Named::station_name))]
pub(crate) fn station_name(instance: &Instance, station: StationNo) -> &[u8]
    requires { station < length instance.now.stations }
    ensures { result.now ≡ station_name instance.now station }
{
    instance.station(station).name.as_str().as_bytes()
}

/// The name of a trip.
#[tactic(auto, unfolding(crate::specs::Named::trip_name))]
pub(crate) fn trip_name(instance: &Instance, trip: TripNo) -> &[u8]
    requires { trip < length instance.now.trips }
    ensures { result.now ≡ trip_name instance.now trip }
{
    instance.trip(trip).name.as_str().as_bytes()
}

/// The name of a unit's type.
#[tactic(auto, unfolding(rules::specs::Day::type_of))]
pub(crate) fn type_of_unit(instance: &Instance, unit: UnitNo) -> &[u8]
    requires { unit < unit_count instance.now }
    ensures { result.now ≡ type_name instance.now (type_of instance.now unit) }
{
    type_name(instance, instance.unit(unit).unit_type)
}

/// The name of a unit's home.
#[tactic(auto, unfolding(rules::specs::Day::home_of))]
pub(crate) fn home_of_unit(instance: &Instance, unit: UnitNo) -> &[u8]
    requires { unit < unit_count instance.now }
    ensures { result.now ≡ station_name instance.now (home_of instance.now unit) }
{
    station_name(instance, instance.unit(unit).home)
}

/// The name of the station that a trip leaves from.
#[tactic(auto, unfolding(rules::specs::Day::from_of))]
pub(crate) fn origin_of_trip(instance: &Instance, trip: TripNo) -> &[u8]
    requires { trip < length instance.now.trips }
    ensures { result.now ≡ station_name instance.now (from_of instance.now trip) }
{
    station_name(instance, instance.trip(trip).from)
}

/// The name of the station that a trip goes to.
#[tactic(auto, unfolding(rules::specs::Day::to_of))]
pub(crate) fn goal_of_trip(instance: &Instance, trip: TripNo) -> &[u8]
    requires { trip < length instance.now.trips }
    ensures { result.now ≡ station_name instance.now (to_of instance.now trip) }
{
    station_name(instance, instance.trip(trip).to)
}

/// The time at which a trip leaves.
#[tactic(auto, unfolding(rules::specs::Day::leaves))]
pub(crate) fn departure_of_trip(instance: &Instance, trip: TripNo) -> [u8; 5]
    requires { trip < length instance.now.trips }
    ensures { result ≡ clock_text (leaves instance.now trip) }
{
    clock(instance.trip(trip).departure)
}

/// The time at which a trip arrives.
#[tactic(auto, unfolding(rules::specs::Day::arrives))]
pub(crate) fn arrival_of_trip(instance: &Instance, trip: TripNo) -> [u8; 5]
    requires { trip < length instance.now.trips }
    ensures { result ≡ clock_text (arrives instance.now trip) }
{
    clock(instance.trip(trip).arrival)
}
