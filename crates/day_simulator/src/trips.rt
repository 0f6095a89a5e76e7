//! What a trip asks of its units: where and when it runs, and which compositions may run on it.

ghost use Rattle.std.specs.Prelude.{◌≡◌, ◌<◌, ◌≤◌, length};
ghost use Rattle.timetable.specs.Day.{leaves, arrives, from_of, to_of, types_of};
ghost use Rattle.timetable.specs.Admissible.{is_admissible, longest_of};
ghost use Rattle.timetable.specs.Running.{AreUnits};

use compositions::Composition;
use rail_base::limits::{MAX_COMPOSITION_UNITS, MAX_MINUTES};
use rail_base::{StationNo, TripNo, UnitNo};
use timetable::Instance;

/// The minute at which a trip leaves; 0 where there is no such trip.
#[tactic(auto, unfolding(rules::specs::Day::leaves))]
pub(crate) fn departure(instance: &Instance, trip: TripNo) -> u32
    ensures minute { result ≡ leaves instance.now trip }
    ensures range { result < MAX_MINUTES }
{
    if trip.0 >= instance.trips() {
        return 0;
    }
    instance.trip(trip).departure.minutes()
}

/// The minute at which a trip arrives; 1 where there is no such trip.
#[tactic(auto, unfolding(rules::specs::Day::arrives))]
pub(crate) fn arrival(instance: &Instance, trip: TripNo) -> u32
    ensures minute { result ≡ arrives instance.now trip }
    ensures range { result < MAX_MINUTES }
{
    if trip.0 >= instance.trips() {
        return 1;
    }
    instance.trip(trip).arrival.minutes()
}

/// The station that a trip leaves from.
#[tactic(auto, unfolding(rules::specs::Day::from_of))]
pub(crate) fn from_of(instance: &Instance, trip: TripNo) -> StationNo
    requires { trip < length instance.now.trips }
    ensures station { result ≡ from_of instance.now trip }
    ensures known { result < length instance.now.stations }
{
    instance.trip(trip).from
}

/// The station that a trip goes to.
#[tactic(auto, unfolding(rules::specs::Day::to_of))]
pub(crate) fn to_of(instance: &Instance, trip: TripNo) -> StationNo
    requires { trip < length instance.now.trips }
    ensures station { result ≡ to_of instance.now trip }
    ensures known { result < length instance.now.stations }
{
    instance.trip(trip).to
}

/// The metres that fit both platforms of a trip.
#[tactic(auto, unfolding(rules::specs::Day::platform_of))]
fn longest(instance: &Instance, trip: TripNo) -> u32
    requires { trip < length instance.now.trips }
    ensures { result ≡ longest_of instance.now trip }
{
    let from = instance.station(from_of(instance, trip)).platform;
    let to = instance.station(to_of(instance, trip)).platform;
    from.min(to)
}

/// Whether units may run on a trip as a composition.
#[tactic(auto, unfolding(rules::specs::Admissible::is_admissible))]
pub(crate) fn is_admissible(instance: &Instance, trip: TripNo, units: &[UnitNo]) -> bool
    requires trip { trip < length instance.now.trips }
    requires known { AreUnits instance.now units.now }
    requires few { length units.now ≤ MAX_COMPOSITION_UNITS }
    ensures { result ≡ is_admissible instance.now trip (types_of instance.now units.now) }
{
    let types = instance.types_of(units);
    match Composition::of(types.as_slice()) {
        Some(composition) => composition.fits(instance.types(), longest(instance, trip)),
        None => false,
    }
}
