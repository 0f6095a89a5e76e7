//! Which trips have left before a minute.

ghost use Rattle.std.specs.Prelude.{◌≡◌, ◌<◌, length, nat_lt};
ghost use Rattle.std.specs.List.{list_any};
ghost use Rattle.timetable.specs.Day.{leaves};
ghost use Rattle.timetable.specs.LinkRows.{AreBelow};
ghost use Rattle.timetable.specs.Links.{trip_list};

use rail_base::{Minute, TripNo};
use timetable::{Instance, LinkTrips};

/// Whether a trip leaves before a minute. The trip is below `trips`.
#[tactic(auto, unfolding(rules::specs::Day::leaves))]
pub fn has_left(instance: &Instance, now: Minute, trip: TripNo) -> bool
    requires { trip < length instance.now.trips }
    ensures { result ≡ nat_lt (leaves instance.now trip) now }
{
    instance.trip(trip).departure.0 < now.0
}

/// Whether one of the trips on a side of a link leaves before a minute.
pub(crate) fn has_any_left(instance: &Instance, now: Minute, trips: LinkTrips) -> bool
    requires { AreBelow (length instance.now.trips) trips }
    ensures { result ≡ list_any (λ t. nat_lt (leaves instance.now t) now) (trip_list trips) }
{
    if has_left(instance, now, trips.first) {
        return true;
    }
    match trips.second {
        Some(second) => has_left(instance, now, second),
        None => false,
    }
}
