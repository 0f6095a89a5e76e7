//! What has happened on a day before a minute.

ghost use Rattle.std.specs.Prelude.{◌≡◌, ◌<◌, length, nat_lt};
ghost use Rattle.std.specs.List.{list_any};
ghost use Rattle.timetable.specs.Day.{arrives};
ghost use Rattle.timetable.specs.LinkRows.{AreBelow};
ghost use Rattle.timetable.specs.Links.{trip_list};
ghost use Rattle.replan.specs.RestsOfDays.{is_frozen};

use cancellations::has_left;
use rail_base::{Minute, TripNo};
use timetable::{Instance, LinkTrips};

/// Whether a trip arrives before a minute.
#[tactic(auto, unfolding(rules::specs::Day::arrives))]
fn has_arrived(instance: &Instance, now: Minute, trip: TripNo) -> bool
    requires { trip < length instance.now.trips }
    ensures { result ≡ nat_lt (arrives instance.now trip) now }
{
    instance.trip(trip).arrival.0 < now.0
}

/// Whether one of the trips on a side of a link arrives before a minute.
fn has_any_arrived(instance: &Instance, now: Minute, trips: LinkTrips) -> bool
    requires { AreBelow (length instance.now.trips) trips }
    ensures { result ≡ list_any (λ t. nat_lt (arrives instance.now t) now) (trip_list trips) }
{
    if has_arrived(instance, now, trips.first) {
        return true;
    }
    match trips.second {
        Some(second) => has_arrived(instance, now, second),
        None => false,
    }
}

/// Whether a trip is frozen at a minute: it has left, or a link leads to it from a trip that has arrived.
pub(crate) fn is_frozen(instance: &Instance, now: Minute, trip: TripNo) -> bool
    requires { trip < length instance.now.trips }
    ensures { result ≡ is_frozen instance.now now trip }
{
    if has_left(instance, now, trip) {
        return true;
    }
    match instance.link_into(trip) {
        Some(link) => has_any_arrived(instance, now, link.kind.arriving()),
        None => false,
    }
}
