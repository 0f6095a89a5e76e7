//! Where the rules of links are tested on a day, and which trips a trip waits for.

ghost use Rattle.std.specs.Prelude.{◌≡◌, ◌<◌, length, IfSome};
ghost use Rattle.std.specs.List.{list_all};
ghost use Rattle.timetable.specs.Links.{trip_list, trips_into};
ghost use Rattle.timetable.specs.Running.{IsPlan};
ghost use Rattle.day_simulator.specs.State.{stage_of, has_arrived};
ghost use Rattle.day_simulator.specs.Steps.{is_tested_at, broken, broken_into, broken_out};

use crate::balance::stage_of;
use crate::events::Stage;
use rail_base::{LinkNo, TripNo};
use timetable::{Instance, Link, LinkTrips, NamedPlan, link_holds};

/// Whether a link's rule is tested at departures, or else at arrivals: a join, for which two trips arrive, where its
/// trip leaves, and a turn and a split where their trip arrives.
fn is_tested_at(departure: bool, link: &Link) -> bool
    ensures { result ≡ is_tested_at departure link.now.kind }
{
    match link.kind.arriving().second {
        Some(_) => departure,
        None => !departure,
    }
}

/// The number of a link, where its rule is tested here and is broken.
fn broken(
    instance: &Instance,
    plan: &NamedPlan,
    departure: bool,
    number: Option<LinkNo>,
) -> Option<LinkNo>
    requires plan { IsPlan instance.now plan.now }
    requires number { IfSome number (λ l. l < length instance.now.links) }
    ensures { result ≡ broken instance.now plan.now departure number }
{
    let number = number?;
    let link = instance.link(number);
    if is_tested_at(departure, link) && !link_holds(link, instance, plan) {
        Some(number)
    } else {
        None
    }
}

/// The link into a trip, where it is tested when the trip leaves and its rule is broken.
#[tactic(auto, unfolding(crate::specs::Steps::broken_into))]
pub(crate) fn broken_into(instance: &Instance, plan: &NamedPlan, trip: TripNo) -> Option<LinkNo>
    requires trip { trip < length instance.now.trips }
    requires plan { IsPlan instance.now plan.now }
    ensures { result ≡ broken_into instance.now plan.now trip }
{
    broken(instance, plan, true, instance.incoming(trip))
}

/// The link on from a trip, where it is tested when the trip arrives and its rule is broken.
#[tactic(auto, unfolding(crate::specs::Steps::broken_out))]
pub(crate) fn broken_out(instance: &Instance, plan: &NamedPlan, trip: TripNo) -> Option<LinkNo>
    requires trip { trip < length instance.now.trips }
    requires plan { IsPlan instance.now plan.now }
    ensures { result ≡ broken_out instance.now plan.now trip }
{
    broken(instance, plan, false, instance.outgoing(trip))
}

/// Whether a trip has arrived.
fn has_arrived(stages: &[Stage], trip: TripNo) -> bool
    ensures { result ≡ has_arrived (stage_of stages.now trip) }
{
    matches!(stage_of(stages, trip), Stage::Arrived)
}

/// Whether all these trips of a link have arrived.
fn have_arrived(stages: &[Stage], trips: LinkTrips) -> bool
    ensures { result ≡ list_all (λ a. has_arrived (stage_of stages.now a)) (trip_list trips) }
{
    if !has_arrived(stages, trips.first) {
        return false;
    }
    match trips.second {
        Some(second) => has_arrived(stages, second),
        None => true,
    }
}

/// Whether all the trips have arrived that a trip waits for: those that arrive for the link into it.
pub(crate) fn have_trips_into_arrived(instance: &Instance, stages: &[Stage], trip: TripNo) -> bool
    requires { trip < length instance.now.trips }
    ensures { result ≡ list_all (λ a. has_arrived (stage_of stages.now a)) (trips_into instance.now trip) }
{
    match instance.link_into(trip) {
        Some(link) => have_arrived(stages, link.kind.arriving()),
        None => true,
    }
}
