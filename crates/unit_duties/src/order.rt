//! The order in which the trips of a day leave.

ghost use Rattle.std.specs.Prelude.{◌≡◌, ◌<◌, length, IfOk};
ghost use Rattle.std.specs.List.{All};
ghost use Rattle.timetable.specs.Day.{leaves, from_of};
ghost use Rattle.timetable.specs.Duties.{in_order};
ghost use Rattle.timetable.specs.Lists.{below};

use rail_base::{NoMemory, StationNo, TripNo};
use std::alloc::Global;
use timetable::Instance;

/// The minute at which a trip leaves; 0 where there is no such trip.
#[tactic(auto, unfolding(rules::specs::Day::leaves))]
pub(crate) fn departure(instance: &Instance, trip: TripNo) -> u32
    ensures { result ≡ leaves instance.now trip }
{
    if trip.0 >= instance.trips() {
        return 0;
    }
    instance.trip(trip).departure.minutes()
}

/// The station that a trip leaves from.
#[tactic(auto, unfolding(rules::specs::Day::from_of))]
pub(crate) fn origin(instance: &Instance, trip: TripNo) -> StationNo
    requires { trip < length instance.now.trips }
    ensures { result ≡ from_of instance.now trip }
{
    instance.trip(trip).from
}

/// The trips of a day by departure minute, and then by trip number.
pub(crate) fn trips_in_order(alloc: Global, instance: &Instance) -> Result<Vec<TripNo>, NoMemory>
    ensures order { IfOk result (λ order. order.items ≡ in_order instance.now (below (length instance.now.trips))) }
    ensures known { IfOk result (λ order. All (λ trip. trip < length instance.now.trips) order.items) }
{
    let mut order = trips_by_number(alloc, instance.trips())?;
    order.sort_by_key(|trip| departure(instance, *trip))?;
    Ok(order)
}

/// The trips of a day by number.
fn trips_by_number(alloc: Global, trips: u32) -> Result<Vec<TripNo>, NoMemory>
    ensures { IfOk result (λ order. order.items ≡ below trips) }
{
    let mut order = Vec::new(alloc);
    for number in 0..trips {
        order.push(TripNo(number))?;
    }
    Ok(order)
}
