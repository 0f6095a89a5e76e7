//! The order in which a day is stepped.

ghost use Rattle.std.specs.Prelude.{◌≡◌, ◌<◌, length, IfOk};
ghost use Rattle.day_simulator.specs.State.{moment_of};
ghost use Rattle.day_simulator.specs.Steps.{fixed_order, events_by_trip};
ghost use Rattle.std.specs.List.{All};
ghost use Rattle.day_simulator.specs.State.{trip_of};
ghost use Rattle.timetable.specs.Lists.{below};

use crate::events::DayEvent;
use crate::trips::{arrival, departure};
use rail_base::{NoMemory, TripNo};
use std::alloc::Global;
use timetable::Instance;

/// When an event comes: twice its minute, and one more for a departure, since in each minute arrivals come first. A
/// trip that isn't there leaves at 0 and arrives at 1.
#[tactic(auto, unfolding(crate::specs::State::moment_of))]
pub(crate) fn moment_of(instance: &Instance, event: DayEvent) -> u32
    ensures { result ≡ moment_of instance.now event }
{
    match event {
        DayEvent::Depart(trip) => 2 * departure(instance, trip) + 1,
        DayEvent::Arrive(trip) => 2 * arrival(instance, trip),
    }
}

/// The events of a day by minute, arrivals before departures, and then by trip number.
pub(crate) fn fixed_order(alloc: Global, instance: &Instance) -> Result<Vec<DayEvent>, NoMemory>
    ensures order { IfOk result (λ order. order.items ≡ fixed_order instance.now) }
    ensures known { IfOk result (λ order. All (λ event. trip_of event < length instance.now.trips) order.items) }
{
    let mut order = events_by_trip(alloc, instance.trips())?;
    order.sort_by_key(|event| moment_of(instance, *event))?;
    Ok(order)
}

/// Each trip's arrival and departure, by trip number.
fn events_by_trip(alloc: Global, trips: u32) -> Result<Vec<DayEvent>, NoMemory>
    ensures { IfOk result (λ events. events.items ≡ events_by_trip (below trips)) }
{
    let mut events = Vec::new(alloc);
    for number in 0..trips {
        events.push(DayEvent::Arrive(TripNo(number)))?;
        events.push(DayEvent::Depart(TripNo(number)))?;
    }
    Ok(events)
}
