//! The end of the day: which event is missing, and how many units stand in the yards.

ghost use Rattle.std.specs.Prelude.{◌≡◌, ◌<◌, length, ◌&&◌, ◌==◌};
ghost use Rattle.timetable.specs.Day.{unit_count, type_of};
ghost use Rattle.day_simulator.specs.State.{State, stage_of, is_in_yard};
ghost use Rattle.day_simulator.specs.Finish.{is_made, first_not_made, yard_count, first_differing_type};
ghost use Rattle.day_simulator.specs.Finish.{first_differing};
ghost use Rattle.timetable.specs.Lists.{below};

use crate::events::{DayEvent, Stage, StepFault, UnitLocation};
use rail_base::{StationNo, TripNo, TypeNo, UnitNo};
use timetable::Instance;

/// What has become of a trip.
#[tactic(auto, unfolding(crate::specs::State::stage_of))]
pub(crate) fn stage_of(stages: &[Stage], trip: TripNo) -> Stage
    ensures { result ≡ stage_of stages.now trip }
{
    match stages.get(trip.place()) {
        Some(stage) => *stage,
        None => Stage::Arrived,
    }
}

/// Whether an event was made.
fn is_made(stages: &[Stage], event: DayEvent) -> bool
    ensures { (state : State) → state.stages ≡ stages.now → result ≡ is_made state event }
{
    match &event {
        DayEvent::Depart(trip) => !matches!(stage_of(stages, *trip), Stage::Waiting),
        DayEvent::Arrive(trip) => matches!(stage_of(stages, *trip), Stage::Arrived),
    }
}

/// The first event of an order that was not made.
pub(crate) fn first_not_made(stages: &[Stage], order: &[DayEvent]) -> Option<DayEvent>
    ensures { (state : State) → state.stages ≡ stages.now → result ≡ first_not_made state order.now }
{
    for event in order {
        if !is_made(stages, *event) {
            return Some(*event);
        }
    }
    None
}

/// Whether a place is in the yard of a station.
fn is_in_yard(station: StationNo, place: UnitLocation) -> bool
    ensures { result ≡ is_in_yard station place }
{
    match &place {
        UnitLocation::Yard {
            station: at,
            ready: _,
        } => *at == station,
        UnitLocation::Aboard(_) | UnitLocation::Standing(_) => false,
    }
}

/// Whether a unit at this place counts for a station and a type.
#[tactic(auto, unfolding(rules::specs::Day::type_of))]
fn is_counted(
    instance: &Instance,
    station: StationNo,
    unit_type: TypeNo,
    unit: UnitNo,
    place: UnitLocation,
) -> bool
    requires { unit < unit_count instance.now }
    ensures { result ≡ (is_in_yard station place && (type_of instance.now unit == unit_type)) }
{
    is_in_yard(station, place) && instance.unit(unit).unit_type == unit_type
}

/// How many units of a type stand in the yard of a station.
pub(crate) fn yard_count(
    instance: &Instance,
    locations: &[UnitLocation],
    station: StationNo,
    unit_type: TypeNo,
) -> u32
    requires { length locations.now ≡ unit_count instance.now }
    ensures { (state : State) → state.locations ≡ locations.now
        → result ≡ yard_count instance.now state station unit_type }
{
    let mut count = 0;
    for number in 0..instance.units() {
        let unit = UnitNo(number);
        let place = locations[unit.place()];
        if is_counted(instance, station, unit_type, unit, place) {
            count += 1;
        }
    }
    count
}

/// The first type of which another number of units stands in the yard of a station than is wanted at the end.
fn first_differing_type(
    instance: &Instance,
    locations: &[UnitLocation],
    station: StationNo,
) -> Option<StepFault>
    requires { length locations.now ≡ unit_count instance.now }
    ensures { (state : State) → state.locations ≡ locations.now →
        result ≡ first_differing_type instance.now state station (below (length instance.now.types)) }
{
    for number in 0..instance.types().len() {
        let unit_type = TypeNo(number);
        let count = yard_count(instance, locations, station, unit_type);
        let wanted = instance.end(station, unit_type);
        if count != wanted {
            return Some(StepFault::Balance {
                station,
                unit_type,
                count,
                wanted,
            });
        }
    }
    None
}

/// The first station and type of which another number of units stands in the yard than is wanted at the end.
pub(crate) fn first_differing(instance: &Instance, locations: &[UnitLocation]) -> Option<StepFault>
    requires { length locations.now ≡ unit_count instance.now }
    ensures { (state : State) → state.locations ≡ locations.now →
        result ≡ first_differing instance.now state (below (length instance.now.stations)) }
{
    for number in 0..instance.stations() {
        if let Some(fault) = first_differing_type(instance, locations, StationNo(number)) {
            return Some(fault);
        }
    }
    None
}
