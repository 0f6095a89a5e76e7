//! What a trip costs with units of these types: its carriages and its missing seats, for its kilometres.

ghost use Rattle.std.specs.Prelude.{◌≡◌, ◌<◌, ◌≤◌, length, IsTrue};
ghost use Rattle.compositions.specs.Composition.{are_types, carriages_of, first_seats_of, seats_of};
ghost use Rattle.timetable.specs.Cost.{missing_seats, trip_cost};
ghost use Rattle.timetable.specs.Day.{demand_of, first_demand_of};
ghost use Rattle.cost_model.specs.Sums.{carriages_on, missing_on};

use compositions::Composition;
use rail_base::limits::{
    MAX_CARRIAGES, MAX_COMPOSITION_UNITS, MAX_DEMAND, MAX_FIRST_DEMAND, MAX_KM, MAX_WEIGHT,
};
use rail_base::{TripNo, TypeNo};
use timetable::Instance;

/// The most carriages that a trip has: those of the most units.
const MAX_TRIP_CARRIAGES: u32 = MAX_CARRIAGES * MAX_COMPOSITION_UNITS as u32;
/// The most that the carriages of a trip cost, in the unit of the weights: the most weight, for the most carriages, for
/// the most kilometres.
pub const MAX_CARRIAGE_COST: u64 = MAX_WEIGHT as u64 * MAX_TRIP_CARRIAGES as u64 * MAX_KM as u64;
/// The most seats that are missing on a trip: the most demand of both classes.
const MAX_MISSING_SEATS: u32 = MAX_FIRST_DEMAND + MAX_DEMAND;
/// The most that the missing seats of a trip cost, in the unit of the weights: the most weight, for the most missing
/// seats, for the most kilometres.
pub const MAX_SHORTAGE_COST: u64 = MAX_WEIGHT as u64 * MAX_MISSING_SEATS as u64 * MAX_KM as u64;
/// No trip costs more, in the unit of the weights.
pub const MAX_TRIP_COST: u64 = MAX_CARRIAGE_COST + MAX_SHORTAGE_COST;

/// What a trip costs with units of these types: the weight of a carriage for each of its carriages and kilometres, and
/// the weight of a missing seat for each seat that is missing, in first and in second class, and each kilometre. The
/// trip is below `trips`; the types, at most six, are those of the day, and need not fit the platforms. It takes no
/// memory.
#[tactic(auto, unfolding(rules::specs::Cost::trip_cost))]
pub fn trip_cost(instance: &Instance, trip: TripNo, types: &[TypeNo]) -> u64
    requires trip { trip < length instance.now.trips }
    requires few { length types.now ≤ MAX_COMPOSITION_UNITS }
    requires known { IsTrue (are_types instance.now.types types.now) }
    ensures cost { result ≡ trip_cost instance.now trip types.now }
    ensures range { result ≤ MAX_TRIP_COST }
{
    carriage_cost(instance, trip, types) + shortage_cost(instance, trip, types)
}

/// What the carriages of a trip cost.
#[tactic(auto, unfolding(rules::specs::Day::km_of))]
pub(crate) fn carriage_cost(instance: &Instance, trip: TripNo, types: &[TypeNo]) -> u64
    requires trip { trip < length instance.now.trips }
    requires few { length types.now ≤ MAX_COMPOSITION_UNITS }
    requires known { IsTrue (are_types instance.now.types types.now) }
    ensures cost { result ≡ carriages_on instance.now trip types.now }
    ensures range { result ≤ MAX_CARRIAGE_COST }
{
    let carriages = carriages_of(instance, types);
    let weight = instance.weights().carriage;
    u64::from(weight) * u64::from(carriages) * u64::from(instance.trip(trip).km)
}

/// What the missing seats of a trip cost.
#[tactic(auto, unfolding(rules::specs::Day::km_of))]
pub(crate) fn shortage_cost(instance: &Instance, trip: TripNo, types: &[TypeNo]) -> u64
    requires trip { trip < length instance.now.trips }
    requires few { length types.now ≤ MAX_COMPOSITION_UNITS }
    requires known { IsTrue (are_types instance.now.types types.now) }
    ensures cost { result ≡ missing_on instance.now trip types.now }
    ensures range { result ≤ MAX_SHORTAGE_COST }
{
    let missing = missing_seats(instance, trip, types);
    let weight = instance.weights().shortage;
    u64::from(weight) * u64::from(missing) * u64::from(instance.trip(trip).km)
}

/// The seats that are missing on a trip, of both classes: in each as many as are wanted beyond its seats. What one
/// class has to spare does not help the other.
#[tactic(auto, unfolding(rules::specs::Cost::missing_seats))]
fn missing_seats(instance: &Instance, trip: TripNo, types: &[TypeNo]) -> u32
    requires trip { trip < length instance.now.trips }
    requires few { length types.now ≤ MAX_COMPOSITION_UNITS }
    requires known { IsTrue (are_types instance.now.types types.now) }
    ensures value { result ≡ missing_seats instance.now trip types.now }
    ensures few { result ≤ MAX_MISSING_SEATS }
{
    let wanted = wanted_seats(instance, trip);
    let seats = seats_of(instance, types);
    wanted.first.saturating_sub(seats.first) + wanted.second.saturating_sub(seats.second)
}

/// The carriages of units of these types.
fn carriages_of(instance: &Instance, types: &[TypeNo]) -> u32
    requires few { length types.now ≤ MAX_COMPOSITION_UNITS }
    requires known { IsTrue (are_types instance.now.types types.now) }
    ensures value { result ≡ carriages_of instance.now.types types.now }
    ensures few { result ≤ MAX_TRIP_CARRIAGES }
{
    match Composition::of(types) {
        Some(composition) => composition.carriages(instance.types()),
        None => 0,
    }
}

/// Seats by class: those of a train, or those that are wanted.
#[derive(Clone, Copy)]
struct Seats {
    first: u32,
    second: u32,
}

/// The seats that are wanted on a trip.
#[tactic(auto, unfolding(rules::specs::Day::demand_of, rules::specs::Day::first_demand_of))]
fn wanted_seats(instance: &Instance, trip: TripNo) -> Seats
    requires { trip < length instance.now.trips }
    ensures first { result.first ≡ first_demand_of instance.now trip }
    ensures second { result.second ≡ demand_of instance.now trip }
    ensures few_first { result.first ≤ MAX_FIRST_DEMAND }
    ensures few_second { result.second ≤ MAX_DEMAND }
{
    let trip = instance.trip(trip);
    Seats {
        first: trip.first,
        second: trip.demand,
    }
}

/// The seats of units of these types.
fn seats_of(instance: &Instance, types: &[TypeNo]) -> Seats
    requires few { length types.now ≤ MAX_COMPOSITION_UNITS }
    requires known { IsTrue (are_types instance.now.types types.now) }
    ensures first { result.first ≡ first_seats_of instance.now.types types.now }
    ensures second { result.second ≡ seats_of instance.now.types types.now }
{
    match Composition::of(types) {
        Some(composition) => Seats {
            first: composition.first_seats(instance.types()),
            second: composition.seats(instance.types()),
        },
        None => Seats {
            first: 0,
            second: 0,
        },
    }
}
