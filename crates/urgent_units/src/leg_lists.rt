//! The legs of a plan's units, read off their duties, and the minutes of the stations' moments.

ghost use Rattle.std.specs.Prelude.{ℕ, ◌≡◌, ◌<◌, ◌-◌, ◌+◌, ◌^◌, ◌==◌, [], ◌∷◌, if◌then◌else◌, length, reverse, not};
ghost use Rattle.std.specs.Prelude.{IfOk, OnOk, slice_get, Some};
ghost use Rattle.std.specs.List.{All, AllPairs};
ghost use Rattle.timetable.specs.Day.{from_of, leaves, to_of, ready_at, type_of, unit_count};
ghost use Rattle.timetable.specs.Links.{given};
ghost use Rattle.timetable.specs.Lists.{has};
ghost use Rattle.timetable.specs.Minutes.{inserted};
ghost use Rattle.timetable.specs.Running.{IsPlan, Runs};
ghost use Rattle.unit_duties.specs.Stops.{stops_of};
ghost use Rattle.urgent_units.specs.Legs.{leg_of, legs_of, legs_of_unit, unit_legs};
ghost use Rattle.urgent_units.specs.Moments.{minutes_at, with_departure, with_legs, with_return};
ghost use Rattle.urgent_units.specs.LegParts.{with_leg};

use crate::legs::{Leg, LegList, Legs, Minutes, UnitLegs, home_of};
use rail_base::{Minute, NoMemory, StationNo, TripNo, TypeNo, UnitNo};
use std::alloc::Global;
use timetable::{Instance, NamedPlan, insert_minute};
use unit_duties::{Stop, duties};

impl Legs {
    /// The units of a type with their legs in a plan of this day that runs. The error is want of memory.
    pub fn build(
        alloc: Global,
        instance: &Instance,
        plan: &NamedPlan,
        unit_type: TypeNo,
    ) -> Result<Legs, NoMemory>
        requires { Runs instance.now plan.now }
        ensures { IfOk result (λ legs. legs ≡ legs_of instance.now plan.now unit_type) }
    {
        instance.is_sound();
        let units = units_of(alloc, instance, plan, unit_type)?;
        let minutes = minutes_of(alloc, instance.stations(), &units)?;
        Ok(Legs { units, minutes })
    }
}

/// The units of a type with their legs, by number.
fn units_of(
    alloc: Global,
    instance: &Instance,
    plan: &NamedPlan,
    unit_type: TypeNo,
) -> Result<Vec<UnitLegs>, NoMemory>
    requires { Runs instance.now plan.now }
    ensures { IfOk result (λ units. units.items ≡ (legs_of instance.now plan.now unit_type).units) }
{
    let duties = duties(alloc, instance, plan)?;
    let mut units = Vec::new(alloc);
    for number in 0..instance.units() {
        let unit = UnitNo(number);
        if is_of_type(instance, unit, unit_type) {
            let legs = unit_legs(alloc, instance, plan, unit, duties.stops(unit))?;
            units.push(legs)?;
        }
    }
    Ok(units)
}

/// Whether a unit is of a type.
#[tactic(auto, unfolding(rules::specs::Day::type_of))]
fn is_of_type(instance: &Instance, unit: UnitNo, unit_type: TypeNo) -> bool
    requires { unit < unit_count instance.now }
    ensures { result ≡ (type_of instance.now unit == unit_type) }
{
    instance.unit(unit).unit_type == unit_type
}

/// A unit, whose duty has these stops, with its legs.
fn unit_legs(
    alloc: Global,
    instance: &Instance,
    plan: &NamedPlan,
    unit: UnitNo,
    stops: &[Stop],
) -> Result<UnitLegs, NoMemory>
    requires runs { Runs instance.now plan.now }
    requires unit { unit < unit_count instance.now }
    requires stops { stops.now ≡ stops_of instance.now plan.now unit }
    ensures { IfOk result (λ legs. legs ≡ unit_legs instance.now plan.now unit) }
{
    let legs = legs_of(alloc, instance, plan, unit, stops)?;
    Ok(UnitLegs {
        unit,
        home: home_of(instance, unit),
        legs,
    })
}

/// The legs of a unit, whose duty has these stops. They are made from the last one on.
fn legs_of(
    alloc: Global,
    instance: &Instance,
    plan: &NamedPlan,
    unit: UnitNo,
    stops: &[Stop],
) -> Result<LegList, NoMemory>
    requires runs { Runs instance.now plan.now }
    requires unit { unit < unit_count instance.now }
    requires stops { stops.now ≡ stops_of instance.now plan.now unit }
    ensures { IfOk result (λ legs. legs ≡ legs_of_unit instance.now plan.now unit) }
{
    instance.is_sound();
    let mut legs: Vec<Leg> = Vec::new(alloc);
    let mut left = stops.len();
    while left > 0 {
        left -= 1;
        add_trip(instance, plan, unit, stops[left].trip, &mut legs)?;
    }
    legs.reverse();
    Ok(LegList { legs })
}

/// Puts a trip in front of legs, of which the first one is the last in the list: it joins that leg, where there is one
/// and the trip does not give the unit to the yard, or is a leg by itself.
fn add_trip(
    instance: &Instance,
    plan: &NamedPlan,
    unit: UnitNo,
    trip: TripNo,
    legs: &mut Vec<Leg>,
) -> Result<(), NoMemory>
    requires trip { trip < length instance.now.trips }
    requires plan { IsPlan instance.now plan.now }
    requires few { All (λ leg. leg.trips < 2 ^ 32 - 1) legs.old.items }
    ensures { OnOk result (reverse legs.new.items
        ≡ with_leg instance.now (not (has unit (given instance.now plan.now trip))) trip (reverse legs.old.items)) }
{
    if is_given(instance, plan, unit, trip) {
        legs.push(leg_of(instance, trip))?;
        return Ok(());
    }
    match legs.pop() {
        Some(first) => {
            legs.push(longer(instance, trip, &first))?;
            Ok(())
        }
        None => {
            legs.push(leg_of(instance, trip))?;
            Ok(())
        }
    }
}

/// Whether a trip gives a unit to the yard.
fn is_given(instance: &Instance, plan: &NamedPlan, unit: UnitNo, trip: TripNo) -> bool
    requires trip { trip < length instance.now.trips }
    requires plan { IsPlan instance.now plan.now }
    ensures { result ≡ has unit (given instance.now plan.now trip) }
{
    plan.given(instance, trip).as_slice().contains(&unit)
}

/// The leg of one trip alone.
#[tactic(auto, unfolding(rules::specs::Day::from_of, rules::specs::Day::leaves, rules::specs::Day::to_of))]
fn leg_of(instance: &Instance, trip: TripNo) -> Leg
    requires { trip < length instance.now.trips }
    ensures { result ≡ leg_of instance.now (trip ∷ []) }
{
    let at = instance.trip(trip);
    Leg {
        from: at.from,
        departs: at.departure,
        to: at.to,
        ready: instance.ready_at(trip),
        trips: 1,
    }
}

/// A leg with one trip more in front.
#[tactic(auto, unfolding(rules::specs::Day::from_of, rules::specs::Day::leaves))]
fn longer(instance: &Instance, trip: TripNo, leg: &Leg) -> Leg
    requires trip { trip < length instance.now.trips }
    requires few { leg.now.trips < 2 ^ 32 - 1 }
    ensures { result ≡ record leg.now {
      from = from_of instance.now trip;
      departs = leaves instance.now trip;
      trips = leg.now.trips + 1;
    } }
{
    let at = instance.trip(trip);
    Leg {
        from: at.from,
        departs: at.departure,
        trips: leg.trips + 1,
        ..*leg
    }
}

/// The minutes of each station at which legs leave it or are ready at it.
fn minutes_of(alloc: Global, stations: u32, units: &[UnitLegs]) -> Result<Vec<Minutes>, NoMemory>
    ensures length { IfOk result (λ minutes. length minutes.items ≡ stations) }
    ensures each { IfOk result (λ minutes. (s : ℕ) → s < stations →
        slice_get minutes.items s ≡ Some (minutes_at (record { stations = stations; units = units.now }) s)) }
{
    let mut all = Vec::new(alloc);
    for number in 0..stations {
        all.push(Minutes {
            minutes: minutes_at(alloc, units, StationNo(number))?,
        })?;
    }
    Ok(all)
}

/// The minutes at which legs leave a station or are ready at it, in rising order and each once.
fn minutes_at(
    alloc: Global,
    units: &[UnitLegs],
    station: StationNo,
) -> Result<Vec<Minute>, NoMemory>
    ensures { (stations : ℕ) → IfOk result (λ minutes.
        minutes.items ≡ minutes_at (record { stations = stations; units = units.now }) station) }
{
    let mut minutes = Vec::new(alloc);
    let mut left = units.len();
    while left > 0 {
        left -= 1;
        add_legs(&mut minutes, units[left].legs.items(), station)?;
    }
    Ok(minutes)
}

/// Puts the minutes of legs at a station among minutes that rise, those of the last leg first.
fn add_legs(minutes: &mut Vec<Minute>, legs: &[Leg], station: StationNo) -> Result<(), NoMemory>
    requires { AllPairs (λ a b. a < b) minutes.old.items }
    ensures items { OnOk result (minutes.new.items ≡ with_legs station legs.now minutes.old.items) }
    ensures rise { OnOk result (AllPairs (λ a b. a < b) minutes.new.items) }
{
    let mut left = legs.len();
    while left > 0 {
        left -= 1;
        add_leg(minutes, &legs[left], station)?;
    }
    Ok(())
}

/// Puts the minutes of a leg at a station among minutes that rise.
fn add_leg(minutes: &mut Vec<Minute>, leg: &Leg, station: StationNo) -> Result<(), NoMemory>
    requires { AllPairs (λ a b. a < b) minutes.old.items }
    ensures items { OnOk result (minutes.new.items
        ≡ with_departure station leg.now (with_return station leg.now minutes.old.items)) }
    ensures rise { OnOk result (AllPairs (λ a b. a < b) minutes.new.items) }
{
    insert_if(leg.to == station, minutes, leg.ready)?;
    insert_if(leg.from == station, minutes, leg.departs)
}

/// Puts a minute at its place among minutes that rise, if a test says so.
fn insert_if(test: bool, minutes: &mut Vec<Minute>, minute: Minute) -> Result<(), NoMemory>
    requires { AllPairs (λ a b. a < b) minutes.old.items }
    ensures items { OnOk result (minutes.new.items
        ≡ if test then inserted minute minutes.old.items else minutes.old.items) }
    ensures rise { OnOk result (AllPairs (λ a b. a < b) minutes.new.items) }
{
    if test {
        insert_minute(minutes, minute)?;
    }
    Ok(())
}
