//! The day as it goes from event to event.

ghost use Rattle.std.specs.Prelude.{◌≡◌, ◌<◌, length, map, slice_get, replicate, Some, IfOk};
ghost use Rattle.timetable.specs.Day.{units_of, unit_count};
ghost use Rattle.timetable.specs.Running.{IsPlan};
ghost use Rattle.day_simulator.specs.State.{first_state, is_waiting, is_under_way};
ghost use Rattle.day_simulator.specs.State.{trip_of};
ghost use Rattle.day_simulator.specs.Steps.{fault_of, train_fault, is_now, fixed_order};
ghost use Rattle.day_simulator.specs.Calls.{MakesStep, Finishes};
ghost use Rattle.day_simulator.specs.Finish.{first_not_made, first_differing};
ghost use Rattle.timetable.specs.Lists.{below};
ghost use Rattle.day_simulator.specs.declared.events.DayEvent.TheVariants.{Depart, Arrive};
ghost use Rattle.day_simulator.specs.declared.events.UnitLocation.TheVariants.{Yard};
ghost use Rattle.day_simulator.specs.declared.events.Stage.TheVariants as stage;

use crate::balance::{first_differing, first_not_made};
use crate::events::{DayEvent, Stage, StepFault, UnitLocation};
use crate::links::{broken_into, broken_out, have_trips_into_arrived};
use crate::sequence::{fixed_order, moment_of};
use crate::trips::{is_admissible, to_of};
use crate::yards::{first_missing, put_all};
use cost_model::plan_cost;
use rail_base::{Money, NoMemory, TripNo, UnitNo};
use std::alloc::Global;
use std::marker::Model;
use timetable::{Instance, NamedPlan};

/// A day that follows a plan from event to event. A contract sees the day, the plan and the state that it has come to.
#[derive(Drop)]
pub struct Day<'a> {
    instance: &'a Instance,
    plan: &'a NamedPlan,
    order: Vec<DayEvent>,
    locations: Vec<UnitLocation>,
    stages: Vec<Stage>,
    moment: u32,
}

impl<'a> Model for Day<'a> {
    ghost use Rattle.day_simulator.specs.Machine.{Machine};

    ghost Value = { Machine };

    ghost use Rattle.day_simulator.specs.Fields.{machine_in, AreFields};

    ghost view = { machine_in };

    ghost invariant = { AreFields };
}

impl<'a> Day<'a> {
    /// The day at its start: all units stand at home, ready from the first minute on. The plan is one of this day. The
    /// error is want of memory.
    pub fn new(
        alloc: Global,
        instance: &'a Instance,
        plan: &'a NamedPlan,
    ) -> Result<Day<'a>, NoMemory>
        requires { IsPlan instance.now plan.now }
        ensures { IfOk result (λ day. day ≡ record {
          day = instance.now;
          plan = plan.now;
          state = first_state instance.now;
        }) }
    {
        let order = fixed_order(alloc, instance)?;
        let locations = locations_at_home(alloc, instance)?;
        let stages = stages_of_waiting(alloc, instance.trips())?;
        Ok(Day {
            instance,
            plan,
            order,
            locations,
            stages,
            moment: 0,
        })
    }

    /// Where a unit of the day is: in a yard with the minute from which it is ready, under way, or standing in a train
    /// that has arrived.
    pub fn location(&self, unit: UnitNo) -> UnitLocation
        requires { unit < unit_count self.now.day }
        ensures { slice_get self.now.state.locations unit ≡ Some result }
    {
        self.locations[unit.place()]
    }

    /// Makes one step of a trip of the day. After a fault, the first of these that holds, the day is as before.
    /// - `NotNow`: an event of a later moment was made, where in each minute arrivals come before departures; the trip
    ///   that departs has left already, or one that arrives for the link into it has not arrived; the trip that arrives
    ///   is not under way.
    /// - `NoUnits`, `NotAdmissible`: of a trip that departs.
    /// - `LinkBroken`: of a join, where its trip departs; of a turn or a split, where its trip arrives.
    /// - `NotInYard`: of a trip that departs, with the first unit that it takes from the yard of its station and that
    ///   is not there or not ready, or that it has already taken.
    pub fn step(&mut self, event: DayEvent) -> Result<(), StepFault>
        requires { trip_of event < length self.old.day.trips }
        ensures { MakesStep self.old event result self.new }
    {
        match event {
            DayEvent::Depart(trip) => self.depart(trip),
            DayEvent::Arrive(trip) => self.arrive(trip),
        }
    }

    /// The cost of the day, once all its events were made; else the first event that is missing, or the first count of
    /// units at the end of the day, by station and then by type, that differs from the one wanted.
    pub fn finish(&self) -> Result<Money, StepFault>
        ensures { Finishes self.now result }
    {
        if let Some(event) = self.first_missing_event() {
            return Err(StepFault::NotNow(event));
        }
        if let Some(fault) = self.first_imbalance() {
            return Err(fault);
        }
        Ok(plan_cost(self.instance, self.plan))
    }

    /// The first event of the day that was not made.
    fn first_missing_event(&self) -> Option<DayEvent>
        ensures { result ≡ first_not_made self.now.state (fixed_order self.now.day) }
    {
        first_not_made(self.stages.as_slice(), self.order.as_slice())
    }

    /// The first station and type of which another number of units stands in the yard than is wanted at the end.
    fn first_imbalance(&self) -> Option<StepFault>
        ensures { result ≡ first_differing self.now.day self.now.state (below (length self.now.day.stations)) }
    {
        first_differing(self.instance, self.locations.as_slice())
    }

    /// Whether an event may be made now.
    fn is_now(&self, event: DayEvent) -> bool
        requires { trip_of event < length self.now.day.trips }
        ensures { result ≡ is_now self.now.day self.now.state event }
    {
        if self.moment > moment_of(self.instance, event) {
            return false;
        }
        match &event {
            DayEvent::Depart(trip) => {
                is_waiting(self.stages[trip.place()])
                    && have_trips_into_arrived(self.instance, self.stages.as_slice(), *trip)
            }
            DayEvent::Arrive(trip) => is_under_way(self.stages[trip.place()]),
        }
    }

    /// What is wrong with a departure, if anything is.
    fn departure_fault(&self, trip: TripNo) -> Option<StepFault>
        requires { trip < length self.now.day.trips }
        ensures { result ≡ fault_of self.now.day self.now.plan self.now.state (Depart trip) }
    {
        if !self.is_now(DayEvent::Depart(trip)) {
            return Some(StepFault::NotNow(DayEvent::Depart(trip)));
        }
        train_fault(self.instance, self.plan, self.locations.as_slice(), trip)
    }

    fn depart(&mut self, trip: TripNo) -> Result<(), StepFault>
        requires { trip < length self.old.day.trips }
        ensures { MakesStep self.old (Depart trip) result self.new }
    {
        if let Some(fault) = self.departure_fault(trip) {
            return Err(fault);
        }
        let moment = moment_of(self.instance, DayEvent::Depart(trip));
        let units = self.plan.units(trip);
        put_all(&mut self.locations, units, &UnitLocation::Aboard(trip));
        self.stages[trip.place()] = Stage::UnderWay;
        self.moment = moment;
        Ok(())
    }

    fn arrive(&mut self, trip: TripNo) -> Result<(), StepFault>
        requires { trip < length self.old.day.trips }
        ensures { MakesStep self.old (Arrive trip) result self.new }
    {
        if !self.is_now(DayEvent::Arrive(trip)) {
            return Err(StepFault::NotNow(DayEvent::Arrive(trip)));
        }
        if let Some(link) = broken_out(self.instance, self.plan, trip) {
            return Err(StepFault::LinkBroken(link));
        }
        let moment = moment_of(self.instance, DayEvent::Arrive(trip));
        let station = to_of(self.instance, trip);
        let ready = self.instance.ready_at(trip).minutes();
        let given = self.plan.given(self.instance, trip);
        put_all(
            &mut self.locations,
            self.plan.units(trip),
            &UnitLocation::Standing(trip),
        );
        put_all(
            &mut self.locations,
            given.as_slice(),
            &UnitLocation::Yard { station, ready },
        );
        self.stages[trip.place()] = Stage::Arrived;
        self.moment = moment;
        Ok(())
    }
}

/// What is wrong with the train that a trip leaves with, if anything is: it has no units, it may not run on the trip,
/// it does not keep the rule of the join into the trip, or a unit that the trip takes is not in the yard and ready.
fn train_fault(
    instance: &Instance,
    plan: &NamedPlan,
    locations: &[UnitLocation],
    trip: TripNo,
) -> Option<StepFault>
    requires trip { trip < length instance.now.trips }
    requires plan { IsPlan instance.now plan.now }
    requires locations { length locations.now ≡ unit_count instance.now }
    ensures { result ≡ train_fault instance.now plan.now locations.now trip }
{
    let units = plan.units(trip);
    if units.is_empty() {
        return Some(StepFault::NoUnits(trip));
    }
    if !is_admissible(instance, trip, units) {
        return Some(StepFault::NotAdmissible(trip));
    }
    if let Some(link) = broken_into(instance, plan, trip) {
        return Some(StepFault::LinkBroken(link));
    }
    let taken = plan.taken(instance, trip);
    match first_missing(instance, trip, locations, taken.as_slice()) {
        Some(unit) => Some(StepFault::NotInYard { unit, trip }),
        None => None,
    }
}

/// Whether a trip has not left.
fn is_waiting(stage: Stage) -> bool
    ensures { result ≡ is_waiting stage }
{
    matches!(stage, Stage::Waiting)
}

/// Whether a trip has left and not arrived.
fn is_under_way(stage: Stage) -> bool
    ensures { result ≡ is_under_way stage }
{
    matches!(stage, Stage::UnderWay)
}

/// Each unit in the yard of its home, ready from the first minute on.
fn locations_at_home(alloc: Global, instance: &Instance) -> Result<Vec<UnitLocation>, NoMemory>
    ensures { IfOk result (λ locations. locations.items ≡ map (λ unit. Yard unit.home 0) (units_of instance.now)) }
{
    let mut locations = Vec::new(alloc);
    for number in 0..instance.units() {
        let station = instance.unit(UnitNo(number)).home;
        locations.push(UnitLocation::Yard { station, ready: 0 })?;
    }
    Ok(locations)
}

/// So many trips waiting.
fn stages_of_waiting(alloc: Global, trips: u32) -> Result<Vec<Stage>, NoMemory>
    ensures { IfOk result (λ stages. stages.items ≡ replicate trips stage.Waiting) }
{
    Ok(vec![in alloc; Stage::Waiting; trips as usize]?)
}
