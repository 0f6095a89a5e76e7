//! Units are exchanged leg by leg, in the order in which legs leave, until each leg is taken by a unit that it is for.

ghost use Rattle.std.specs.Prelude.{ℕ, ◌≡◌, ◌≤◌, ◌<◌, ◌+◌, [], length, drop, map, slice_get, get_or};
ghost use Rattle.std.specs.Prelude.{Some, IfOk, OnOk, MatchOption, false, true};
ghost use Rattle.std.specs.List.{count_by};
ghost use Rattle.timetable.specs.Links.{list_of};
ghost use Rattle.timetable.specs.Running.{IsPlan};
ghost use Rattle.urgent_units.specs.Exchanges.{exchanged, exchanged_plan, in_place};
ghost use Rattle.urgent_units.specs.UnderWay.{Advances, IsFirstToLeave, IsUnderWay, agrees, departure_of, legs_left};
ghost use Rattle.urgent_units.specs.UnderWay.{may_take};
ghost use Rattle.urgent_units.specs.declared.swaps.Rider.{Rider};
ghost use Rattle.urgent_units.specs.declared.swaps.TheConstants.{NEVER};

use crate::legs::Leg;
use rail_base::{Minute, NoMemory, StationNo, TripNo, UnitNo};
use rail_csv::UnitList;
use std::alloc::Global;
use std::marker::Model;
use timetable::{Instance, NamedPlan};

/// Where no leg is ahead: a number past all minutes.
const NEVER: u64 = 4294967296;

/// A leg, and whether it is one for a unit that is brought to the depot.
#[derive(Clone, Copy)]
pub(crate) struct MarkedLeg {
    /// The leg.
    pub(crate) leg: Leg,
    /// Whether it is for a unit that is brought.
    pub(crate) is_brought: bool,
}

/// The legs that a unit has ahead of it. A contract sees the list of them.
#[derive(Drop)]
pub(crate) struct Ahead {
    legs: Vec<MarkedLeg>,
    done: usize,
}

impl Model for Ahead {
    ghost use Rattle.std.specs.Prelude.{List, drop};
    ghost use Rattle.urgent_units.specs.declared.swaps.MarkedLeg.{MarkedLeg};

    ghost Value = { List MarkedLeg };

    ghost view = { λ a. drop a.done a.legs.items };
}

/// A unit in the yard of a station.
#[derive(Clone, Copy)]
pub(crate) struct Rider {
    /// The unit.
    pub(crate) unit: UnitNo,
    /// Whether it is brought to the depot.
    pub(crate) is_brought: bool,
    /// The station.
    pub(crate) station: StationNo,
    /// The minute from which it may be taken there.
    pub(crate) ready: Minute,
}

/// A plan, the units of one type where they have come by it, and the legs that each of them has ahead.
#[derive(Drop)]
pub(crate) struct Yards {
    /// The plan.
    pub(crate) plan: NamedPlan,
    /// The units.
    pub(crate) riders: Vec<Rider>,
    /// The legs ahead of each unit.
    pub(crate) aheads: Vec<Ahead>,
}

/// Two units that exchange all that leaves from a minute on.
#[derive(Clone, Copy)]
pub(crate) struct Exchange {
    one: UnitNo,
    other: UnitNo,
    minute: Minute,
}

impl Ahead {
    /// These legs, in the order in which they leave.
    pub(crate) fn of(legs: Vec<MarkedLeg>) -> Ahead
        ensures { result ≡ legs.items }
    {
        Ahead { legs, done: 0 }
    }

    /// The next leg, if there is one.
    fn next(&self) -> Option<MarkedLeg>
        ensures { result ≡ slice_get self.now 0 }
    {
        self.legs.as_slice().get(self.done).copied()
    }

    /// The minute at which the next leg leaves, or `NEVER`.
    fn departure(&self) -> u64
        ensures value { result ≡ departure_of self.now }
        ensures none { NEVER ≤ result → self.now ≡ [] }
    {
        match self.next() {
            Some(marked) => marked.leg.departs.minutes() as u64,
            None => NEVER,
        }
    }

    /// Passes the next leg. There is one.
    fn pass(&mut self)
        requires { 1 ≤ length self.old }
        ensures { self.new ≡ drop 1 self.old }
    {
        self.done += 1;
    }
}

/// Exchanges units until no leg is ahead, so that each is taken by a unit that it is for.
pub(crate) fn exchange_all(
    alloc: Global,
    instance: &Instance,
    yards: &mut Yards,
) -> Result<(), NoMemory>
    requires { IsUnderWay instance.now yards.old }
    ensures under_way { OnOk result (IsUnderWay instance.now yards.new) }
    ensures advances { OnOk result (Advances instance.now yards.old yards.new) }
    ensures none_left { OnOk result (legs_left yards.new ≡ 0) }
{
    while let Some(number) = first_to_leave(yards.aheads.as_slice()) {
        take_leg(alloc, instance, yards, number)?;
    }
    Ok(())
}

/// The place of the unit whose next leg leaves first, if any has one.
fn first_to_leave(aheads: &[Ahead]) -> Option<usize>
    ensures { MatchOption result
        ((k : ℕ) → k < length aheads.now → get_or aheads.now k [] ≡ [])
        (λ number. IsFirstToLeave aheads.now number) }
{
    let mut first = None;
    let mut departs = NEVER;
    for number in 0..aheads.len() {
        let next = aheads[number].departure();
        if next < departs {
            first = Some(number);
            departs = next;
        }
    }
    first
}

/// A unit takes the leg that leaves first, which is next ahead of the unit of this number: this one, where the leg is
/// for it, and else another one that stands ready in the same yard and exchanges with it all that leaves from then on.
fn take_leg(
    alloc: Global,
    instance: &Instance,
    yards: &mut Yards,
    number: usize,
) -> Result<(), NoMemory>
    requires under_way { IsUnderWay instance.now yards.old }
    requires first { IsFirstToLeave yards.old.aheads.items number }
    ensures under_way { OnOk result (IsUnderWay instance.now yards.new) }
    ensures advances { OnOk result (Advances instance.now yards.old yards.new) }
    ensures fewer { OnOk result (legs_left yards.new + 1 ≡ legs_left yards.old) }
{
    let Some(marked) = yards.aheads[number].next() else {
        unreachable!()
    };
    if !agrees(marked.is_brought, yards.riders[number].is_brought) {
        give_leg(alloc, instance, yards, number, &marked)?;
    }
    ride(instance, yards, number, &marked);
    Ok(())
}

/// Lets another unit that stands ready in the yard exchange all that leaves from then on with the unit of this number,
/// whose next leg, which leaves first, isn't one for it.
fn give_leg(
    alloc: Global,
    instance: &Instance,
    yards: &mut Yards,
    number: usize,
    marked: &MarkedLeg,
) -> Result<(), NoMemory>
    requires under_way { IsUnderWay instance.now yards.old }
    requires first { IsFirstToLeave yards.old.aheads.items number }
    requires next { slice_get (get_or yards.old.aheads.items number []) 0 ≡ Some marked.now }
    requires other { (d : Rider) →
        agrees marked.now.is_brought (get_or yards.old.riders.items number d).is_brought ≡ false }
    ensures under_way { OnOk result (IsUnderWay instance.now yards.new) }
    ensures advances { OnOk result (Advances instance.now yards.old yards.new) }
    ensures same { yards.new.aheads.items ≡ yards.old.aheads.items }
    ensures agrees { OnOk result ((d : Rider) →
        agrees marked.now.is_brought (get_or yards.new.riders.items number d).is_brought ≡ true) }
{
    instance.is_sound();
    let other = rider_for(yards.riders.as_slice(), marked);
    let exchange = Exchange {
        one: yards.riders[number].unit,
        other: yards.riders[other].unit,
        minute: marked.leg.departs,
    };
    yards.plan = exchanged_plan(alloc, instance, &yards.plan, &exchange)?;
    let rider = yards.riders[number];
    yards.riders[number] = yards.riders[other];
    yards.riders[other] = rider;
    Ok(())
}

/// The unit of this number, for which its next leg is, and which leaves first, takes it.
fn ride(instance: &Instance, yards: &mut Yards, number: usize, marked: &MarkedLeg)
    requires under_way { IsUnderWay instance.now yards.old }
    requires first { IsFirstToLeave yards.old.aheads.items number }
    requires next { slice_get (get_or yards.old.aheads.items number []) 0 ≡ Some marked.now }
    requires agrees { (d : Rider) →
        agrees marked.now.is_brought (get_or yards.old.riders.items number d).is_brought ≡ true }
    ensures under_way { IsUnderWay instance.now yards.new }
    ensures advances { Advances instance.now yards.old yards.new }
    ensures fewer { legs_left yards.new + 1 ≡ legs_left yards.old }
{
    instance.is_sound();
    let rider = yards.riders[number];
    yards.riders[number] = Rider {
        station: marked.leg.to,
        ready: marked.leg.ready,
        ..rider
    };
    yards.aheads[number].pass();
}

/// The first unit that may take a leg. There is one.
fn rider_for(riders: &[Rider], marked: &MarkedLeg) -> usize
    requires { 1 ≤ count_by (may_take marked.now) riders.now }
    ensures within { result < length riders.now }
    ensures takes { (d : Rider) → may_take marked.now (get_or riders.now result d) ≡ true }
{
    let mut place = 0;
    while !may_take(marked, &riders[place]) {
        place += 1;
    }
    place
}

/// Whether a leg is one for a unit that stands ready in the yard where it leaves.
fn may_take(marked: &MarkedLeg, rider: &Rider) -> bool
    ensures { result ≡ may_take marked.now rider.now }
{
    agrees(marked.is_brought, rider.is_brought)
        && rider.station == marked.leg.from
        && rider.ready <= marked.leg.departs
}

/// Whether both hold, or neither.
fn agrees(wanted: bool, is: bool) -> bool
    ensures { result ≡ agrees wanted is }
{
    if wanted { is } else { !is }
}

/// The plan in which two units exchange all that leaves from a minute on.
#[tactic(auto, unfolding(crate::specs::Exchanges::renamed))]
pub(crate) fn exchanged_plan(
    alloc: Global,
    instance: &Instance,
    plan: &NamedPlan,
    exchange: &Exchange,
) -> Result<NamedPlan, NoMemory>
    requires { IsPlan instance.now plan.now }
    ensures { IfOk result (λ changed. changed
        ≡ exchanged_plan instance.now exchange.now.one exchange.now.other exchange.now.minute plan.now) }
{
    let mut lists = Vec::new(alloc);
    for number in 0..instance.trips() {
        lists.push(exchanged_list(alloc, instance, plan, exchange, TripNo(number))?)?;
    }
    Ok(NamedPlan::of(lists))
}

/// The list of a trip with the exchange.
fn exchanged_list(
    alloc: Global,
    instance: &Instance,
    plan: &NamedPlan,
    exchange: &Exchange,
    trip: TripNo,
) -> Result<UnitList, NoMemory>
    requires plan { IsPlan instance.now plan.now }
    requires trip { trip < length instance.now.trips }
    ensures { IfOk result (λ list. list
        ≡ map (in_place instance.now exchange.now.one exchange.now.other exchange.now.minute trip)
        (list_of plan.now trip)) }
{
    let units = plan.units(trip);
    let mut list = Vec::new(alloc);
    for unit in units {
        list.push(in_place(instance, exchange, trip, *unit))?;
    }
    Ok(UnitList::of(list))
}

/// The unit that takes the place of a unit on a trip.
#[tactic(auto, unfolding(rules::specs::Day::leaves))]
fn in_place(instance: &Instance, exchange: &Exchange, trip: TripNo, unit: UnitNo) -> UnitNo
    requires { trip < length instance.now.trips }
    ensures { result ≡ in_place instance.now exchange.now.one exchange.now.other exchange.now.minute trip unit }
{
    if instance.trip(trip).departure < exchange.minute {
        return unit;
    }
    exchange.of(unit)
}

impl Exchange {
    /// Of the two units the other one, and each third one itself.
    fn of(&self, unit: UnitNo) -> UnitNo
        ensures { result ≡ exchanged self.now.one self.now.other unit }
    {
        if unit == self.one {
            self.other
        } else if unit == self.other {
            self.one
        } else {
            unit
        }
    }
}
