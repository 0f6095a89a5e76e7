//! The test of a chosen fleet and its plan.

ghost use Rattle.std.specs.Prelude.{◌≡◌, ◌≤◌, ◌<◌, ◌↔◌, length, IfOk, IfErr, IsTrue, MatchOption, Some, None, pos};
ghost use Rattle.timetable.specs.Cost.{plan_cost};
ghost use Rattle.timetable.specs.DayTables.{IsDayOfBytes};
ghost use Rattle.timetable.specs.Links.{list_of};
ghost use Rattle.timetable.specs.Plans.{are_units};
ghost use Rattle.timetable.specs.Running.{IsPlan};
ghost use Rattle.fleets.specs.Fleets.{IsFleetOf, IsNowhereAbove, with_fleet};
ghost use Rattle.fleet_check.specs.Chosen.{DoesRun};
ghost use Rattle.fleet_check.specs.Tests.{StopsAt};
ghost use Rattle.fleet_check.specs.Verdicts.{HasPlanSaid, plan_tests, price_found, price_said};

use crate::amounts::with_units;
use crate::day_of_tables::DayOfTables;
use crate::found::{Chosen, Fleet};
use crate::verdict::{FleetVerdict, Stop};
use answer_text::Head;
use day_simulator::{SimulateRefusal, simulate};
use fleet_boxes::Prices;
use fleets::{Counts, day_with, fleet_of};
use rail_base::{Money, NoMemory, TripNo, UnitNo};
use std::alloc::Global;
use timetable::{Instance, NamedPlan};

/// What a chosen plan costs without the units of its fleet, where its stock is a fleet of the day, with nowhere more
/// units than the day's own stock, and it is a plan with it that runs; else none. The error is want of memory.
pub fn cost_of(
    alloc: Global,
    tables: &DayOfTables<'_>,
    chosen: &Chosen,
) -> Result<Option<Money>, NoMemory>
    requires { IsDayOfBytes tables.now.bytes.now tables.now.instance.now }
    ensures { IfOk result (λ cost. MatchOption cost (¬ DoesRun tables.now.instance.now chosen.now)
        (λ cost. DoesRun tables.now.instance.now chosen.now
        × (cost.0 ≡ pos (plan_cost (with_fleet chosen.now.stock tables.now.instance.now) chosen.now.plan)))) }
{
    // What is known of an accepted day.
    tables.instance.is_sound();
    if !is_within_stock(alloc, tables.instance, &chosen.stock)? {
        return Ok(None);
    }
    let day = day_with(alloc, tables.bytes, tables.instance, &chosen.stock)?;
    if !is_plan(&day, &chosen.plan) {
        return Ok(None);
    }
    match simulate(alloc, &day, &chosen.plan) {
        Ok(ran) => Ok(Some(ran.cost)),
        Err(SimulateRefusal::Stops(_)) => Ok(None),
        Err(SimulateRefusal::NoMemory) => Err(NoMemory),
    }
}

/// Whether it is a fleet of a day: it has a number for each station and type, and nowhere more units than the day's
/// stock at its start. The error is want of memory.
fn is_within_stock(alloc: Global, instance: &Instance, fleet: &Counts) -> Result<bool, NoMemory>
    ensures { IfOk result (λ within. IsTrue within ↔ IsFleetOf instance.now fleet.now) }
{
    let most = fleet_of(alloc, instance)?;
    Ok(is_nowhere_above(fleet, &most))
}

/// Whether a fleet has as many places as another, and nowhere more units.
fn is_nowhere_above(fleet: &Counts, most: &Counts) -> bool
    ensures { IsTrue result ↔ IsNowhereAbove fleet.now most.now }
{
    if fleet.len() != most.len() {
        return false;
    }
    for place in 0..fleet.len() {
        if fleet.at(place) > most.at(place) {
            return false;
        }
    }
    true
}

/// Whether a plan has a list of units of the day for each trip.
fn is_plan(day: &Instance, plan: &NamedPlan) -> bool
    ensures { IsTrue result ↔ IsPlan day.now plan.now }
{
    if plan.trips() != day.trips() {
        return false;
    }
    for trip in 0..plan.trips() {
        if !are_units(day, plan.units(TripNo(trip))) {
            return false;
        }
    }
    true
}

/// Whether each is a unit of the day.
fn are_units(day: &Instance, units: &[UnitNo]) -> bool
    ensures { result ≡ are_units day.now units.now }
{
    units.iter().all(|unit| unit.0 < day.units())
}

/// Tests the chosen plan against what the head says of it.
pub(crate) fn test_chosen(
    alloc: Global,
    tables: &DayOfTables<'_>,
    prices: &Prices,
    fleet: &Fleet,
) -> Result<(), Stop>
    requires made { IsDayOfBytes tables.now.bytes.now tables.now.instance.now }
    requires prices { length prices.now ≡ length tables.now.instance.now.types }
    ensures passed { IfOk result (λ _. HasPlanSaid tables.now.instance.now prices.now fleet.now.chosen
        (price_said fleet.now.head)) }
    ensures stops { IfErr result (StopsAt (plan_tests tables.now.instance.now prices.now fleet.now.chosen
        (price_said fleet.now.head))) }
{
    match (said_by(&fleet.head), &fleet.chosen) {
        (None, None) => Ok(()),
        (Some(said), Some(chosen)) => test_price(alloc, tables, prices, said, chosen),
        (None, Some(_)) => Err(Stop::Found(FleetVerdict::PlanFails)),
        (Some(_), None) => Err(Stop::Found(FleetVerdict::PlanFails)),
    }
}

/// The price that a head says of its plan.
fn said_by(head: &Head) -> Option<Money>
    ensures { MatchOption result (price_said head.now ≡ None) (λ cost. price_said head.now ≡ Some cost.0) }
{
    match head {
        Head::Optimal { cost } => Some(*cost),
        Head::BoundedPlan { cost, .. } => Some(*cost),
        Head::Infeasible => None,
        Head::Bounded { .. } => None,
    }
}

/// Tests that a chosen plan runs with its fleet, and costs with its units what is said.
fn test_price(
    alloc: Global,
    tables: &DayOfTables<'_>,
    prices: &Prices,
    said: Money,
    chosen: &Chosen,
) -> Result<(), Stop>
    requires made { IsDayOfBytes tables.now.bytes.now tables.now.instance.now }
    requires prices { length prices.now ≡ length tables.now.instance.now.types }
    ensures passed { IfOk result (λ _. HasPlanSaid tables.now.instance.now prices.now (Some chosen.now) (Some said.0)) }
    ensures stops { IfErr result (StopsAt
        (plan_tests tables.now.instance.now prices.now (Some chosen.now) (Some said.0))) }
{
    let Some(cost) = cost_of(alloc, tables, chosen)? else {
        return Err(Stop::Found(FleetVerdict::PlanFails));
    };
    let found = price_with(tables.instance, prices, cost, chosen);
    if found.0 == said.0 {
        Ok(())
    } else {
        Err(Stop::Found(FleetVerdict::PriceDiffers { said, found }))
    }
}

/// What a chosen plan that runs costs with the units of its fleet, where it costs so much without them.
fn price_with(instance: &Instance, prices: &Prices, cost: Money, chosen: &Chosen) -> Money
    requires prices { length prices.now ≡ length instance.now.types }
    requires runs { DoesRun instance.now chosen.now }
    requires cost { cost.0 ≡ pos (plan_cost (with_fleet chosen.now.stock instance.now) chosen.now.plan) }
    ensures { result ≡ price_found instance.now prices.now chosen.now }
{
    // What is known of an accepted day: its plans cost little enough.
    instance.is_sound();
    with_units(cost, prices.of_fleet(&chosen.stock))
}
