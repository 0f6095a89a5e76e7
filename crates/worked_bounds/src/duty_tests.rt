//! Worked days: plans of named units for compositions that are picked, and the duties of the units of a plan.

ghost use Rattle.inventory.specs.NamingLaws.{RunsWith};
ghost use Rattle.timetable.specs.Picks.{ArePicks, picked};
ghost use Rattle.timetable.specs.Running.{IsPlan};
ghost use Rattle.unit_duties.specs.Broken.{AreAdmissible};

use crate::exchange_days::{EARLY_EXCHANGE, EXCHANGE};
use crate::ledger_tests::{fault_of, running_picks};
use rail_base::{Minute, TripNo, UnitNo};
use sample_days::{ONE_LEFT, TURN, Texts, day_of, plan_of};
use std::alloc::{AllocError, Global};
use std::process::Abort;
use std::test::Fail;
use timetable::{Instance, NamedPlan, Picks};
use transitions::Graphs;
use unit_duties::{Stop, duties, name_units, name_units_from};

/// Writes the trips of a unit, and its place in each.
fn write_stops(text: &mut String, unit: u32, stops: &[Stop]) -> Result<(), AllocError> {
    write!(text, "{unit}:")?;
    for stop in stops {
        write!(text, " {}/{}", stop.trip.0, stop.position)?;
    }
    text.push_str("\n")
}

/// Writes the duties of the units in a plan of a day, a line for each unit: its trips, and its place in each.
fn write_duties(
    text: &mut String,
    alloc: Global,
    day: &Instance,
    plan: &NamedPlan,
) -> Result<(), Fail>
    requires { IsPlan day.now plan.now }
{
    let duties = duties(alloc, day, plan)?;
    for unit in 0..day.units() {
        write_stops(text, unit, duties.stops(UnitNo(unit)))?;
    }
    Ok(())
}

/// The duties of the units in a plan of a day, as a text.
fn duties_told(alloc: Global, day: &Instance, plan: &NamedPlan) -> Result<String, Fail>
    requires { IsPlan day.now plan.now }
{
    let mut text = String::new(alloc);
    write_duties(&mut text, alloc, day, plan)?;
    Ok(text)
}

/// The duties of the units in the plan of a day that a table makes.
fn duties_on(alloc: Global, day: &Instance, plan: &[u8]) -> Result<String, Fail> {
    let plan = plan_of(alloc, day, plan)?;
    duties_told(alloc, day, &plan)
}

/// The duties of the units in a plan of a day, both made of tables.
fn duties_of(alloc: Global, texts: &Texts<'_>, plan: &[u8]) -> Result<String, Fail> {
    let day = day_of(alloc, texts)?;
    duties_on(alloc, &day, plan)
}

/// The day on which one unit is left, to be borrowed.
const LEFT: &Texts<'static> = &ONE_LEFT;

#[test]
fn duties_with_places(rt: HostRuntime) -> Result<(), Fail> {
    let text = duties_of(rt.alloc(), LEFT, b"trip,units\nT1,0 1\nT2,1\n")?;
    assert!(rt; text.as_str() == "0: 0/0\n1: 0/1 1/0\n", "{text}");
    Ok(())
}

/// A unit at each of two stations, and a trip from each to the other: when the second leaves, the unit that came is not
/// ready yet.
const ONE_UNREADY: Texts<'static> = Texts {
    stock: b"station,type,start,end\nX,A,1,1\nY,A,1,1\n",
    links: b"kind,arriving,arriving2,departing,departing2,reverse,uncouple,couple\n",
    ..TURN
};

/// Days, what is picked for their two trips, and what naming units for that tells: the units of each trip, or a
/// refusal.
const NAMED: &[(Texts<'static>, u32, u32, &str)] = &[
    // Both units must leave X, and one come back.
    (ONE_LEFT, 1, 0, "0: 0 1\n1: 1\n"),
    (
        ONE_LEFT,
        1,
        1,
        "Stock(Balance { station: StationNo(0), unit_type: TypeNo(0), count: 2 })",
    ),
    (ONE_LEFT, 0, 1, "LinkBroken(LinkNo(0))"),
    // Unit 0 is at Y from 09:00 and ready from 09:30; unit 1 has been ready there all day.
    (ONE_UNREADY, 0, 0, "0: 0\n1: 1\n"),
    // The unit that is uncoupled at 09:00 is ready at 09:30.
    (EXCHANGE, 2, 3, "0: 0 1\n1: 1 0\n"),
    (
        EARLY_EXCHANGE,
        2,
        3,
        "Stock(Short { station: StationNo(1), unit_type: TypeNo(0), place: 0, count: -1 })",
    ),
];

/// Writes the units of a trip.
fn write_units(text: &mut String, trip: u32, units: &[UnitNo]) -> Result<(), AllocError> {
    write!(text, "{trip}:")?;
    for unit in units {
        write!(text, " {}", unit.0)?;
    }
    text.push_str("\n")
}

/// Writes the units of each trip of a plan, a line for each trip.
fn write_lists(text: &mut String, plan: &NamedPlan) -> Result<(), AllocError> {
    for trip in 0..plan.trips() {
        write_units(text, trip, plan.units(TripNo(trip)))?;
    }
    Ok(())
}

/// Writes what naming units for picks tells.
fn write_named(text: &mut String, alloc: Global, day: &Instance, picks: &Picks) -> Result<(), Fail>
    requires picks { ArePicks day.now picks.now }
    requires admissible { AreAdmissible day.now picks.now }
{
    let graphs = Graphs::build(alloc, day)?;
    match name_units(alloc, day, &graphs, picks) {
        Ok(plan) => write_lists(text, &plan)?,
        Err(refusal) => write!(text, "{refusal:?}")?,
    }
    Ok(())
}

/// What naming units for picks tells.
fn named_for(alloc: Global, day: &Instance, picks: &Picks) -> Result<String, Fail>
    requires picks { ArePicks day.now picks.now }
    requires admissible { AreAdmissible day.now picks.now }
{
    let mut text = String::new(alloc);
    write_named(&mut text, alloc, day, picks)?;
    Ok(text)
}

/// What naming units for two picks, which may run, tells on a day.
fn named_on(
    rt: &impl Abort,
    alloc: Global,
    day: &Instance,
    first: u32,
    second: u32,
) -> Result<String, Fail> {
    let picks = running_picks(rt, alloc, day, first, second)?;
    named_for(alloc, day, &picks)
}

/// What naming units for two picks, which may run, tells.
fn named(
    rt: &impl Abort,
    alloc: Global,
    texts: &Texts<'_>,
    first: u32,
    second: u32,
) -> Result<String, Fail> {
    let day = day_of(alloc, texts)?;
    named_on(rt, alloc, &day, first, second)
}

#[test]
fn units_are_named(rt: HostRuntime) -> Result<(), Fail> {
    for (texts, first, second, wanted) in NAMED {
        let text = named(&rt, rt.alloc(), texts, *first, *second)?;
        assert!(rt; text.as_str() == *wanted, "{text}");
    }
    Ok(())
}

/// Writes the plan in which the trips that leave before a minute keep the units of a plan, and the others are named
/// from the minute on.
fn write_named_from(
    text: &mut String,
    alloc: Global,
    day: &Instance,
    picks: &Picks,
    minute: Minute,
    plan: &NamedPlan,
) -> Result<(), Fail>
    requires picks { ArePicks day.now picks.now }
    requires runs { RunsWith day.now (picked day.now picks.now) plan.now }
{
    day.is_sound();
    let plan = name_units_from(alloc, day, picks, minute, plan)?;
    write_lists(text, &plan)?;
    Ok(())
}

/// The plan that is named for picks, and then again from a minute on.
fn named_from(alloc: Global, day: &Instance, picks: &Picks, minute: Minute) -> Result<String, Fail>
    requires picks { ArePicks day.now picks.now }
    requires admissible { AreAdmissible day.now picks.now }
{
    let graphs = Graphs::build(alloc, day)?;
    let mut text = String::new(alloc);
    if let Ok(plan) = name_units(alloc, day, &graphs, picks) {
        write_named_from(&mut text, alloc, day, picks, minute, &plan)?;
    }
    Ok(text)
}

/// Asserts the plan that is named for picks, and then again from a minute on.
fn expect_named_from(
    rt: &impl Abort,
    alloc: Global,
    day: &Instance,
    picks: &Picks,
    minute: Minute,
) -> Result<(), Fail>
    requires picks { ArePicks day.now picks.now }
    requires admissible { AreAdmissible day.now picks.now }
{
    let text = named_from(alloc, day, picks, minute)?;
    assert!(rt; text.as_str() == "0: 0 1\n1: 1 0\n", "{text}");
    Ok(())
}

/// Asserts that for picks, from each of some minutes on.
fn expect_named(rt: &impl Abort, alloc: Global, day: &Instance, picks: &Picks) -> Result<(), Fail>
    requires picks { ArePicks day.now picks.now }
    requires admissible { AreAdmissible day.now picks.now }
{
    for minute in [0, 480, 481, 541, 570, 571] {
        expect_named_from(rt, alloc, day, picks, Minute(minute))?;
    }
    Ok(())
}

/// Asserts that on a day of a turn that exchanges units.
fn expect_named_on(rt: &impl Abort, alloc: Global, day: &Instance) -> Result<(), Fail> {
    let picks = running_picks(rt, alloc, day, 2, 3)?;
    expect_named(rt, alloc, day, &picks)
}

/// The day of a turn that exchanges units, to be borrowed.
const EXCHANGED: &Texts<'static> = &EXCHANGE;

// From any minute on the rule goes on as it began, also while a unit is on its way or not ready yet.
#[test]
fn units_are_named_from_a_minute_on(rt: HostRuntime) -> Result<(), Fail> {
    let day = day_of(rt.alloc(), EXCHANGED)?;
    expect_named_on(&rt, rt.alloc(), &day)
}

/// What naming units tells for A on the first trip and AA on the second, for which the yards have a fault.
fn named_at_fault(rt: &impl Abort, alloc: Global, texts: &Texts<'_>) -> Result<String, Fail> {
    assert!(rt; fault_of(rt, alloc, texts, 0, 1)?.is_some());
    named(rt, alloc, texts, 0, 1)
}

// One unit goes out and two come back, so that the turn is broken and the yard of Y is short too.
#[test]
fn broken_link_told_before_a_fault(rt: HostRuntime) -> Result<(), Fail> {
    let text = named_at_fault(&rt, rt.alloc(), LEFT)?;
    assert!(rt; text.as_str() == "LinkBroken(LinkNo(0))", "{text}");
    Ok(())
}
