//! Wishes by hand: what is read of them, legs, and what cuts are worth.

ghost use Rattle.std.specs.Prelude.{◌≡◌, ◌<◌, length, IfOk};
ghost use Rattle.timetable.specs.Running.{IsPlan};
ghost use Rattle.urgent_units.specs.Cuts.{HasMoments};
ghost use Rattle.urgent_units.specs.Legs.{legs_of};
ghost use Rattle.urgent_units.specs.Wishes.{IsWish};

use day_simulator::simulate;
use rail_base::{StationNo, TypeNo};
use sample_days::{TURN, Texts, day_of, plan_of, table};
use std::alloc::{AllocError, Global};
use std::process::Abort;
use std::test::Fail;
use timetable::{Instance, NamedPlan};
use urgent_units::{Legs, Wish, YardCut};

/// One trip for one of two units that stand at X.
const ONE_TRIP: Texts<'static> = Texts {
    stock: b"station,type,start,end\nX,A,2,1\nY,A,0,1\n",
    trips: b"trip,from,departure,to,arrival,km,demand\nT1,X,08:00,Y,09:00,10,150\n",
    links: b"kind,arriving,arriving2,departing,departing2,reverse,uncouple,couple\n",
    ..TURN
};

const PLAN: &[u8] = b"trip,units\nT1,0\n";

/// Tables of urgent units, and what is read of them.
const READ: &[(&[u8], &str)] = &[
    (b"unit,depot\n1,Y\n", "type 0 depot 1 units 1"),
    (
        b"\xef\xbb\xbfunit,depot\n1,Y\n\n00000,\"Y\"\n",
        "type 0 depot 1 units 1 0",
    ),
    (b"unit,depot\n0,Y\n1,X\n", "BadRow(2)"),
    (b"unit,depot\n0,Y\n0,Y\n", "BadRow(2)"),
    (b"unit,depot\n2,Y\n", "BadRow(1)"),
    (b"unit,depot\n1,Z\n", "BadRow(1)"),
    (b"unit,depot\n1,\n", "BadRow(1)"),
    (b"unit,depot\n1\n", "BadRow(1)"),
    (b"unit,depot\n1,Y,\n", "BadRow(1)"),
    (b"unit,depot\n+1,Y\n", "BadRow(1)"),
    (b"unit,depot\n0000000001,Y\n", "BadRow(1)"),
    (b"unit,depot\n1,\xff\n", "BadRow(1)"),
    (b"unit,depot\n", "NoRow"),
    (b"unit,depot,\n1,Y\n", "WrongHeader"),
    (b"unit\n1,Y\n", "WrongHeader"),
    (b"", "WrongHeader"),
];

/// What a wish says.
fn told_of(alloc: Global, wish: &Wish) -> Result<String, Fail> {
    let mut told = format!(in alloc; "type {} depot {} units", wish.unit_type.0, wish.depot.0)?;
    for unit in wish.units.items() {
        write!(told, " {}", unit.0)?;
    }
    Ok(told)
}

/// What is read of a table of urgent units.
fn told(alloc: Global, day: &Instance, text: &[u8]) -> Result<String, Fail> {
    match Wish::read(alloc, day, table(text)?) {
        Ok(wish) => told_of(alloc, &wish),
        Err(refusal) => Ok(format!(in alloc; "{refusal:?}")?),
    }
}

/// Whether so much is read of a table of urgent units.
fn is_read(alloc: Global, day: &Instance, text: &[u8], wanted: &str) -> Result<bool, Fail> {
    let told = told(alloc, day, text)?;
    Ok(told.as_str() == wanted)
}

/// Asserts what is read of each table with a day.
fn are_read(rt: &impl Abort, alloc: Global, day: &Instance) -> Result<(), Fail> {
    for (text, wanted) in READ {
        assert!(rt; is_read(alloc, day, *text, *wanted)?, "{wanted}");
    }
    Ok(())
}

#[test]
fn wishes_are_read(rt: HostRuntime) -> Result<(), Fail> {
    let day = day_of(rt.alloc(), &ONE_TRIP)?;
    are_read(&rt, rt.alloc(), &day)
}

/// The legs of a type's units in a plan of the day.
fn legs_of(alloc: Global, day: &Instance, plan: &NamedPlan, unit_type: TypeNo) -> Result<Legs, Fail>
    requires { IsPlan day.now plan.now }
    ensures { IfOk result (λ legs. legs ≡ legs_of day.now plan.now unit_type) }
{
    match simulate(alloc, day, plan) {
        Ok(_) => Ok(Legs::build(alloc, day, plan, unit_type)?),
        Err(_) => Err(Fail::new("the plan stops")),
    }
}

/// Writes how many units are held at a station, moment by moment.
fn write_held(told: &mut String, legs: &Legs, number: u32) -> Result<(), AllocError>
    requires { number < legs.now.stations }
{
    let station = StationNo(number);
    write!(told, "station {number} moments")?;
    for moment in 0..legs.moments(station) {
        write!(told, " {}", legs.held(station, moment))?;
    }
    told.push_str("\n")
}

/// How many units are held, station by station and moment by moment.
fn held(alloc: Global, legs: &Legs) -> Result<String, Fail> {
    let mut told = String::new(alloc);
    for number in 0..legs.stations() {
        write_held(&mut told, legs, number)?;
    }
    Ok(told)
}

/// What is held on a day by its plan.
fn held_on(alloc: Global, texts: &Texts<'_>, plan: &[u8]) -> Result<String, Fail> {
    let day = day_of(alloc, texts)?;
    let plan = plan_of(alloc, &day, plan)?;
    let legs = legs_of(alloc, &day, &plan, TypeNo(0))?;
    held(alloc, &legs)
}

#[test]
fn legs_are_told(rt: HostRuntime) -> Result<(), Fail> {
    let held = held_on(rt.alloc(), &ONE_TRIP, PLAN)?;
    assert!(rt; held.as_str() == "station 0 moments 2 1 1\nstation 1 moments 0 1 1\n");
    Ok(())
}

/// Sets of moments by station and moment, and what they are worth where both units are wanted at Y.
const CUTS: &[(&[(u32, u32)], Option<u32>)] = &[
    (&[], Some(2)),
    (&[(0, 0)], Some(2)),
    (&[(0, 1)], Some(4)),
    (&[(0, 0), (0, 1)], Some(2)),
    (&[(0, 0), (0, 1), (0, 2)], Some(1)),
    (&[(0, 0), (0, 1), (0, 2), (1, 1)], Some(1)),
    (&[(1, 1)], Some(3)),
    (&[(1, 2)], None),
];

/// Puts a moment into a set, where there is such a moment.
fn put(legs: &Legs, cut: &mut YardCut, station: u32, moment: u32)
    requires { HasMoments legs.now cut.old }
    ensures { HasMoments legs.now cut.new }
{
    let place = StationNo(station);
    if station < legs.stations() && moment < legs.moments(place) {
        cut.put(place, moment);
    }
}

/// The set of these moments.
fn cut_of(alloc: Global, legs: &Legs, moments: &[(u32, u32)]) -> Result<YardCut, Fail>
    ensures { IfOk result (HasMoments legs.now) }
{
    let mut cut = YardCut::new(alloc, legs)?;
    for (station, moment) in moments {
        put(legs, &mut cut, *station, *moment);
    }
    Ok(cut)
}

/// What the set of these moments is worth.
fn worth(
    alloc: Global,
    day: &Instance,
    wish: &Wish,
    legs: &Legs,
    moments: &[(u32, u32)],
) -> Result<Option<u32>, Fail>
    requires wish { IsWish day.now wish.now }
    requires stations { length day.now.stations ≡ legs.now.stations }
{
    let cut = cut_of(alloc, legs, moments)?;
    Ok(legs.value(day, wish, &cut))
}

/// Each set of moments is worth what it is to be.
fn are_worth(
    rt: &impl Abort,
    alloc: Global,
    day: &Instance,
    wish: &Wish,
    legs: &Legs,
) -> Result<(), Fail>
    requires wish { IsWish day.now wish.now }
    requires stations { length day.now.stations ≡ legs.now.stations }
{
    for (moments, wanted) in CUTS {
        let worth = worth(alloc, day, wish, legs, *moments)?;
        assert!(rt; worth == *wanted);
    }
    Ok(())
}

#[test]
fn cuts_are_worth_what_crosses(rt: HostRuntime) -> Result<(), Fail> {
    let day = day_of(rt.alloc(), &ONE_TRIP)?;
    let plan = plan_of(rt.alloc(), &day, PLAN)?;
    let wish = Wish::read(rt.alloc(), &day, b"unit,depot\n0,Y\n1,Y\n")?;
    let legs = legs_of(rt.alloc(), &day, &plan, wish.unit_type)?;
    are_worth(&rt, rt.alloc(), &day, &wish, &legs)
}
