//! What the worked day of a turn costs, with picks and with plans, by hand.

use cost_model::{cost, parts, plan_cost};
use rail_base::{CompNo, TripNo};
use sample_days::{TURN, Texts, day_of, plan_of};
use std::alloc::Global;
use std::process::Abort;
use std::test::Fail;
use timetable::{Instance, Picks};

/// The day of a turn with seats and demand of first class.
const TWO_CLASSES: Texts<'static> = Texts {
    types: b"type,carriages,seats,metres,family,first\nA,3,200,80,regional,40\n",
    trips: b"trip,from,departure,to,arrival,km,demand,first\n\
        T1,X,08:00,Y,09:00,10,300,90\nT2,Y,09:10,X,10:10,10,150,10\n",
    ..TURN
};

/// Two picks of a day, and what they cost: in all, and the amounts of carriages, missing seats and shunting.
const PICKS: &[(Texts<'static>, u32, u32, &str)] = &[
    // Trains of one length.
    (TURN, 0, 0, "1060: 60 1000 0"),
    (TURN, 1, 1, "120: 120 0 0"),
    // Trains that differ in length.
    (TURN, 1, 0, "190: 90 0 100"),
    (TURN, 0, 1, "1190: 90 1000 100"),
    // Seats missing in both classes.
    (TWO_CLASSES, 0, 0, "1560: 60 1500 0"),
    (TWO_CLASSES, 1, 1, "220: 120 100 0"),
];

/// What two picks cost; nothing where the day has not two trips and these compositions.
fn told(alloc: Global, day: &Instance, first: u32, second: u32) -> Result<String, Fail> {
    let compositions = day.catalogue().len();
    if day.trips() != 2 || first >= compositions || second >= compositions {
        return Ok(String::new(alloc));
    }
    let mut picks = Picks::new(alloc, 2)?;
    picks.set(TripNo(0), CompNo(first));
    picks.set(TripNo(1), CompNo(second));
    let whole = cost(day, &picks).0;
    let part = parts(day, &picks);
    let (carriage, shortage) = (part.carriage.0, part.shortage.0);
    Ok(format!(in alloc; "{whole}: {carriage} {shortage} {}", part.shunting.0)?)
}

/// What two picks of the day of these tables cost.
fn picks_told(alloc: Global, texts: &Texts<'_>, first: u32, second: u32) -> Result<String, Fail> {
    let day = day_of(alloc, texts)?;
    told(alloc, &day, first, second)
}

#[test]
fn picks_have_their_cost(rt: HostRuntime) -> Result<(), Fail> {
    for (texts, first, second, wanted) in PICKS {
        let text = picks_told(rt.alloc(), texts, *first, *second)?;
        assert!(rt; text.as_str() == *wanted, "{text}");
    }
    Ok(())
}

/// Plans of the day of a turn, which need not run, and what they cost.
const PLANS: &[(&[u8], i128)] = &[
    (b"trip,units\nT1,0 1\nT2,0\n", 190),
    (b"trip,units\nT1,0\nT2,\n", 2630),
];

/// What the plan of a day costs that the bytes of a table make.
fn cost_of(alloc: Global, day: &Instance, bytes: &[u8]) -> Result<i128, Fail> {
    let plan = plan_of(alloc, day, bytes)?;
    Ok(plan_cost(day, &plan).0)
}

/// Asserts what each of the plans of a day costs.
fn costs_are_theirs(rt: &impl Abort, alloc: Global, day: &Instance) -> Result<(), Fail> {
    for (bytes, wanted) in PLANS {
        let cost = cost_of(alloc, day, *bytes)?;
        assert!(rt; cost == *wanted);
    }
    Ok(())
}

#[test]
fn plans_have_their_cost(rt: HostRuntime) -> Result<(), Fail> {
    let day = day_of(rt.alloc(), &TURN)?;
    costs_are_theirs(&rt, rt.alloc(), &day)
}
