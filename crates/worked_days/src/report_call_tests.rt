//! Worked days: the reports of plans, and of compositions that are picked.

use planner_app::{costs_table, duties_table, yards_table};
use rail_base::{CompNo, TripNo};
use sample_days::{ONE_LEFT, Texts, day_of, may_run, plan_of};
use std::alloc::Global;
use std::process::Abort;
use std::test::Fail;
use timetable::{Instance, Picks};

/// Two units leave a station whose name has a comma and quotes, one of them goes on alone and back, and both come home
/// together. A third unit, of another type, stays.
const FOUR_TRIPS: Texts<'static> = Texts {
    types: b"type,carriages,seats,metres,family\nIC-3,3,192,81,inter\nIC-4,4,254,108,inter\n",
    stations: b"station,platform,reallocation\n\
        \"Northport, \"\"Central\"\"\",340,20\nMidford,340,20\nSouthhaven,270,20\n",
    stock: b"station,type,start,end\n\
        \"Northport, \"\"Central\"\"\",IC-3,2,2\n\"Northport, \"\"Central\"\"\",IC-4,1,1\n",
    trips: b"trip,from,departure,to,arrival,km,demand\n\
        101,\"Northport, \"\"Central\"\"\",06:02,Midford,06:58,74,310\n\
        102,Midford,07:05,Southhaven,07:50,58,180\n\
        103,Southhaven,08:10,Midford,08:55,58,170\n\
        104,Midford,09:02,\"Northport, \"\"Central\"\"\",09:58,74,290\n",
    links: b"kind,arriving,arriving2,departing,departing2,reverse,uncouple,couple\n\
        turn,101,,102,,no,rear,none\n\
        turn,102,,103,,yes,none,none\n\
        turn,103,,104,,no,none,rear\n",
};

/// One unit goes out and comes back, without a link. It is ready at the very minute at which the trip back leaves.
const READY_AT_DEPARTURE: Texts<'static> = Texts {
    stock: b"station,type,start,end\nX,A,1,1\n",
    trips: b"trip,from,departure,to,arrival,km,demand\n\
        T1,X,08:00,Y,09:00,10,150\nT2,Y,09:30,X,10:30,10,150\n",
    links: b"kind,arriving,arriving2,departing,departing2,reverse,uncouple,couple\n",
    ..ONE_LEFT
};

/// A unit at home at X goes to Y, and comes back after midnight with one that is at home at Y.
const AFTER_MIDNIGHT: Texts<'static> = Texts {
    stock: b"station,type,start,end\nX,A,1,2\nY,A,1,0\n",
    trips: b"trip,from,departure,to,arrival,km,demand\n\
        T1,X,08:00,Y,09:00,10,150\nT2,Y,24:10,X,25:10,10,150\n",
    ..READY_AT_DEPARTURE
};

const ONE_LEFT_DUTIES: &[u8] = b"unit,type,home,trip,from,departure,to,arrival,position\n\
    0,A,X,T1,X,08:00,Y,09:00,0\n\
    1,A,X,T1,X,08:00,Y,09:00,1\n\
    1,A,X,T2,Y,09:10,X,10:10,0\n";

/// Of the unit that T2 has twice the first place is told.
const AFTER_MIDNIGHT_DUTIES: &[u8] = b"unit,type,home,trip,from,departure,to,arrival,position\n\
    0,A,X,T1,X,08:00,Y,09:00,0\n\
    0,A,X,T2,Y,24:10,X,25:10,1\n\
    1,A,Y,T2,Y,24:10,X,25:10,0\n";

const ONE_LEFT_YARDS: &[u8] = b"station,type,time,taken,ready,count\n\
    X,A,start,0,0,2\n\
    X,A,08:00,2,0,0\n\
    X,A,end,0,1,1\n\
    Y,A,start,0,0,0\n\
    Y,A,09:10,0,0,0\n\
    Y,A,end,0,1,1\n";

const READY_AT_DEPARTURE_YARDS: &[u8] = b"station,type,time,taken,ready,count\n\
    X,A,start,0,0,1\n\
    X,A,08:00,1,0,0\n\
    X,A,end,0,1,1\n\
    Y,A,start,0,0,0\n\
    Y,A,09:30,1,1,0\n\
    Y,A,end,0,0,0\n";

/// T1 takes one unit more than there is.
const ONE_SHORT_YARDS: &[u8] = b"station,type,time,taken,ready,count\n\
    X,A,start,0,0,1\n\
    X,A,08:00,2,0,-1\n\
    X,A,end,0,1,0\n\
    Y,A,start,0,0,0\n\
    Y,A,09:30,1,2,1\n\
    Y,A,end,0,0,1\n";

const ONE_LEFT_COSTS: &[u8] = b"part,amount\ncarriage,90\nshortage,0\nshunting,100\ntotal,190\n";

const FOUR_TRIPS_DUTIES: &[u8] = b"unit,type,home,trip,from,departure,to,arrival,position\n\
    0,IC-3,\"Northport, \"\"Central\"\"\",101,\"Northport, \"\"Central\"\"\",06:02,Midford,06:58,0\n\
    0,IC-3,\"Northport, \"\"Central\"\"\",102,Midford,07:05,Southhaven,07:50,0\n\
    0,IC-3,\"Northport, \"\"Central\"\"\",103,Southhaven,08:10,Midford,08:55,0\n\
    0,IC-3,\"Northport, \"\"Central\"\"\",104,Midford,09:02,\"Northport, \"\"Central\"\"\",09:58,0\n\
    1,IC-3,\"Northport, \"\"Central\"\"\",101,\"Northport, \"\"Central\"\"\",06:02,Midford,06:58,1\n\
    1,IC-3,\"Northport, \"\"Central\"\"\",104,Midford,09:02,\"Northport, \"\"Central\"\"\",09:58,1\n\
    2,IC-4,\"Northport, \"\"Central\"\"\",,,,,,\n";

const FOUR_TRIPS_YARDS: &[u8] = b"station,type,time,taken,ready,count\n\
    \"Northport, \"\"Central\"\"\",IC-3,start,0,0,2\n\
    \"Northport, \"\"Central\"\"\",IC-3,06:02,2,0,0\n\
    \"Northport, \"\"Central\"\"\",IC-3,end,0,2,2\n\
    \"Northport, \"\"Central\"\"\",IC-4,start,0,0,1\n\
    \"Northport, \"\"Central\"\"\",IC-4,06:02,0,0,1\n\
    \"Northport, \"\"Central\"\"\",IC-4,end,0,0,1\n\
    Midford,IC-3,start,0,0,0\n\
    Midford,IC-3,07:05,0,0,0\n\
    Midford,IC-3,09:02,1,1,0\n\
    Midford,IC-3,end,0,0,0\n\
    Midford,IC-4,start,0,0,0\n\
    Midford,IC-4,07:05,0,0,0\n\
    Midford,IC-4,09:02,0,0,0\n\
    Midford,IC-4,end,0,0,0\n\
    Southhaven,IC-3,start,0,0,0\n\
    Southhaven,IC-3,08:10,0,0,0\n\
    Southhaven,IC-3,end,0,0,0\n\
    Southhaven,IC-4,start,0,0,0\n\
    Southhaven,IC-4,08:10,0,0,0\n\
    Southhaven,IC-4,end,0,0,0\n";

/// Days, plans of them, and the tables of the duties of their units.
const DUTIES: &[(Texts<'static>, &[u8], &[u8])] = &[
    (ONE_LEFT, b"trip,units\nT1,0 1\nT2,1\n", ONE_LEFT_DUTIES),
    (
        FOUR_TRIPS,
        b"trip,units\n101,0 1\n102,0\n103,0\n104,0 1\n",
        FOUR_TRIPS_DUTIES,
    ),
    (
        AFTER_MIDNIGHT,
        b"trip,units\nT1,0\nT2,1 0 1\n",
        AFTER_MIDNIGHT_DUTIES,
    ),
];

/// Days, the compositions that are picked for their trips, and the tables of the yards.
const YARDS: &[(Texts<'static>, &[u32], &[u8])] = &[
    (ONE_LEFT, &[1, 0], ONE_LEFT_YARDS),
    (FOUR_TRIPS, &[2, 0, 0, 2], FOUR_TRIPS_YARDS),
    (READY_AT_DEPARTURE, &[0, 0], READY_AT_DEPARTURE_YARDS),
    (READY_AT_DEPARTURE, &[1, 0], ONE_SHORT_YARDS),
];

/// Days, the compositions that are picked for their trips, and the tables of what these cost.
const COSTS: &[(Texts<'static>, &[u32], &[u8])] = &[(ONE_LEFT, &[1, 0], ONE_LEFT_COSTS)];

/// Picks of these compositions, in the order of the trips.
fn picks_of(alloc: Global, compositions: &[u32]) -> Result<Picks, Fail> {
    let Ok(trips) = u32::try_from(compositions.len()) else {
        return Err(Fail::new("the compositions are too many"));
    };
    let mut picks = Picks::new(alloc, trips)?;
    for trip in 0..trips {
        if trip < picks.len() {
            picks.set(TripNo(trip), CompNo(compositions[trip as usize]));
        }
    }
    Ok(picks)
}

/// The table of the duties of the units in a plan of a day that is read.
fn duties_on(alloc: Global, day: &Instance, plan: &[u8]) -> Result<Vec<u8>, Fail> {
    let plan = plan_of(alloc, day, plan)?;
    Ok(duties_table(alloc, day, &plan)?)
}

/// The table of the duties of the units in a plan of a day.
fn duties_of(alloc: Global, texts: &Texts<'_>, plan: &[u8]) -> Result<Vec<u8>, Fail> {
    let day = day_of(alloc, texts)?;
    duties_on(alloc, &day, plan)
}

/// The table of the yards of a day that is read, with these compositions, which may run.
fn yards_on(
    rt: &impl Abort,
    alloc: Global,
    day: &Instance,
    compositions: &[u32],
) -> Result<Vec<u8>, Fail> {
    let picks = picks_of(alloc, compositions)?;
    assert!(rt; may_run(day, &picks));
    Ok(yards_table(alloc, day, &picks)?)
}

/// The table of the yards of a day with these compositions, which may run.
fn yards_of(
    rt: &impl Abort,
    alloc: Global,
    texts: &Texts<'_>,
    compositions: &[u32],
) -> Result<Vec<u8>, Fail> {
    let day = day_of(alloc, texts)?;
    yards_on(rt, alloc, &day, compositions)
}

/// The table of what these compositions, which may run, cost on a day that is read.
fn costs_on(
    rt: &impl Abort,
    alloc: Global,
    day: &Instance,
    compositions: &[u32],
) -> Result<Vec<u8>, Fail> {
    let picks = picks_of(alloc, compositions)?;
    assert!(rt; may_run(day, &picks));
    Ok(costs_table(alloc, day, &picks)?)
}

/// The table of what these compositions, which may run, cost on a day.
fn costs_of(
    rt: &impl Abort,
    alloc: Global,
    texts: &Texts<'_>,
    compositions: &[u32],
) -> Result<Vec<u8>, Fail> {
    let day = day_of(alloc, texts)?;
    costs_on(rt, alloc, &day, compositions)
}

/// Asserts that a table is the one that is wanted.
fn expect_table(rt: &impl Abort, table: &[u8], wanted: &[u8]) {
    assert!(rt; table == wanted, "{table:?}");
}

#[test]
fn duties_of_plans(rt: HostRuntime) -> Result<(), Fail> {
    for (texts, plan, wanted) in DUTIES {
        let text = duties_of(rt.alloc(), texts, *plan)?;
        expect_table(&rt, text.as_slice(), wanted);
    }
    Ok(())
}

#[test]
fn yards_of_picks(rt: HostRuntime) -> Result<(), Fail> {
    for (texts, compositions, wanted) in YARDS {
        let text = yards_of(&rt, rt.alloc(), texts, *compositions)?;
        expect_table(&rt, text.as_slice(), wanted);
    }
    Ok(())
}

#[test]
fn costs_of_picks(rt: HostRuntime) -> Result<(), Fail> {
    for (texts, compositions, wanted) in COSTS {
        let text = costs_of(&rt, rt.alloc(), texts, *compositions)?;
        expect_table(&rt, text.as_slice(), wanted);
    }
    Ok(())
}
