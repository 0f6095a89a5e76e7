//! Turns that both uncouple and couple units: days whose links are of the second version.

use crate::day::{BASE_DAY, Day, Simulation, TWO_TYPES, expect_simulations};
use crate::plan_tests::expect_fronts;
use rail_base::NoMemory;

/// The day of a turn that turns round and exchanges a unit of the one type for one of the other at the rear.
const EXCHANGE_AT_THE_REAR: Day<'static> = Day {
    stock: Some("station,type,start,end\nX,A,1,0\nX,B,1,2\nY,A,0,1\nY,B,1,0\n"),
    trips: Some(
        "trip,from,departure,to,arrival,km,demand\nT1,X,08:00,Y,09:00,10,300\nT2,Y,09:10,X,10:10,10,200\n",
    ),
    links: Some(
        "kind,arriving,arriving2,departing,departing2,reverse,uncouple,couple,exchange\n\
            turn,T1,,T2,,yes,rear,rear,yes\n",
    ),
    plan: Some("trip,units\nT1,0 1\nT2,1 2\n"),
    ..TWO_TYPES
};

/// That day on which the turn may not exchange units.
const WITHOUT_EXCHANGE: Day<'static> = Day {
    links: Some(
        "kind,arriving,arriving2,departing,departing2,reverse,uncouple,couple,exchange\n\
            turn,T1,,T2,,yes,rear,rear,no\n",
    ),
    ..EXCHANGE_AT_THE_REAR
};

/// The day of such a turn between platforms for four units.
const LONG_PLATFORMS: Day<'static> = Day {
    stations: Some("station,platform,reallocation\nX,320,30\nY,320,30\n"),
    trips: Some(
        "trip,from,departure,to,arrival,km,demand\nT1,X,08:00,Y,09:00,10,150\nT2,Y,09:10,X,10:10,10,150\n",
    ),
    ..EXCHANGE_AT_THE_REAR
};

/// The day of a turn that uncouples a unit in front and couples the same unit at the rear, at the minute at which it is
/// ready.
const TAKEN_AGAIN: Day<'static> = Day {
    stock: Some("station,type,start,end\nX,A,1,1\nX,B,1,1\n"),
    trips: Some(
        "trip,from,departure,to,arrival,km,demand\nT1,X,08:00,Y,09:00,10,300\nT2,Y,09:30,X,10:30,10,150\n",
    ),
    links: Some(
        "kind,arriving,arriving2,departing,departing2,reverse,uncouple,couple,exchange\n\
            turn,T1,,T2,,no,front,rear,yes\n",
    ),
    plan: Some("trip,units\nT1,0 1\nT2,1 0\n"),
    ..TWO_TYPES
};

const EXCHANGES: &[Simulation] = &[
    (EXCHANGE_AT_THE_REAR, 0, "runs 190\n"),
    (WITHOUT_EXCHANGE, 1, "stops: link 0 is broken\n"),
    // Three units are coupled alone, and not beside another.
    (
        Day {
            stock: Some("station,type,start,end\nX,A,1,4\nY,A,3,0\n"),
            plan: Some("trip,units\nT1,0\nT2,0 1 2 3\n"),
            ..LONG_PLATFORMS
        },
        0,
        "runs 250\n",
    ),
    (
        Day {
            stock: Some("station,type,start,end\nX,A,1,0\nX,B,1,4\nY,A,0,1\nY,B,3,0\n"),
            plan: Some("trip,units\nT1,0 1\nT2,1 2 3 4\n"),
            ..LONG_PLATFORMS
        },
        1,
        "stops: link 0 is broken\n",
    ),
    (TAKEN_AGAIN, 0, "runs 200\n"),
    // A minute early.
    (
        Day {
            trips: Some(
                "trip,from,departure,to,arrival,km,demand\nT1,X,08:00,Y,09:00,10,300\nT2,Y,09:29,X,10:30,10,150\n",
            ),
            ..TAKEN_AGAIN
        },
        1,
        "stops: unit 0 is not ready for trip 1\n",
    ),
];

/// Tables of one link that are refused: an exchange has two ends.
const WRONG_EXCHANGES: &[Simulation] = &[
    (
        Day {
            links: Some(
                "kind,arriving,arriving2,departing,departing2,reverse,uncouple,couple,exchange\n\
                    turn,T1,,T2,,yes,none,rear,yes\n",
            ),
            ..BASE_DAY
        },
        3,
        "refused links.csv: row 1: fields do not fit the kind\n",
    ),
    (
        Day {
            links: Some(
                "kind,arriving,arriving2,departing,departing2,reverse,uncouple,couple,exchange\n\
                    turn,T1,,T2,,yes,rear,none,yes\n",
            ),
            ..BASE_DAY
        },
        3,
        "refused links.csv: row 1: fields do not fit the kind\n",
    ),
    (
        Day {
            links: Some(
                "kind,arriving,arriving2,departing,departing2,reverse,uncouple,couple,exchange\n\
                    join,T1,T1,T2,,no,none,none,yes\n",
            ),
            ..BASE_DAY
        },
        3,
        "refused links.csv: row 1: fields do not fit the kind\n",
    ),
    (
        Day {
            links: Some(
                "kind,arriving,arriving2,departing,departing2,reverse,uncouple,couple,exchange\n\
                    split,T1,,T2,T2,no,none,none,yes\n",
            ),
            ..BASE_DAY
        },
        3,
        "refused links.csv: row 1: fields do not fit the kind\n",
    ),
    (
        Day {
            links: Some(
                "kind,arriving,arriving2,departing,departing2,reverse,uncouple,couple,exchange\n\
                    turn,T1,,T2,,yes,rear,rear,perhaps\n",
            ),
            ..BASE_DAY
        },
        3,
        "refused links.csv: row 1, column exchange: not a word of this column\n",
    ),
    (
        Day {
            links: Some(
                "kind,arriving,arriving2,departing,departing2,reverse,uncouple,couple,exchange\n\
                    turn,T1,,T2,,yes,rear,none\n",
            ),
            ..BASE_DAY
        },
        3,
        "refused links.csv: row 1 has 8 fields\n",
    ),
];

#[test]
fn turns_exchange_units(rt: HostRuntime) -> Result<(), NoMemory> {
    expect_simulations(&rt, rt.alloc(), EXCHANGES)?;
    expect_simulations(&rt, rt.alloc(), WRONG_EXCHANGES)
}

/// Days with and without an exchange, and how their answers begin.
const PLANS: &[Simulation] = &[
    (EXCHANGE_AT_THE_REAR, 0, "optimal 190\n"),
    (WITHOUT_EXCHANGE, 1, "infeasible\n"),
];

#[test]
fn turns_that_exchange_units_are_planned(rt: HostRuntime) -> Result<(), NoMemory> {
    expect_fronts(&rt, rt.alloc(), PLANS)
}
