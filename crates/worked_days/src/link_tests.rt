//! Running plans with turns, joins and splits: worked days with their lines.

use crate::day::{
    BASE_DAY, Day, NORTHPORT, READY_AT_ONCE, RING, Simulation, TWO_TRIPS, TWO_TYPES,
    expect_simulations,
};
use rail_base::NoMemory;

/// Trains that turn on a link, uncouple at its end and couple units of the yard.
const TURNS: &[Simulation] = &[
    (BASE_DAY, 0, "runs 120\n"),
    (
        Day {
            plan: Some("trip,units\nT1,0 1\nT2,0 1\n"),
            ..BASE_DAY
        },
        1,
        "stops: link 0 is broken\n",
    ),
    (NORTHPORT, 0, "runs 13360\n"),
    (TWO_TYPES, 0, "runs 170\n"),
    (
        Day {
            plan: Some("trip,units\nT1,0 1\nT2,0\n"),
            ..TWO_TYPES
        },
        1,
        "stops: link 0 is broken\n",
    ),
    // A coupled unit comes from the yard.
    (
        Day {
            links: Some(
                "kind,arriving,arriving2,departing,departing2,reverse,uncouple,couple\nturn,T1,,T2,,yes,none,rear\n",
            ),
            plan: Some("trip,units\nT1,0\nT2,0 0\n"),
            ..BASE_DAY
        },
        1,
        "stops: unit 0 is not ready for trip 1\n",
    ),
    // Arrivals come before departures.
    (READY_AT_ONCE, 0, "runs 60\n"),
    (
        Day {
            links: Some(
                "kind,arriving,arriving2,departing,departing2,reverse,uncouple,couple\nturn,T1,,T2,,yes,rear,none\n\
                    turn,T1,,T2,,yes,rear,none\n",
            ),
            ..BASE_DAY
        },
        3,
        "refused links.csv: row 2: trip used twice\n",
    ),
];

/// Trains that are split and joined.
const JOINS_AND_SPLITS: &[Simulation] = &[
    (RING, 0, "runs 1270\n"),
    (
        Day {
            plan: Some("trip,units\nT1,0 1 2\nT2,0 1\nT3,2\nT4,0 1 2\n"),
            ..RING
        },
        1,
        "stops: link 1 is broken\n",
    ),
    // No part of a split is empty.
    (
        Day {
            plan: Some("trip,units\nT1,0 1 2\nT2,0 1 2\nT3,\nT4,0 1 2\n"),
            ..RING
        },
        1,
        "stops: link 0 is broken\n",
    ),
    (
        Day {
            plan: Some("trip,units\nT1,0 1 2\nT2,\nT3,0 1 2\nT4,0 1 2\n"),
            ..RING
        },
        1,
        "stops: link 0 is broken\n",
    ),
    // A train that is too long is told before the link into it.
    (
        Day {
            plan: Some("trip,units\nT1,0 1 2\nT2,0 1\nT3,2\nT4,0 1 2 0\n"),
            ..RING
        },
        1,
        "stops: trip 3 has no admissible composition\n",
    ),
];

/// Days on which a trip without units leaves between an arrival and the departure that is linked to it. Turns and
/// splits are tested at the arrival, joins at the departure.
const TRIPS_BETWEEN: &[Simulation] = &[
    (
        Day {
            trips: Some(
                "trip,from,departure,to,arrival,km,demand\nT1,X,08:00,Y,09:00,10,300\nT2,Y,09:10,X,10:10,10,150\n\
                    T3,X,09:05,Y,10:05,10,0\n",
            ),
            plan: Some("trip,units\nT1,0 1\nT2,0 1\nT3,\n"),
            ..BASE_DAY
        },
        1,
        "stops: link 0 is broken\n",
    ),
    (
        Day {
            trips: Some(
                "trip,from,departure,to,arrival,km,demand\nT1,X,08:00,Y,09:00,10,300\nT2,Y,09:10,Z,10:00,10,300\n\
                    T3,Y,09:20,Z,10:10,10,300\nT4,Z,10:30,X,11:30,10,300\nT5,X,09:05,Y,10:05,10,0\n",
            ),
            plan: Some("trip,units\nT1,0 1 2\nT2,0 2\nT3,1\nT4,1 0 2\nT5,\n"),
            ..RING
        },
        1,
        "stops: link 0 is broken\n",
    ),
    (
        Day {
            trips: Some(
                "trip,from,departure,to,arrival,km,demand\nT1,X,08:00,Y,09:00,10,300\nT2,Y,09:10,Z,10:00,10,300\n\
                    T3,Y,09:20,Z,10:10,10,300\nT4,Z,10:30,X,11:30,10,300\nT5,X,10:20,Y,11:20,10,0\n",
            ),
            plan: Some("trip,units\nT1,0 1 2\nT2,0 1\nT3,2\nT4,0 1 2\nT5,\n"),
            ..RING
        },
        1,
        "stops: trip 4 has no units\n",
    ),
];

/// Days whose catalogue has about 1,000 compositions, the most that it may have.
const CATALOGUES: &[Simulation] = &[
    (
        Day {
            types: Some(
                "type,carriages,seats,metres,family\nA,3,200,50,regional\nB,3,100,50,regional\nC,3,100,50,regional\n",
            ),
            stations: Some("station,platform,reallocation\nX,300,30\nY,300,30\n"),
            ..TWO_TRIPS
        },
        3,
        "refused types.csv: too many compositions\n",
    ),
    (
        Day {
            types: Some(
                "type,carriages,seats,metres,family\nA,3,200,50,regional\nB,3,100,50,regional\nC,3,100,50,regional\n",
            ),
            stations: Some("station,platform,reallocation\nX,299,30\nY,299,30\n"),
            ..TWO_TRIPS
        },
        0,
        "runs 60\n",
    ),
    // As another program counts them, 1,000 lists of these are no longer than the platforms.
    (
        Day {
            types: Some(
                "type,carriages,seats,metres,family\nA,3,200,56,regional\nB,3,100,70,regional\nC,3,100,71,regional\n\
                    D,3,100,74,regional\nE,3,100,79,regional\nF,3,100,99,regional\n",
            ),
            stations: Some("station,platform,reallocation\nX,300,30\nY,300,30\n"),
            ..TWO_TRIPS
        },
        0,
        "runs 60\n",
    ),
];

#[test]
fn trains_turn_on_their_links(rt: HostRuntime) -> Result<(), NoMemory> {
    expect_simulations(&rt, rt.alloc(), TURNS)
}

#[test]
fn trains_are_split_and_joined(rt: HostRuntime) -> Result<(), NoMemory> {
    expect_simulations(&rt, rt.alloc(), JOINS_AND_SPLITS)?;
    expect_simulations(&rt, rt.alloc(), TRIPS_BETWEEN)
}

#[test]
fn a_catalogue_has_at_most_1000_compositions(rt: HostRuntime) -> Result<(), NoMemory> {
    expect_simulations(&rt, rt.alloc(), CATALOGUES)
}
