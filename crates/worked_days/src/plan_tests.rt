//! Planning a day: worked days and the answers to them, as the text that is written.

use crate::day::{
    A_DAY, AMPLE_ROOM, BASE_DAY, BOTH_STAY, CHEAP_SHUNTING, Day, NORTHPORT, ONE_STAYS,
    READY_AT_ONCE, RING, Simulation, TWO_TRIPS, TWO_TYPES, ample_sink, expect_into, expect_words,
    folder_of, status_of,
};
use rail_base::NoMemory;
use rail_io::MemorySink;
use std::alloc::Global;
use std::process::Abort;

/// Asserts the status and the whole answer of a day, by what follows the title line.
fn expect_answer(
    rt: &impl Abort,
    alloc: Global,
    day: &Day,
    words: &[&str],
    status: u8,
    rest: &str,
) -> Result<(), NoMemory> {
    let answer = format!(in alloc; "railplan answer 1\n{rest}")?;
    expect_words(rt, alloc, day, words, status, answer.as_str())
}

/// Asserts the status of a day that is planned over a sink, and the front of what is written.
fn expect_written(
    rt: &impl Abort,
    alloc: Global,
    day: &Day,
    out: &mut MemorySink,
    status: u8,
    front: &[u8],
) -> Result<(), NoMemory> {
    let mut folder = folder_of(rt, alloc, day, Vec::new(alloc))?;
    let found = status_of(rt, alloc, USUAL, &mut folder, out)?;
    assert!(rt; found == status && out.written().starts_with(front));
    Ok(())
}

/// Asserts the status of a day that is planned, and the front of what is written.
fn expect_begun(
    rt: &impl Abort,
    alloc: Global,
    day: &Day,
    status: u8,
    front: &[u8],
) -> Result<(), NoMemory> {
    let mut out = ample_sink(alloc, 100_000)?;
    expect_written(rt, alloc, day, &mut out, status, front)
}

/// Asserts the status of a day that is planned, and the front of its answer, by what follows the title line.
fn expect_front(
    rt: &impl Abort,
    alloc: Global,
    day: &Day,
    status: u8,
    front: &str,
) -> Result<(), NoMemory> {
    let front = format!(in alloc; "railplan answer 1\n{front}")?;
    expect_begun(rt, alloc, day, status, front.as_bytes())
}

/// Asserts the status of days that are planned, and the fronts of their answers, by what follows the title line.
pub(crate) fn expect_fronts(
    rt: &impl Abort,
    alloc: Global,
    rows: &[Simulation],
) -> Result<(), NoMemory> {
    for (day, status, front) in rows {
        expect_front(rt, alloc, day, *status, front)?;
    }
    Ok(())
}

/// Words of the plain form of `plan`, in each order, with the most branchings and rounds, with and without zeros in
/// front, and with any word in the first place.
const PLAIN_WORDS: &[&[&str]] = &[
    &[
        "railplan", "plan", "day", "--nodes", "4000", "--rounds", "100",
    ],
    &["railplan", "plan", "day", "--rounds=100", "--nodes=4000"],
    &["railplan", "plan", "--nodes=4000", "day", "--rounds=100"],
    &[
        "railplan", "plan", "--rounds", "100", "day", "--nodes", "4000",
    ],
    &["railplan", "plan", "--nodes=4000", "--rounds=100", "day"],
    &[
        "planner",
        "plan",
        "--rounds",
        "0000000100",
        "--nodes",
        "0000004000",
        "day",
    ],
];

/// The day of a turn, to be borrowed.
const TURN: &Day<'static> = &BASE_DAY;

#[test]
fn words_in_every_order_plan_a_day(rt: HostRuntime) -> Result<(), NoMemory> {
    for words in PLAIN_WORDS {
        let rest = "optimal 120\nbranchings 0\nrun 0 0 1\nrun 1 1 0\ntree\ncost 120 0\nend\n";
        expect_answer(&rt, rt.alloc(), TURN, *words, 0, rest)?;
    }
    Ok(())
}

/// A day, the words that plan it, the status, and the answer without its title.
pub(crate) type Planned = (Day<'static>, &'static [&'static str], u8, &'static str);

/// Words that grant what is usual.
pub(crate) const USUAL: &[&str] = &["railplan", "plan", "day"];

/// Days that are planned.
const PLANS: &[Planned] = &[
    // Plans that are optimal.
    (
        BASE_DAY,
        USUAL,
        0,
        "optimal 120\nbranchings 0\nrun 0 0 1\nrun 1 1 0\ntree\ncost 120 0\nend\n",
    ),
    (
        TWO_TRIPS,
        USUAL,
        0,
        "optimal 60\nbranchings 0\nrun 0 0\nrun 1 0\ntree\ncost 60 0\nend\n",
    ),
    (
        READY_AT_ONCE,
        USUAL,
        0,
        "optimal 60\nbranchings 0\nrun 0 0\nrun 1 0\ntree\ncost 60 0\nend\n",
    ),
    // The unit that stands at Y is ready before the one that arrives there.
    (
        Day {
            stock: Some("station,type,start,end\nX,A,1,1\nY,A,1,1\n"),
            ..TWO_TRIPS
        },
        USUAL,
        0,
        "optimal 60\nbranchings 0\nrun 0 0\nrun 1 1\ntree\ncost 60 0\nend\n",
    ),
    (
        NORTHPORT,
        USUAL,
        0,
        "optimal 13360\nbranchings 0\nrun 0 0 1\nrun 1 0\nrun 2 0\nrun 3 0 1\ntree\ncost 13360 0\nend\n",
    ),
    (
        ONE_STAYS,
        &["railplan", "plan", "day", "--nodes", "0"],
        0,
        "optimal 190\nbranchings 0\nrun 0 0 1\nrun 1 1\ntree\ncost 190 2 2:-45 3:45\nend\n",
    ),
    // Days on which branchings and rounds are granted.
    (
        ONE_STAYS,
        &["railplan", "plan", "day", "--nodes", "0", "--rounds", "0"],
        4,
        "bounded 120\nbranchings 0\ntree\ncost 120 0\nend\n",
    ),
    (
        ONE_STAYS,
        &["railplan", "plan", "day", "--nodes", "2", "--rounds", "0"],
        0,
        "optimal 190\nbranchings 2\nrun 0 0 1\nrun 1 1\ntree\nonly 0 1\nonly 1 1\nray 1 2:-1\ncost 190 0\n\
            ray 1 2:-1\nend\n",
    ),
    (
        CHEAP_SHUNTING,
        &["railplan", "plan", "day", "--nodes", "1", "--rounds", "0"],
        4,
        "bounded 100 plan 1060\nbranchings 1\nrun 0 0\nrun 1 0\ntree\nonly 0 1\ncost 100 0\ncost 1060 0\nend\n",
    ),
    // After the multipliers of the first round the cut of T1 to A is proposed, and none in the second round.
    (
        Day {
            stations: Some("station,platform,reallocation\nX,240,30\nY,240,30\n"),
            stock: Some("station,type,start,end\nX,A,2,1\nY,A,0,1\n"),
            trips: Some(
                "trip,from,departure,to,arrival,km,demand\nT1,X,08:00,Y,09:00,10,150\nT2,Y,09:40,X,10:40,10,150\n",
            ),
            ..TWO_TRIPS
        },
        &["railplan", "plan", "day", "--nodes", "1", "--rounds", "2"],
        0,
        "optimal 90\nbranchings 1\nrun 0 0 1\nrun 1 0\ntree\nonly 0 0\nray 1 2:-1\ncost 90 0\nend\n",
    ),
    // Days that no plan runs on.
    // Too many units stay.
    (
        BOTH_STAY,
        USUAL,
        1,
        "infeasible\nbranchings 0\ntree\nray 1 2:-1\nend\n",
    ),
    // The unit is not ready.
    (
        Day {
            trips: Some(
                "trip,from,departure,to,arrival,km,demand\nT1,X,08:00,Y,09:00,10,150\nT2,Y,09:29,X,10:30,10,150\n",
            ),
            ..TWO_TRIPS
        },
        USUAL,
        1,
        "infeasible\nbranchings 0\ntree\nray 1 1:1\nend\n",
    ),
    // There is one unit for two trips.
    (
        Day {
            stock: Some("station,type,start,end\nX,A,1,0\nY,A,0,1\n"),
            trips: Some(
                "trip,from,departure,to,arrival,km,demand\nT1,X,08:00,Y,09:00,10,150\nT2,X,08:00,Y,09:00,10,150\n",
            ),
            ..TWO_TRIPS
        },
        USUAL,
        1,
        "infeasible\nbranchings 0\ntree\nray 1 0:1\nend\n",
    ),
    // Days without trips: there is nothing to do, or a unit is to leave that can't.
    (
        Day {
            stock: Some("station,type,start,end\nX,A,2,2\n"),
            trips: Some("trip,from,departure,to,arrival,km,demand\n"),
            ..TWO_TRIPS
        },
        USUAL,
        0,
        "optimal 0\nbranchings 0\ntree\ncost 0 0\nend\n",
    ),
    (
        Day {
            stock: Some("station,type,start,end\nX,A,2,1\n"),
            trips: Some("trip,from,departure,to,arrival,km,demand\n"),
            ..TWO_TRIPS
        },
        USUAL,
        1,
        "infeasible\nbranchings 0\ntree\nray 1 0:-1\nend\n",
    ),
];

/// Asserts the status and the whole answer of each of these days.
pub(crate) fn expect_answers(
    rt: &impl Abort,
    alloc: Global,
    rows: &[Planned],
) -> Result<(), NoMemory> {
    for (day, words, status, rest) in rows {
        expect_answer(rt, alloc, day, *words, *status, rest)?;
    }
    Ok(())
}

#[test]
fn days_are_planned(rt: HostRuntime) -> Result<(), NoMemory> {
    expect_answers(&rt, rt.alloc(), PLANS)
}

/// Days of joins and of two types, and how their answers begin.
const FRONTS: &[Simulation] = &[(RING, 0, "optimal 1270\n"), (TWO_TYPES, 0, "optimal 170\n")];

#[test]
fn days_of_joins_and_of_two_types_are_planned(rt: HostRuntime) -> Result<(), NoMemory> {
    expect_fronts(&rt, rt.alloc(), FRONTS)
}

/// The rows of 400 trips that run at once for almost two days, each over the most kilometres and with the most demand.
fn longest_trips(alloc: Global) -> Result<String, NoMemory> {
    let mut text = String::from_str(alloc, "trip,from,departure,to,arrival,km,demand\n")?;
    for trip in 0..400u32 {
        write!(&mut text, "T{trip},X,00:00,Y,47:59,1000,10000\n")?;
    }
    Ok(text)
}

/// The day of these trips between two stations, with as many units of 20 carriages as trips, and the dearest weights.
fn dearest_day(trips: &str) -> Day {
    Day {
        types: Some("type,carriages,seats,metres,family\nA,20,1,500,regional\n"),
        stations: Some("station,platform,reallocation\nX,500,0\nY,500,0\n"),
        stock: Some("station,type,start,end\nX,A,400,0\nY,A,0,400\n"),
        trips: Some(trips),
        weights: Some("carriage,shortage,shunting\n10000,10000,10000\n"),
        ..*A_DAY
    }
}

#[test]
fn the_dearest_day_is_planned(rt: HostRuntime) -> Result<(), NoMemory> {
    let trips = longest_trips(rt.alloc())?;
    let front = "optimal 40076000000000\nbranchings 0\n";
    expect_front(&rt, rt.alloc(), &dearest_day(trips.as_str()), 0, front)
}

/// Asserts that of an answer is written what comes before the write that fails, of 16 bytes each.
fn expect_two_writes(rt: &impl Abort, alloc: Global) -> Result<(), NoMemory> {
    let mut out = MemorySink::new(alloc, AMPLE_ROOM, 16, vec![in alloc; 2]?)?;
    let front = b"railplan answer 1\noptimal 120\nbr";
    expect_into(rt, alloc, TURN, USUAL, &mut out, 6, front)
}

#[test]
fn a_front_of_an_answer_is_written(rt: HostRuntime) -> Result<(), NoMemory> {
    expect_two_writes(&rt, rt.alloc())
}
