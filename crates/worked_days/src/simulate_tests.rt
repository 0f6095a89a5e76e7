//! Running a plan: worked days with their lines, refused files, and reads and writes that fail.

use crate::day::{
    A_DAY, Day, Simulation, TWO_TRIPS, TWO_TYPES, bytewise_sink, expect_ample, expect_document,
    expect_into, expect_simulated, expect_simulations, expect_words, folder_of, folder_with_day_at,
};
use rail_base::NoMemory;
use rail_io::MemorySink;
use std::alloc::Global;
use std::process::Abort;

/// Trips on which the second leaves a minute before the unit of the first is ready.
const A_MINUTE_EARLY: Day<'static> = Day {
    trips: Some(
        "trip,from,departure,to,arrival,km,demand\nT1,X,08:00,Y,09:00,10,150\nT2,Y,09:29,X,10:29,10,150\n",
    ),
    ..TWO_TRIPS
};

/// The day of two trips with a unit more.
const TWO_UNITS: Day<'static> = Day {
    stock: Some("station,type,start,end\nX,A,2,2\n"),
    ..TWO_TRIPS
};

/// That day with a platform on which one unit fits alone.
const SHORT_PLATFORM: Day<'static> = Day {
    stations: Some("station,platform,reallocation\nX,159,30\nY,200,30\n"),
    ..TWO_UNITS
};

/// A day without trips.
const NO_TRIPS: Day<'static> = Day {
    trips: Some("trip,from,departure,to,arrival,km,demand\n"),
    plan: Some("trip,units\n"),
    ..TWO_TRIPS
};

/// Plans and the units that they need.
const UNITS: &[Simulation] = &[
    (TWO_TRIPS, 0, "runs 60\n"),
    (A_MINUTE_EARLY, 1, "stops: unit 0 is not ready for trip 1\n"),
    // Of two that are not ready the one in front is told.
    (
        Day {
            stock: Some("station,type,start,end\nX,A,2,2\n"),
            plan: Some("trip,units\nT1,0 1\nT2,1 0\n"),
            ..A_MINUTE_EARLY
        },
        1,
        "stops: unit 1 is not ready for trip 1\n",
    ),
    // A unit leaves once in a minute.
    (
        Day {
            trips: Some(
                "trip,from,departure,to,arrival,km,demand\nT1,X,08:00,Y,09:00,10,150\nT2,X,08:00,Y,09:00,10,150\n",
            ),
            ..TWO_TRIPS
        },
        1,
        "stops: unit 0 is not ready for trip 1\n",
    ),
    // A trip has units, and each once.
    (
        Day {
            plan: Some("trip,units\nT1,0\nT2,\n"),
            ..TWO_TRIPS
        },
        1,
        "stops: trip 1 has no units\n",
    ),
    (
        Day {
            plan: Some("trip,units\nT1,1 1\nT2,1\n"),
            ..TWO_UNITS
        },
        1,
        "stops: unit 1 is not ready for trip 0\n",
    ),
    (
        Day {
            plan: Some("trip,units\nT1,1 0\nT2,0 1\n"),
            ..TWO_UNITS
        },
        0,
        "runs 120\n",
    ),
    (
        Day {
            plan: Some("trip,units\nT1,1 0\nT2,0 1\n"),
            ..SHORT_PLATFORM
        },
        1,
        "stops: trip 0 has no admissible composition\n",
    ),
    (
        Day {
            plan: Some("trip,units\nT1,1 1\nT2,1\n"),
            ..SHORT_PLATFORM
        },
        1,
        "stops: trip 0 has no admissible composition\n",
    ),
    (
        Day {
            types: Some(
                "type,carriages,seats,metres,family\nA,3,200,80,regional\nB,2,100,60,diesel\n",
            ),
            stations: Some("station,platform,reallocation\nX,240,30\nY,240,30\n"),
            stock: Some("station,type,start,end\nX,A,2,2\nX,B,1,1\n"),
            plan: Some("trip,units\nT1,0 2 1\nT2,0 2 1\n"),
            ..TWO_TRIPS
        },
        1,
        "stops: trip 0 has no admissible composition\n",
    ),
];

/// Stations, which end at their balance, and a day on which nothing runs.
const BALANCES: &[Simulation] = &[
    (
        Day {
            stock: Some("station,type,start,end\nX,A,1,0\nY,A,0,1\n"),
            ..TWO_TRIPS
        },
        1,
        "stops: station 0 has 1 units of type 0, 0 wanted\n",
    ),
    (
        Day {
            stock: Some("station,type,start,end\nX,A,1,0\nX,B,2,3\nY,A,0,1\n"),
            ..TWO_TYPES
        },
        1,
        "stops: station 0 has 2 units of type 1, 3 wanted\n",
    ),
    // The first station comes before the first type.
    (
        Day {
            types: Some(
                "type,carriages,seats,metres,family\nA,3,200,80,r\nB,3,200,80,r\nC,3,200,80,r\n",
            ),
            stations: Some("station,platform,reallocation\nX,200,30\nY,200,30\nZ,200,30\n"),
            stock: Some("station,type,start,end\nY,C,4,3\nZ,A,1,0\n"),
            ..NO_TRIPS
        },
        1,
        "stops: station 1 has 4 units of type 2, 3 wanted\n",
    ),
    (NO_TRIPS, 0, "runs 0\n"),
];

/// Files, which are read as CSV, and of which the first that is wrong is refused.
const FILES: &[Simulation] = &[
    (
        Day {
            stations: Some("\u{feff}station,platform,reallocation\r\n\"X\",200,30\r\n\r\nY,200,30"),
            ..TWO_TRIPS
        },
        0,
        "runs 60\n",
    ),
    (
        Day {
            types: Some(""),
            ..TWO_TRIPS
        },
        3,
        "refused types.csv: wrong header\n",
    ),
    (
        Day {
            trips: Some(
                "trip,from,departure,to,arrival,km,demand\nT1,X,08:00,Y,09:00,0,300\nT2,Y,8h,X,10:10,10,150\n",
            ),
            ..TWO_TRIPS
        },
        3,
        "refused trips.csv: row 1, column km: out of range\n",
    ),
    (
        Day {
            stations: Some("station,platform,reallocation\nX,79,30\nY,79,30\n"),
            ..TWO_TRIPS
        },
        3,
        "refused trips.csv: row 1: no composition fits\n",
    ),
    (
        Day {
            plan: Some("trip,units\nT1,0\nT2,1\n"),
            ..TWO_TRIPS
        },
        3,
        "refused plan.csv: row 2: unknown unit\n",
    ),
    (
        Day {
            plan: Some("trip,units\nT1,0\n"),
            ..TWO_TRIPS
        },
        3,
        "refused plan.csv: trip missing after row 1\n",
    ),
    (
        Day {
            trips: None,
            ..TWO_TRIPS
        },
        5,
        "cannot read trips.csv\n",
    ),
];

#[test]
fn a_trip_has_units_that_are_ready_and_each_once(rt: HostRuntime) -> Result<(), NoMemory> {
    expect_simulations(&rt, rt.alloc(), UNITS)
}

#[test]
fn stations_end_at_their_balance(rt: HostRuntime) -> Result<(), NoMemory> {
    expect_simulations(&rt, rt.alloc(), BALANCES)
}

#[test]
fn the_first_wrong_file_is_refused(rt: HostRuntime) -> Result<(), NoMemory> {
    expect_simulations(&rt, rt.alloc(), FILES)
}

/// Folders that a run of the day `week/2` is asked for, the status and the document.
const BELOW: &[(&str, u8, &str)] = &[
    ("week/2", 0, "runs 60\n"),
    ("week", 5, "cannot read types.csv\n"),
    ("2", 5, "cannot read types.csv\n"),
];

/// Asserts what a run comes to that is asked for in a folder, where a day lies below another folder.
fn expect_below(
    rt: &impl Abort,
    alloc: Global,
    dir: &str,
    status: u8,
    document: &str,
) -> Result<(), NoMemory> {
    let mut folder = folder_with_day_at(rt, alloc, "week/2", A_DAY)?;
    let words = ["railplan", "simulate", dir];
    expect_ample(rt, alloc, &words, &mut folder, status, document)
}

#[test]
fn a_day_may_lie_below_another_folder(rt: HostRuntime) -> Result<(), NoMemory> {
    for &(dir, status, document) in BELOW {
        expect_below(&rt, rt.alloc(), dir, status, document)?;
    }
    Ok(())
}

/// Asserts that a day is not run whose read of this number fails, and what is written then.
fn expect_unread(
    rt: &impl Abort,
    alloc: Global,
    day: &Day,
    read: u64,
    document: &str,
) -> Result<(), NoMemory> {
    let failing = vec![in alloc; read]?;
    let mut folder = folder_of(rt, alloc, day, failing)?;
    expect_simulated(rt, alloc, &mut folder, 5, document)
}

/// The day of two trips with another table of types.
fn with_types<'a>(types: Option<&'a str>) -> Day<'a> {
    Day { types, ..*A_DAY }
}

/// Asserts that a day with these line feeds as its types is refused for their length, and where its first read fails
/// for that; and with one less for its header.
fn expect_too_long(rt: &impl Abort, alloc: Global, text: &str) -> Result<(), NoMemory> {
    let day = with_types(Some(text));
    expect_document(rt, alloc, &day, 3, "refused types.csv: too long\n")?;
    expect_unread(rt, alloc, &day, 0, "cannot read types.csv\n")?;
    let shorter = with_types(text.get(1..));
    expect_document(rt, alloc, &shorter, 3, "refused types.csv: wrong header\n")
}

#[test]
fn a_table_may_have_4194304_bytes(rt: HostRuntime) -> Result<(), NoMemory> {
    let text = "\n".repeat(rt.alloc(), 4_194_305)?;
    expect_too_long(&rt, rt.alloc(), text.as_str())
}

#[test]
fn a_file_that_cannot_be_read_is_named(rt: HostRuntime) -> Result<(), NoMemory> {
    expect_unread(&rt, rt.alloc(), A_DAY, 2, "cannot read stations.csv\n")
}

/// Asserts that the day of two trips cannot be written whole into a sink, and what it takes of it.
fn expect_cut(
    rt: &impl Abort,
    alloc: Global,
    out: &mut MemorySink,
    front: &[u8],
) -> Result<(), NoMemory> {
    let words = &["railplan", "simulate", "day"];
    expect_into(rt, alloc, A_DAY, words, out, 6, front)
}

/// Asserts that the day of two trips is written up to the write that fails, of a byte each.
fn expect_cut_at(rt: &impl Abort, alloc: Global, write: u64, front: &[u8]) -> Result<(), NoMemory> {
    let mut out = bytewise_sink(alloc, vec![in alloc; write]?)?;
    expect_cut(rt, alloc, &mut out, front)
}

/// Asserts that nothing is written of the day of two trips where there is no room.
fn expect_nothing(rt: &impl Abort, alloc: Global) -> Result<(), NoMemory> {
    let mut out = MemorySink::new(alloc, 0, 100, Vec::new(alloc))?;
    expect_cut(rt, alloc, &mut out, &[])
}

#[test]
fn a_sink_that_fails_keeps_a_front(rt: HostRuntime) -> Result<(), NoMemory> {
    let document = b"runs 60\n";
    for write in 0..8u64 {
        expect_cut_at(&rt, rt.alloc(), write, &document[..write as usize])?;
    }
    expect_nothing(&rt, rt.alloc())
}

pub(crate) const USAGE: &str = "usage: railplan plan DIR [--nodes N] [--rounds K]
       railplan simulate DIR
       railplan check DIR
       railplan duties DIR
       railplan yards DIR
       railplan costs DIR
       railplan trial SEED TRIPS [--nodes N] [--rounds K]
";

/// Words that are not of the plain form.
const OTHER_WORDS: &[&[&str]] = &[
    &[],
    &["railplan"],
    &["railplan", "simulate"],
    &["railplan", "simulate", ""],
    &["railplan", "simulate", "-day"],
    &["railplan", "simulate", "day", "day"],
    &["railplan", "plan"],
    &["railplan", "help"],
    &["railplan", "plan", "day", "day"],
    &["railplan", "plan", "day", "--nodes"],
    &["railplan", "plan", "day", "--nodes="],
    &["railplan", "plan", "day", "--nodes", "4001"],
    &["railplan", "plan", "day", "--rounds", "101"],
    &["railplan", "plan", "day", "--nodes=1", "--nodes=1"],
    &["railplan", "simulate", "day", "--nodes=1"],
    &["railplan", "check", "day", "--rounds=1"],
    &["railplan", "trial", "7", "3"],
    &["railplan", "trial", "7", "0"],
    &["railplan", "trial", "7", "402"],
    &["railplan", "trial", "4294967296", "2"],
    &["railplan", "--help"],
];

#[test]
fn other_words_are_refused(rt: HostRuntime) -> Result<(), NoMemory> {
    for words in OTHER_WORDS {
        expect_words(&rt, rt.alloc(), A_DAY, *words, 2, USAGE)?;
    }
    Ok(())
}
