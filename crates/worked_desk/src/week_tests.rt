//! Weeks that are planned at the desk.

use crate::desk::{expect_front, expect_over};
use rail_base::NoMemory;
use rail_base::name::is_name;
use rail_io::{MemoryFile, MemoryFolder};
use sample_days::{ONE_LEFT, TURN, Texts};
use std::alloc::Global;
use std::process::Abort;

/// The day of two trips with other types, with another station, with three units wanted in the evening, and with trips
/// in the night after it, of which the second arrives half an hour before the first trip of the next day leaves.
const OTHER_TYPES: Texts<'static> = Texts {
    types: b"type,carriages,seats,metres,family\nA,4,200,80,regional\n",
    ..TURN
};

const OTHER_STATIONS: Texts<'static> = Texts {
    stations: b"station,platform,reallocation\nX,200,30\nY,210,30\n",
    ..TURN
};

const THREE_WANTED: Texts<'static> = Texts {
    stock: b"station,type,start,end\nX,A,2,3\n",
    ..TURN
};

const NIGHT_TRIP: Texts<'static> = Texts {
    trips: b"trip,from,departure,to,arrival,km,demand\nT1,X,29:00,Y,30:00,10,300\nT2,Y,30:10,X,31:30,10,150\n",
    ..TURN
};
/// The same a minute later.
const LATE_TRIP: Texts<'static> = Texts {
    trips: b"trip,from,departure,to,arrival,km,demand\nT1,X,29:00,Y,30:00,10,300\nT2,Y,30:10,X,31:31,10,150\n",
    ..TURN
};
/// The day after `ONE_LEFT`: a unit stands at each station, and that at Y is coupled to the train that turns there.
const FETCHED: Texts<'static> = Texts {
    stock: b"station,type,start,end\nX,A,1,2\nY,A,1,0\n",
    links: b"kind,arriving,arriving2,departing,departing2,reverse,uncouple,couple\n\
        turn,T1,,T2,,yes,none,rear\n",
    ..TURN
};
/// A day whose table of stock is none.
const NO_STOCK: Texts<'static> = Texts {
    stock: b"station,type,start\nX,A,2\n",
    ..TURN
};

/// The folder `week` with these days, whose reads fail at these numbers.
fn folder_of(
    rt: &impl Abort,
    alloc: Global,
    days: &[Texts<'_>],
    failing: &[u64],
) -> Result<MemoryFolder, NoMemory> {
    let mut files = Vec::new(alloc);
    for place in 0..days.len() {
        add_day(rt, alloc, &mut files, place, &days[place])?;
    }
    MemoryFolder::new(alloc, files, failing.to_vec(alloc)?)
}

/// Adds a table of the day of a number.
fn add_table(
    rt: &impl Abort,
    alloc: Global,
    files: &mut Vec<MemoryFile>,
    number: usize,
    name: &str,
    bytes: &[u8],
) -> Result<(), NoMemory> {
    let path = format!(in alloc; "week/{number}/{name}.csv")?;
    assert!(rt; is_name(path.as_bytes()));
    Ok(files.push(MemoryFile::new(alloc, path.as_str(), bytes)?)?)
}

/// Adds the files of a day, of which so many days go before.
fn add_day(
    rt: &impl Abort,
    alloc: Global,
    files: &mut Vec<MemoryFile>,
    before: usize,
    texts: &Texts<'_>,
) -> Result<(), NoMemory> {
    let tables: [(&str, &[u8]); 6] = [
        ("types", texts.types),
        ("stations", texts.stations),
        ("stock", texts.stock),
        ("trips", texts.trips),
        ("links", texts.links),
        ("weights", b"carriage,shortage,shunting\n1,1,100\n"),
    ];
    let number = before.saturating_add(1);
    for (name, bytes) in &tables {
        add_table(rt, alloc, files, number, *name, *bytes)?;
    }
    Ok(())
}

/// Days, how many of them are asked for, the branchings that are granted, the reads that fail, and what comes of it:
/// the status, and how the document begins.
type Case<'a> = (&'a [Texts<'a>], &'a str, &'a str, &'a [u64], u8, &'a str);

/// What comes of weeks without advice.
const CASES: &[Case<'static>] = &[
    (
        &[TURN, TURN],
        "2",
        "200",
        &[],
        0,
        "week optimal 240\nday 1\nrailplan answer 1\noptimal 120\n",
    ),
    (
        &[TURN, ONE_LEFT],
        "02",
        "0",
        &[],
        4,
        "week bounded 240\nday 1\n",
    ),
    (
        &[TURN, THREE_WANTED],
        "2",
        "200",
        &[],
        1,
        "week infeasible\nday 1\n",
    ),
    (
        &[TURN, THREE_WANTED],
        "1",
        "200",
        &[],
        0,
        "week optimal 120\nday 1\n",
    ),
    (
        &[TURN, OTHER_TYPES],
        "2",
        "200",
        &[],
        3,
        "refused 2/types.csv\n",
    ),
    (
        &[TURN, OTHER_STATIONS],
        "2",
        "200",
        &[],
        3,
        "refused 2/stations.csv\n",
    ),
    (
        &[ONE_LEFT, ONE_LEFT],
        "2",
        "200",
        &[],
        3,
        "refused 2/stock.csv\n",
    ),
    (
        &[NIGHT_TRIP, TURN],
        "2",
        "200",
        &[],
        0,
        "week optimal 240\n",
    ),
    (
        &[LATE_TRIP, TURN],
        "2",
        "200",
        &[],
        3,
        "refused 1/trips.csv\n",
    ),
    // All days are read before one is compared with another.
    (
        &[TURN, OTHER_TYPES, NO_STOCK],
        "3",
        "200",
        &[],
        3,
        "refused 3/stock.csv\n",
    ),
    // Each file of these is read by two calls, the second of which finds its end.
    (
        &[TURN, OTHER_TYPES, NO_STOCK],
        "3",
        "200",
        &[16],
        5,
        "cannot read 2/stock.csv\n",
    ),
];

/// Asserts what comes of a week.
fn expect_case(rt: &impl Abort, alloc: Global, case: &Case<'_>) -> Result<(), NoMemory> {
    let (days, count, nodes, failing, status, begins) = case;
    let mut folder = folder_of(rt, alloc, *days, *failing)?;
    let words = ["week", "week", *count, "--rounds=0", "--nodes", *nodes];
    expect_front(rt, alloc, &mut folder, &words, *status, *begins)
}

#[test]
fn weeks_are_planned_or_refused(rt: HostRuntime) -> Result<(), NoMemory> {
    for case in CASES {
        expect_case(&rt, rt.alloc(), case)?;
    }
    Ok(())
}

/// Days, the words, the status, and all that is written.
type Whole<'a> = (&'a [Texts<'a>], &'a [&'a str], u8, &'a str);

/// Weeks with all that is written of them.
const WHOLE: &[Whole<'static>] = &[
    // The second unit comes back, so that it is the first at X on the next day. Advice spares branchings.
    (
        &[ONE_LEFT, FETCHED],
        &["week", "week", "2"],
        0,
        "week optimal 1380\n\
            day 1\nrailplan answer 1\noptimal 190\nbranchings 0\nrun 0 0 1\nrun 1 1\ntree\n\
            cost 190 2 2:-45 3:45\nend\n\
            day 2\nrailplan answer 1\noptimal 1190\nbranchings 1\nrun 0 0\nrun 1 0 1\ntree\n\
            only 0 1\nray 1 0:1\ncost 1190 3 0:101 2:101 3:-101\nend\n\
            names 1 0 1\nnames 2 1 0\nend\n",
    ),
    // Without both, the first two days stay bounded, and the third counts with what it costs.
    (
        &[ONE_LEFT, FETCHED, TURN],
        &["week", "week", "3", "--nodes", "0", "--rounds", "0"],
        4,
        "week bounded 360\n\
            day 1\nrailplan answer 1\nbounded 120\nbranchings 0\ntree\ncost 120 0\nend\n\
            day 2\nrailplan answer 1\nbounded 120\nbranchings 0\ntree\ncost 120 0\nend\n\
            day 3\nrailplan answer 1\noptimal 120\nbranchings 0\nrun 0 0 1\nrun 1 1 0\ntree\ncost 120 0\nend\n\
            end\n",
    ),
    // The improver finds plans of them.
    (
        &[ONE_LEFT, FETCHED, TURN],
        &[
            "week",
            "week",
            "3",
            "--nodes",
            "0",
            "--rounds",
            "0",
            "--evaluations",
            "1",
        ],
        4,
        "week bounded 360 plan 1500\n\
            day 1\nrailplan answer 1\nbounded 120 plan 190\nbranchings 0\nrun 0 0 1\nrun 1 1\ntree\n\
            cost 120 0\nend\n\
            day 2\nrailplan answer 1\nbounded 120 plan 1190\nbranchings 0\nrun 0 0\nrun 1 0 1\ntree\n\
            cost 120 0\nend\n\
            day 3\nrailplan answer 1\noptimal 120\nbranchings 0\nrun 0 0 1\nrun 1 1 0\ntree\ncost 120 0\nend\n\
            names 1 0 1\nnames 2 1 0\nnames 3 0 1\nend\n",
    ),
];

/// Asserts all that is written of a week.
fn expect_whole(
    rt: &impl Abort,
    alloc: Global,
    days: &[Texts<'_>],
    words: &[&str],
    status: u8,
    document: &str,
) -> Result<(), NoMemory> {
    let mut folder = folder_of(rt, alloc, days, &[])?;
    expect_over(rt, alloc, &mut folder, words, status, document)
}

#[test]
fn weeks_are_written_whole(rt: HostRuntime) -> Result<(), NoMemory> {
    for (days, words, status, document) in WHOLE {
        expect_whole(&rt, rt.alloc(), *days, *words, *status, *document)?;
    }
    Ok(())
}

/// Words of no plain form of `week`: a folder or a number of days too few, and numbers over their limits.
const OTHER_WORDS: &[&[&str]] = &[
    &["week", "week"],
    &["week", "week", "0"],
    &["week", "week", "8"],
    &["week", "week", "two"],
    &["week", "week", "2", "2"],
    &["week", "week", "2", "--nodes", "4001"],
    &["week", "week", "2", "--progress"],
];

/// A week of two days.
const TWO_DAYS: &[Texts<'static>] = &[TURN, TURN];

#[test]
fn other_words_plan_no_week(rt: HostRuntime) -> Result<(), NoMemory> {
    for words in OTHER_WORDS {
        expect_whole(&rt, rt.alloc(), TWO_DAYS, *words, 2, "usage\n")?;
    }
    Ok(())
}
