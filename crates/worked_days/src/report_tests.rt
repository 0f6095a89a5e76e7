//! Reports on the plan of an answer, and trial days.

use crate::day::{
    A_DAY, STAYING, ample_sink, expect_answered, expect_into, expect_words, folder_of, status_of,
};
use rail_base::NoMemory;
use rail_io::MemorySink;
use std::alloc::Global;
use std::process::Abort;

pub(crate) const ONE_RETURNS: &str =
    "railplan answer 1\noptimal 190\nbranchings 0\nrun 0 0 1\nrun 1 1\ntree\ncost 190 2 2:-45 3:45\nend\n";

pub(crate) const FIRST_BOUND: &str =
    "railplan answer 1\nbounded 120\nbranchings 0\ntree\ncost 120 0\nend\n";

pub(crate) const WRONG_BOUND: &str =
    "railplan answer 1\noptimal 190\nbranchings 0\nrun 0 0 1\nrun 1 1\ntree\ncost 191 2 2:-45 3:45\nend\n";

pub(crate) const DUTIES: &str =
    "unit,type,home,trip,from,departure,to,arrival,position\n0,A,X,T1,X,08:00,Y,09:00,0\n\
        1,A,X,T1,X,08:00,Y,09:00,1\n1,A,X,T2,Y,09:10,X,10:10,0\n";

pub(crate) const YARDS: &str =
    "station,type,time,taken,ready,count\nX,A,start,0,0,2\nX,A,08:00,2,0,0\nX,A,end,0,1,1\nY,A,start,0,0,0\n\
        Y,A,09:10,0,0,0\nY,A,end,0,1,1\n";

pub(crate) const COSTS: &str = "part,amount\ncarriage,90\nshortage,0\nshunting,100\ntotal,190\n";

/// Reports on the day on which one unit stays: the command, the answer, the status and the document.
const REPORTS: &[(&str, &str, u8, &str)] = &[
    ("duties", ONE_RETURNS, 0, DUTIES),
    ("yards", ONE_RETURNS, 0, YARDS),
    ("costs", ONE_RETURNS, 0, COSTS),
    ("duties", FIRST_BOUND, 1, "no plan\n"),
    ("yards", FIRST_BOUND, 1, "no plan\n"),
    ("costs", FIRST_BOUND, 1, "no plan\n"),
    (
        "yards",
        WRONG_BOUND,
        1,
        "invalid: node 0 says 191, found 190\n",
    ),
    (
        "costs",
        "railplan answer 1\nbounded 121\nbranchings 0\ntree\ncost 121 0\nend\n",
        1,
        "invalid: node 0 says 121, found 120\n",
    ),
    (
        "costs",
        "railplan answer 1\n",
        3,
        "refused answer.txt: no end line\n",
    ),
];

#[test]
fn valid_answers_are_reported(rt: HostRuntime) -> Result<(), NoMemory> {
    for (command, answer, status, document) in REPORTS {
        expect_answered(&rt, rt.alloc(), command, STAYING, answer, *status, document)?;
    }
    Ok(())
}

/// Words that plan a trial day of two trips, the status, and what is written: the second line of the answer, or all of
/// it where it says that the search was bounded.
const SHORT_TRIALS: &[(&[&str], u8, &str)] = &[
    (
        &["railplan", "trial", "07", "2", "--nodes", "224"],
        0,
        "trial 7 2\noptimal 640\n",
    ),
    (
        &[
            "",
            "trial",
            "--nodes=224",
            "0000000007",
            "--rounds",
            "20",
            "2",
        ],
        0,
        "trial 7 2\noptimal 640\n",
    ),
    (
        &["railplan", "trial", "7", "2", "--nodes=0", "--rounds=0"],
        4,
        "trial 7 2\nrailplan answer 1\nbounded 580\nbranchings 0\ntree\ncost 580 0\nend\n",
    ),
    (
        &["railplan", "trial", "7", "2", "--nodes=2", "--rounds=0"],
        4,
        "trial 7 2\nrailplan answer 1\nbounded 580 plan 640\nbranchings 2\nrun 0 0 1 2\nrun 1 2 1 0\ntree\n\
            only 0 7\nonly 1 4\nray 1 4:1\ncost 640 0\ncost 580 0\nend\n",
    ),
];

#[test]
fn short_trial_days_are_planned(rt: HostRuntime) -> Result<(), NoMemory> {
    for &(words, status, document) in SHORT_TRIALS {
        expect_words(&rt, rt.alloc(), A_DAY, words, status, document)?;
    }
    Ok(())
}

/// The status of a trial day by these words, whose document goes to a sink.
fn trial_status(
    rt: &impl Abort,
    alloc: Global,
    words: &[&str],
    out: &mut MemorySink,
) -> Result<u8, NoMemory> {
    let mut folder = folder_of(rt, alloc, A_DAY, Vec::new(alloc))?;
    status_of(rt, alloc, words, &mut folder, out)
}

/// Asserts that a trial day by these words comes to this status and this document.
fn expect_same(
    rt: &impl Abort,
    alloc: Global,
    words: &[&str],
    status: u8,
    document: &[u8],
) -> Result<(), NoMemory> {
    let mut out = ample_sink(alloc, 10_000_000)?;
    expect_into(rt, alloc, A_DAY, words, &mut out, status, document)
}

/// Asserts that a trial day by these words comes to a plan or a bound over a sink, and its document begins with this
/// line. The answer is the status.
fn expect_begun(
    rt: &impl Abort,
    alloc: Global,
    words: &[&str],
    out: &mut MemorySink,
    line: &[u8],
) -> Result<u8, NoMemory> {
    let status = trial_status(rt, alloc, words, out)?;
    assert!(rt; (status == 0 || status == 4) && out.written().starts_with(line));
    Ok(status)
}

/// Asserts that a trial day by these words comes to a plan or a bound, and its document begins with this line. Where it
/// is told, that comes to the same when it is planned again.
fn expect_long_trial(
    rt: &impl Abort,
    alloc: Global,
    words: &[&str],
    line: &[u8],
    is_repeated: bool,
) -> Result<(), NoMemory> {
    let mut out = ample_sink(alloc, 10_000_000)?;
    let status = expect_begun(rt, alloc, words, &mut out, line)?;
    if is_repeated {
        return expect_same(rt, alloc, words, status, out.written());
    }
    Ok(())
}

/// A trial day of forty trips.
const FORTY_TRIPS: &[&str] = &["railplan", "trial", "7", "40", "--nodes=60"];

/// The greatest seed and the most trips, with options before and between them.
const LONGEST_TRIAL: &[&str] = &[
    "railplan",
    "trial",
    "--rounds",
    "0",
    "4294967295",
    "--nodes=0",
    "400",
];

#[test]
fn a_trial_day_of_forty_trips_is_planned(rt: HostRuntime) -> Result<(), NoMemory> {
    expect_long_trial(&rt, rt.alloc(), FORTY_TRIPS, b"trial 7 40\n", true)
}

#[test]
fn the_longest_trial_day_is_planned(rt: HostRuntime) -> Result<(), NoMemory> {
    let line = b"trial 4294967295 400\n";
    expect_long_trial(&rt, rt.alloc(), LONGEST_TRIAL, line, false)
}
