//! Fleets that are found at the desk.

use crate::desk::{Program, Run, ample_sink, expect_over, expect_runs, folder_with, status_of};
use rail_base::NoMemory;
use rail_io::MemoryFolder;
use sample_days::{TURN, Texts};
use std::alloc::Global;
use std::process::Abort;

/// The day of two trips where no unit may stand.
const NO_UNITS: Texts<'static> = Texts {
    stock: b"station,type,start,end\nX,A,0,0\n",
    ..TURN
};

/// A day whose table of stock is none.
const NO_STOCK: Texts<'static> = Texts {
    stock: b"station,type,start\nX,A,2\n",
    ..TURN
};

/// A fleet without advice, with units of 500. One unit costs 1060 on the day, and two cost 120.
const FOUND: Run<'static> = Run {
    texts: TURN,
    more: &[("day/fleet.csv", b"type,cost\nA,500\n")],
    failing: &[],
    words: &["fleet", "day", "--rounds=0", "--splits", "50"],
    status: 0,
    document: "",
};

/// What comes of fleets without advice.
const CASES: &[Run<'static>] = &[
    Run {
        status: 0,
        document: "fleet optimal 1120\nsplits 2\nstock 0 0 2\nstock 1 0 0\nrun 0 0 1\nrun 1 1 0\nend\n",
        ..FOUND
    },
    Run {
        more: &[("day/fleet.csv", b"type,cost\nA,1000\n")],
        status: 0,
        document: "fleet optimal 2060\nsplits 2\nstock 0 0 1\nstock 1 0 0\nrun 0 0\nrun 1 0\nend\n",
        ..FOUND
    },
    Run {
        words: &["fleet", "day", "--rounds=0", "--splits", "0"],
        status: 4,
        document: "fleet bounded 120 plan 1120\nsplits 0\nstock 0 0 2\nstock 1 0 0\nrun 0 0 1\nrun 1 1 0\nbound 120\n\
         branchings 0\ntree\ncost 120 0\nend\n",
        ..FOUND
    },
    Run {
        texts: NO_UNITS,
        status: 1,
        document: "fleet infeasible\nsplits 0\nend\n",
        ..FOUND
    },
    Run {
        more: &[("day/fleet.csv", b"type,cost\nB,500\n")],
        status: 3,
        document: "refused fleet.csv\n",
        ..FOUND
    },
    Run {
        more: &[("day/fleet.csv", b"type,cost\n")],
        status: 3,
        document: "refused fleet.csv\n",
        ..FOUND
    },
    // The tables of the day are read before that of the prices, each by two calls.
    Run {
        texts: NO_STOCK,
        more: &[("day/fleet.csv", b"type,cost\n")],
        failing: &[12],
        status: 3,
        document: "refused stock.csv\n",
        ..FOUND
    },
    Run {
        failing: &[12],
        status: 5,
        document: "cannot read fleet.csv\n",
        ..FOUND
    },
];

#[test]
fn fleets_are_found_or_refused(rt: HostRuntime) -> Result<(), NoMemory> {
    expect_runs(&rt, rt.alloc(), CASES)
}

/// The day of two trips, to be borrowed.
const DAY: &Texts<'static> = &TURN;

/// The folder of the day of two trips and of prices.
fn folder_at(rt: &impl Abort, alloc: Global, prices: &[u8]) -> Result<MemoryFolder, NoMemory> {
    folder_with(rt, alloc, DAY, &[("day/fleet.csv", prices)], &[])
}

/// Words where no branching is granted and two units may be bought at 1000 each, a beginning, and whether the
/// document begins with it. One unit costs 1060 on the day, and two cost 120, which no plan betters where each trip is
/// planned by itself. So without advice only the plan of two units is met, and 120 and the price of a unit is the
/// bound; an evaluation meets the plan of one, and rounds raise the bound.
const ADVISED: &[(&[&str], &str, bool)] = &[
    (
        &["fleet", "day", "--nodes=0", "--rounds=0"],
        "fleet bounded 1120 plan 2120\n",
        true,
    ),
    (
        &["fleet", "day", "--nodes=0", "--rounds=0", "--evaluations=1"],
        "fleet bounded 1120 plan 2060\n",
        true,
    ),
    (
        &["fleet", "day", "--nodes=0", "--rounds=20"],
        "fleet bounded 1120 ",
        false,
    ),
];

/// Asserts whether what is written begins with a beginning.
fn expect_beginning(rt: &impl Abort, written: &[u8], beginning: &str, begins: bool) {
    assert!(rt;
        written.starts_with(beginning.as_bytes()) == begins,
        "{beginning}"
    );
}

/// Asserts whether the document begins with a beginning where a unit costs 1000.
fn expect_advised(
    rt: &impl Abort,
    alloc: Global,
    words: &[&str],
    beginning: &str,
    begins: bool,
) -> Result<(), NoMemory> {
    let mut folder = folder_at(rt, alloc, b"type,cost\nA,1000\n")?;
    let mut out = ample_sink(alloc)?;
    status_of(rt, alloc, Program::Raildesk, words, &mut folder, &mut out)?;
    expect_beginning(rt, out.written(), beginning, begins);
    Ok(())
}

#[test]
fn evaluations_and_rounds_are_granted(rt: HostRuntime) -> Result<(), NoMemory> {
    for (words, beginning, begins) in ADVISED {
        expect_advised(&rt, rt.alloc(), *words, *beginning, *begins)?;
    }
    Ok(())
}

/// Words of no plain form of `fleet`: a folder too few or too many, and numbers over their limits.
const OTHER_WORDS: &[&[&str]] = &[
    &["fleet"],
    &["fleet", "day", "day"],
    &["fleet", "day", "--nodes", "201"],
    &["fleet", "day", "--rounds=101"],
    &["fleet", "day", "--splits", "201"],
    &["fleet", "day", "--evaluations", "100001"],
    &["fleet", "day", "--progress"],
];

/// Asserts that words are of no plain form.
fn expect_no_fleet(rt: &impl Abort, alloc: Global, words: &[&str]) -> Result<(), NoMemory> {
    let mut folder = folder_at(rt, alloc, b"type,cost\nA,500\n")?;
    expect_over(rt, alloc, &mut folder, words, 2, "usage\n")
}

#[test]
fn other_words_find_no_fleet(rt: HostRuntime) -> Result<(), NoMemory> {
    for words in OTHER_WORDS {
        expect_no_fleet(&rt, rt.alloc(), *words)?;
    }
    Ok(())
}
