//! The rest of a disturbed day that is planned at the desk.

use crate::desk::{Program, Run, ample_sink, expect_runs, expect_written, folder_with, status_of};
use rail_base::NoMemory;
use rail_io::MemorySink;
use sample_days::{TURN, Texts};
use std::alloc::{AllocError, Global};
use std::process::Abort;

/// The plan in which one unit makes both trips, where two are wanted on the first.
const ONE_UNIT: &[u8] = b"trip,units\nT1,0\nT2,0\n";
/// The plan in which both units make the first trip, and one comes back.
const TWO_UNITS: &[u8] = b"trip,units\nT1,0 1\nT2,1 0\n";
/// No trip is cancelled.
const NONE: &[u8] = b"trip\n";

/// The rest of the day of two trips that is planned after half past eight.
const REPLANNED: Run<'static> = Run {
    texts: TURN,
    more: &[("day/plan.csv", TWO_UNITS), ("day/cancelled.csv", NONE)],
    failing: &[],
    words: &["replan", "day", "08:30"],
    status: 3,
    document: "",
};

/// The rest of days that is planned, or not.
const PLANNED: &[Run<'static>] = &[
    // A changed trip costs more than the second unit saves; or it doesn't, and both trips change.
    Run {
        more: &[("day/plan.csv", ONE_UNIT), ("day/cancelled.csv", NONE)],
        words: &["replan", "day", "07:00", "--change", "2000"],
        status: 0,
        document: "replan optimal 1060 changes 0\nrun 0 0\nrun 1 0\nend\n",
        ..REPLANNED
    },
    Run {
        more: &[("day/plan.csv", ONE_UNIT), ("day/cancelled.csv", NONE)],
        words: &["replan", "day", "07:00", "--change", "100"],
        status: 0,
        document: "replan optimal 320 changes 2\nrun 0 0 1\nrun 1 1 0\nend\n",
        ..REPLANNED
    },
    // With one of them uncoupled at Y the price would be 290, but both are wanted at X: without branchings and advice
    // that is the bound. The improver finds the plan at once, and a little later that none is better.
    Run {
        more: &[("day/plan.csv", ONE_UNIT), ("day/cancelled.csv", NONE)],
        words: &[
            "replan",
            "day",
            "7:00",
            "--change=100",
            "--nodes=0",
            "--rounds=0",
        ],
        status: 4,
        document: "replan bounded 290\nbranchings 0\ntree\ncost 290 0\nend\n",
        ..REPLANNED
    },
    Run {
        more: &[("day/plan.csv", ONE_UNIT), ("day/cancelled.csv", NONE)],
        words: &[
            "replan",
            "day",
            "7:00",
            "--change=100",
            "--nodes=0",
            "--rounds=0",
            "--evaluations=1",
        ],
        status: 4,
        document: "replan bounded 290 plan 320 changes 2\nrun 0 0 1\nrun 1 1 0\nbranchings 0\ntree\ncost 290 0\nend\n",
        ..REPLANNED
    },
    Run {
        more: &[("day/plan.csv", ONE_UNIT), ("day/cancelled.csv", NONE)],
        words: &[
            "replan",
            "day",
            "7:00",
            "--change=100",
            "--nodes=0",
            "--rounds=0",
            "--evaluations=500",
        ],
        status: 0,
        document: "replan optimal 320 changes 2\nrun 0 0 1\nrun 1 1 0\nend\n",
        ..REPLANNED
    },
    // So does advice.
    Run {
        more: &[("day/plan.csv", ONE_UNIT), ("day/cancelled.csv", NONE)],
        words: &["replan", "day", "07:00", "--change", "100", "--nodes", "0"],
        status: 0,
        document: "replan optimal 320 changes 2\nrun 0 0 1\nrun 1 1 0\nend\n",
        ..REPLANNED
    },
    // The first trip has left, with both units.
    Run {
        more: &[("day/plan.csv", TWO_UNITS), ("day/cancelled.csv", NONE)],
        words: &["replan", "day", "08:30"],
        status: 0,
        document: "replan optimal 120 changes 0\nrun 0 0 1\nrun 1 1 0\nend\n",
        ..REPLANNED
    },
    // They can't come back without the second.
    Run {
        more: &[
            ("day/plan.csv", TWO_UNITS),
            ("day/cancelled.csv", b"trip\nT2\n"),
        ],
        words: &["replan", "day", "08:30"],
        status: 1,
        document: "replan infeasible\nend\n",
        ..REPLANNED
    },
    // A trip that has left can't be cancelled.
    Run {
        more: &[
            ("day/plan.csv", TWO_UNITS),
            ("day/cancelled.csv", b"trip\nT1\n"),
        ],
        words: &["replan", "day", "08:30"],
        status: 3,
        document: "refused cancelled.csv\n",
        ..REPLANNED
    },
];

/// Plans that are answered before the table of cancelled trips, which would be refused; and files that can't be read,
/// and are named.
const ANSWERED: &[Run<'static>] = &[
    Run {
        more: &[("day/plan.csv", b"trip\n"), ("day/cancelled.csv", b"")],
        status: 3,
        document: "refused plan.csv\n",
        ..REPLANNED
    },
    Run {
        more: &[
            ("day/plan.csv", b"trip,units\nT3,0\n"),
            ("day/cancelled.csv", b""),
        ],
        status: 3,
        document: "refused plan.csv\n",
        ..REPLANNED
    },
    Run {
        more: &[
            ("day/plan.csv", b"trip,units\nT1,\nT2,\n"),
            ("day/cancelled.csv", b""),
        ],
        status: 1,
        document: "stops\n",
        ..REPLANNED
    },
    Run {
        failing: &[10],
        status: 5,
        document: "cannot read weights.csv\n",
        ..REPLANNED
    },
    Run {
        failing: &[12],
        status: 5,
        document: "cannot read plan.csv\n",
        ..REPLANNED
    },
    Run {
        failing: &[14],
        status: 5,
        document: "cannot read cancelled.csv\n",
        ..REPLANNED
    },
];

#[test]
fn the_rest_of_a_day_is_planned(rt: HostRuntime) -> Result<(), NoMemory> {
    expect_runs(&rt, rt.alloc(), PLANNED)?;
    expect_runs(&rt, rt.alloc(), ANSWERED)
}

/// Trips as of `TURN` in the morning and once more at noon.
const TWICE: Texts<'static> = Texts {
    trips: b"trip,from,departure,to,arrival,km,demand\n\
        T1,X,08:00,Y,09:00,10,300\nT2,Y,09:10,X,10:10,10,150\n\
        T3,X,11:00,Y,12:00,10,300\nT4,Y,12:10,X,13:10,10,150\n",
    links: b"kind,arriving,arriving2,departing,departing2,reverse,uncouple,couple\n\
        turn,T1,,T2,,yes,rear,none\nturn,T3,,T4,,yes,rear,none\n",
    ..TURN
};

/// The same without the second trip and the third, and so without links.
const FIRST_AND_LAST: Texts<'static> = Texts {
    trips: b"trip,from,departure,to,arrival,km,demand\n\
        T1,X,08:00,Y,09:00,10,300\nT4,Y,12:10,X,13:10,10,150\n",
    links: b"kind,arriving,arriving2,departing,departing2,reverse,uncouple,couple\n",
    ..TURN
};

/// A day, its plan, the trips that are cancelled, words, the later day, written by hand, and what comes of the plan
/// that is printed in it.
type Ran = (
    Texts<'static>,
    &'static [u8],
    &'static [u8],
    &'static [&'static str],
    Texts<'static>,
    &'static str,
);

/// Plans that are printed, and what they come to.
const RAN: &[Ran] = &[
    (
        TURN,
        ONE_UNIT,
        NONE,
        &["replan", "day", "07:00", "--change", "2000"],
        TURN,
        "runs 1060\n",
    ),
    (
        TURN,
        ONE_UNIT,
        NONE,
        &["replan", "day", "07:00", "--change", "100"],
        TURN,
        "runs 120\n",
    ),
    (
        TURN,
        TWO_UNITS,
        NONE,
        &["replan", "day", "08:30"],
        TURN,
        "runs 120\n",
    ),
    // The one unit that is out comes back by the last trip, for which two were planned.
    (
        TWICE,
        b"trip,units\nT1,0\nT2,0\nT3,0 1\nT4,1 0\n",
        b"trip\nT3\nT2\n",
        &["replan", "day", "09:00", "--change=7", "--evaluations=500"],
        FIRST_AND_LAST,
        "runs 1060\n",
    ),
];

/// The name of a trip by its number.
fn name_of(number: &str) -> &'static str {
    match number {
        "0" => "T1",
        "1" => "T2",
        "2" => "T3",
        _ => "T4",
    }
}

/// Adds a word of a run, of which so many words go before.
fn add_word(table: &mut String, before: u32, word: &str) -> Result<(), AllocError> {
    let mark = match before {
        0 => "",
        1 => ",",
        _ => " ",
    };
    table.push_str(mark)?;
    let field = if before == 0 { name_of(word) } else { word };
    table.push_str(field)
}

/// Adds the row of a run.
fn add_run(table: &mut String, run: &str) -> Result<(), AllocError> {
    let mut said = 0_u32;
    for word in run.split(' ') {
        add_word(table, said, word)?;
        said = said.saturating_add(1);
    }
    table.push_str("\n")
}

/// The table of the plan that a document prints.
fn plan_printed(alloc: Global, document: &str) -> Result<String, AllocError> {
    let mut table = String::from_str(alloc, "trip,units\n")?;
    for line in document.lines() {
        if let Some(run) = line.strip_prefix("run ") {
            add_run(&mut table, run)?;
        }
    }
    Ok(table)
}

/// Writes what the desk says of a day with a plan and cancelled trips.
fn replan(rt: &impl Abort, alloc: Global, row: &Ran, out: &mut MemorySink) -> Result<(), NoMemory> {
    let (texts, plan, cancelled, words, _, _) = row;
    let more = [("day/plan.csv", *plan), ("day/cancelled.csv", *cancelled)];
    let mut folder = folder_with(rt, alloc, texts, &more, &[])?;
    status_of(rt, alloc, Program::Raildesk, *words, &mut folder, out)?;
    Ok(())
}

/// The words that run the plan of a day.
const SIMULATE: &[&str] = &["simulate", "day"];

/// Asserts what comes of a plan of a day that is run.
fn expect_ran(
    rt: &impl Abort,
    alloc: Global,
    texts: &Texts<'_>,
    plan: &str,
    ran: &str,
) -> Result<(), NoMemory> {
    let more = [("day/plan.csv", plan.as_bytes())];
    let mut folder = folder_with(rt, alloc, texts, &more, &[])?;
    let run = (Program::Railplan, SIMULATE);
    expect_written(rt, alloc, &mut folder, run, 0, ran.as_bytes())
}

/// Asserts what comes of the plan in a document that is run in a later day.
fn expect_printed(
    rt: &impl Abort,
    alloc: Global,
    row: &Ran,
    document: &[u8],
) -> Result<(), NoMemory> {
    let Ok(document) = str::from_utf8(document) else {
        panic!(rt; "what is written is a text");
    };
    let table = plan_printed(alloc, document)?;
    let (_, _, _, _, later, ran) = row;
    expect_ran(rt, alloc, later, table.as_str(), *ran)
}

/// Asserts that the plan that is printed of a row runs in the later day.
fn expect_running(rt: &impl Abort, alloc: Global, row: &Ran) -> Result<(), NoMemory> {
    let mut out = ample_sink(alloc)?;
    replan(rt, alloc, row, &mut out)?;
    expect_printed(rt, alloc, row, out.written())
}

#[test]
fn what_is_printed_runs_in_the_later_day(rt: HostRuntime) -> Result<(), NoMemory> {
    for row in RAN {
        expect_running(&rt, rt.alloc(), row)?;
    }
    Ok(())
}
