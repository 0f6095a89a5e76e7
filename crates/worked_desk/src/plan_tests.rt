//! Days that are planned at the desk.

use crate::desk::{
    Program, Run, ample_sink, expect_front, expect_runs, expect_written, folder_of, status_of,
};
use rail_base::NoMemory;
use sample_days::{ONE_LEFT, RING, TURN, TWO_TYPES, Texts};
use std::alloc::Global;
use std::process::Abort;

/// The turn where a unit more is wanted than there is, so that no plan runs.
const WANTED: Texts<'static> = Texts {
    stock: b"station,type,start,end\nX,A,2,2\nY,A,0,1\n",
    ..TURN
};

/// Asserts the status of the desk on a day, and how the document begins.
fn expect_head(
    rt: &impl Abort,
    alloc: Global,
    texts: &Texts<'_>,
    words: &[&str],
    status: u8,
    front: &str,
) -> Result<(), NoMemory> {
    let mut folder = folder_of(rt, alloc, texts, &[])?;
    expect_front(rt, alloc, &mut folder, words, status, front)
}

/// Days, words, the status, and the first two lines of the answer.
const HEADS: &[(Texts<'static>, &[&str], u8, &str)] = &[
    (
        TURN,
        &["plan", "day"],
        0,
        "railplan answer 1\noptimal 120\n",
    ),
    (
        ONE_LEFT,
        &["plan", "day"],
        0,
        "railplan answer 1\noptimal 190\n",
    ),
    (
        RING,
        &["plan", "day"],
        0,
        "railplan answer 1\noptimal 1270\n",
    ),
    (
        WANTED,
        &["plan", "day"],
        1,
        "railplan answer 1\ninfeasible\n",
    ),
    (
        ONE_LEFT,
        &["plan", "day", "--nodes", "0", "--evaluations", "0"],
        4,
        "railplan answer 1\nbounded 120\n",
    ),
];

#[test]
fn the_status_is_that_of_the_answer(rt: HostRuntime) -> Result<(), NoMemory> {
    for (texts, words, status, front) in HEADS {
        expect_head(&rt, rt.alloc(), texts, *words, *status, *front)?;
    }
    Ok(())
}

/// Asserts that two runs on a day, each a program and its words, write the same and end with the same status.
fn expect_alike(
    rt: &impl Abort,
    alloc: Global,
    texts: &Texts<'_>,
    first: (Program, &[&str]),
    second: (Program, &[&str]),
) -> Result<(), NoMemory> {
    let mut folder = folder_of(rt, alloc, texts, &[])?;
    let mut out = ample_sink(alloc)?;
    let status = status_of(rt, alloc, first.0, first.1, &mut folder, &mut out)?;
    expect_written(rt, alloc, &mut folder, second, status, out.written())
}

/// Asserts that without an improver the desk writes what the first program writes.
fn expect_as_first(
    rt: &impl Abort,
    alloc: Global,
    texts: &Texts<'_>,
    nodes: &str,
    rounds: &str,
) -> Result<(), NoMemory> {
    let first = ["plan", "day", "--nodes", nodes, "--rounds", rounds];
    let second = [
        "plan",
        "day",
        "--nodes",
        nodes,
        "--rounds",
        rounds,
        "--evaluations",
        "0",
    ];
    expect_alike(
        rt,
        alloc,
        texts,
        (Program::Railplan, &first),
        (Program::Raildesk, &second),
    )
}

/// Days on which two runs are compared.
const COMPARED: &[Texts<'static>] = &[TURN, ONE_LEFT, TWO_TYPES, RING, WANTED];

/// How many branchings and how many rounds are granted in both programs.
const BRANCHINGS_AND_ROUNDS: &[(&str, &str)] = &[
    ("0", "0"),
    ("0", "2"),
    ("0", "20"),
    ("1", "0"),
    ("1", "2"),
    ("1", "20"),
    ("3", "0"),
    ("3", "2"),
    ("3", "20"),
    ("200", "0"),
    ("200", "2"),
    ("200", "20"),
];

#[test]
fn without_evaluations_it_is_the_first_program(rt: HostRuntime) -> Result<(), NoMemory> {
    for texts in COMPARED {
        for (nodes, rounds) in BRANCHINGS_AND_ROUNDS {
            expect_as_first(&rt, rt.alloc(), texts, *nodes, *rounds)?;
        }
    }
    Ok(())
}

/// The words that plan a day with what is usual, and the same with nothing given.
const USUAL: &[&str] = &[
    "plan",
    "day",
    "--nodes",
    "200",
    "--rounds",
    "0",
    "--evaluations",
    "500",
];

const SHORT: &[&str] = &["plan", "day"];

#[test]
fn what_is_not_given_is_usual(rt: HostRuntime) -> Result<(), NoMemory> {
    for texts in COMPARED {
        let usual = (Program::Raildesk, USUAL);
        let short = (Program::Raildesk, SHORT);
        expect_alike(&rt, rt.alloc(), texts, usual, short)?;
    }
    Ok(())
}

/// Words that grant so many evaluations on the day where one unit is left at Y, and no branching; the status then, and
/// the first two lines of the answer. The bounds were worked out by another program, which takes the same steps.
const GRANTED: &[([&str; 7], u8, &str)] = &[
    (
        [
            "plan",
            "day",
            "--nodes",
            "0",
            "--evaluations",
            "0",
            "--progress",
        ],
        4,
        "railplan answer 1\nbounded 120\n",
    ),
    (
        [
            "plan",
            "day",
            "--nodes",
            "0",
            "--evaluations",
            "1",
            "--progress",
        ],
        4,
        "railplan answer 1\nbounded 120 plan 190\n",
    ),
    (
        [
            "plan",
            "day",
            "--nodes",
            "0",
            "--evaluations",
            "2",
            "--progress",
        ],
        4,
        "railplan answer 1\nbounded 160 plan 190\n",
    ),
    (
        [
            "plan",
            "day",
            "--nodes",
            "0",
            "--evaluations",
            "10",
            "--progress",
        ],
        4,
        "railplan answer 1\nbounded 188 plan 190\n",
    ),
    (
        [
            "plan",
            "day",
            "--nodes",
            "0",
            "--evaluations",
            "500",
            "--progress",
        ],
        0,
        "railplan answer 1\noptimal 190\n",
    ),
];

/// The day where one unit is left at Y, to be borrowed.
const LEFT: &Texts<'static> = &ONE_LEFT;

/// Asserts that the desk writes the same on that day by words without the last one, by which progress is told.
fn expect_untold(rt: &impl Abort, alloc: Global, words: &[&str; 7]) -> Result<(), NoMemory> {
    let told = (Program::Raildesk, words.as_slice());
    let not_told = (Program::Raildesk, &words[..6]);
    expect_alike(rt, alloc, LEFT, told, not_told)
}

#[test]
fn evaluations_are_granted_whether_progress_is_told_or_not(
    rt: HostRuntime,
) -> Result<(), NoMemory> {
    for (words, status, front) in GRANTED {
        expect_head(&rt, rt.alloc(), LEFT, words, *status, *front)?;
        expect_untold(&rt, rt.alloc(), words)?;
    }
    Ok(())
}

/// A run in which a file of the turn is refused.
const REFUSED: Run<'static> = Run {
    texts: TURN,
    more: &[],
    failing: &[],
    words: SHORT,
    status: 3,
    document: "",
};

/// A run in which a read of the turn fails. Each table takes two, of which the second finds its end.
const UNREAD: Run<'static> = Run {
    status: 5,
    ..REFUSED
};

/// Days of which a file is refused, and named: each but the weights wrong by itself; a stock that is right by itself,
/// but names a station that there isn't; and of two files that are wrong, the one that is read first. And days of which
/// a file can't be read, and is named.
const NAMED: &[Run<'static>] = &[
    Run {
        texts: Texts {
            types: b"type\n",
            ..TURN
        },
        document: "refused types.csv\n",
        ..REFUSED
    },
    Run {
        texts: Texts {
            stations: b"\xff\n",
            ..TURN
        },
        document: "refused stations.csv\n",
        ..REFUSED
    },
    Run {
        texts: Texts { stock: b"", ..TURN },
        document: "refused stock.csv\n",
        ..REFUSED
    },
    Run {
        texts: Texts {
            trips: b"kind,arriving,arriving2,departing,departing2,reverse,uncouple,couple\n",
            ..TURN
        },
        document: "refused trips.csv\n",
        ..REFUSED
    },
    Run {
        texts: Texts {
            links: b"trip,from,departure,to,arrival,km,demand\n",
            ..TURN
        },
        document: "refused links.csv\n",
        ..REFUSED
    },
    Run {
        texts: Texts {
            stock: b"station,type,start,end\nZ,A,2,2\n",
            ..TURN
        },
        document: "refused stock.csv\n",
        ..REFUSED
    },
    Run {
        texts: Texts {
            stations: b"\n",
            trips: b"\n",
            ..TURN
        },
        document: "refused stations.csv\n",
        ..REFUSED
    },
    Run {
        failing: &[0],
        document: "cannot read types.csv\n",
        ..UNREAD
    },
    Run {
        failing: &[3],
        document: "cannot read stations.csv\n",
        ..UNREAD
    },
    Run {
        failing: &[8],
        document: "cannot read links.csv\n",
        ..UNREAD
    },
    Run {
        failing: &[11],
        document: "cannot read weights.csv\n",
        ..UNREAD
    },
];

#[test]
fn a_file_that_is_refused_or_cannot_be_read_is_named(rt: HostRuntime) -> Result<(), NoMemory> {
    expect_runs(&rt, rt.alloc(), NAMED)
}
