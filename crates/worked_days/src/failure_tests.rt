//! Each read and each write of a run fails in turn: the answer is the one that says so, or the one that the run has
//! where it never comes to that call. Over a folder and a sink that never fail the run has its answer too. Over the
//! disk a folder that is not there cannot be read.

use crate::day::{
    BASE_DAY, Day, ONE_STAYS, RING, TWO_TRIPS, bytewise_sink, expect_run, folder_of, run_on_disk,
    run_surely, sure_folder_of, words_of,
};
use crate::report_tests::{COSTS, DUTIES, FIRST_BOUND, ONE_RETURNS, WRONG_BOUND, YARDS};
use crate::simulate_tests::USAGE;
use rail_base::{NoMemory, Words};
use rail_io::{DiskFolder, MemorySink, StdoutSink, SureFolder, SureSink};
use std::alloc::Global;
use std::io::Print;
use std::process::Abort;
use std::rt::Files;

/// A command over a day, the file that it reads after the six tables, how many reads it makes where none is told to
/// fail, and what it comes to then. The read of a file that is not there counts too, and fails anyhow.
#[derive(Clone, Copy)]
struct Case<'a> {
    words: &'a [&'a str],
    day: Day<'a>,
    last: &'a str,
    reads: u64,
    status: u8,
    document: &'a str,
}

/// A plan of the day of a turn. It reads six files.
const PLANNED: Case<'static> = Case {
    words: &["railplan", "plan", "day"],
    day: BASE_DAY,
    last: "",
    reads: 12,
    status: 0,
    document: "railplan answer 1\noptimal 120\nbranchings 0\nrun 0 0 1\nrun 1 1 0\ntree\ncost 120 0\nend\n",
};

/// A run of the plan of the ring. It reads seven files.
const SIMULATED: Case<'static> = Case {
    words: &["railplan", "simulate", "day"],
    day: RING,
    last: "plan.csv",
    reads: 14,
    status: 0,
    document: "runs 1270\n",
};

/// A run of a plan in which the last train of the ring is joined in the wrong order.
const STOPPED: Case<'static> = Case {
    day: Day {
        plan: Some("trip,units\nT1,0 1 2\nT2,0 1\nT3,2\nT4,0 1 2\n"),
        ..RING
    },
    status: 1,
    document: "stops: link 1 is broken\n",
    ..SIMULATED
};

/// A run where a table is refused as it is read. The tables after it are not read.
const REFUSED_AT_ONCE: Case<'static> = Case {
    day: Day {
        trips: Some("trip\n"),
        ..RING
    },
    reads: 8,
    status: 3,
    document: "refused trips.csv: wrong header\n",
    ..SIMULATED
};

/// A run where a table is refused once all six are read. The plan is not read.
const REFUSED_AS_A_DAY: Case<'static> = Case {
    day: Day {
        types: Some("type,carriages,seats,metres,family\nA,3,200,241,regional\n"),
        ..RING
    },
    reads: 12,
    status: 3,
    document: "refused trips.csv: row 1: no composition fits\n",
    ..SIMULATED
};

/// A run of a plan that is not there.
const WITHOUT_PLAN_FILE: Case<'static> = Case {
    day: Day { plan: None, ..RING },
    reads: 13,
    status: 5,
    document: "cannot read plan.csv\n",
    ..SIMULATED
};

/// A plan of a day whose trips are not there.
const WITHOUT_TRIPS_FILE: &Case<'static> = &Case {
    day: Day {
        trips: None,
        ..BASE_DAY
    },
    reads: 7,
    status: 5,
    document: "cannot read trips.csv\n",
    ..PLANNED
};

/// A check of the answer to the day on which one unit stays. It reads seven files.
const CHECKED: Case<'static> = Case {
    words: &["railplan", "check", "day"],
    day: Day {
        answer: Some(ONE_RETURNS),
        ..ONE_STAYS
    },
    last: "answer.txt",
    reads: 14,
    status: 0,
    document: "valid optimal 190\n",
};

/// The report of the units' trips on that answer.
const DUTIES_REPORT: Case<'static> = Case {
    words: &["railplan", "duties", "day"],
    document: DUTIES,
    ..CHECKED
};

/// The report of the stations' counts on that answer.
const YARDS_REPORT: Case<'static> = Case {
    words: &["railplan", "yards", "day"],
    document: YARDS,
    ..CHECKED
};

/// The report of the cost of that answer.
const COSTS_REPORT: Case<'static> = Case {
    words: &["railplan", "costs", "day"],
    document: COSTS,
    ..CHECKED
};

/// A check of an answer in which a bound is wrong.
const INVALID: Case<'static> = Case {
    day: Day {
        answer: Some(WRONG_BOUND),
        ..ONE_STAYS
    },
    status: 1,
    document: "invalid: node 0 says 191, found 190\n",
    ..CHECKED
};

/// The report of the cost of an answer that has no plan.
const WITHOUT_PLAN: Case<'static> = Case {
    day: Day {
        answer: Some(FIRST_BOUND),
        ..ONE_STAYS
    },
    status: 1,
    document: "no plan\n",
    ..COSTS_REPORT
};

/// A trial day that is planned. It reads no file.
const TRIED: Case<'static> = Case {
    words: &["railplan", "trial", "7", "2", "--nodes", "224"],
    day: TWO_TRIPS,
    last: "",
    reads: 0,
    status: 0,
    document: "trial 7 2\noptimal 640\n",
};

/// Words that are not understood.
const MISUNDERSTOOD: Case<'static> = Case {
    words: &["railplan", "help"],
    status: 2,
    document: USAGE,
    ..TRIED
};

/// The file of a read. A short file takes two, one for its bytes and one that finds its end.
fn file_of<'a>(case: &Case<'a>, read: u64) -> &'a str {
    match read {
        0 | 1 => "types.csv",
        2 | 3 => "stations.csv",
        4 | 5 => "stock.csv",
        6 | 7 => "trips.csv",
        8 | 9 => "links.csv",
        10 | 11 => "weights.csv",
        _ => case.last,
    }
}

/// Asserts how a case ends where these reads fail, over a sink.
fn expect_ending(
    rt: &impl Abort,
    alloc: Global,
    case: &Case,
    reads: Vec<u64>,
    out: &mut MemorySink,
    status: u8,
    document: &[u8],
) -> Result<(), NoMemory> {
    let mut folder = folder_of(rt, alloc, &case.day, reads)?;
    expect_run(rt, alloc, case.words, &mut folder, out, status, document)
}

/// Asserts how a case ends where these reads fail, and a write takes one byte.
fn expect_reads(
    rt: &impl Abort,
    alloc: Global,
    case: &Case,
    reads: Vec<u64>,
    status: u8,
    document: &[u8],
) -> Result<(), NoMemory> {
    let mut out = bytewise_sink(alloc, Vec::new(alloc))?;
    expect_ending(rt, alloc, case, reads, &mut out, status, document)
}

/// Asserts how a case ends where the write of this number fails, and each other one takes one byte.
fn expect_write(
    rt: &impl Abort,
    alloc: Global,
    case: &Case,
    write: usize,
    status: u8,
    document: &[u8],
) -> Result<(), NoMemory> {
    let failing = vec![in alloc; write as u64]?;
    let mut out = bytewise_sink(alloc, failing)?;
    expect_ending(rt, alloc, case, Vec::new(alloc), &mut out, status, document)
}

/// Asserts that a run names the file of the read of this number, which fails.
fn expect_read_named(
    rt: &impl Abort,
    alloc: Global,
    case: &Case,
    read: u64,
) -> Result<(), NoMemory> {
    let file = file_of(case, read);
    let unread = format!(in alloc; "cannot read {file}\n")?;
    let failing = vec![in alloc; read]?;
    expect_reads(rt, alloc, case, failing, 5, unread.as_bytes())
}

/// Asserts that a run ends as ever where a read is to fail that it does not make.
fn expect_not_read(rt: &impl Abort, alloc: Global, case: &Case, read: u64) -> Result<(), NoMemory> {
    let failing = vec![in alloc; read]?;
    let document = case.document.as_bytes();
    expect_reads(rt, alloc, case, failing, case.status, document)
}

/// Asserts that a run names the file of the read that fails, and that nothing but the reads of the case counts.
fn expect_reads_named(rt: &impl Abort, alloc: Global, case: &Case) -> Result<(), NoMemory> {
    for read in 0..15 {
        if read < case.reads {
            expect_read_named(rt, alloc, case, read)?;
        } else {
            expect_not_read(rt, alloc, case, read)?;
        }
    }
    Ok(())
}

/// Asserts that a run writes all but the last byte of its document where there is no room for that.
fn expect_no_room(rt: &impl Abort, alloc: Global, case: &Case) -> Result<(), NoMemory> {
    let Some((_, front)) = case.document.as_bytes().split_last() else {
        panic!(rt; "a document is not empty");
    };
    let mut narrow = MemorySink::new(alloc, front.len(), 1000, Vec::new(alloc))?;
    expect_ending(rt, alloc, case, Vec::new(alloc), &mut narrow, 6, front)
}

/// Asserts that a run writes what comes before the write that fails, and its whole document where none does; and all
/// but its last byte where there is no room for that.
fn expect_writes_cut(rt: &impl Abort, alloc: Global, case: &Case) -> Result<(), NoMemory> {
    let text = case.document.as_bytes();
    for write in 0..text.len() {
        expect_write(rt, alloc, case, write, 6, &text[..write])?;
    }
    expect_write(rt, alloc, case, text.len(), case.status, text)?;
    expect_no_room(rt, alloc, case)
}

/// The status of a case over a folder and a sink that never fail.
fn sure_status(
    rt: &impl Abort,
    alloc: Global,
    case: &Case,
    folder: &mut SureFolder,
    out: &mut SureSink,
) -> Result<u8, NoMemory> {
    let words = words_of(rt, alloc, case.words)?;
    run_surely(alloc, &words, folder, out)
}

/// Asserts the status of a case over a folder and a sink that never fail, and what the sink tells.
fn expect_told_by(
    rt: &impl Abort,
    alloc: Global,
    case: &Case,
    folder: &mut SureFolder,
    out: &mut SureSink,
    told: Option<&[u8]>,
) -> Result<(), NoMemory> {
    let status = sure_status(rt, alloc, case, folder, out)?;
    assert!(rt; status == case.status && out.written() == told);
    Ok(())
}

/// Asserts the status of a case over a folder and a sink that never fail, and what the sink tells, where it has room
/// for so many bytes.
fn expect_told(
    rt: &impl Abort,
    alloc: Global,
    case: &Case,
    folder: &mut SureFolder,
    room: usize,
    told: Option<&[u8]>,
) -> Result<(), NoMemory> {
    let mut out = SureSink::new(alloc, room)?;
    expect_told_by(rt, alloc, case, folder, &mut out, told)
}

/// Asserts that a run ends as ever over a folder and a sink that never fail; and where the sink has no room for the
/// last byte too, though it doesn't tell then what was written.
fn expect_sure(rt: &impl Abort, alloc: Global, case: &Case) -> Result<(), NoMemory> {
    let text = case.document.as_bytes();
    let mut folder = sure_folder_of(rt, alloc, &case.day)?;
    expect_told(rt, alloc, case, &mut folder, text.len(), Some(text))?;
    let room = text.len().saturating_sub(1);
    expect_told(rt, alloc, case, &mut folder, room, None)
}

/// Runs of which each read fails in turn.
const READ_CASES: &[Case] = &[
    SIMULATED,
    STOPPED,
    REFUSED_AT_ONCE,
    REFUSED_AS_A_DAY,
    PLANNED,
    CHECKED,
    DUTIES_REPORT,
    YARDS_REPORT,
    COSTS_REPORT,
    TRIED,
];

#[test]
fn each_read_fails_in_turn(rt: HostRuntime) -> Result<(), NoMemory> {
    for case in READ_CASES {
        expect_reads_named(&rt, rt.alloc(), case)?;
    }
    Ok(())
}

/// Runs of which each write fails in turn.
const WRITE_CASES: &[Case] = &[
    SIMULATED,
    STOPPED,
    REFUSED_AT_ONCE,
    WITHOUT_PLAN_FILE,
    PLANNED,
    TRIED,
    CHECKED,
    DUTIES_REPORT,
    YARDS_REPORT,
    COSTS_REPORT,
    INVALID,
    WITHOUT_PLAN,
    MISUNDERSTOOD,
];

#[test]
fn each_write_fails_in_turn(rt: HostRuntime) -> Result<(), NoMemory> {
    for case in WRITE_CASES {
        expect_writes_cut(&rt, rt.alloc(), case)?;
    }
    Ok(())
}

/// Runs over folders and sinks that never fail.
const SURE_CASES: &[Case] = &[
    PLANNED,
    SIMULATED,
    CHECKED,
    DUTIES_REPORT,
    YARDS_REPORT,
    COSTS_REPORT,
    TRIED,
];

#[test]
fn sure_folders_and_sinks_end_as_ever(rt: HostRuntime) -> Result<(), NoMemory> {
    for case in SURE_CASES {
        expect_sure(&rt, rt.alloc(), case)?;
    }
    Ok(())
}

/// A types table with one row, whose name is a letter repeated so often that the table has so many bytes.
fn table_of_one_name(alloc: Global, bytes: usize) -> Result<String, NoMemory> {
    let header = "type,carriages,seats,metres,family\n";
    let others = ",3,200,80,regional\n";
    let letters = bytes
        .saturating_sub(header.len())
        .saturating_sub(others.len());
    let name = "a".repeat(alloc, letters)?;
    let table = format!(in alloc; "{header}{name}{others}")?;
    Ok(table)
}

/// A plan of the day of a turn that is refused for its table of types, of 4 MiB or a byte more. Of 64 KiB at a read it
/// takes 64 reads; one more finds its end, or the byte that is too much.
const LONG_TABLE: &Case<'static> = &Case {
    reads: 65,
    status: 3,
    ..PLANNED
};

/// That plan with such a table.
fn refused_plan<'a>(types: &'a str, document: &'a str) -> Case<'a> {
    Case {
        day: Day {
            types: Some(types),
            ..LONG_TABLE.day
        },
        document,
        ..*LONG_TABLE
    }
}

/// Asserts how a run ends in which no call is told to fail.
fn expect_case(rt: &impl Abort, alloc: Global, case: &Case) -> Result<(), NoMemory> {
    let document = case.document.as_bytes();
    expect_reads(rt, alloc, case, Vec::new(alloc), case.status, document)
}

/// Asserts what is written of a plan whose table of types has one row and so many bytes.
fn expect_name_refused(
    rt: &impl Abort,
    alloc: Global,
    bytes: usize,
    document: &str,
) -> Result<(), NoMemory> {
    let table = table_of_one_name(alloc, bytes)?;
    expect_case(rt, alloc, &refused_plan(table.as_str(), document))
}

#[test]
fn a_name_may_not_fill_a_table(rt: HostRuntime) -> Result<(), NoMemory> {
    let wrong = "refused types.csv: row 1, column type: not a name\n";
    expect_name_refused(&rt, rt.alloc(), 4_194_304, wrong)?;
    let too_long = "refused types.csv: too long\n";
    expect_name_refused(&rt, rt.alloc(), 4_194_305, too_long)
}

#[test]
fn a_plan_names_the_file_that_is_not_there(rt: HostRuntime) -> Result<(), NoMemory> {
    expect_case(&rt, rt.alloc(), WITHOUT_TRIPS_FILE)
}

/// The status of words over the disk and the standard output.
fn status_on_disk<R: Files + Print>(rt: &R, alloc: Global, words: &Words) -> Result<u8, NoMemory> {
    let mut folder = DiskFolder::new(rt);
    let mut out = StdoutSink::new(rt);
    run_on_disk(alloc, words, &mut folder, &mut out)
}

#[test]
fn a_folder_that_is_not_there_cannot_be_read(rt: HostRuntime) -> Result<(), NoMemory> {
    let alloc = rt.alloc();
    let words = words_of(&rt, alloc, &["railplan", "simulate", "/no such folder"])?;
    assert!(rt; status_on_disk(&rt, alloc, &words)? == 5);
    Ok(())
}
