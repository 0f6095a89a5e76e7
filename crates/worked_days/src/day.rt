//! A day in memory, with one text a file, and what a run over it comes to.

ghost use Rattle.std.specs.Prelude.{◌≡◌, ◌≢◌, true, IfOk};
ghost use Rattle.rail_io.specs.Folders.{Rose};
ghost use Rattle.statuses.specs.Written.{CountsFailedReads, CountsFailedWrites};

use advisors::{Advisor, Diver, Subgradient};
use planner_app::railplan;
use rail_base::name::is_name;
use rail_base::{NoMemory, Words};
use rail_io::{
    DiskFolder, Folder, MemoryFile, MemoryFolder, MemorySink, Sink, StdoutSink, SureFolder,
    SureSink,
};
use std::alloc::Global;
use std::io::Print;
use std::process::Abort;
use std::rt::Files;

/// The texts of a day's files. A file that is None is not in the folder.
#[derive(Clone, Copy)]
pub(crate) struct Day<'a> {
    pub(crate) types: Option<&'a str>,
    pub(crate) stations: Option<&'a str>,
    pub(crate) stock: Option<&'a str>,
    pub(crate) trips: Option<&'a str>,
    pub(crate) links: Option<&'a str>,
    pub(crate) weights: Option<&'a str>,
    pub(crate) plan: Option<&'a str>,
    pub(crate) answer: Option<&'a str>,
}

/// The day of two trips: X to Y 08:00 to 09:00 and back 09:30 to 10:30, with one unit.
pub(crate) const TWO_TRIPS: Day<'static> = Day {
    types: Some("type,carriages,seats,metres,family\nA,3,200,80,regional\n"),
    stations: Some("station,platform,reallocation\nX,200,30\nY,200,30\n"),
    stock: Some("station,type,start,end\nX,A,1,1\n"),
    trips: Some(
        "trip,from,departure,to,arrival,km,demand\nT1,X,08:00,Y,09:00,10,150\nT2,Y,09:30,X,10:30,10,150\n",
    ),
    links: Some("kind,arriving,arriving2,departing,departing2,reverse,uncouple,couple\n"),
    weights: Some("carriage,shortage,shunting\n1,1,100\n"),
    plan: Some("trip,units\nT1,0\nT2,0\n"),
    answer: None,
};

/// The day on which the unit is ready at the minute of its arrival, which is that of the next departure.
pub(crate) const READY_AT_ONCE: Day<'static> = Day {
    stations: Some("station,platform,reallocation\nX,200,30\nY,200,0\n"),
    trips: Some(
        "trip,from,departure,to,arrival,km,demand\nT1,X,08:00,Y,09:00,10,150\nT2,Y,09:00,X,10:00,10,150\n",
    ),
    ..TWO_TRIPS
};

/// The day of a turn: two units go out and come back on one link, with ten minutes between.
pub(crate) const BASE_DAY: Day<'static> = Day {
    stock: Some("station,type,start,end\nX,A,2,2\n"),
    trips: Some(
        "trip,from,departure,to,arrival,km,demand\nT1,X,08:00,Y,09:00,10,300\nT2,Y,09:10,X,10:10,10,150\n",
    ),
    links: Some(
        "kind,arriving,arriving2,departing,departing2,reverse,uncouple,couple\nturn,T1,,T2,,yes,rear,none\n",
    ),
    plan: Some("trip,units\nT1,0 1\nT2,1 0\n"),
    ..TWO_TRIPS
};

/// The base day with cheap shunting. Its plans run with one unit or with both, and come back whole.
pub(crate) const CHEAP_SHUNTING: Day<'static> = Day {
    weights: Some("carriage,shortage,shunting\n1,1,10\n"),
    ..BASE_DAY
};

/// The base day on which one of the two units is to stay at the other station.
pub(crate) const ONE_STAYS: Day<'static> = Day {
    stock: Some("station,type,start,end\nX,A,2,1\nY,A,0,1\n"),
    ..BASE_DAY
};

/// The base day on which both units are to stay at the other station.
pub(crate) const BOTH_STAY: Day<'static> = Day {
    stock: Some("station,type,start,end\nX,A,2,0\nY,A,0,2\n"),
    ..BASE_DAY
};

/// The base day with units of two types and platforms of 140 metres.
pub(crate) const TWO_TYPES: Day<'static> = Day {
    types: Some("type,carriages,seats,metres,family\nA,3,200,80,regional\nB,2,100,60,regional\n"),
    stations: Some("station,platform,reallocation\nX,140,30\nY,140,30\n"),
    stock: Some("station,type,start,end\nX,A,1,0\nX,B,1,1\nY,A,0,1\n"),
    trips: Some(
        "trip,from,departure,to,arrival,km,demand\nT1,X,08:00,Y,09:00,10,300\nT2,Y,09:10,X,10:10,10,100\n",
    ),
    plan: Some("trip,units\nT1,0 1\nT2,1\n"),
    ..BASE_DAY
};

/// A ring: one trip's train is split over two trips, and a third trip's is joined of two.
pub(crate) const RING: Day<'static> = Day {
    stations: Some("station,platform,reallocation\nX,240,30\nY,240,30\nZ,240,30\n"),
    stock: Some("station,type,start,end\nX,A,3,3\n"),
    trips: Some(
        "trip,from,departure,to,arrival,km,demand\nT1,X,08:00,Y,09:00,10,300\nT2,Y,09:10,Z,10:00,10,300\n\
            T3,Y,09:20,Z,10:10,10,300\nT4,Z,10:30,X,11:30,10,300\n",
    ),
    links: Some(
        "kind,arriving,arriving2,departing,departing2,reverse,uncouple,couple\n\
            split,T1,,T2,T3,no,none,none\njoin,T3,T2,T4,,no,none,none\n",
    ),
    plan: Some("trip,units\nT1,0 1 2\nT2,0 1\nT3,2\nT4,2 0 1\n"),
    ..TWO_TRIPS
};

/// A day with names in quotes and lines ended by CRLF, on which a unit waits while the rest of its train goes on.
pub(crate) const NORTHPORT: Day<'static> = Day {
    types: Some(
        "type,carriages,seats,metres,family\r\nIC-3,3,192,81,inter\r\nIC-4,4,254,108,inter\r\n",
    ),
    stations: Some(
        "station,platform,reallocation\r\n\"Northport, Central\",340,20\r\nMidford,340,20\r\nSouthhaven,270,20\r\n",
    ),
    stock: Some(
        "station,type,start,end\r\n\"Northport, Central\",IC-3,2,2\r\n\"Northport, Central\",IC-4,1,1\r\n",
    ),
    trips: Some(
        "trip,from,departure,to,arrival,km,demand\r\n\
            101,\"Northport, Central\",06:02,Midford,06:58,74,310\r\n\
            102,Midford,07:05,Southhaven,07:50,58,180\r\n103,Southhaven,08:10,Midford,08:55,58,170\r\n\
            104,Midford,09:02,\"Northport, Central\",09:58,74,290\r\n",
    ),
    links: Some(
        "kind,arriving,arriving2,departing,departing2,reverse,uncouple,couple\r\n\
            turn,101,,102,,no,rear,none\r\nturn,102,,103,,yes,none,none\r\nturn,103,,104,,no,none,rear\r\n",
    ),
    weights: Some("carriage,shortage,shunting\r\n10,10,500\r\n"),
    plan: Some("trip,units\r\n101,0 1\r\n102,0\r\n103,0\r\n104,0 1\r\n"),
    answer: None,
};

/// The day of two trips, to be borrowed.
pub(crate) const A_DAY: &Day<'static> = &TWO_TRIPS;

/// The day on which one unit stays, to be borrowed.
pub(crate) const STAYING: &Day<'static> = &ONE_STAYS;

/// Adds a file.
fn add(
    rt: &impl Abort,
    alloc: Global,
    files: &mut Vec<MemoryFile>,
    path: &str,
    bytes: &[u8],
) -> Result<(), NoMemory> {
    assert!(rt; is_name(path.as_bytes()));
    Ok(files.push(MemoryFile::new(alloc, path, bytes)?)?)
}

/// Adds a file of a folder.
fn add_in(
    rt: &impl Abort,
    alloc: Global,
    files: &mut Vec<MemoryFile>,
    dir: &str,
    name: &str,
    text: &str,
) -> Result<(), NoMemory> {
    let path = format!(in alloc; "{dir}/{name}")?;
    add(rt, alloc, files, path.as_str(), text.as_bytes())
}

/// Adds the files of a day in a folder that are there.
fn add_day(
    rt: &impl Abort,
    alloc: Global,
    files: &mut Vec<MemoryFile>,
    dir: &str,
    day: &Day,
) -> Result<(), NoMemory> {
    let rows = [
        ("types.csv", day.types),
        ("stations.csv", day.stations),
        ("stock.csv", day.stock),
        ("trips.csv", day.trips),
        ("links.csv", day.links),
        ("weights.csv", day.weights),
        ("plan.csv", day.plan),
        ("answer.txt", day.answer),
    ];
    for (name, text) in &rows {
        if let Some(text) = text {
            add_in(rt, alloc, files, dir, name, text)?;
        }
    }
    Ok(())
}

/// The files of a day in the folder `day` that are there.
fn files_of(rt: &impl Abort, alloc: Global, day: &Day) -> Result<Vec<MemoryFile>, NoMemory> {
    let mut files = Vec::new(alloc);
    add_day(rt, alloc, &mut files, "day", day)?;
    Ok(files)
}

/// The folder of a day, whose reads fail at these numbers.
pub(crate) fn folder_of(
    rt: &impl Abort,
    alloc: Global,
    day: &Day,
    failing: Vec<u64>,
) -> Result<MemoryFolder, NoMemory> {
    let files = files_of(rt, alloc, day)?;
    MemoryFolder::new(alloc, files, failing)
}

/// A folder with a day in a folder of it.
pub(crate) fn folder_with_day_at(
    rt: &impl Abort,
    alloc: Global,
    dir: &str,
    day: &Day,
) -> Result<MemoryFolder, NoMemory> {
    let mut files = Vec::new(alloc);
    add_day(rt, alloc, &mut files, dir, day)?;
    MemoryFolder::new(alloc, files, Vec::new(alloc))
}

/// The folder of a day, whose reads never fail.
pub(crate) fn sure_folder_of(
    rt: &impl Abort,
    alloc: Global,
    day: &Day,
) -> Result<SureFolder, NoMemory> {
    let files = files_of(rt, alloc, day)?;
    SureFolder::new(alloc, files)
}

/// The folder of a day in which the file of a path has these bytes, which need not be a text. Of two files with one
/// path the first counts.
pub(crate) fn folder_with_bytes(
    rt: &impl Abort,
    alloc: Global,
    day: &Day,
    path: &str,
    bytes: &[u8],
) -> Result<MemoryFolder, NoMemory> {
    let mut files = Vec::new(alloc);
    add(rt, alloc, &mut files, path, bytes)?;
    add_day(rt, alloc, &mut files, "day", day)?;
    MemoryFolder::new(alloc, files, Vec::new(alloc))
}

/// The words of a command line.
pub(crate) fn words_of(rt: &impl Abort, alloc: Global, texts: &[&str]) -> Result<Words, NoMemory> {
    let mut words = Words::new(alloc)?;
    add_words(rt, &mut words, texts)?;
    Ok(words)
}

/// Adds words.
fn add_words(rt: &impl Abort, words: &mut Words, texts: &[&str]) -> Result<(), NoMemory> {
    for text in texts {
        assert!(rt; words.len() < 1000);
        words.push(*text)?;
    }
    Ok(())
}

/// The status of the words over a folder and a sink, with the advisors that the program has. It tells of a failed read
/// or a failed write only where a count of faults rose or stands at its last value; and where the folder or the sink
/// counts its failed calls, by how much that count rose, of reads at 6 and 7 only that it was by one at most.
pub(crate) fn run<F: Folder, K: Sink>(
    alloc: Global,
    words: &Words,
    folder: &mut F,
    out: &mut K,
) -> Result<u8, NoMemory>
    ensures unread { IfOk result (λ status. status ≡ 5 → Rose (F.state folder.old).faults (F.state folder.new).faults) }
    ensures unwritten { IfOk result (λ status. status ≡ 6 → Rose (K.faults out.old) (K.faults out.new)) }
    ensures failed_reads { (F.state folder.old).counts_failed ≡ true → IfOk result (λ status.
        CountsFailedReads status (F.state folder.old).faults (F.state folder.new).faults) }
    ensures failed_writes { K.counts_failed ≡ true
        → IfOk result (λ status. CountsFailedWrites status (K.faults out.old) (K.faults out.new)) }
{
    let mut advisors: Vec<Box<dyn Advisor>> = Vec::new(alloc);
    advisors.push(Box::new(alloc, Subgradient::new())?)?;
    advisors.push(Box::new(alloc, Diver::new())?)?;
    Ok(railplan(alloc, words, folder, out, &mut advisors))
}

/// The status of the words over a folder and a sink whose calls never fail: it tells of no failed read and of no failed
/// write.
pub(crate) fn run_surely(
    alloc: Global,
    words: &Words,
    folder: &mut SureFolder,
    out: &mut SureSink,
) -> Result<u8, NoMemory>
    ensures read { IfOk result (λ status. status ≢ 5) }
    ensures written { IfOk result (λ status. status ≢ 6) }
{
    run(alloc, words, folder, out)
}

/// The status of the words over the files of the system and the standard output, which both count their failed calls,
/// so that `CountsFailedReads` and `CountsFailedWrites` hold.
pub(crate) fn run_on_disk<R: Files, P: Print>(
    alloc: Global,
    words: &Words,
    folder: &mut DiskFolder<'_, R>,
    out: &mut StdoutSink<'_, P>,
) -> Result<u8, NoMemory>
    ensures failed_reads { IfOk result (λ status. CountsFailedReads status folder.old.faults folder.new.faults) }
    ensures failed_writes { IfOk result (λ status. CountsFailedWrites status out.old out.new) }
{
    run(alloc, words, folder, out)
}

/// Room for a document of a small day, in bytes.
pub(crate) const AMPLE_ROOM: usize = 1000;

/// A sink with room for so many bytes. Its writes fail only once that is full.
pub(crate) fn ample_sink(alloc: Global, room: usize) -> Result<MemorySink, NoMemory> {
    MemorySink::new(alloc, room, 1000, Vec::new(alloc))
}

/// A sink with ample room that takes one byte at a write, and whose writes fail at these numbers.
pub(crate) fn bytewise_sink(alloc: Global, failing: Vec<u64>) -> Result<MemorySink, NoMemory> {
    MemorySink::new(alloc, AMPLE_ROOM, 1, failing)
}

/// The status of a command line over a folder and a sink in memory, which both count their failed calls, so that
/// `CountsFailedReads` and `CountsFailedWrites` hold.
pub(crate) fn status_of(
    rt: &impl Abort,
    alloc: Global,
    words: &[&str],
    folder: &mut MemoryFolder,
    out: &mut MemorySink,
) -> Result<u8, NoMemory>
    ensures failed_reads { IfOk result (λ status. CountsFailedReads status folder.old.faults folder.new.faults) }
    ensures failed_writes { IfOk result (λ status. CountsFailedWrites status out.old.faults out.new.faults) }
{
    let words = words_of(rt, alloc, words)?;
    run(alloc, &words, folder, out)
}

/// Asserts the status of words over a folder and a sink, and all that is in the sink then.
pub(crate) fn expect_run(
    rt: &impl Abort,
    alloc: Global,
    words: &[&str],
    folder: &mut MemoryFolder,
    out: &mut MemorySink,
    status: u8,
    document: &[u8],
) -> Result<(), NoMemory> {
    let found = status_of(rt, alloc, words, folder, out)?;
    assert!(rt; found == status && out.written() == document);
    Ok(())
}

/// Asserts the status of words over the folder of a day and a sink, and all that is in the sink then.
pub(crate) fn expect_into(
    rt: &impl Abort,
    alloc: Global,
    day: &Day,
    words: &[&str],
    out: &mut MemorySink,
    status: u8,
    document: &[u8],
) -> Result<(), NoMemory> {
    let mut folder = folder_of(rt, alloc, day, Vec::new(alloc))?;
    expect_run(rt, alloc, words, &mut folder, out, status, document)
}

/// Asserts the status of words over a folder, and the document that is written where there is ample room.
pub(crate) fn expect_ample(
    rt: &impl Abort,
    alloc: Global,
    words: &[&str],
    folder: &mut MemoryFolder,
    status: u8,
    document: &str,
) -> Result<(), NoMemory> {
    let mut out = ample_sink(alloc, AMPLE_ROOM)?;
    expect_run(
        rt,
        alloc,
        words,
        folder,
        &mut out,
        status,
        document.as_bytes(),
    )
}

/// Asserts the status and the document of a command on a day whose folder has this text as its answer.
pub(crate) fn expect_answered(
    rt: &impl Abort,
    alloc: Global,
    command: &str,
    day: &Day,
    answer: &str,
    status: u8,
    document: &str,
) -> Result<(), NoMemory> {
    let mut folder = folder_with_bytes(rt, alloc, day, "day/answer.txt", answer.as_bytes())?;
    let words = ["railplan", command, "day"];
    expect_ample(rt, alloc, &words, &mut folder, status, document)
}

/// Asserts the status and the document of words over the folder of a day.
pub(crate) fn expect_words(
    rt: &impl Abort,
    alloc: Global,
    day: &Day,
    words: &[&str],
    status: u8,
    document: &str,
) -> Result<(), NoMemory> {
    let mut folder = folder_of(rt, alloc, day, Vec::new(alloc))?;
    expect_ample(rt, alloc, words, &mut folder, status, document)
}

/// Asserts the status and the document of `simulate day` over a folder.
pub(crate) fn expect_simulated(
    rt: &impl Abort,
    alloc: Global,
    folder: &mut MemoryFolder,
    status: u8,
    document: &str,
) -> Result<(), NoMemory> {
    let words = &["railplan", "simulate", "day"];
    expect_ample(rt, alloc, words, folder, status, document)
}

/// A day, the status of the run of its plan, and the document of that.
pub(crate) type Simulation = (Day<'static>, u8, &'static str);

/// Asserts how the plans of days run.
pub(crate) fn expect_simulations(
    rt: &impl Abort,
    alloc: Global,
    rows: &[Simulation],
) -> Result<(), NoMemory> {
    for (day, status, document) in rows {
        expect_document(rt, alloc, day, *status, document)?;
    }
    Ok(())
}

/// Asserts the status of a day that is simulated, and the document that it writes.
pub(crate) fn expect_document(
    rt: &impl Abort,
    alloc: Global,
    day: &Day,
    status: u8,
    document: &str,
) -> Result<(), NoMemory> {
    let words = &["railplan", "simulate", "day"];
    expect_words(rt, alloc, day, words, status, document)
}
