//! A folder with a day in it, and what the desk and the first program say of it.

use advisors::{Advisor, Diver, Subgradient};
use desk_app::raildesk;
use planner_app::railplan;
use rail_base::name::is_name;
use rail_base::{NoMemory, Words};
use rail_io::{MemoryFile, MemoryFolder, MemorySink};
use sample_days::Texts;
use std::alloc::Global;
use std::process::Abort;

/// Room for the document of a small day, in bytes.
const AMPLE_ROOM: usize = 10_000;

/// Adds files, by their paths.
fn add(
    rt: &impl Abort,
    alloc: Global,
    files: &mut Vec<MemoryFile>,
    rows: &[(&str, &[u8])],
) -> Result<(), NoMemory> {
    for (path, bytes) in rows {
        assert!(rt; is_name(path.as_bytes()));
        files.push(MemoryFile::new(alloc, *path, *bytes)?)?;
    }
    Ok(())
}

/// Adds the files of the tables of a day, with the weights 1, 1 and 100.
fn add_day(
    rt: &impl Abort,
    alloc: Global,
    files: &mut Vec<MemoryFile>,
    texts: &Texts<'_>,
) -> Result<(), NoMemory> {
    let rows: [(&str, &[u8]); 6] = [
        ("day/types.csv", texts.types),
        ("day/stations.csv", texts.stations),
        ("day/stock.csv", texts.stock),
        ("day/trips.csv", texts.trips),
        ("day/links.csv", texts.links),
        ("day/weights.csv", b"carriage,shortage,shunting\n1,1,100\n"),
    ];
    add(rt, alloc, files, &rows)
}

/// The files of the tables of a day, and more files by their paths.
fn files_of(
    rt: &impl Abort,
    alloc: Global,
    texts: &Texts<'_>,
    more: &[(&str, &[u8])],
) -> Result<Vec<MemoryFile>, NoMemory> {
    let mut files = Vec::new(alloc);
    add_all(rt, alloc, &mut files, texts, more)?;
    Ok(files)
}

/// Adds those files.
fn add_all(
    rt: &impl Abort,
    alloc: Global,
    files: &mut Vec<MemoryFile>,
    texts: &Texts<'_>,
    more: &[(&str, &[u8])],
) -> Result<(), NoMemory> {
    add_day(rt, alloc, files, texts)?;
    add(rt, alloc, files, more)
}

/// The folder `day` with the tables of a day, whose reads fail at these numbers.
pub(crate) fn folder_of(
    rt: &impl Abort,
    alloc: Global,
    texts: &Texts<'_>,
    failing: &[u64],
) -> Result<MemoryFolder, NoMemory> {
    folder_with(rt, alloc, texts, &[], failing)
}

/// The same with more files, by their paths.
pub(crate) fn folder_with(
    rt: &impl Abort,
    alloc: Global,
    texts: &Texts<'_>,
    more: &[(&str, &[u8])],
    failing: &[u64],
) -> Result<MemoryFolder, NoMemory> {
    let files = files_of(rt, alloc, texts, more)?;
    MemoryFolder::new(alloc, files, failing.to_vec(alloc)?)
}

/// The words of a command line.
pub(crate) fn words_of(rt: &impl Abort, alloc: Global, texts: &[&str]) -> Result<Words, NoMemory> {
    let mut words = Words::new(alloc)?;
    add_words(rt, &mut words, texts)?;
    Ok(words)
}

/// Adds words.
fn add_words(rt: &impl Abort, words: &mut Words, texts: &[&str]) -> Result<(), NoMemory> {
    for text in texts {
        assert!(rt; words.len() < 1000);
        words.push(*text)?;
    }
    Ok(())
}

/// One of the two programs.
#[derive(Clone, Copy)]
pub(crate) enum Program {
    /// The first one.
    Railplan,
    /// The planner's desk.
    Raildesk,
}

/// The status of words over a folder and a sink, with the advisors that both programs have.
fn run_over(
    alloc: Global,
    program: Program,
    words: &Words,
    folder: &mut MemoryFolder,
    out: &mut MemorySink,
) -> Result<u8, NoMemory> {
    let mut advisors: Vec<Box<dyn Advisor>> = Vec::new(alloc);
    advisors.push(Box::new(alloc, Subgradient::new())?)?;
    advisors.push(Box::new(alloc, Diver::new())?)?;
    match program {
        Program::Railplan => Ok(railplan(alloc, words, folder, out, &mut advisors)),
        Program::Raildesk => Ok(raildesk(alloc, words, folder, out, &mut advisors)),
    }
}

/// A sink with ample room.
pub(crate) fn ample_sink(alloc: Global) -> Result<MemorySink, NoMemory> {
    MemorySink::new(alloc, AMPLE_ROOM, 1000, Vec::new(alloc))
}

/// The words after the program's name, with that before them.
fn words_after_name(rt: &impl Abort, alloc: Global, words: &[&str]) -> Result<Words, NoMemory> {
    let mut given = words_of(rt, alloc, &["program"])?;
    add_words(rt, &mut given, words)?;
    Ok(given)
}

/// The status of words after the program's name over a folder and a sink.
pub(crate) fn status_of(
    rt: &impl Abort,
    alloc: Global,
    program: Program,
    words: &[&str],
    folder: &mut MemoryFolder,
    out: &mut MemorySink,
) -> Result<u8, NoMemory> {
    let given = words_after_name(rt, alloc, words)?;
    run_over(alloc, program, &given, folder, out)
}

/// Asserts the status of the desk on a day by words after the program's name, and all that it writes.
pub(crate) fn expect(
    rt: &impl Abort,
    alloc: Global,
    texts: &Texts<'_>,
    words: &[&str],
    status: u8,
    document: &str,
) -> Result<(), NoMemory> {
    let mut folder = folder_of(rt, alloc, texts, &[])?;
    expect_over(rt, alloc, &mut folder, words, status, document)
}

/// The same over a folder.
pub(crate) fn expect_over(
    rt: &impl Abort,
    alloc: Global,
    folder: &mut MemoryFolder,
    words: &[&str],
    status: u8,
    document: &str,
) -> Result<(), NoMemory> {
    let run = (Program::Raildesk, words);
    expect_written(rt, alloc, folder, run, status, document.as_bytes())
}

/// Asserts the status of the desk over a folder, and how the document begins.
pub(crate) fn expect_front(
    rt: &impl Abort,
    alloc: Global,
    folder: &mut MemoryFolder,
    words: &[&str],
    status: u8,
    front: &str,
) -> Result<(), NoMemory> {
    let mut out = ample_sink(alloc)?;
    let found = status_of(rt, alloc, Program::Raildesk, words, folder, &mut out)?;
    expect_begun(rt, found == status, out.written(), front);
    Ok(())
}

/// Asserts that a status is right, and what is written begins with a front.
fn expect_begun(rt: &impl Abort, has_status: bool, written: &[u8], front: &str) {
    assert!(rt;
        written.starts_with(front.as_bytes()) && has_status,
        "{front}"
    );
}

/// Asserts that a status is right, and all that is written.
fn expect_document(rt: &impl Abort, has_status: bool, written: &[u8], document: &[u8]) {
    assert!(rt; written == document && has_status, "{document:?}");
}

/// Asserts that a run over a folder, a program and its words, writes this and ends with this status.
pub(crate) fn expect_written(
    rt: &impl Abort,
    alloc: Global,
    folder: &mut MemoryFolder,
    run: (Program, &[&str]),
    status: u8,
    document: &[u8],
) -> Result<(), NoMemory> {
    let mut out = ample_sink(alloc)?;
    let found = status_of(rt, alloc, run.0, run.1, folder, &mut out)?;
    expect_document(rt, found == status, out.written(), document);
    Ok(())
}

/// A run of the desk: a day, more files of its folder by their paths, the reads that fail, the words after the
/// program's name, the status, and all that is written.
#[derive(Clone, Copy)]
pub(crate) struct Run<'a> {
    pub(crate) texts: Texts<'a>,
    pub(crate) more: &'a [(&'a str, &'a [u8])],
    pub(crate) failing: &'a [u64],
    pub(crate) words: &'a [&'a str],
    pub(crate) status: u8,
    pub(crate) document: &'a str,
}

/// Asserts what comes of a run.
fn expect_run(rt: &impl Abort, alloc: Global, run: &Run<'_>) -> Result<(), NoMemory> {
    let mut folder = folder_with(rt, alloc, &run.texts, run.more, run.failing)?;
    expect_over(rt, alloc, &mut folder, run.words, run.status, run.document)
}

/// Asserts what comes of each run.
pub(crate) fn expect_runs(
    rt: &impl Abort,
    alloc: Global,
    runs: &[Run<'_>],
) -> Result<(), NoMemory> {
    for run in runs {
        expect_run(rt, alloc, run)?;
    }
    Ok(())
}
