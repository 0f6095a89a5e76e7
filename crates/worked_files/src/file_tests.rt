//! Whole files in and documents out: over memory with calls that fail on the way, and over the disk.

use rail_base::NoMemory;
use rail_base::limits::MAX_FILE_BYTES;
use rail_base::name::is_name;
use rail_io::{
    DiskFolder, Failed, FileRefusal, Folder, MemoryFile, MemoryFolder, MemorySink, Sink,
    SureFolder, SureSink, read_file, write_all,
};
use std::alloc::{AllocError, Global};
use std::path::{Path, PathBuf};
use std::process::Abort;
use std::test::Fail;
use std::{env, fs};

/// The bytes of a file.
#[derive(Clone, Copy)]
enum Bytes {
    /// These.
    Text(&'static [u8]),
    /// So many digits, each of the ten in turn, which differ from their neighbours.
    Digits(u32),
}

/// The digit at a place: the ten in turn.
fn digit(place: usize) -> u8 {
    b'0' + (place % 10) as u8
}

/// The bytes themselves.
fn made(alloc: Global, bytes: Bytes) -> Result<Vec<u8>, AllocError> {
    let mut made = Vec::new(alloc);
    match bytes {
        Bytes::Text(text) => made.extend_from_slice(text)?,
        Bytes::Digits(count) => {
            for place in 0..count {
                made.push(digit(place as usize))?;
            }
        }
    }
    Ok(made)
}

/// Whether bytes are the ten digits in turn.
fn are_digits(bytes: &[u8]) -> bool {
    for place in 0..bytes.len() {
        if bytes[place] != digit(place) {
            return false;
        }
    }
    true
}

/// Writes bytes as a line: how many digits, where they are more than ten digits in turn, and else the bytes.
fn write_bytes(text: &mut String, bytes: &[u8]) -> Result<(), AllocError> {
    if bytes.len() > 10 && are_digits(bytes) {
        return write!(text, "{} digits\n", bytes.len());
    }
    for byte in bytes {
        text.push(*byte as char)?;
    }
    text.push_str("\n")
}

/// Writes what the whole file of a path is read as, where so many bytes may be read, or why it is refused.
fn write_whole<F: Folder>(
    text: &mut String,
    alloc: Global,
    folder: &mut F,
    path: &str,
    most: u64,
) -> Result<(), AllocError> {
    if most > MAX_FILE_BYTES {
        return text.push_str("no limit of a file\n");
    }
    match read_file(alloc, folder, path, most) {
        Ok(bytes) => write_bytes(text, &bytes),
        Err(why) => write!(text, "{why:?}\n"),
    }
}

/// Writes what a read of at most four bytes from this place on gives.
pub(crate) fn write_piece<F: Folder>(
    text: &mut String,
    folder: &mut F,
    path: &str,
    at: u64,
) -> Result<(), AllocError> {
    let mut piece = [0; 4];
    match folder.read_at(path, at, &mut piece) {
        Ok(count) => write_bytes(text, &piece[..count]),
        Err(_) => text.push_str("failed\n"),
    }
}

/// A folder in memory: its files, the numbers of the reads that fail, or that none fails and every path has a file;
/// whole reads of paths with the most bytes that may be read, and what they give, one a line.
struct InMemory {
    files: &'static [(&'static str, Bytes)],
    failing: Option<&'static [u64]>,
    reads: &'static [(&'static str, u64)],
    told: &'static str,
}

const IN_MEMORY: &[InMemory] = &[
    InMemory {
        files: &[("trips.csv", Bytes::Digits(70_000))],
        failing: Some(&[]),
        reads: &[
            ("trips.csv", 70_000),
            ("trips.csv", 69_999),
            ("links.csv", 70_000),
        ],
        told: "70000 digits\nTooLong\nReadFault\n",
    },
    // It stops at the read that fails.
    InMemory {
        files: &[("stock.csv", Bytes::Text(b"station,type,count\n"))],
        failing: Some(&[0]),
        reads: &[("stock.csv", 100)],
        told: "ReadFault\n",
    },
    InMemory {
        files: &[("stock.csv", Bytes::Text(b"station,type,count\n"))],
        failing: Some(&[1]),
        reads: &[("stock.csv", 100)],
        told: "ReadFault\n",
    },
    InMemory {
        files: &[("stock.csv", Bytes::Text(b"station,type,count\n"))],
        failing: Some(&[2]),
        reads: &[("stock.csv", 100)],
        told: "station,type,count\n\n",
    },
    // It tells a failed read before the length.
    InMemory {
        files: &[("links.csv", Bytes::Digits(101))],
        failing: Some(&[0]),
        reads: &[("links.csv", 100), ("links.csv", 100)],
        told: "ReadFault\nTooLong\n",
    },
    // It reads no more of a file that is too long.
    InMemory {
        files: &[("links.csv", Bytes::Digits(101))],
        failing: Some(&[1]),
        reads: &[("links.csv", 100)],
        told: "TooLong\n",
    },
    // A sure folder reads every path.
    InMemory {
        files: &[
            ("types.csv", Bytes::Text(b"first")),
            ("types.csv", Bytes::Text(b"second")),
        ],
        failing: None,
        reads: &[("types.csv", 5), ("types.csv", 4), ("links.csv", 5)],
        told: "first\nTooLong\n\n",
    },
];

/// A file in memory.
fn file(rt: &impl Abort, alloc: Global, path: &str, bytes: Bytes) -> Result<MemoryFile, NoMemory> {
    assert!(rt; is_name(path.as_bytes()));
    MemoryFile::new(alloc, path, &made(alloc, bytes)?)
}

/// What these whole reads of a folder give.
fn reads_told<F: Folder>(
    alloc: Global,
    folder: &mut F,
    reads: &[(&str, u64)],
) -> Result<String, AllocError> {
    let mut text = String::new(alloc);
    for (path, most) in reads {
        write_whole(&mut text, alloc, folder, path, *most)?;
    }
    Ok(text)
}

/// These files in memory.
fn files_of(
    rt: &impl Abort,
    alloc: Global,
    rows: &[(&str, Bytes)],
) -> Result<Vec<MemoryFile>, NoMemory> {
    let mut files = Vec::new(alloc);
    for (path, bytes) in rows {
        files.push(file(rt, alloc, path, *bytes)?)?;
    }
    Ok(files)
}

/// What these reads of a folder in memory give, of which those of these numbers fail.
fn failing_told(
    alloc: Global,
    files: Vec<MemoryFile>,
    numbers: &[u64],
    reads: &[(&str, u64)],
) -> Result<String, Fail> {
    let mut failing = Vec::new(alloc);
    failing.extend_from_slice(numbers)?;
    let mut folder = MemoryFolder::new(alloc, files, failing)?;
    Ok(reads_told(alloc, &mut folder, reads)?)
}

/// What these reads of a sure folder give.
fn sure_told(alloc: Global, files: Vec<MemoryFile>, reads: &[(&str, u64)]) -> Result<String, Fail> {
    let mut folder = SureFolder::new(alloc, files)?;
    Ok(reads_told(alloc, &mut folder, reads)?)
}

/// What the reads of a folder in memory give.
fn memory_told(rt: &impl Abort, alloc: Global, row: &InMemory) -> Result<String, Fail> {
    let files = files_of(rt, alloc, row.files)?;
    match row.failing {
        Some(numbers) => failing_told(alloc, files, numbers, row.reads),
        None => sure_told(alloc, files, row.reads),
    }
}

#[test]
fn reads_memory(rt: HostRuntime) -> Result<(), Fail> {
    for row in IN_MEMORY {
        let text = memory_told(&rt, rt.alloc(), row)?;
        assert!(rt; text.as_str() == row.told, "{text}");
    }
    Ok(())
}

/// Whether each of these pieces is written but the last, which fails, and then these bytes stand.
fn keeps(sink: &mut MemorySink, pieces: &[&[u8]], last: &[u8], wanted: &[u8]) -> bool {
    for piece in pieces {
        if write_all(sink, piece).is_err() {
            return false;
        }
    }
    write_all(sink, last) == Err(Failed) && sink.written() == wanted
}

/// Whether a sink whose write of number 3 fails, and which takes one byte at each, keeps the bytes before it.
fn keeps_before_a_failed_write(alloc: Global) -> Result<bool, Fail> {
    let failing = vec![in alloc; 3]?;
    let mut sink = MemorySink::new(alloc, 100, 1, failing)?;
    Ok(keeps(&mut sink, &[], b"runs 60\n", b"run"))
}

/// Whether a sink with room for six bytes keeps the first six.
fn keeps_what_it_has_room_for(alloc: Global) -> Result<bool, Fail> {
    let mut sink = MemorySink::new(alloc, 6, 4, Vec::new(alloc))?;
    Ok(keeps(&mut sink, &[b"runs "], b"60\n", b"runs 6"))
}

#[test]
fn keeps_what_was_written_before_the_failure(rt: HostRuntime) -> Result<(), Fail> {
    assert!(rt; keeps_before_a_failed_write(rt.alloc())?);
    assert!(rt; keeps_what_it_has_room_for(rt.alloc())?);
    Ok(())
}

/// Whether a sure sink takes a piece whole, and has these bytes after it, or has lost them.
fn takes(sink: &mut SureSink, piece: &[u8], written: Option<&[u8]>) -> bool {
    sink.write(piece) == Ok(piece.len()) && sink.written() == written
}

/// Asserts that a sure sink with room for eight bytes takes every piece.
fn are_taken(rt: &impl Abort, sink: &mut SureSink) {
    assert!(rt; takes(sink, b"runs ", Some(b"runs ")));
    assert!(rt; takes(sink, b"60\n", Some(b"runs 60\n")));
    assert!(rt; takes(sink, b"stops", None));
}

#[test]
fn a_sure_sink_takes_every_piece(rt: HostRuntime) -> Result<(), Fail> {
    let mut sink = SureSink::new(rt.alloc(), 8)?;
    are_taken(&rt, &mut sink);
    Ok(())
}

/// What is done with a file on the disk.
#[derive(Clone, Copy)]
enum Step {
    /// It is made of these bytes.
    Write(Bytes),
    /// It is removed.
    Remove,
    /// At most four bytes of it are read from this place on.
    Read(u64),
    /// The whole is read, where so many bytes may be read.
    ReadWhole(u64),
}

/// The ending of a file's name, what is done with it, and what the reads give, one a line.
struct OnDisk {
    ending: &'static str,
    steps: &'static [Step],
    told: &'static str,
}

const ON_DISK: &[OnDisk] = &[
    OnDisk {
        ending: "csv",
        steps: &[
            Step::Write(Bytes::Digits(200_000)),
            Step::ReadWhole(200_000),
            Step::ReadWhole(199_999),
            Step::Read(199_998),
            Step::Remove,
        ],
        told: "200000 digits\nTooLong\n89\n",
    },
    // A file is read as it stands at each read.
    OnDisk {
        ending: "txt",
        steps: &[
            Step::Write(Bytes::Text(b"before")),
            Step::Read(0),
            // Another file takes its place, which is read from then on.
            Step::Remove,
            Step::Write(Bytes::Text(b"after")),
            Step::Read(3),
            // One place is read twice.
            Step::Read(1),
            Step::Read(1),
            Step::Read(6),
            Step::Read(0),
            Step::Remove,
            Step::Read(3),
        ],
        told: "befo\ner\nfter\nfter\n\nafte\nfailed\n",
    },
    // A seek that fails is told. No file of the system has a place past 2^63.
    OnDisk {
        ending: "sought",
        steps: &[
            Step::Write(Bytes::Text(b"runs 60\n")),
            Step::Read(u64::MAX),
            Step::Read(4),
            Step::Remove,
        ],
        told: "failed\n 60\n\n",
    },
];

/// A path on the disk that no other process uses, with this ending.
fn path_on_disk(rt: &HostRuntime, ending: &str) -> Result<PathBuf, Fail> {
    let number = std::process::id(rt.process());
    let name = format!(in rt.alloc(); "rail_io-{number}.{ending}")?;
    Ok(env::temp_dir(rt)?.join(rt.alloc(), name.as_str())?)
}

/// Makes a file of these bytes.
fn write_file(rt: &HostRuntime, path: Path<'_>, bytes: Bytes) -> Result<(), Fail> {
    Ok(fs::write(rt, path, made(rt.alloc(), bytes)?.as_slice())?)
}

/// Does one step with the file of a path, and writes what it gives where it is a read.
fn write_step(
    text: &mut String,
    rt: &HostRuntime,
    folder: &mut DiskFolder<'_, HostRuntime>,
    path: Path<'_>,
    step: Step,
) -> Result<(), Fail> {
    match step {
        Step::Write(bytes) => write_file(rt, path, bytes),
        Step::Remove => Ok(fs::remove_file(rt, path)?),
        Step::Read(at) => Ok(write_piece(text, folder, path.as_str(), at)?),
        Step::ReadWhole(most) => { Ok(write_whole(text, rt.alloc(), folder, path.as_str(), most)?) }
    }
}

/// What the reads among these steps with one file give.
fn disk_told(rt: &HostRuntime, path: Path<'_>, steps: &[Step]) -> Result<String, Fail> {
    let mut text = String::new(rt.alloc());
    let mut folder = DiskFolder::new(rt);
    for step in steps {
        write_step(&mut text, rt, &mut folder, path, *step)?;
    }
    Ok(text)
}

/// What the reads of a row give, with a file that is the row's alone.
fn row_told(rt: &HostRuntime, row: &OnDisk) -> Result<String, Fail> {
    let path = path_on_disk(rt, row.ending)?;
    disk_told(rt, path.as_path(), row.steps)
}

#[test]
fn reads_the_disk(rt: HostRuntime) -> Result<(), Fail> {
    for row in ON_DISK {
        let text = row_told(&rt, row)?;
        assert!(rt; text.as_str() == row.told, "{text}");
    }
    Ok(())
}

#[test]
fn a_folder_is_no_file(rt: HostRuntime) -> Result<(), Fail> {
    let path = env::temp_dir(&rt)?;
    let mut folder = DiskFolder::new(&rt);
    let text = reads_told(rt.alloc(), &mut folder, &[(path.as_str(), 100)])?;
    assert!(rt; text.as_str() == "ReadFault\n", "{text}");
    Ok(())
}
