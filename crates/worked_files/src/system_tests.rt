//! The folder on disk and the standard output, over a system in memory that counts its calls and fails at one of them.

use crate::file_tests::write_piece;
use rail_io::{DiskFolder, Folder, Sink, StdoutSink, write_all};
use std::alloc::{AllocError, Allocator, Global};
use std::cell::Cell;
use std::fmt::Display;
use std::fs::{Metadata, OpenFile, OpenOptions};
use std::io;
use std::io::{ErrorKind, Print, Read, Seek, SeekFrom, Write};
use std::process::Abort;
use std::rt::Files;
use std::test::Fail;

/// The numbers by which the system tells an error, from 1 to before this one.
const ERRORS: i32 = 134;

/// A system that has the same bytes in every file, hands out at most so many of them at a read, counts its calls, and
/// fails at the call of one number with an error of one number. Its files may only be read; it makes none and tells
/// nothing else of one.
#[derive(Clone, Copy, Drop)]
struct FailingDisk<'a> {
    bytes: &'a [u8],
    most: usize,
    failing: Option<usize>,
    error: i32,
    calls: &'a Cell<usize>,
}

impl FailingDisk<'_> {
    /// Counts a call, which fails where it has the number of the one that is to fail.
    fn call(&self) -> io::Result<()> {
        let call = self.calls.get();
        self.calls.set(call.saturating_add(1));
        if self.failing == Some(call) {
            return Err(io::Error::from_raw_os_error(self.error));
        }
        Ok(())
    }

    /// Counts a call that is not made in these tests.
    fn another<T>(&self) -> io::Result<T> {
        self.call()?;
        unsupported()
    }
}

/// A file of this system that was opened, and where its next read begins.
#[derive(Drop)]
struct FailingFile<'a> {
    disk: FailingDisk<'a>,
    at: usize,
}

/// What a call answers that is not made in these tests.
fn unsupported<T>() -> io::Result<T> {
    Err(io::Error::from(ErrorKind::Unsupported))
}

impl Read for FailingFile<'_> {
    fn read(&mut self, into: &mut [u8]) -> io::Result<usize> {
        self.disk.call()?;
        let rest = self.disk.bytes.get(self.at..).unwrap_or(b"");
        let count = rest.len().min(into.len()).min(self.disk.most);
        into[..count].copy_from_slice(&rest[..count]);
        self.at = self.at.saturating_add(count);
        Ok(count)
    }
}

impl Seek for FailingFile<'_> {
    fn seek(&mut self, to: SeekFrom) -> io::Result<u64> {
        self.disk.call()?;
        let SeekFrom::Start(at) = to else {
            return unsupported();
        };
        self.at = at as usize;
        Ok(at)
    }
}

impl Write for FailingFile<'_> {
    fn write(&mut self, _bytes: &[u8]) -> io::Result<usize> {
        self.disk.call()?;
        Err(io::Error::from(ErrorKind::Unsupported))
    }

    fn flush(&mut self) -> io::Result<()> {
        self.disk.another()
    }
}

impl OpenFile for FailingFile<'_> {
    fn metadata(&self) -> io::Result<Metadata> {
        self.disk.another()
    }

    fn set_len(&self, _size: u64) -> io::Result<()> {
        self.disk.another()
    }

    fn sync_all(&self) -> io::Result<()> {
        self.disk.another()
    }

    fn sync_data(&self) -> io::Result<()> {
        self.disk.another()
    }
}

impl<'a> Files for FailingDisk<'a> {
    type File = FailingFile<'a>;

    type Dir = FailingFile<'a>;

    fn open_file(&self, how: &OpenOptions, _path: &str) -> io::Result<FailingFile<'a>> {
        self.call()?;
        let makes = how.asks_create() || how.asks_create_new();
        let changes = how.asks_write() || how.asks_append() || how.asks_truncate();
        if makes || changes || !how.asks_read() {
            return Err(io::Error::from(ErrorKind::PermissionDenied));
        }
        Ok(FailingFile { disk: *self, at: 0 })
    }

    fn open_dir(&self, _path: &str) -> io::Result<FailingFile<'a>> {
        self.another()
    }

    fn metadata(&self, _path: &str) -> io::Result<Metadata> {
        self.another()
    }

    fn symlink_metadata(&self, _path: &str) -> io::Result<Metadata> {
        self.another()
    }

    fn copy(&self, _from: &str, _to: &str) -> io::Result<u64> {
        self.another()
    }

    fn rename(&self, _from: &str, _to: &str) -> io::Result<()> {
        self.another()
    }

    fn remove_file(&self, _path: &str) -> io::Result<()> {
        self.another()
    }

    fn create_dir(&self, _path: &str) -> io::Result<()> {
        self.another()
    }

    fn remove_dir(&self, _path: &str) -> io::Result<()> {
        self.another()
    }

    fn remove_dir_all<B: Allocator>(&self, _alloc: B, _path: &str) -> io::Result<()> {
        self.another()
    }
}

/// Of a system that has `runs 60` in every file: how many bytes it hands out at a read at most, the number of the call
/// that fails, the places from which at most four bytes of one path are read, what the reads give, one a line, and how
/// many calls there were.
struct OnFailingDisk {
    most: usize,
    failing: Option<usize>,
    places: &'static [u64],
    told: &'static str,
    calls: usize,
}

const ON_FAILING_DISK: &[OnFailingDisk] = &[
    // None fails: each read opens the file, seeks its place and reads.
    OnFailingDisk {
        most: 4,
        failing: None,
        places: &[0, 4, 7, 7],
        told: "runs\n 60\n\n\n",
        calls: 12,
    },
    // Less than was asked for is handed out as it is, and is not the file's end.
    OnFailingDisk {
        most: 3,
        failing: None,
        places: &[0, 3, 6, 7],
        told: "run\ns 6\n0\n\n",
        calls: 12,
    },
    // A file that can't be opened is not opened again in this read.
    OnFailingDisk {
        most: 4,
        failing: Some(0),
        places: &[0, 0],
        told: "failed\nruns\n",
        calls: 4,
    },
    // A seek that fails is not made again, and nothing is read after it.
    OnFailingDisk {
        most: 4,
        failing: Some(4),
        places: &[0, 2, 4],
        told: "runs\nfailed\n 60\n",
        calls: 8,
    },
    // A read that fails is not made again.
    OnFailingDisk {
        most: 4,
        failing: Some(5),
        places: &[0, 4, 4],
        told: "runs\nfailed\n 60\n",
        calls: 9,
    },
];

/// What the reads of at most four bytes of one path from these places on give.
fn pieces_told<F: Folder>(
    alloc: Global,
    folder: &mut F,
    places: &[u64],
) -> Result<String, AllocError> {
    let mut text = String::new(alloc);
    for place in places {
        write_piece(&mut text, folder, "trips.csv", *place)?;
    }
    Ok(text)
}

/// What the reads of a row give, where the call that fails does so with this error.
fn failing_disk_told(
    alloc: Global,
    row: &OnFailingDisk,
    error: i32,
    calls: &Cell<usize>,
) -> Result<String, AllocError> {
    let disk = FailingDisk {
        bytes: b"runs 60",
        most: row.most,
        failing: row.failing,
        error,
        calls,
    };
    system_told(alloc, &disk, row.places)
}

/// What the reads from these places on give, over the folder on the disk of a system.
fn system_told<F: Files>(alloc: Global, system: &F, places: &[u64]) -> Result<String, AllocError> {
    let mut folder = DiskFolder::new(system);
    pieces_told(alloc, &mut folder, places)
}

/// Asserts what the reads of a row give, and how many calls there were.
fn expect_on_failing_disk(
    rt: &impl Abort,
    alloc: Global,
    row: &OnFailingDisk,
    error: i32,
) -> Result<(), AllocError> {
    let calls = Cell::new(0);
    let text = failing_disk_told(alloc, row, error, &calls)?;
    assert!(rt; text.as_str() == row.told, "{text}");
    let count = calls.get();
    assert!(rt; count == row.calls, "{count} calls, {text}");
    Ok(())
}

#[test]
fn a_failed_read_is_not_made_again(rt: HostRuntime) -> Result<(), Fail> {
    for row in ON_FAILING_DISK {
        for error in 1..ERRORS {
            expect_on_failing_disk(&rt, rt.alloc(), row, error)?;
        }
    }
    Ok(())
}

/// A standard output that takes so many bytes at a call at most, where they are the ones that are wanted next, and
/// fails with an error of one number at the call of one number.
#[derive(Drop)]
struct FewBytes<'a> {
    wanted: &'a [u8],
    most: usize,
    /// The numbers of the call that fails and of its error.
    failing: Option<(usize, i32)>,
    calls: Cell<usize>,
    taken: Cell<usize>,
}

impl<'a> FewBytes<'a> {
    /// One that was not called yet.
    fn new(wanted: &'a [u8], most: usize, failing: Option<(usize, i32)>) -> FewBytes<'a> {
        FewBytes {
            wanted,
            most,
            failing,
            calls: Cell::new(0),
            taken: Cell::new(0),
        }
    }

    /// Counts a call, which fails where it has the number of the one that is to fail.
    fn call(&self) -> io::Result<()> {
        let call = self.calls.get();
        self.calls.set(call.saturating_add(1));
        match self.failing {
            Some((failing, error)) if failing == call => Err(io::Error::from_raw_os_error(error)),
            _ => Ok(()),
        }
    }
}

impl Print for FewBytes<'_> {
    fn print<D: Display + Drop>(&self, _value: D) -> io::Result<()> {
        self.call()?;
        unsupported()
    }

    fn println<D: Display + Drop>(&self, _value: D) -> io::Result<()> {
        self.call()?;
        unsupported()
    }

    fn write_all(&self, _bytes: &[u8]) -> io::Result<()> {
        self.call()?;
        unsupported()
    }

    fn write_some(&self, bytes: &[u8]) -> io::Result<usize> {
        self.call()?;
        let taken = self.taken.get();
        let rest = self.wanted.get(taken..).unwrap_or(b"");
        let count = bytes.len().min(self.most);
        if count == 0 || !rest.starts_with(&bytes[..count]) {
            return Err(io::Error::from(ErrorKind::Unsupported));
        }
        self.taken.set(taken.saturating_add(count));
        Ok(count)
    }
}

/// Asserts that a standard output, over which a sink is, takes `runs 60` byte by byte, and no more than that.
fn takes_byte_by_byte(rt: &impl Abort, output: &FewBytes<'_>, sink: &mut impl Sink) {
    assert!(rt; output.calls.get() == 0);
    assert!(rt; sink.write(b"runs 60\n") == Ok(1));
    assert!(rt; is_written(sink, b"uns 60\n"));
    assert!(rt; output.taken.get() == 8);
    assert!(rt; !is_written(sink, b"runs 60\n"));
}

/// Asserts that a standard output takes `runs 60` whole.
fn takes_whole(rt: &impl Abort, output: &FewBytes<'_>) {
    assert!(rt; is_written_to(output));
    assert!(rt; output.taken.get() == 8);
}

/// Asserts that a standard output, whose second call fails, takes three bytes and is not called again.
fn stops_at_the_failed_call(rt: &impl Abort, output: &FewBytes<'_>) {
    assert!(rt; !is_written_to(output));
    assert!(rt; output.calls.get() == 2);
    assert!(rt; output.taken.get() == 3);
}

#[test]
fn a_short_write_is_no_whole_one(rt: HostRuntime) {
    let output = FewBytes::new(b"runs 60\n", 1, None);
    takes_byte_by_byte(&rt, &output, &mut StdoutSink::new(&output));
    takes_whole(&rt, &FewBytes::new(b"runs 60\n", 3, None));
}

#[test]
fn a_failed_write_is_not_made_again(rt: HostRuntime) {
    for error in 1..ERRORS {
        let output = FewBytes::new(b"runs 60\n", 3, Some((1, error)));
        stops_at_the_failed_call(&rt, &output);
    }
}

/// Whether `runs 60` is written whole to a standard output.
fn is_written_to(output: &FewBytes<'_>) -> bool {
    is_written(&mut StdoutSink::new(output), b"runs 60\n")
}

/// Whether bytes are written whole.
fn is_written<K: Sink>(sink: &mut K, bytes: &[u8]) -> bool {
    write_all(sink, bytes).is_ok()
}

#[test]
fn writes_to_the_standard_output(rt: HostRuntime) -> Result<(), Fail> {
    let mut sink = StdoutSink::new(&rt);
    assert!(rt; sink.write(b"") == Ok(0));
    assert!(rt; is_written(&mut sink, b"runs 60\n"));
    Ok(())
}
