//! A folder and a sink in memory, whose calls fail where they are told to, where no file has the path, and where no
//! room is left. They are for tests.

ghost use Rattle.std.specs.Prelude.{◌≡◌, ◌<◌, ◌≤◌, ◌++◌, [], length, take, IsTrue, MatchOption, None, Some, IfOk};
ghost use Rattle.std.specs.Prelude.{◌+◌, ◌⊎◌, true, IfSome, OnErr, is_none};
ghost use Rattle.std.specs.Result.{is_err};
ghost use Rattle.std.specs.FinMap as map;
ghost use Rattle.rail_base.specs.Names.{is_name};
ghost use Rattle.rail_io.specs.Folders.{IsReadFrom, Rose, RoseBy, incremented, faults_after, file_at};
ghost use Rattle.rail_io.specs.InMemory.{read_fails, read_may_fail, write_fails, write_takes};
ghost use Rattle.rail_io.specs.MemoryFiles.{files_of};

use crate::{Failed, Folder, Sink};
use rail_base::{Bytes, Name, NoMemory};
use std::alloc::Global;
use std::marker::Model;

/// A file in memory: its path, of at most 64 bytes, and its bytes.
#[derive(Drop)]
pub struct MemoryFile {
    /// The path by which it is read.
    pub path: Name,
    /// Its bytes, from the front on.
    pub bytes: Bytes,
}

impl MemoryFile {
    /// The file with a path, which is one that a name may be, and with bytes; both are copied. The error is want of
    /// memory.
    pub fn new(alloc: Global, path: &str, bytes: &[u8]) -> Result<MemoryFile, NoMemory>
        requires { IsTrue (is_name path.now) }
        ensures { IfOk result (λ file. file ≡ record { path = path.now; bytes = bytes.now }) }
    {
        Ok(MemoryFile {
            path: Name::copy(alloc, path)?,
            bytes: Bytes::of(bytes.to_vec(alloc)?),
        })
    }
}

/// A folder in memory. A read fails where its number, counted from 0, is among those that are to fail, and where no
/// file has the path. The count of faults rises in these calls, unless it stands at its last value, and in no other.
#[derive(Drop)]
pub struct MemoryFolder {
    files: Vec<MemoryFile>,
    failing: Vec<u64>,
    calls: u64,
    faults: u64,
    taken: u64,
}

impl Model for MemoryFolder {
    ghost use Rattle.rail_io.specs.InMemory.{FolderInMemory, folder_code};

    ghost Value = { FolderInMemory };

    ghost coded = { folder_code };

    ghost use Rattle.rail_io.specs.MemoryFiles.{files_of};

    ghost view = { λ a. record {
      files = files_of a.files.items;
      failing = a.failing.items;
      calls = a.calls;
      faults = a.faults;
      taken = a.taken;
    } };
}

/// The bytes of the first file with a path.
pub(crate) fn find_file<'a>(files: &'a [MemoryFile], path: &str) -> Option<&'a [u8]>
    ensures { MatchOption result (map.get (files_of files.now) path.now ≡ None)
        (λ bytes. map.get (files_of files.now) path.now ≡ Some bytes.now) }
{
    for file in files {
        if path == file.path.as_str() {
            return Some(file.bytes.items());
        }
    }
    None
}

/// Copies what a file has from a place on, as far as there is room, and answers how many bytes that was: where room is
/// left, the file ends there.
pub(crate) fn copy_from(file: &[u8], from: u64, into: &mut [u8]) -> usize
    ensures read { IsReadFrom file.now from result into.new }
    ensures room { result ≤ length into.new }
    ensures whole { (result ≡ length into.new) ⊎ (length file.now ≤ from + result) }
{
    let start = file.len().min(from as usize);
    let rest = &file[start..];
    let count = rest.len().min(into.len());
    into[..count].copy_from_slice(&rest[..count]);
    count
}

impl MemoryFolder {
    /// The folder with these files, of which the first counts where two have one path, and the numbers of the reads
    /// that fail, counted from 0. The error is want of memory.
    pub fn new(
        _alloc: Global,
        files: Vec<MemoryFile>,
        failing: Vec<u64>,
    ) -> Result<MemoryFolder, NoMemory>
        ensures { IfOk result (λ folder. folder ≡ record {
          files = files_of files.items;
          failing = failing.items;
          calls = 0;
          faults = 0;
          taken = 0;
        }) }
    {
        Ok(MemoryFolder {
            files,
            failing,
            calls: 0,
            faults: 0,
            taken: 0,
        })
    }

    /// Copies as the next read is to do, and answers how many bytes that was, or `None` where that read is to fail.
    fn copied(&self, path: &str, from: u64, into: &mut [u8]) -> Option<usize>
        ensures fails { is_none result ≡ read_fails self.now path.now }
        ensures told { IfSome result (λ n. IsReadFrom (file_at self.now.files path.now) from n into.new) }
        ensures room { IfSome result (λ n. n ≤ length into.new) }
    {
        if self.failing.contains(&self.calls) {
            return None;
        }
        let bytes = find_file(&self.files, path)?;
        Some(copy_from(bytes, from, into))
    }
}

impl Folder for MemoryFolder {
    ghost state = { λ folder. record {
      holds = Some folder.files;
      may_fail = read_may_fail folder;
      faults = folder.faults;
      taken = folder.taken;
      counts_failed = true;
    } };

    fn read_at(&mut self, path: &str, from: u64, into: &mut [u8]) -> Result<usize, Failed>
        // What the trait asks.
        ensures told { IfOk result (λ n. IsReadFrom (file_at self.old.files path.now) from n into.new) }
        ensures room { IfOk result (λ n. n ≤ length into.new) }
        ensures fault { OnErr result (Rose self.old.faults self.new.faults) }
        ensures faults { self.new.faults ≡ faults_after (is_err result) self.old.faults }
        ensures failing { self.new.failing ≡ self.old.failing }
        ensures may { OnErr result (IsTrue (read_may_fail self.old path.now)) }
        ensures lasting { self.old.faults ≤ self.new.faults }
        ensures growing { self.old.taken ≤ self.new.taken }
        ensures same { self.new.files ≡ self.old.files }
        ensures taken { IfOk result (λ n. RoseBy n self.old.taken self.new.taken) }

        // More, of this one.
        ensures untaken { OnErr result (self.new.taken ≡ self.old.taken) }
        ensures fails { is_err result ≡ read_fails self.old path.now }
        ensures calls { self.new.calls ≡ incremented self.old.calls }
    {
        let copied = self.copied(path, from, into);
        self.calls = self.calls.saturating_add(1);
        let Some(count) = copied else {
            self.faults = self.faults.saturating_add(1);
            return Err(Failed);
        };
        self.taken = self.taken.saturating_add(count as u64);
        Ok(count)
    }
}

/// A sink in memory. A write takes at most `most` bytes, and no more than there is room for. A write of a piece that
/// is not empty fails where no room is left, and where its number, counted from 0, is among those that are to fail.
/// The count of faults rises in these calls, unless it stands at its last value, and in no other.
#[derive(Drop)]
pub struct MemorySink {
    written: Vec<u8>,
    room: usize,
    most: usize,
    failing: Vec<u64>,
    calls: u64,
    faults: u64,
}

impl Model for MemorySink {
    ghost use Rattle.std.specs.Prelude.{◌≤◌, length, vec_capacity};
    ghost use Rattle.rail_io.specs.InMemory.{SinkInMemory};

    ghost Value = { SinkInMemory };

    ghost view = { λ a. record {
      written = a.written.items;
      room = a.room;
      most = a.most;
      failing = a.failing.items;
      calls = a.calls;
      faults = a.faults;
    } };

    ghost invariant = { λ a. (length a.written.items ≤ a.room) × (a.room ≤ vec_capacity a.written) × (1 ≤ a.most) };
}

impl MemorySink {
    /// An empty sink: how many bytes it has room for, how many a write takes at most, and the numbers of the writes
    /// that fail, counted from 0. The error is want of memory.
    pub fn new(
        alloc: Global,
        room: usize,
        most: usize,
        failing: Vec<u64>,
    ) -> Result<MemorySink, NoMemory>
        requires { 1 ≤ most }
        ensures { IfOk result (λ sink. sink ≡ record {
          written = [];
          room = room;
          most = most;
          failing = failing.items;
          calls = 0;
          faults = 0;
        }) }
    {
        Ok(MemorySink {
            written: Vec::with_capacity(alloc, room)?,
            room,
            most,
            failing,
            calls: 0,
            faults: 0,
        })
    }

    /// All bytes written so far, in the order of the writes.
    pub fn written(&self) -> &[u8]
        ensures { result.now ≡ self.now.written }
    {
        self.written.as_slice()
    }

    /// Whether the next write of a piece fails.
    fn fails(&self, piece: &[u8]) -> bool
        ensures { result ≡ write_fails self.now piece.now }
    {
        if piece.is_empty() {
            return false;
        }
        self.room <= self.written.len() || self.failing.contains(&self.calls)
    }

    /// Takes what there is room for of a piece, and answers how many bytes that was.
    fn take(&mut self, piece: &[u8]) -> usize
        ensures count { result ≡ write_takes self.old piece.now }
        ensures sink { self.new ≡ record self.old { written = self.old.written ++ take result piece.now } }
    {
        let left = self.room - self.written.len();
        let count = piece.len().min(self.most).min(left);
        self.written.extend_from_slice(&piece[..count]).unwrap();
        count
    }
}

impl Sink for MemorySink {
    ghost written = { λ sink. Some sink.written };

    ghost faults = { λ sink. sink.faults };

    ghost counts_failed = { true };

    fn write(&mut self, piece: &[u8]) -> Result<usize, Failed>
        // What the trait asks.
        ensures room { IfOk result (λ n. n ≤ length piece.now) }
        ensures some { 0 < length piece.now → IfOk result (λ n. 0 < n) }
        ensures appended { IfOk result (λ n. self.new.written ≡ self.old.written ++ take n piece.now) }
        ensures kept { OnErr result (self.new.written ≡ self.old.written) }
        ensures fault { OnErr result (Rose self.old.faults self.new.faults) }
        ensures faults { self.new.faults ≡ faults_after (is_err result) self.old.faults }
        ensures lasting { self.old.faults ≤ self.new.faults }

        // More, of this one.
        ensures fails { is_err result ≡ write_fails self.old piece.now }
        ensures count { IfOk result (λ n. n ≡ write_takes self.old piece.now) }
        ensures calls { self.new.calls ≡ incremented self.old.calls }
        ensures room_stays { self.new.room ≡ self.old.room }
        ensures most_stays { self.new.most ≡ self.old.most }
        ensures failing { self.new.failing ≡ self.old.failing }
    {
        let fails = self.fails(piece);
        self.calls = self.calls.saturating_add(1);
        if fails {
            self.faults = self.faults.saturating_add(1);
            return Err(Failed);
        }
        Ok(self.take(piece))
    }
}
