//! A folder and a sink in memory whose calls never fail. They are for tests.

ghost use Rattle.std.specs.Prelude.{◌≡◌, ◌+◌, ◌≤◌, ◌++◌, ◌||◌, nat_lt, [], length, take, true, false, None, Some, Ok};
ghost use Rattle.std.specs.Prelude.{MatchOption, IfOk, IsTrue};
ghost use Rattle.std.specs.Result.{is_ok};
ghost use Rattle.rail_io.specs.Folders.{IsReadFrom, RoseBy, file_at};
ghost use Rattle.rail_io.specs.MemoryFiles.{files_of};
ghost use Rattle.rail_io.specs.Sinks.{Appends};
ghost use Rattle.rail_io.specs.Sure.{told_by};

use crate::memory::{copy_from, find_file};
use crate::{Failed, Folder, MemoryFile, Sink};
use rail_base::NoMemory;
use std::alloc::Global;
use std::marker::Model;

/// A folder in memory whose reads never fail. A path that none of its files has is read as an empty file.
#[derive(Drop)]
pub struct SureFolder {
    files: Vec<MemoryFile>,
    taken: u64,
}

impl Model for SureFolder {
    ghost use Rattle.rail_io.specs.Sure.{SureFiles, sure_code};

    ghost Value = { SureFiles };

    ghost coded = { sure_code };

    ghost use Rattle.rail_io.specs.MemoryFiles.{files_of};

    ghost view = { λ a. record { files = files_of a.files.items; taken = a.taken } };
}

impl SureFolder {
    /// The folder with these files, of which the first counts where two have one path. The error is want of memory.
    pub fn new(_alloc: Global, files: Vec<MemoryFile>) -> Result<SureFolder, NoMemory>
        ensures { IfOk result (λ folder. folder ≡ record { files = files_of files.items; taken = 0 }) }
    {
        Ok(SureFolder { files, taken: 0 })
    }

    /// The bytes of a path's file.
    fn file(&self, path: &str) -> &[u8]
        ensures { result.now ≡ file_at self.now.files path.now }
    {
        find_file(&self.files, path).unwrap_or(&[])
    }
}

impl Folder for SureFolder {
    ghost state = { λ folder. record {
      holds = Some folder.files;
      may_fail = λ _. false;
      faults = 0;
      taken = folder.taken;
      counts_failed = true;
    } };

    fn read_at(&mut self, path: &str, from: u64, into: &mut [u8]) -> Result<usize, Failed>
        ensures told { IfOk result (λ n. IsReadFrom (file_at self.old.files path.now) from n into.new) }
        ensures room { IfOk result (λ n. n ≤ length into.new) }
        ensures growing { self.old.taken ≤ self.new.taken }
        ensures same { self.new.files ≡ self.old.files }
        ensures taken { IfOk result (λ n. RoseBy n self.old.taken self.new.taken) }

        ensures sure { IsTrue (is_ok result) }
    {
        let count = copy_from(self.file(path), from, into);
        self.taken = self.taken.saturating_add(count as u64);
        Ok(count)
    }
}

/// A sink in memory whose writes never fail: each takes its whole piece. Bytes past its room are not kept, and where
/// some were not it no longer tells what was written.
#[derive(Drop)]
pub struct SureSink {
    kept: Vec<u8>,
    room: usize,
    has_lost: bool,
}

impl Model for SureSink {
    ghost use Rattle.std.specs.Prelude.{◌≤◌, length, vec_capacity};
    ghost use Rattle.rail_io.specs.Sure.{KeptBytes};

    ghost Value = { KeptBytes };

    ghost view = { λ a. record { kept = a.kept.items; room = a.room; has_lost = a.has_lost } };

    ghost invariant = { λ a. (length a.kept.items ≤ a.room) × (a.room ≤ vec_capacity a.kept) };
}

impl SureSink {
    /// An empty sink, and how many bytes it has room for. The error is want of memory.
    pub fn new(alloc: Global, room: usize) -> Result<SureSink, NoMemory>
        ensures { IfOk result (λ sink. sink ≡ record { kept = []; room = room; has_lost = false }) }
    {
        Ok(SureSink {
            kept: Vec::with_capacity(alloc, room)?,
            room,
            has_lost: false,
        })
    }

    /// All bytes written so far, or None where some of them were not kept.
    pub fn written(&self) -> Option<&[u8]>
        ensures { MatchOption result (told_by self.now ≡ None) (λ bytes. told_by self.now ≡ Some bytes.now) }
    {
        if self.has_lost {
            return None;
        }
        Some(self.kept.as_slice())
    }

    /// Notes a loss where a piece has more bytes than there is room for.
    fn note_loss(&mut self, piece: &[u8])
        ensures { self.new ≡ record self.old {
          has_lost = self.old.has_lost || nat_lt self.old.room (length self.old.kept + length piece.now);
        } }
    {
        if piece.len() > self.room - self.kept.len() {
            self.has_lost = true;
        }
    }

    /// Keeps what there is room for of a piece.
    fn keep(&mut self, piece: &[u8])
        ensures kept { self.new.kept ≡ take self.old.room (self.old.kept ++ piece.now) }
        ensures room_stays { self.new.room ≡ self.old.room }
        ensures lost { self.new.has_lost ≡ self.old.has_lost }
    {
        let count = piece.len().min(self.room - self.kept.len());
        self.kept.extend_from_slice(&piece[..count]).unwrap();
    }
}

impl Sink for SureSink {
    ghost written = { λ sink. told_by sink };

    ghost faults = { λ _. 0 };

    ghost counts_failed = { true };

    fn write(&mut self, piece: &[u8]) -> Result<usize, Failed>
        ensures appended { Appends piece.now (told_by self.old) (told_by self.new) }

        ensures whole { result ≡ Ok (length piece.now) }
        ensures kept { self.new.kept ≡ take self.old.room (self.old.kept ++ piece.now) }
        ensures lost { self.new.has_lost
            ≡ (self.old.has_lost || nat_lt self.old.room (length self.old.kept + length piece.now)) }
        ensures room_stays { self.new.room ≡ self.old.room }
    {
        self.note_loss(piece);
        self.keep(piece);
        Ok(piece.len())
    }
}
