//! The real folder and the real sink: files on disk, and the standard output. They tell no contents.

ghost use Rattle.std.specs.Prelude.{◌≡◌, true, ◌<◌, ◌≤◌, length, IfOk, OnErr, Ok, None};
ghost use Rattle.std.specs.Result.{is_err};
ghost use Rattle.rail_io.specs.Folders.{Rose, RoseBy, faults_after};

use crate::{Failed, Folder, Sink};
use std::io::{Print, Read, Seek, SeekFrom};
use std::marker::Model;
use std::rt::Files;
use std::{fs, io};

/// The files of the system, over the runtime that main is given. A path that is not absolute is taken from the folder
/// that the program runs in. Each read into some room opens the file of its path, seeks its place and reads there, so
/// that a file that is replaced meanwhile is read as it stands at each read. Each error of the system raises the count of faults, which
/// stays where it is once it is the greatest of its type. A contract sees the counts of faults and of bytes handed out.
#[derive(Drop)]
pub struct DiskFolder<'a, R: Files> {
    rt: &'a R,
    faults: u64,
    taken: u64,
}

impl<'a, R: Files> Model for DiskFolder<'a, R> {
    ghost use Rattle.rail_io.specs.OnDisk.{DiskCounts};

    ghost Value = { DiskCounts };

    ghost view = { λ a. record { faults = a.faults; taken = a.taken } };
}

impl<'a, R: Files> DiskFolder<'a, R> {
    /// The files of the system. It touches none of them.
    pub fn new(rt: &'a R) -> DiskFolder<'a, R>
        ensures { result ≡ record { faults = 0; taken = 0 } }
    {
        DiskFolder {
            rt,
            faults: 0,
            taken: 0,
        }
    }

    /// Reads some bytes of a file from a place on, and answers how many: 0 only at its end or where there is no room.
    fn read_from(&self, path: &str, from: u64, into: &mut [u8]) -> io::Result<usize>
        ensures { IfOk result (λ n. n ≤ length into.new) }
    {
        let mut file = fs::open(self.rt, path)?;
        file.seek(SeekFrom::Start(from))?;
        file.read(into)
    }
}

impl<'a, R: Files> Folder for DiskFolder<'a, R> {
    ghost state = { λ folder. record {
      holds = None;
      may_fail = λ _. true;
      faults = folder.faults;
      taken = folder.taken;
      counts_failed = true;
    } };

    fn read_at(&mut self, path: &str, from: u64, into: &mut [u8]) -> Result<usize, Failed>
        // What the trait asks.
        ensures room { IfOk result (λ n. n ≤ length into.new) }
        ensures fault { OnErr result (Rose self.old.faults self.new.faults) }
        ensures faults { self.new.faults ≡ faults_after (is_err result) self.old.faults }
        ensures lasting { self.old.faults ≤ self.new.faults }
        ensures growing { self.old.taken ≤ self.new.taken }
        ensures taken { IfOk result (λ n. RoseBy n self.old.taken self.new.taken) }

        // More, of this one.
        ensures untaken { OnErr result (self.new.taken ≡ self.old.taken) }
        ensures empty { length into.old ≡ 0 → result ≡ Ok 0 }
    {
        if into.is_empty() {
            return Ok(0);
        }
        let Ok(count) = self.read_from(path, from, into) else {
            self.faults = self.faults.saturating_add(1);
            return Err(Failed);
        };
        self.taken = self.taken.saturating_add(count as u64);
        Ok(count)
    }
}

/// The standard output, over the runtime that main is given. Each error of the system, and a write of no bytes of a
/// piece that is not empty, raises the count of faults, which stays where it is once it is the greatest of its type. A
/// contract sees that count.
#[derive(Drop)]
pub struct StdoutSink<'a, R: Print> {
    rt: &'a R,
    faults: u64,
}

impl<'a, R: Print> Model for StdoutSink<'a, R> {
    ghost use Rattle.std.specs.Prelude.{ℕ};

    ghost Value = { ℕ };

    ghost view = { λ a. a.faults };
}

impl<'a, R: Print> StdoutSink<'a, R> {
    /// The standard output. It writes nothing.
    pub fn new(rt: &'a R) -> StdoutSink<'a, R>
        ensures { result ≡ 0 }
    {
        StdoutSink { rt, faults: 0 }
    }
}

impl<'a, R: Print> Sink for StdoutSink<'a, R> {
    ghost written = { λ _. None };

    ghost faults = { λ sink. sink };

    ghost counts_failed = { true };

    fn write(&mut self, piece: &[u8]) -> Result<usize, Failed>
        ensures room { IfOk result (λ n. n ≤ length piece.now) }
        ensures some { 0 < length piece.now → IfOk result (λ n. 0 < n) }
        ensures fault { OnErr result (Rose self.old self.new) }
        ensures lasting { self.old ≤ self.new }

        ensures faults { self.new ≡ faults_after (is_err result) self.old }
        ensures empty { length piece.now ≡ 0 → result ≡ Ok 0 }
    {
        if piece.is_empty() {
            return Ok(0);
        }
        match self.rt.write_some(piece) {
            Ok(count) if count > 0 => Ok(count),
            _ => {
                self.faults = self.faults.saturating_add(1);
                Err(Failed)
            }
        }
    }
}
