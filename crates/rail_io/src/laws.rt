//! What holds of each folder and each sink of this crate.
//!
//! A law is the contract of a function that does nothing.

ghost use Rattle.std.specs.Prelude.{◌≡◌, true};
ghost use Rattle.rail_io.specs.InMemory.{FolderInMemory};
ghost use Rattle.rail_io.specs.OnDisk.{DiskCounts};
ghost use Rattle.rail_io.specs.Sure.{SureFiles};

use crate::disk::{DiskFolder, StdoutSink};
use crate::folder::Folder;
use crate::memory::{MemoryFolder, MemorySink};
use crate::sink::Sink;
use crate::sure::{SureFolder, SureSink};
use std::io::Print;
use std::rt::Files;

/// Each folder and each sink counts its failed calls: a call that fails raises its count of faults by one, below a
/// counter's last value, and no other call changes it.
pub fn failed_calls_are_counted<'a, R: Files + 'a, P: Print + 'a>()
    ensures memory_folder { (folder : FolderInMemory) → (⟦<MemoryFolder as Folder>⟧.state folder).counts_failed ≡ true }
    ensures memory_sink { ⟦<MemorySink as Sink>⟧.counts_failed ≡ true }
    ensures sure_folder { (folder : SureFiles) → (⟦<SureFolder as Folder>⟧.state folder).counts_failed ≡ true }
    ensures sure_sink { ⟦<SureSink as Sink>⟧.counts_failed ≡ true }
    ensures disk_folder { (folder : DiskCounts) → (⟦<DiskFolder<'a, R> as Folder>⟧.state folder).counts_failed ≡ true }
    ensures stdout_sink { ⟦<StdoutSink<'a, P> as Sink>⟧.counts_failed ≡ true }
{}
