//! The tables of a folder: each is read from the bytes of its file by its own reader.

ghost use Rattle.std.specs.Prelude.{◌≡◌, ◌≤◌, ℕ, length, List, Some, IfOk, IfErr};
ghost use Rattle.rail_io.specs.Folders.{CountsFault, Files, OnlyReads};
ghost use Rattle.day_files.specs.OneFile.{tells_unread};
ghost use Rattle.day_files.specs.Tables.{bytes_in, read_by};
ghost use Rattle.day_files.specs.Kept.{IsReadTable};
ghost use Rattle.day_files.specs.Answers.{Reads, ReadsAs, IsCaused, IsErrorOf, IsWrong, error_of, is_unread};

use crate::errors::{ReadError, Refusal};
use crate::files::file_in;
use crate::names::file_name;
use rail_base::Bytes;
use rail_base::limits::MAX_TABLE_BYTES;
use rail_csv::{Table, TableRefusal};
use rail_io::{FileRefusal, Folder};
use std::alloc::Global;
use timetable::DayTable;

/// The bytes of a table's file: at most as many as a table may have.
#[tactic(auto, unfolding(crate::specs::Tables::bytes_in))]
fn bytes_of<F: Folder>(
    alloc: Global,
    folder: &mut F,
    dir: &str,
    table: Table,
) -> Result<Bytes, ReadError>
    ensures told { (files : Files) → (F.state folder.old).holds ≡ Some files
        → Reads (λ other. other ≡ table) result (bytes_in files dir.now table) }
    ensures few { IfOk result (λ bytes. length bytes ≤ MAX_TABLE_BYTES) }
    ensures says { IfErr result (IsErrorOf (λ other. other ≡ table)) }
    ensures caused { IfErr result (IsCaused dir.now (F.state folder.old) (F.state folder.new)) }
    ensures fault_counted { CountsFault (tells_unread is_unread result) (F.state folder.old) (F.state folder.new) }
    ensures only_reads { OnlyReads (F.state folder.old) (F.state folder.new) }
{
    match file_in(alloc, folder, dir, file_name(table), MAX_TABLE_BYTES) {
        Ok(bytes) => Ok(bytes),
        Err(FileRefusal::ReadFault) => Err(ReadError::CannotRead(table)),
        Err(FileRefusal::TooLong) => Err(ReadError::Refused(Refusal::TooLong(table))),
        Err(FileRefusal::NoMemory) => Err(ReadError::NoMemory),
    }
}

/// What the refusal of a table comes to.
fn error_of(table: Table, refusal: TableRefusal) -> ReadError
    ensures value { result ≡ error_of table refusal }
    ensures says { (bytes : List ℕ) → length bytes ≤ MAX_TABLE_BYTES → IsWrong table bytes refusal
        → IsErrorOf (λ other. other ≡ table) result }
{
    match refusal {
        TableRefusal::NoMemory => ReadError::NoMemory,
        _ => ReadError::Refused(Refusal::WrongTable(table, refusal)),
    }
}

/// A table of a folder, and the bytes that it was read from.
#[derive(Drop)]
pub(crate) struct ReadTable<T: Drop> {
    /// The bytes of its file.
    pub(crate) bytes: Bytes,
    /// The table.
    pub(crate) table: T,
}

/// The table of a folder, as the bytes of its file are read, and these bytes. A file that is too long is not looked at.
#[tactic(auto, using(crate::proofs::Refusing::refused), unfolding(crate::specs::Tables::read_by))]
pub(crate) fn table_in<F: Folder, T: DayTable>(
    alloc: Global,
    folder: &mut F,
    dir: &str,
) -> Result<ReadTable<T>, ReadError>
    ensures told { (files : Files) → (F.state folder.old).holds ≡ Some files
        → ReadsAs (λ read. read.table) (λ other. other ≡ T.table) result
        (read_by T.reading files dir.now T.table) }
    ensures within { IfOk result (λ read. T.is_within read.table) }
    ensures kept { IfOk result (IsReadTable T.reading) }
    ensures says { IfErr result (IsErrorOf (λ other. other ≡ T.table)) }
    ensures caused { IfErr result (IsCaused dir.now (F.state folder.old) (F.state folder.new)) }
    ensures fault_counted { CountsFault (tells_unread is_unread result) (F.state folder.old) (F.state folder.new) }
    ensures only_reads { OnlyReads (F.state folder.old) (F.state folder.new) }
{
    let bytes = bytes_of(alloc, folder, dir, T::table())?;
    match T::read(alloc, bytes.items()) {
        Ok(table) => Ok(ReadTable { bytes, table }),
        Err(refusal) => Err(error_of(T::table(), refusal)),
    }
}
