//! The days of a week in a folder, one after another.

ghost use Rattle.std.specs.Prelude.{All, ◌≡◌, ◌≢◌, ◌++◌, ◌∷◌, [], Some, Ok, IfErr, IfOk, OnOk, length};
ghost use Rattle.std.specs.Prelude.{string_bytes};
ghost use Rattle.rail_csv.specs.declared.rows.Table.TheVariants.{Plan};
ghost use Rattle.rail_io.specs.Folders.{CountsFault, Files, OnlyReads};
ghost use Rattle.day_files.specs.OneFile.{tells_unread};
ghost use Rattle.day_files.specs.Tables.{IsMadeDay};
ghost use Rattle.day_files.specs.Inputs.{day_in};
ghost use Rattle.day_files.specs.Order.{Reaches};
ghost use Rattle.day_files.specs.Answers.{IsCaused, IsErrorOf, Reads, is_unread};
ghost use Rattle.week_files.specs.WeekFiles.{IsCausedAt, IsErrorAt, IsWantOfMemory, ReadsDay, ReadsDays, day_folder};
ghost use Rattle.week_files.specs.WeekFiles.{is_day_unread};

use crate::error::DayError;
use day_files::{ReadError, day_in, path_in};
use rail_base::NoMemory;
use rail_io::Folder;
use std::alloc::Global;
use timetable::Instance;

/// The first `count` days of the week in a folder: each is the day that the six tables make in a folder of its own,
/// which is called by the number of the day, counted from 1. All files of a day are read, and the day is made, before
/// the first of the next day is read. The first day that is not read ends the reading, and its error is that of
/// `day_files::day_in` with the number of the day. Each day is one that tables make whose rows keep within the ranges
/// of their columns, also where the folder doesn't tell what it holds.
///
/// - `CannotRead`: the count of faults rose or stands at its last value, and a read of that file of that day may fail.
///   It is never the file of a plan, which isn't read.
/// - `Refused`: a file of that day is refused, never that of a plan, or its tables make no day. It is never want of
///   memory.
/// - `NoMemory`: want of memory.
///
/// Where the folder tells what it holds, each day before that one is accepted, and of that day each file before that
/// one. Where it counts its failed calls, the count rises by one where the answer is `CannotRead`, unless it stands at
/// its last value, and else stays. So, unless it comes to that value, at most one read fails, and it is told.
pub fn days_in<F: Folder>(
    alloc: Global,
    folder: &mut F,
    dir: &str,
    count: u32,
) -> Result<Vec<Instance>, DayError>
    // What the files come to.
    ensures told { (files : Files) → (F.state folder.old).holds ≡ Some files → ReadsDays files dir.now count result }
    ensures made { IfOk result (λ days. All IsMadeDay days.items) }
    ensures count { IfOk result (λ days. length days.items ≡ count) }

    // What an error says, and what stays.
    ensures says { IfErr result (IsErrorAt count) }
    ensures caused { IfErr result (IsCausedAt dir.now (F.state folder.old) (F.state folder.new)) }
    ensures fault_counted { CountsFault (tells_unread is_day_unread result) (F.state folder.old) (F.state folder.new) }
    ensures only_reads { OnlyReads (F.state folder.old) (F.state folder.new) }
{
    let mut days = Vec::new(alloc);
    for place in 0..count {
        let day = numbered_day(alloc, folder, dir, place + 1)?;
        keep(&mut days, day, place + 1)?;
    }
    Ok(days)
}

/// The day of this number, or why it is not read.
fn numbered_day<F: Folder>(
    alloc: Global,
    folder: &mut F,
    dir: &str,
    number: u32,
) -> Result<Instance, DayError>
    // What the files come to.
    ensures told { (files : Files) → (F.state folder.old).holds ≡ Some files → ReadsDay files dir.now number result }
    ensures made { IfOk result IsMadeDay }

    // What an error says, and what stays.
    ensures number { IfErr result (λ error. error.day ≡ number) }
    ensures says { IfErr result (λ error. IsErrorOf (λ table. table ≢ Plan) error.error) }
    ensures caused { IfErr result (IsCausedAt dir.now (F.state folder.old) (F.state folder.new)) }
    ensures fault_counted { CountsFault (tells_unread is_day_unread result) (F.state folder.old) (F.state folder.new) }
    ensures only_reads { OnlyReads (F.state folder.old) (F.state folder.new) }
{
    match day_of(alloc, folder, dir, number) {
        Ok(day) => Ok(day),
        Err(error) => Err(DayError { day: number, error }),
    }
}

/// The day in the folder of this number.
fn day_of<F: Folder>(
    alloc: Global,
    folder: &mut F,
    dir: &str,
    number: u32,
) -> Result<Instance, ReadError>
    ensures told { (files : Files) → (F.state folder.old).holds ≡ Some files
        → Reads (Reaches files (day_folder dir.now number)) result (day_in files (day_folder dir.now number)) }
    ensures made { IfOk result IsMadeDay }
    ensures says { IfErr result (IsErrorOf (λ table. table ≢ Plan)) }
    ensures caused { IfErr result
        (IsCaused (day_folder dir.now number) (F.state folder.old) (F.state folder.new)) }
    ensures fault_counted { CountsFault (tells_unread is_unread result) (F.state folder.old) (F.state folder.new) }
    ensures only_reads { OnlyReads (F.state folder.old) (F.state folder.new) }
{
    let own = day_folder(alloc, dir, number)?;
    day_in(alloc, folder, own.as_str())
}

/// The folder of the day of this number. The error is want of memory.
fn day_folder(alloc: Global, dir: &str, number: u32) -> Result<String, NoMemory>
    ensures { IfOk result (λ path. string_bytes path ≡ day_folder dir.now number) }
{
    let number = format!(in alloc; "{number}")?;
    path_in(alloc, dir, number.as_str())
}

/// Adds the day of this number to those before it. The error is want of memory, after which they are as before.
fn keep(days: &mut Vec<Instance>, day: Instance, number: u32) -> Result<(), DayError>
    ensures kept { OnOk result (days.new.items ≡ days.old.items ++ day ∷ []) }
    ensures err { IfErr result (IsWantOfMemory number) }
{
    match days.push(day) {
        Ok(()) => Ok(()),
        Err(_) => Err(DayError {
            day: number,
            error: ReadError::NoMemory,
        }),
    }
}
