//! Why a folder gives no day and no plan.

ghost use Rattle.std.specs.Prelude.{◌≡◌, IfOk, string_bytes};
ghost use Rattle.day_files.specs.Texts.{refusal_file, refusal_text};

use crate::texts::{fixed_text, instance_file, instance_text, plan_text, table_text};
use rail_base::NoMemory;
use rail_csv::{Table, TableRefusal};
use std::alloc::Global;
use thiserror::Error;
use timetable::{InstanceRefusal, PlanRefusal};

/// Why a file is refused.
#[derive(Clone, Copy, Debug, Error)]
pub enum Refusal {
    /// The file of this table is longer than a table may be.
    #[error("too long")]
    TooLong(Table),
    /// The file of this table is no such table.
    #[error("the file is no such table")]
    WrongTable(Table, TableRefusal),
    /// The tables make no day.
    #[error("the tables make no day")]
    NoDay(InstanceRefusal),
    /// The rows of the plan make no plan of the day.
    #[error("the rows make no plan")]
    NoPlan(PlanRefusal),
}

/// Why a folder gives no day and no plan of it.
#[derive(Clone, Copy, Debug, Error)]
pub enum ReadError {
    /// The file of this table could not be read.
    #[error("a file cannot be read")]
    CannotRead(Table),
    /// A file is refused.
    #[error("a file is refused")]
    Refused(Refusal),
    /// Want of memory.
    #[error("out of memory")]
    NoMemory,
}

impl From<NoMemory> for ReadError {
    ghost use Rattle.std.specs.Prelude.{◌≡◌};
    ghost use Rattle.day_files.specs.declared.errors.ReadError.TheVariants as errors;

    ghost from_gives = { λ _ error. error ≡ errors.NoMemory };

    fn from(_error: NoMemory) -> ReadError {
        ReadError::NoMemory
    }
}

impl Refusal {
    /// The table whose file is refused: where the tables make no day, the one that the refusal speaks of, and where the
    /// rows make no plan, that of the plan. Want of memory speaks of none, and is never asked for.
    pub fn table(&self) -> Table
        ensures { result ≡ refusal_file self.now }
    {
        match self {
            Refusal::TooLong(table) | Refusal::WrongTable(table, _) => *table,
            Refusal::NoDay(refusal) => instance_file(refusal),
            Refusal::NoPlan(_) => Table::Plan,
        }
    }

    /// The text that says why the file is refused, without the name of the file. Rows are counted from 1, and a column
    /// is named by its header word. It is empty where the cause is want of memory, which refuses no file. The error is
    /// want of memory.
    pub fn text(&self, alloc: Global) -> Result<String, NoMemory>
        ensures { IfOk result (λ text. string_bytes text ≡ refusal_text self.now) }
    {
        match self {
            Refusal::TooLong(_) => fixed_text(alloc, "too long"),
            Refusal::WrongTable(table, refusal) => table_text(alloc, *table, refusal),
            Refusal::NoDay(refusal) => instance_text(alloc, refusal),
            Refusal::NoPlan(refusal) => plan_text(alloc, refusal),
        }
    }
}
