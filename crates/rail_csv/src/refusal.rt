//! Why a table is refused.

use rail_base::NoMemory;
use std::alloc::AllocFailed;
use thiserror::Error;

/// Why a table is refused: the first thing wrong in it. Rows are counted from 1, and row 1 is the record after the
/// header; columns are counted from 0.
#[derive(Clone, Copy, Debug, Error)]
pub enum TableRefusal {
    /// A field of this row is not UTF-8.
    #[error("a field is not UTF-8")]
    NotUtf8(u32),
    /// The first record is absent, or its fields are the columns of no version of the table.
    #[error("wrong header")]
    WrongHeader,
    /// The row has another number of fields than the table's version has columns.
    #[error("another number of fields")]
    FieldCount {
        /// The row.
        row: u32,
        /// How many fields it has.
        found: u32,
    },
    /// A number is wanted, which is 1 to 9 digits.
    #[error("not a number")]
    BadNumber {
        /// The row.
        row: u32,
        /// The column.
        column: u32,
    },
    /// The number is outside the range of its column, or there are too many units.
    #[error("out of range")]
    OutOfRange {
        /// The row.
        row: u32,
        /// The column.
        column: u32,
    },
    /// A time is wanted, as `7:05` or `23:59`, with an hour up to 47.
    #[error("not a time")]
    BadTime {
        /// The row.
        row: u32,
        /// The column.
        column: u32,
    },
    /// A name is wanted.
    #[error("not a name")]
    BadName {
        /// The row.
        row: u32,
        /// The column.
        column: u32,
    },
    /// One of the words of the column is wanted.
    #[error("not a word of the column")]
    BadWord {
        /// The row.
        row: u32,
        /// The column.
        column: u32,
    },
    /// The rows up to the limit of the table are right, and one more is there.
    #[error("too many rows")]
    TooManyRows,
    /// The weights table has no row.
    #[error("no row")]
    NoRow,
    /// Want of memory, which may come at any table.
    #[error("out of memory")]
    NoMemory,
}

impl From<NoMemory> for TableRefusal {
    ghost use Rattle.std.specs.Prelude.{◌≡◌};
    ghost use Rattle.rail_csv.specs.declared.refusal.TableRefusal.TheVariants as refusals;

    ghost from_gives = { λ _ e. e ≡ refusals.NoMemory };

    fn from(_error: NoMemory) -> TableRefusal {
        TableRefusal::NoMemory
    }
}

impl<T: Drop> From<AllocFailed<T>> for TableRefusal {
    ghost use Rattle.std.specs.Prelude.{◌≡◌};
    ghost use Rattle.rail_csv.specs.declared.refusal.TableRefusal.TheVariants as refusals;

    ghost from_gives = { λ _ e. e ≡ refusals.NoMemory };

    fn from(_error: AllocFailed<T>) -> TableRefusal {
        TableRefusal::NoMemory
    }
}
