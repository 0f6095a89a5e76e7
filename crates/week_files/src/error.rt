//! Why a day of a week is not read.

use day_files::ReadError;
use thiserror::Error;

/// Why a folder gives no days of a week: the first day that is not read, and why.
#[derive(Clone, Copy, Debug, Error)]
#[error("a day is not read")]
pub struct DayError {
    /// The number of the day, counted from 1, which its folder is called by.
    pub day: u32,
    /// Why it is not read: what is wrong with its files, or want of memory.
    pub error: ReadError,
}
