//! Why a text is refused as an answer.

use rail_base::NoMemory;
use std::alloc::{AllocError, AllocFailed};
use thiserror::Error;

/// Why a text is not read as an answer: the first wrong line. Lines are counted from 1, each with its line feed.
#[derive(Clone, Copy, Debug, Error)]
pub enum AnswerRefusal {
    /// The line of this number does not fit its place, or has no line feed.
    #[error("a line is wrong")]
    BadLine(u32),
    /// All lines are right, and the text ends before the line `end`.
    #[error("no end line")]
    MissingEnd,
    /// A byte follows the line `end`; the line of this number is the one after it.
    #[error("a line after the end")]
    Trailing(u32),
    /// The lines before are right, 8,001 of them are nodes, and this one is a node too.
    #[error("too many nodes")]
    TooManyNodes,
    /// The memory that the answer takes could not be had.
    #[error("out of memory")]
    NoMemory,
}

impl From<NoMemory> for AnswerRefusal {
    ghost use Rattle.std.specs.Prelude.{◌≡◌};
    ghost use Rattle.answer_text.specs.declared.refusal.AnswerRefusal.TheVariants as refusals;

    ghost from_gives = { λ _ e. e ≡ refusals.NoMemory };

    fn from(_error: NoMemory) -> AnswerRefusal {
        AnswerRefusal::NoMemory
    }
}

impl From<AllocError> for AnswerRefusal {
    ghost use Rattle.std.specs.Prelude.{◌≡◌};
    ghost use Rattle.answer_text.specs.declared.refusal.AnswerRefusal.TheVariants as refusals;

    ghost from_gives = { λ _ e. e ≡ refusals.NoMemory };

    fn from(_error: AllocError) -> AnswerRefusal {
        AnswerRefusal::NoMemory
    }
}

impl<T: Drop> From<AllocFailed<T>> for AnswerRefusal {
    ghost use Rattle.std.specs.Prelude.{◌≡◌};
    ghost use Rattle.answer_text.specs.declared.refusal.AnswerRefusal.TheVariants as refusals;

    ghost from_gives = { λ _ e. e ≡ refusals.NoMemory };

    fn from(_error: AllocFailed<T>) -> AnswerRefusal {
        AnswerRefusal::NoMemory
    }
}
