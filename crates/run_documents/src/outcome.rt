//! What a run of the program comes to.

use crate::answer_file::AnswerError;
use answer_check::AnswerVerdict;
use answer_text::{Answer, Head};
use day_files::{ReadError, Refusal};
use day_simulator::StepFault;
use rail_base::{Bytes, Money};
use rail_csv::Table;

/// What a run comes to: the document that it writes and the status that it ends with follow from it.
#[derive(Drop)]
pub enum Outcome {
    /// The day is planned, and this is the answer to it.
    Planned(Answer),
    /// The trial day is planned.
    Tried {
        /// What the day is made from.
        seed: u32,
        /// How many trips it has.
        trips: u32,
        /// The answer to it.
        answer: Answer,
    },
    /// The plan runs, and costs this.
    Runs(Money),
    /// The plan stops with this fault.
    Stops(StepFault),
    /// An answer that says this was checked.
    Checked {
        /// What the answer says.
        head: Head,
        /// What was found of it.
        verdict: AnswerVerdict,
    },
    /// The answer is valid, and this is the report on its plan that was asked for.
    Reported(Bytes),
    /// The answer is valid, and has no plan to report on.
    NoPlan,
    /// The words are not understood.
    Usage,
    /// There is no day, or no plan of it: a file is refused.
    Refused(Refusal),
    /// There is no day, or no plan of it: the file of this table could not be read.
    CannotRead(Table),
    /// There is no answer for the day: its file could not be read or is refused.
    NoAnswer(AnswerError),
    /// Memory ran out; there is no document.
    NoMemory,
}

impl From<ReadError> for Outcome {
    ghost use Rattle.std.specs.Prelude.{◌≡◌};
    ghost use Rattle.run_documents.specs.Errors.{outcome_of_error};

    ghost from_gives = { λ error outcome. outcome ≡ outcome_of_error error };

    fn from(error: ReadError) -> Outcome {
        match error {
            ReadError::Refused(refusal) => Outcome::Refused(refusal),
            ReadError::CannotRead(table) => Outcome::CannotRead(table),
            ReadError::NoMemory => Outcome::NoMemory,
        }
    }
}
