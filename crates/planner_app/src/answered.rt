//! The day and the answer of a folder, for the commands that read both.

ghost use Rattle.std.specs.Prelude.{◌≡◌, IfOk, IfErr};
ghost use Rattle.rail_io.specs.Folders.{CountsFault, OnlyReads};
ghost use Rattle.day_files.specs.OneFile.{tells_unread};
ghost use Rattle.planner_app.specs.Readings.{IsReadAnswer, IsUnanswered};
ghost use Rattle.planner_app.specs.Statuses.{is_unread};

use answer_text::Answer;
use day_files::day_in;
use rail_base::NoMemory;
use rail_io::Folder;
use run_documents::{Outcome, answer_in};
use std::alloc::Global;
use timetable::Instance;

/// A day and an answer to it.
#[derive(Drop)]
pub(crate) struct Answered {
    /// The day.
    pub(crate) instance: Instance,
    /// The answer.
    pub(crate) answer: Answer,
}

/// The day of a folder's tables and the answer of its file, read in this order. The error is what the run comes to,
/// where a file is refused or could not be read, or memory ran out.
pub(crate) fn answered_in<F: Folder>(
    alloc: Global,
    folder: &mut F,
    dir: &str,
) -> Result<Answered, Outcome>
    // What was read, or what the run comes to.
    ensures read { IfOk result (λ read. IsReadAnswer dir.now (F.state folder.old) read.instance read.answer) }
    ensures error { IfErr result (IsUnanswered dir.now (F.state folder.old) (F.state folder.new)) }

    // The folder.
    ensures fault_counted { CountsFault (tells_unread is_unread result) (F.state folder.old) (F.state folder.new) }
    ensures only_reads { OnlyReads (F.state folder.old) (F.state folder.new) }
{
    let instance = match day_in(alloc, folder, dir) {
        Ok(instance) => instance,
        Err(error) => return Err(Outcome::from(error)),
    };
    match answer_in(alloc, folder, dir) {
        Ok(Ok(answer)) => Ok(Answered { instance, answer }),
        Ok(Err(error)) => Err(Outcome::NoAnswer(error)),
        Err(NoMemory) => Err(Outcome::NoMemory),
    }
}
