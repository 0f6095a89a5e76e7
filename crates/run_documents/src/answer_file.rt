//! The answer of a folder, read from its file.

ghost use Rattle.std.specs.Prelude.{◌≡◌, ◌≤◌, false, Some, IfOk, IfErr, length};
ghost use Rattle.rail_io.specs.Folders.{CountsFault, Files, OnlyReads};
ghost use Rattle.day_files.specs.OneFile.{tells_unread};
ghost use Rattle.answer_text.specs.Limits.{IsAnswerWithin};
ghost use Rattle.rail_base.specs.declared.limits.TheConstants.{MAX_FILE_BYTES, MAX_NODES};
ghost use Rattle.run_documents.specs.AnswerFiles.{AreNoAnswer, IsAnswerCaused, IsAnswerOf, ReadsAnswer, is_unread};

use answer_text::{Answer, AnswerRefusal, read};
use day_files::file_in;
use rail_base::NoMemory;
use rail_base::limits::MAX_FILE_BYTES;
use rail_io::{FileRefusal, Folder};
use std::alloc::Global;
use thiserror::Error;

/// The name of the answer's file, without the folder.
pub(crate) const ANSWER_FILE: &str = "answer.txt";

/// Why there is no answer in a folder.
#[derive(Clone, Copy, Debug, Error)]
pub enum AnswerError {
    /// Its file could not be read.
    #[error("cannot be read")]
    CannotRead,
    /// Its file is too long.
    #[error("too long")]
    TooLong,
    /// The bytes of its file are no answer.
    #[error("no answer")]
    Refused(AnswerRefusal),
}

/// The answer that the file `answer.txt` of a folder is, or why there is none. The error is want of memory.
///
/// - `CannotRead`: the count of faults rose or stands at its last value, and a read of that file may fail.
/// - `TooLong`: more bytes were handed out than an answer may have, or their count had reached 2^63; where the folder
///   tells what it holds, the file is longer.
/// - `Refused`: the bytes are no answer, for the first wrong line. There are such bytes also where the folder doesn't
///   tell what it holds.
///
/// Where the folder counts its failed calls, the count rises by one where `CannotRead` is answered, unless it stands at
/// its last value, and else stays. So, unless it comes to that value, at most one read fails, and it is told.
pub fn answer_in<F: Folder>(
    alloc: Global,
    folder: &mut F,
    dir: &str,
) -> Result<Result<Answer, AnswerError>, NoMemory>
    ensures told { (files : Files) → (F.state folder.old).holds ≡ Some files → IfOk result (ReadsAnswer files dir.now) }
    ensures within { IfOk result (λ read. IfOk read (IsAnswerWithin MAX_NODES)) }
    ensures caused { IfOk result (λ read.
        IfErr read (IsAnswerCaused dir.now (F.state folder.old) (F.state folder.new))) }
    ensures fault_counted { IfOk result (λ read.
        CountsFault (tells_unread is_unread read) (F.state folder.old) (F.state folder.new)) }
    ensures unfaulted { IfErr result (λ _. CountsFault false (F.state folder.old) (F.state folder.new)) }
    ensures only_reads { OnlyReads (F.state folder.old) (F.state folder.new) }
{
    let bytes = match file_in(alloc, folder, dir, ANSWER_FILE, MAX_FILE_BYTES) {
        Ok(bytes) => bytes,
        Err(FileRefusal::ReadFault) => return Ok(Err(AnswerError::CannotRead)),
        Err(FileRefusal::TooLong) => return Ok(Err(AnswerError::TooLong)),
        Err(FileRefusal::NoMemory) => return Err(NoMemory),
    };
    match answer_of(alloc, bytes.items())? {
        Ok(answer) => Ok(Ok(answer)),
        Err(refusal) => Ok(Err(AnswerError::Refused(refusal))),
    }
}

/// The answer whose text these bytes are, or why they are refused. The error is want of memory.
fn answer_of(alloc: Global, bytes: &[u8]) -> Result<Result<Answer, AnswerRefusal>, NoMemory>
    requires { length bytes.now ≤ MAX_FILE_BYTES }
    ensures read { IfOk result (λ read. IfOk read (IsAnswerOf bytes.now)) }
    ensures refused { IfOk result (λ read. IfErr read (AreNoAnswer bytes.now)) }
{
    match read(alloc, bytes) {
        Ok(answer) => Ok(Ok(answer)),
        Err(refusal) => match refusal {
            AnswerRefusal::NoMemory => Err(NoMemory),
            _ => Ok(Err(refusal)),
        },
    }
}
