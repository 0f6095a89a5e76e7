//! Whole files in, and whole documents out.

ghost use Rattle.std.specs.Prelude.{◌≡◌, ◌+◌, ◌<◌, ◌≤◌, [], Some, true, IsTrue, length, IfOk, IsErrOf, OnOk, OnErr};
ghost use Rattle.std.specs.Result.{is_err};
ghost use Rattle.rail_io.specs.Folders.{CountsFault, Files, OnlyReads, Rose, RosePast, faults_after, file_at};
ghost use Rattle.rail_io.specs.Sinks.{Appends, AppendsPart};
ghost use Rattle.rail_io.specs.Wholes.{HasRead, tells_read_fault};
ghost use Rattle.rail_io.specs.declared.whole.FileRefusal.TheVariants.{NoMemory, ReadFault};

use crate::{Failed, Folder, Sink};
use rail_base::limits::MAX_FILE_BYTES;
use std::alloc::{AllocError, Global};
use thiserror::Error;

/// How many bytes one read asks for.
const PIECE_BYTES: usize = 65_536;

/// Why a file was not read.
#[derive(Clone, Copy, Debug, Error)]
pub enum FileRefusal {
    /// A read failed.
    #[error("cannot be read")]
    ReadFault,
    /// The file is longer than the limit.
    #[error("too long")]
    TooLong,
    /// The memory for its bytes could not be had.
    #[error("out of memory")]
    NoMemory,
}

impl From<Failed> for FileRefusal {
    ghost from_gives = { λ _ refusal. refusal ≡ ReadFault };

    fn from(_error: Failed) -> FileRefusal {
        FileRefusal::ReadFault
    }
}

impl From<AllocError> for FileRefusal {
    ghost from_gives = { λ _ refusal. refusal ≡ NoMemory };

    fn from(_error: AllocError) -> FileRefusal {
        FileRefusal::NoMemory
    }
}

/// The whole file of a path, where it has at most `limit` bytes; what is answered is never longer. The limit is at most
/// that of a file of any kind.
///
/// - `ReadFault`: a read failed: the count of faults rose or stands at its last value, and reads of this path may fail.
/// - `TooLong`: more than `limit` bytes were taken, or the count of them has reached 2^63; where the folder tells what
///   it holds, the file is longer.
/// - `NoMemory`: the memory for its bytes could not be had.
///
/// Where the folder counts its failed calls, the count rises by one where the answer is `ReadFault`, unless it stands
/// at its last value, and else stays. So, unless it comes to that value, at most one read fails, and it is told.
pub fn read_file<F: Folder>(
    alloc: Global,
    folder: &mut F,
    path: &str,
    limit: u64,
) -> Result<Vec<u8>, FileRefusal>
    requires { limit ≤ MAX_FILE_BYTES }

    // The bytes, where the folder tells what it holds, and how many there are.
    ensures told { (files : Files) → (F.state folder.old).holds ≡ Some files →
        IfOk result (λ bytes. bytes.items ≡ file_at files path.now) }
    ensures within { IfOk result (λ bytes. length bytes.items ≤ limit) }
    ensures longer { (files : Files) → (F.state folder.old).holds ≡ Some files →
        IsErrOf result FileRefusal.TooLong → limit < length (file_at files path.now) }

    // What each refusal is caused by, and by how much the count of faults rises.
    ensures fault { IsErrOf result FileRefusal.ReadFault
        → Rose (F.state folder.old).faults (F.state folder.new).faults }
    ensures may { IsErrOf result FileRefusal.ReadFault → IsTrue ((F.state folder.old).may_fail path.now) }
    ensures too_long { IsErrOf result FileRefusal.TooLong
        → RosePast limit (F.state folder.old).taken (F.state folder.new).taken }
    ensures fault_counted { CountsFault (tells_read_fault result) (F.state folder.old) (F.state folder.new) }

    // What stays.
    ensures only_reads { OnlyReads (F.state folder.old) (F.state folder.new) }
    ensures taken_at_most { IfOk result (λ bytes.
        (F.state folder.new).taken ≤ (F.state folder.old).taken + length bytes.items) }
{
    let mut bytes = Vec::new(alloc);
    read_into(folder, path, limit, &mut bytes)?;
    Ok(bytes)
}

/// Reads the whole file of a path, where it has at most `limit` bytes, into a vector that has none.
fn read_into<F: Folder>(
    folder: &mut F,
    path: &str,
    limit: u64,
    bytes: &mut Vec<u8>,
) -> Result<(), FileRefusal>
    requires small { limit ≤ MAX_FILE_BYTES }
    requires empty { bytes.old.items ≡ [] }
    ensures { HasRead (F.state folder.old) (F.state folder.new) path.now limit bytes.new.items result }
{
    let mut piece = [0; PIECE_BYTES];
    loop {
        let count = folder.read_at(path, bytes.len() as u64, &mut piece)?;
        if count == 0 {
            return Ok(());
        }
        if count as u64 > limit - bytes.len() as u64 {
            return Err(FileRefusal::TooLong);
        }
        bytes.extend_from_slice(&piece[..count])?;
    }
}

/// Writes all the bytes, piece by piece. Where it fails, the sink's count of faults rose or stands at its last value,
/// and a front of the bytes was written that is shorter than they are. It takes no memory.
///
/// Where the sink counts its failed calls, the count rises by one where the answer is `Failed`, unless it stands at its
/// last value, and else stays. So, unless it comes to that value, at most one write fails, and it is told.
pub fn write_all<K: Sink>(sink: &mut K, bytes: &[u8]) -> Result<(), Failed>
    ensures whole { OnOk result (Appends bytes.now (K.written sink.old) (K.written sink.new)) }
    ensures part { OnErr result (AppendsPart bytes.now (K.written sink.old) (K.written sink.new)) }
    ensures fault { OnErr result (Rose (K.faults sink.old) (K.faults sink.new)) }
    ensures fault_counted { K.counts_failed ≡ true
        → K.faults sink.new ≡ faults_after (is_err result) (K.faults sink.old) }
    ensures lasting { K.faults sink.old ≤ K.faults sink.new }
{
    let mut done = 0;
    while done < bytes.len() {
        done += sink.write(&bytes[done..])?;
    }
    Ok(())
}
