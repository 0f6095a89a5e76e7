//! One file of a folder, read whole.

ghost use Rattle.std.specs.Prelude.{◌≡◌, ◌≤◌, Some, length, IfOk, IfErr, string_bytes};
ghost use Rattle.rail_base.specs.declared.limits.TheConstants.{MAX_FILE_BYTES};
ghost use Rattle.rail_io.specs.Folders.{CountsFault, Files, OnlyReads};
ghost use Rattle.rail_io.specs.Wholes.{tells_read_fault};
ghost use Rattle.day_files.specs.OneFile.{IsFileCaused, ReadsFile, bytes_at, path_in};

use rail_base::{Bytes, NoMemory};
use rail_io::{FileRefusal, Folder, read_file};
use std::alloc::Global;

/// The path of a file in a folder, or of a folder in it: the folder, a slash and the name. Where a day lies in a folder
/// below another, as in `DIR/2`, its files may be called by this path, as `2/stock.csv`: by the law `paths_nest` it
/// leads from the upper folder to the same file. The error is want of memory.
pub fn path_in(alloc: Global, dir: &str, name: &str) -> Result<String, NoMemory>
    ensures { IfOk result (λ path. string_bytes path ≡ path_in dir.now name.now) }
{
    Ok(format!(in alloc; "{dir}/{name}")?)
}

/// The bytes of the file of this name in a folder, where it has at most `limit`; what is answered is never longer. The
/// limit is at most that of a file of any kind.
///
/// - `ReadFault`: the count of faults rose or stands at its last value, and a read of that file may fail.
/// - `TooLong`: more than `limit` bytes were handed out, or their count had reached 2^63; where the folder tells what
///   it holds, the file is longer.
/// - `NoMemory`: want of memory.
///
/// Where the folder counts its failed calls, the count rises by one where `ReadFault` is answered, unless it stands at
/// its last value, and else stays. So, unless it comes to that value, at most one read fails, and it is told.
pub fn file_in<F: Folder>(
    alloc: Global,
    folder: &mut F,
    dir: &str,
    name: &str,
    limit: u64,
) -> Result<Bytes, FileRefusal>
    requires { limit ≤ MAX_FILE_BYTES }
    ensures told { (files : Files) → (F.state folder.old).holds ≡ Some files
        → ReadsFile (bytes_at files dir.now name.now) limit result }
    ensures few { IfOk result (λ bytes. length bytes ≤ limit) }
    ensures caused { IfErr result
        (IsFileCaused (path_in dir.now name.now) limit (F.state folder.old) (F.state folder.new)) }
    ensures fault_counted { CountsFault (tells_read_fault result) (F.state folder.old) (F.state folder.new) }
    ensures only_reads { OnlyReads (F.state folder.old) (F.state folder.new) }
{
    let Ok(path) = path_in(alloc, dir, name) else {
        return Err(FileRefusal::NoMemory);
    };
    match read_file(alloc, folder, path.as_str(), limit) {
        Ok(bytes) => Ok(Bytes::of(bytes)),
        Err(refusal) => Err(refusal),
    }
}
