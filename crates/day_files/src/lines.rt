//! The lines that tell of a file that was not taken.

ghost use Rattle.std.specs.Prelude.{◌≡◌, IfOk, string_bytes};
ghost use Rattle.day_files.specs.Lines.{file_refused_alone_line, file_refused_line, file_unread_line};

use rail_base::NoMemory;
use std::alloc::Global;

/// The line of a file of this name that is refused for this, with its line feed. The error is want of memory.
pub fn file_refused_line(alloc: Global, file: &str, why: &str) -> Result<String, NoMemory>
    ensures { IfOk result (λ line. string_bytes line ≡ file_refused_line file.now why.now) }
{
    Ok(format!(in alloc; "refused {file}: {why}\n")?)
}

/// The line of a file of this name that is refused, where it isn't told for what, with its line feed. The error is want
/// of memory.
pub fn file_refused_alone_line(alloc: Global, file: &str) -> Result<String, NoMemory>
    ensures { IfOk result (λ line. string_bytes line ≡ file_refused_alone_line file.now) }
{
    Ok(format!(in alloc; "refused {file}\n")?)
}

/// The line of a file of this name that could not be read, with its line feed. The error is want of memory.
pub fn file_unread_line(alloc: Global, file: &str) -> Result<String, NoMemory>
    ensures { IfOk result (λ line. string_bytes line ≡ file_unread_line file.now) }
{
    Ok(format!(in alloc; "cannot read {file}\n")?)
}
