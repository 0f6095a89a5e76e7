//! The words that a program is started with.

ghost use Rattle.std.specs.Prelude.{◌≡◌, [], ◌∷◌, IfErr, IfOk, IsErr, map, string_bytes, take};
ghost use Rattle.std.specs.IoError.{error_kind};
ghost use Rattle.std.specs.declared.io.ErrorKind.TheVariants.{OutOfMemory};
ghost use Rattle.std.specs.Vec.Iter.{into_iter_items};
ghost use Rattle.rail_base.specs.declared.limits.TheConstants.{MAX_WORDS};

use rail_base::limits::MAX_WORDS;
use rail_base::{NoMemory, Words};
use std::alloc::Global;
use std::env::Args;
use std::io;
use std::io::ErrorKind;

/// The words that the system tells a program, its name first: no more than `Words` keeps, the others being left out.
/// Where the system tells none that are texts, this name alone, which makes no command. The error is want of memory.
pub fn program_words(alloc: Global, args: io::Result<Args>, name: &str) -> Result<Words, NoMemory>
    ensures told { IfOk args (λ args.
        IfOk result (λ words. words ≡ take MAX_WORDS (map string_bytes (into_iter_items args)))) }
    ensures name { IfErr args (λ _. IfOk result (λ words. words ≡ name.now ∷ [])) }
    ensures wanting { IfErr args (λ error. error_kind error ≡ OutOfMemory → IsErr result) }
{
    match args {
        Ok(args) => words_in(alloc, args),
        Err(error) if error.kind() == ErrorKind::OutOfMemory => Err(NoMemory),
        Err(_) => name_alone(alloc, name),
    }
}

/// The words that were told, no more than `Words` keeps.
fn words_in(alloc: Global, args: Args) -> Result<Words, NoMemory>
    ensures { IfOk result (λ words. words ≡ take MAX_WORDS (map string_bytes (into_iter_items args))) }
{
    let mut words = Words::new(alloc)?;
    for arg in args {
        if words.len() as usize >= MAX_WORDS {
            break;
        }
        words.push(arg.as_str())?;
    }
    Ok(words)
}

/// A program's name alone.
fn name_alone(alloc: Global, name: &str) -> Result<Words, NoMemory>
    ensures { IfOk result (λ words. words ≡ name.now ∷ []) }
{
    let mut words = Words::new(alloc)?;
    words.push(name)?;
    Ok(words)
}
