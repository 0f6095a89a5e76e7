//! Why words make no command.

use rail_base::NoMemory;
use thiserror::Error;

/// Why words make no command.
#[derive(Clone, Copy, Debug, Error)]
pub enum WordsRefusal {
    /// The words are not of the form that the program understands.
    #[error("not understood")]
    NotUnderstood,
    /// Want of memory.
    #[error("out of memory")]
    NoMemory,
}

impl From<NoMemory> for WordsRefusal {
    ghost use Rattle.std.specs.Prelude.{◌≡◌};
    ghost use Rattle.plain_words.specs.declared.refusal.WordsRefusal.TheVariants as refusals;

    ghost from_gives = { λ _ e. e ≡ refusals.NoMemory };

    fn from(_error: NoMemory) -> WordsRefusal {
        WordsRefusal::NoMemory
    }
}
