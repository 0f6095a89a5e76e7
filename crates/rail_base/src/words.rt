//! The words of a command line.

ghost use Rattle.std.specs.Prelude.{◌≡◌, ◌<◌, ◌++◌, [], ◌∷◌, List, ℕ, length, slice_get, Some, IfOk, OnOk, OnErr};

use crate::NoMemory;
use crate::limits::MAX_WORDS;
use std::alloc::Global;
use std::marker::Model;

/// The words of a command line, the program's name first. A contract sees the list of their texts, each the list of
/// its UTF-8 bytes.
#[derive(Drop)]
pub struct Words {
    alloc: Global,
    words: Vec<String>,
}

impl Model for Words {
    ghost use Rattle.std.specs.Prelude.{List, ℕ, map, string_bytes, length, ◌≤◌};
    ghost use Rattle.rail_base.specs.declared.limits.TheConstants.{MAX_WORDS};

    ghost Value = { List (List ℕ) };

    ghost view = { λ a. map string_bytes a.words.items };

    ghost invariant = { λ a. length a.words.items ≤ MAX_WORDS };
}

impl Words {
    /// No words. The error is want of memory.
    pub fn new(alloc: Global) -> Result<Words, NoMemory>
        ensures { IfOk result (λ words. words ≡ []) }
    {
        Ok(Words {
            alloc,
            words: Vec::new(alloc),
        })
    }

    /// Adds a word at the end, where fewer than `MAX_WORDS` are there. On `NoMemory` the list is unchanged.
    pub fn push(&mut self, word: &str) -> Result<(), NoMemory>
        requires { length self.old < MAX_WORDS }
        ensures ok { OnOk result (self.new ≡ self.old ++ word.now ∷ []) }
        ensures err { OnErr result (self.new ≡ self.old) }
    {
        let text = String::from_str(self.alloc, word)?;
        self.words.push(text)?;
        Ok(())
    }

    /// How many words there are.
    pub fn len(&self) -> u32
        ensures { result ≡ length self.now }
    {
        self.words.len() as u32
    }

    /// The word at a place, counted from 0 and below `len`.
    pub fn at(&self, place: u32) -> &str
        requires { place < length self.now }
        ensures { slice_get self.now place ≡ Some result.now }
    {
        self.words[place as usize].as_str()
    }
}
