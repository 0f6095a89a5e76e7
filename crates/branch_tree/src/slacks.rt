//! Slacks: the slacks of picks that are not 0, by rising index.

ghost use Rattle.std.specs.Prelude.{◌≡◌, ◌≢◌, ◌<◌, ◌++◌, [], ◌∷◌, length, pos, slice_get, Some, IfOk};
ghost use Rattle.branch_tree.specs.Entries.{AreSlackEntries, IsPastLast};

use crate::multipliers::Entry;
use rail_base::NoMemory;
use rail_base::limits::MAX_SLACKS;
use std::alloc::Global;
use std::marker::Model;

/// Slacks by rising index, none of them 0, at most 4,000. A contract sees the list of the entries.
#[derive(Drop)]
pub struct Slacks {
    entries: Vec<Entry>,
}

impl Model for Slacks {
    ghost use Rattle.std.specs.Prelude.{List, ◌≤◌, vec_capacity};
    ghost use Rattle.branch_tree.specs.declared.multipliers.Entry.{Entry};
    ghost use Rattle.rail_base.specs.declared.limits.TheConstants.{MAX_SLACKS};
    ghost use Rattle.branch_tree.specs.Entries.{AreSlackEntries};

    ghost Value = { List Entry };

    ghost view = { λ a. a.entries.items };

    ghost invariant = { λ a. AreSlackEntries a.entries.items × (MAX_SLACKS ≤ vec_capacity a.entries) };
}

impl Slacks {
    /// No slacks, with room for all that there may be. The error is want of memory.
    pub fn new(alloc: Global) -> Result<Slacks, NoMemory>
        ensures { IfOk result (λ slacks. slacks ≡ []) }
    {
        Ok(Slacks {
            entries: Vec::with_capacity(alloc, MAX_SLACKS)?,
        })
    }

    /// Takes all slacks out.
    pub fn clear(&mut self)
        ensures { self.new ≡ [] }
    {
        self.entries.clear();
    }

    /// Adds a slack other than 0 at the end, behind those of lower indices, of which fewer than 4,000 are there. It
    /// takes no memory.
    pub fn put(&mut self, entry: Entry)
        requires room { length self.old < MAX_SLACKS }
        requires rising { IsPastLast self.old entry.index }
        requires value { entry.value ≢ pos 0 }
        ensures { self.new ≡ self.old ++ entry ∷ [] }
    {
        let pushed = self.entries.push(entry);
        prove!(pushed.is_ok());
    }

    /// How many slacks there are.
    pub fn len(&self) -> u32
        ensures value { result ≡ length self.now }
        ensures slacks { AreSlackEntries self.now }
    {
        self.entries.len() as u32
    }

    /// The slack at a place, which is below `len`.
    pub fn at(&self, place: u32) -> Entry
        requires { place < length self.now }
        ensures { slice_get self.now place ≡ Some result }
    {
        self.entries[place as usize]
    }
}
