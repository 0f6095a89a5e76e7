//! Multipliers: a list of values by index, kept in rising order.

ghost use Rattle.std.specs.Prelude.{◌≡◌, ◌<◌, ◌≤◌, [], ◌↔◌, length, vec_capacity, slice_get, Some, IfOk, OnOk, OnErr};
ghost use Rattle.std.specs.Prelude.{IsTrue};
ghost use Rattle.std.specs.List.{insert};
ghost use Rattle.std.specs.Result.{result_err};
ghost use Rattle.branch_tree.specs.Entries.{AreMultipliers, AreRising, DoFit, IsPut, put_in, refusal_of, value_at};
ghost use Rattle.branch_tree.specs.Places.{IsAt, IsPlaceOf, changed};

use rail_base::NoMemory;
use rail_base::limits::{MAX_ENTRIES, MAX_MULTIPLIER};
use std::alloc::Global;
use std::marker::Model;
use thiserror::Error;

/// A value at an index: a multiplier, or a slack.
#[derive(Clone, Copy)]
pub struct Entry {
    /// The index.
    pub index: u32,
    /// Its value.
    pub value: i64,
}

// The memory of a tree is reckoned from the size of one entry.
const _: () = prove!(size_of::<Entry>() == 16);

/// Why a value is not put at an index.
#[derive(Clone, Copy, Debug, PartialEq, Eq, Error)]
pub enum PutRefusal {
    /// The index is not one of the problem's.
    #[error("no such index")]
    NoIndex,
    /// The value is negative, and the index is one at which it may not be.
    #[error("negative value")]
    Negative,
    /// The size of the value is over 10^12.
    #[error("value too large")]
    TooLarge,
    /// The value is not 0, its index is new, and 1,000 entries are there.
    #[error("too many entries")]
    Full,
}

/// Values by index, with rising indices: none is 0, none is over 10^12 in size, and there are at most 1,000. A contract
/// sees the list of the entries.
#[derive(Drop)]
pub struct Multipliers {
    entries: Vec<Entry>,
}

impl Model for Multipliers {
    ghost use Rattle.std.specs.Prelude.{List, ◌≤◌, vec_capacity};
    ghost use Rattle.branch_tree.specs.declared.multipliers.Entry.{Entry};
    ghost use Rattle.rail_base.specs.declared.limits.TheConstants.{MAX_ENTRIES};
    ghost use Rattle.branch_tree.specs.Entries.{AreMultipliers};

    ghost Value = { List Entry };

    ghost view = { λ a. a.entries.items };

    ghost invariant = { λ a. AreMultipliers a.entries.items × (MAX_ENTRIES ≤ vec_capacity a.entries) };
}

impl Multipliers {
    /// No entries, with room for all that there may be. The error is want of memory.
    pub fn new(alloc: Global) -> Result<Multipliers, NoMemory>
        ensures { IfOk result (λ multipliers. multipliers ≡ []) }
    {
        Ok(Multipliers {
            entries: Vec::with_capacity(alloc, MAX_ENTRIES)?,
        })
    }

    /// The same entries again, with room for all that there may be. The error is want of memory.
    pub fn copy(&self, alloc: Global) -> Result<Multipliers, NoMemory>
        ensures { IfOk result (λ multipliers. multipliers ≡ self.now) }
    {
        let mut entries = Vec::with_capacity(alloc, MAX_ENTRIES)?;
        entries.extend_from_slice(&self.entries)?;
        Ok(Multipliers { entries })
    }

    /// Sets the value at an index; 0 takes its entry out. It takes no memory. A value of a size over 10^12 is refused
    /// as `TooLarge`; and any other but 0 as `Full`, if 1,000 entries are there and none of them is of this index.
    /// Nothing else is refused, and a refusal leaves the entries as they were.
    pub fn put(&mut self, index: u32, value: i64) -> Result<(), PutRefusal>
        ensures put { OnOk result (IsPut self.old index value self.new) }
        ensures list { OnOk result (self.new ≡ put_in self.old index value) }
        ensures multipliers { OnOk result (AreMultipliers self.new) }
        ensures refusal { result_err result ≡ refusal_of self.old index value }
        ensures unchanged { OnErr result (self.new ≡ self.old) }
    {
        if value.unsigned_abs() > MAX_MULTIPLIER {
            return Err(PutRefusal::TooLarge);
        }
        let place = place_of(&self.entries, index);
        if is_at(&self.entries, place, index) {
            change(&mut self.entries, place, value);
            return Ok(());
        }
        if value == 0 {
            return Ok(());
        }
        if self.entries.len() == MAX_ENTRIES {
            return Err(PutRefusal::Full);
        }
        enter(&mut self.entries, place, Entry { index, value });
        Ok(())
    }

    /// Takes all entries out.
    pub fn clear(&mut self)
        ensures { self.new ≡ [] }
    {
        self.entries.clear();
    }

    /// How many entries there are.
    pub fn len(&self) -> u32
        ensures value { result ≡ length self.now }
        ensures multipliers { AreMultipliers self.now }
    {
        self.entries.len() as u32
    }

    /// The entry at a place, which is below `len`.
    pub fn at(&self, place: u32) -> Entry
        requires { place < length self.now }
        ensures { slice_get self.now place ≡ Some result }
    {
        self.entries[place as usize]
    }

    /// The entries by rising index.
    pub fn entries(&self) -> &[Entry]
        ensures value { result.now ≡ self.now }
        ensures multipliers { AreMultipliers self.now }
    {
        &self.entries
    }

    /// The value at an index, which is 0 where it has no entry.
    pub fn value(&self, index: u32) -> i64
        ensures { result ≡ value_at self.now index }
    {
        let place = place_of(&self.entries, index);
        if is_at(&self.entries, place, index) {
            self.entries[place].value
        } else {
            0
        }
    }

    /// Whether all entries are of indices below `indices`, and those below `free_from` have no negative value.
    pub fn fits(&self, indices: u32, free_from: u32) -> bool
        ensures { IsTrue result ↔ DoFit indices free_from self.now }
    {
        self.entries.iter().all(|entry| entry.index < indices
            && (entry.index >= free_from || entry.value >= 0))
    }
}

/// The place of the first entry whose index is not lower than this one, among entries with rising indices.
fn place_of(entries: &[Entry], index: u32) -> usize
    requires { AreRising entries.now }
    ensures { IsPlaceOf entries.now index result }
{
    let mut low = 0;
    let mut high = entries.len();
    while low < high {
        let middle = low + (high - low) / 2;
        if entries[middle].index < index {
            low = middle + 1;
        } else {
            high = middle;
        }
    }
    low
}

/// Whether the entry at a place is there and has this index.
fn is_at(entries: &[Entry], place: usize, index: u32) -> bool
    ensures { IsTrue result ↔ IsAt entries.now place index }
{
    place < entries.len() && entries[place].index == index
}

/// Changes the value of the entry at a place; 0 takes it out.
fn change(entries: &mut Vec<Entry>, place: usize, value: i64)
    requires { place < length entries.old.items }
    ensures items { entries.new.items ≡ changed entries.old.items place value }
    ensures room { vec_capacity entries.new ≡ vec_capacity entries.old }
{
    if value == 0 {
        entries.remove(place);
    } else {
        entries[place].value = value;
    }
}

/// Puts an entry at a place, where there is room for one more.
fn enter(entries: &mut Vec<Entry>, place: usize, entry: Entry)
    requires place { place ≤ length entries.old.items }
    requires room { length entries.old.items < vec_capacity entries.old }
    ensures items { entries.new.items ≡ insert entries.old.items place entry }
    ensures room { vec_capacity entries.new ≡ vec_capacity entries.old }
{
    let entered = entries.insert(place, entry);
    prove!(entered.is_ok());
}
