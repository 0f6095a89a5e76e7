//! Entries that have names: kept in order, and each found by the hash of its name.

ghost use Rattle.std.specs.Prelude.{◌≡◌, ◌<◌, ◌++◌, ◌∷◌, [], List, ℕ, length, false, IfSome, OnOk, OnErr};
ghost use Rattle.day_tables.specs.NamedEntries.{has_name, find_name};

use compositions::UnitType;
use indexmap::IndexSet;
use rail_base::{Name, NoMemory};
use rules::{Station, Trip};
use std::alloc::Global;
use std::marker::Model;

/// What has a name.
pub trait HasName: Drop {
    ghost name_of: { Self → List ℕ };

    /// Its name.
    fn name(&self) -> &Name
        ensures { result.now ≡ name_of self.now };
}

/// Entries in order, no two of the same name. The number of a name is the place of its entry. A contract sees the list
/// of the entries.
#[derive(Drop)]
pub struct Named<T: HasName> {
    entries: Vec<T>,
    names: IndexSet<String>,
}

impl<T: HasName> Model for Named<T> {
    ghost use Rattle.std.specs.Prelude.{◌≡◌, List, map, string_bytes};

    ghost Value = { List T };

    ghost view = { λ a. a.entries.items };

    ghost invariant = { λ a. map string_bytes a.names.keys ≡ map T.name_of a.entries.items };
}

impl<T: HasName> Named<T> {
    /// No entries. It takes no memory.
    pub fn new(alloc: Global) -> Named<T>
        ensures { result ≡ [] }
    {
        Named {
            entries: Vec::new(alloc),
            names: IndexSet::new(alloc),
        }
    }

    /// How many entries there are.
    pub fn len(&self) -> usize
        ensures { result ≡ length self.now }
    {
        self.entries.len()
    }

    /// The entries in order.
    pub fn entries(&self) -> &[T]
        ensures { result.now ≡ self.now }
    {
        self.entries.as_slice()
    }

    /// The entries in order, to keep.
    pub fn into_entries(self) -> Vec<T>
        ensures { result.items ≡ self }
    {
        self.entries
    }

    /// Whether an entry has the name.
    pub fn has(&self, name: &Name) -> bool
        ensures { result ≡ has_name T.name_of self.now name.now }
    {
        self.names.contains(name.as_str())
    }

    /// The place of the entry with the name.
    pub fn find(&self, name: &Name) -> Option<usize>
        ensures value { result ≡ find_name T.name_of self.now name.now }
        ensures within { IfSome result (λ place. place < length self.now) }
    {
        self.names.get_index_of(name.as_str())
    }

    /// Adds an entry at the end, whose name no entry has yet. The error is want of memory, and nothing is added then.
    pub fn push(&mut self, alloc: Global, entry: T) -> Result<(), NoMemory>
        requires { has_name T.name_of self.old (T.name_of entry) ≡ false }
        ensures added { OnOk result (self.new ≡ self.old ++ entry ∷ []) }
        ensures unchanged { OnErr result (self.new ≡ self.old) }
    {
        let name = String::from_str(alloc, entry.name().as_str())?;
        self.entries.push(entry)?;
        let Ok(_) = self.names.insert(name) else {
            self.entries.pop();
            return Err(NoMemory);
        };
        Ok(())
    }
}

/// The place of the first entry with the name; nothing where no entry has it.
pub fn find_name<T: HasName>(entries: &[T], name: &str) -> Option<usize>
    ensures value { result ≡ find_name T.name_of entries.now name.now }
    ensures within { IfSome result (λ place. place < length entries.now) }
{
    entries
        .iter()
        .position(|entry| entry.name().as_str() == name)
}

impl HasName for UnitType {
    ghost name_of = { λ t. t.name };

    fn name(&self) -> &Name {
        &self.name
    }
}

impl HasName for Station {
    ghost name_of = { λ s. s.name };

    fn name(&self) -> &Name {
        &self.name
    }
}

impl HasName for Trip {
    ghost name_of = { λ t. t.name };

    fn name(&self) -> &Name {
        &self.name
    }
}
