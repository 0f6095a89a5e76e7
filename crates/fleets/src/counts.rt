//! Numbers of units by station and then type.

ghost use Rattle.std.specs.Prelude.{◌≡◌, ◌<◌, Some, length, slice_get, set, replicate, IfOk, ◌^◌};

use rail_base::NoMemory;
use std::alloc::Global;
use std::marker::Model;

/// A fleet: how many units of each type stand at each station, by station and then type, each number at the place
/// `station * types + type`. A contract sees the list of these numbers.
#[derive(Debug, Drop)]
pub struct Counts {
    counts: Vec<u32>,
}

impl Model for Counts {
    ghost use Rattle.std.specs.Prelude.{List, ℕ, length, ◌<◌, ◌^◌};

    ghost Value = { List ℕ };

    ghost view = { λ a. a.counts.items };

    ghost invariant = { λ a. length a.counts.items < 2 ^ 32 };
}

impl Counts {
    /// These numbers, fewer than 2^32. It takes no memory.
    pub fn of(counts: Vec<u32>) -> Counts
        requires { length counts.items < 2 ^ 32 }
        ensures { result ≡ counts.items }
    {
        Counts { counts }
    }

    /// No unit at each of so many places. The error is want of memory.
    pub fn none(alloc: Global, places: u32) -> Result<Counts, NoMemory>
        ensures { IfOk result (λ counts. counts ≡ replicate places 0) }
    {
        Ok(Counts {
            counts: vec![in alloc; 0; places as usize]?,
        })
    }

    /// The same numbers again. The error is want of memory.
    pub fn copy(&self, alloc: Global) -> Result<Counts, NoMemory>
        ensures { IfOk result (λ counts. counts ≡ self.now) }
    {
        let mut counts = Vec::new(alloc);
        counts.extend_from_slice(&self.counts)?;
        Ok(Counts { counts })
    }

    /// How many numbers there are.
    pub fn len(&self) -> u32
        ensures { result ≡ length self.now }
    {
        self.counts.len() as u32
    }

    /// The numbers in order. It takes no memory.
    pub fn items(&self) -> &[u32]
        ensures { result.now ≡ self.now }
    {
        self.counts.as_slice()
    }

    /// The number at a place, which is below `len`.
    pub fn at(&self, place: u32) -> u32
        requires { place < length self.now }
        ensures { slice_get self.now place ≡ Some result }
    {
        self.counts[place as usize]
    }

    /// Puts another number at a place, which is below `len`; the others stay.
    pub fn put(&mut self, place: u32, count: u32)
        requires { place < length self.old }
        ensures { self.new ≡ set self.old place count }
    {
        self.counts[place as usize] = count;
    }
}
