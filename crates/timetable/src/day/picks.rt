//! Picks: one composition for each trip of a day.

ghost use Rattle.std.specs.Prelude.{◌≡◌, ◌<◌, Some, length, slice_get, replicate, set, IfOk};

use rail_base::{CompNo, NoMemory, TripNo};
use std::alloc::Global;
use std::marker::Model;

/// The number of a composition for each trip, in the order of the trips. A contract sees the list of these numbers.
#[derive(Drop)]
pub struct Picks {
    compositions: Vec<CompNo>,
}

impl Model for Picks {
    ghost use Rattle.std.specs.Prelude.{List, ℕ, length, ◌<◌, ◌^◌};

    ghost Value = { List ℕ };

    ghost view = { λ a. a.compositions.items };

    ghost invariant = { λ a. length a.compositions.items < 2 ^ 32 };
}

impl Picks {
    /// Composition 0 for each of so many trips; it is refused only for want of memory.
    pub fn new(alloc: Global, trips: u32) -> Result<Picks, NoMemory>
        ensures { IfOk result (λ picks. picks ≡ replicate trips 0) }
    {
        Ok(Picks {
            compositions: vec![in alloc; CompNo(0); trips as usize]?,
        })
    }

    /// The same compositions again; they are refused only for want of memory.
    pub fn copy(&self, alloc: Global) -> Result<Picks, NoMemory>
        ensures { IfOk result (λ picks. picks ≡ self.now) }
    {
        let mut compositions = Vec::new(alloc);
        compositions.extend_from_slice(&self.compositions)?;
        Ok(Picks { compositions })
    }

    /// Takes over the compositions of other picks, for as many trips.
    pub fn copy_from(&mut self, other: &Picks)
        requires { length self.old ≡ length other.now }
        ensures { self.new ≡ other.now }
    {
        self.compositions.copy_from_slice(&other.compositions);
    }

    /// For how many trips there is a composition.
    pub fn len(&self) -> u32
        ensures { result ≡ length self.now }
    {
        self.compositions.len() as u32
    }

    /// The composition of this trip, which is below `len`.
    pub fn get(&self, trip: TripNo) -> CompNo
        requires { trip < length self.now }
        ensures { slice_get self.now trip ≡ Some result }
    {
        self.compositions[trip.place()]
    }

    /// Gives this trip, which is below `len`, another composition; the other trips keep theirs.
    pub fn set(&mut self, trip: TripNo, comp: CompNo)
        requires { trip < length self.old }
        ensures { self.new ≡ set self.old trip comp }
    {
        self.compositions[trip.place()] = comp;
    }
}
