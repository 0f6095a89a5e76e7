//! Regions: a set of compositions for each trip. A cut takes compositions out of one set, which can be put back.

ghost use Rattle.std.specs.Prelude.{◌≡◌, ◌<◌, ◌≤◌, ◌↔◌, length, set, IfOk, IsTrue};
ghost use Rattle.timetable.specs.Admissible.{is_admissible};
ghost use Rattle.timetable.specs.Compositions.{composition_at};
ghost use Rattle.branch_tree.specs.Sets.{HasMember, size_of, set_of, restricted};
ghost use Rattle.branch_tree.specs.Regions.{are_in, set_at, has, root_of};
ghost use Rattle.branch_tree.specs.Cuts.{trip_of, is_on, side_of, IsInRange, IsProper};

use crate::cuts::{Cut, Mark, Side};
use crate::sets::CompositionSet;
use compositions::Catalogue;
use rail_base::limits::{MAX_COMPOSITION_UNITS, MAX_COMPOSITIONS, MAX_TYPES};
use rail_base::{CompNo, NoMemory, TripNo};
use std::alloc::Global;
use std::marker::Model;
use timetable::{Instance, Picks};

/// For each trip the compositions that it may have. A contract sees a list of sets, one for each trip.
#[derive(Drop)]
pub struct Region {
    sets: Vec<CompositionSet>,
}

impl Model for Region {
    ghost use Rattle.std.specs.Prelude.{List, Bool, length, ◌<◌, ◌^◌};

    ghost Value = { List (List Bool) };

    ghost view = { λ a. a.sets.items };

    ghost invariant = { λ a. length a.sets.items < 2 ^ 32 };
}

impl Region {
    /// The region of a day, in which each trip has the compositions that are admissible for it. The error is want of
    /// memory.
    pub fn root(alloc: Global, instance: &Instance) -> Result<Region, NoMemory>
        ensures { IfOk result (λ region. region ≡ root_of instance.now) }
    {
        let mut sets = Vec::new(alloc);
        for trip in 0..instance.trips() {
            sets.push(admissible_set(instance, TripNo(trip)))?;
        }
        Ok(Region { sets })
    }

    /// The same region again. The error is want of memory.
    pub fn copy(&self, alloc: Global) -> Result<Region, NoMemory>
        ensures { IfOk result (λ region. region ≡ self.now) }
    {
        let mut sets = Vec::new(alloc);
        for set in &self.sets {
            sets.push(set.copied())?;
        }
        Ok(Region { sets })
    }

    /// How many trips have a set.
    pub fn trips(&self) -> u32
        ensures { result ≡ length self.now }
    {
        self.sets.len() as u32
    }

    /// The set of a trip, which is below `trips`.
    pub fn set(&self, trip: TripNo) -> &CompositionSet
        requires { trip < length self.now }
        ensures { result.now ≡ set_at self.now trip }
    {
        &self.sets[trip.place()]
    }

    /// Whether a composition is in the set of a trip. The trip is below `trips`, the composition below the number of
    /// the most compositions.
    pub fn has(&self, trip: TripNo, comp: CompNo) -> bool
        requires trip { trip < length self.now }
        requires comp { comp < MAX_COMPOSITIONS }
        ensures { result ≡ has self.now trip comp }
    {
        self.sets[trip.place()].has(comp)
    }

    /// How many compositions are in the set of a trip, which is below `trips`.
    pub fn size(&self, trip: TripNo) -> u32
        requires { trip < length self.now }
        ensures value { result ≡ size_of (set_at self.now trip) }
        ensures few { result ≤ MAX_COMPOSITIONS }
    {
        self.sets[trip.place()].size()
    }

    /// Whether picks are in the region: there is one for each trip, and each is in its trip's set.
    pub fn holds(&self, picks: &Picks) -> bool
        ensures { result ≡ are_in picks.now self.now }
    {
        if picks.len() != self.trips() {
            return false;
        }
        for trip in 0..self.trips() {
            if !self.sets[trip as usize].contains(picks.get(TripNo(trip))) {
                return false;
            }
        }
        true
    }

    /// Whether a cut is proper here: its numbers are in range, and its trip has a composition on each side.
    pub fn is_proper(&self, catalogue: &Catalogue, cut: &Cut) -> bool
        ensures { IsTrue result ↔ IsProper catalogue.now self.now cut.now }
    {
        if !self.is_in_range(catalogue, cut) {
            return false;
        }
        let set = &self.sets[cut.trip().place()];
        set.has_some_on(catalogue, cut, Side::Left) && set.has_some_on(catalogue, cut, Side::Right)
    }

    /// Keeps in the set of the cut's trip the compositions on one side of the cut, which is proper. The mark holds that
    /// set as it was before.
    pub fn cut(&mut self, catalogue: &Catalogue, cut: &Cut, side: Side) -> Mark
        requires { IsProper catalogue.now self.old cut.now }
        ensures region { self.new ≡ side_of catalogue.now cut.now side self.old }
        ensures trip { result.trip ≡ trip_of cut.now }
        ensures before { result.before ≡ set_at self.old (trip_of cut.now) }
    {
        let trip = cut.trip();
        let before = self.sets[trip.place()].copied();
        self.sets[trip.place()].keep(catalogue, cut, side);
        Mark { trip, before }
    }

    /// Sets the set of the mark's trip, which is below `trips`, to the mark's set again.
    pub fn put_back(&mut self, mark: Mark)
        requires { mark.trip < length self.old }
        ensures { self.new ≡ set self.old mark.trip mark.before }
    {
        self.sets[mark.trip.place()] = mark.before;
    }

    /// Whether the numbers of a cut name a trip of the region, a composition of the catalogue, and a number of units of
    /// a type.
    fn is_in_range(&self, catalogue: &Catalogue, cut: &Cut) -> bool
        ensures { IsTrue result ↔ IsInRange catalogue.now self.now cut.now }
    {
        if cut.trip().place() >= self.sets.len() {
            return false;
        }
        match cut {
            Cut::Only { comp, .. } => comp.0 < catalogue.len(),
            Cut::AtMost {
                unit_type,
                count,
                ..
            } => unit_type.place() < MAX_TYPES && (*count as usize) < MAX_COMPOSITION_UNITS,
        }
    }
}

/// The compositions that are admissible for a trip, which is below the day's number of trips.
fn admissible_set(instance: &Instance, trip: TripNo) -> CompositionSet
    requires { trip < length instance.now.trips }
    ensures { result ≡ set_of (λ comp. is_admissible instance.now trip (composition_at instance.now comp)) }
{
    let mut set = CompositionSet::empty();
    for comp in 0..instance.catalogue().len() {
        if instance.admits(trip, CompNo(comp)) {
            set.insert(CompNo(comp));
        }
    }
    set
}
