//! How the compositions of a day are made of one another.
//!
//! Compositions go by their places in the catalogue. The place past the last one stands for no units.

ghost use Rattle.std.specs.Prelude.{◌≡◌, ◌<◌, ◌≤◌, [], length, IfOk, IfSome, IsNone, Some, Contains, slice_get};
ghost use Rattle.timetable.specs.Compositions.{compositions_of};
ghost use Rattle.price_bound.specs.CompositionTrees.{AreEach, AreTrains, IsLast, IsOneLess, IsRest, IsTurnedPlace};
ghost use Rattle.price_bound.specs.CompositionTrees.{rests_at, turned_at};

use compositions::{Catalogue, Composition};
use rail_base::{CompNo, NoMemory, TypeNo};
use rail_csv::End;
use std::alloc::Global;
use timetable::Instance;

/// For each composition of a day the places of those that it is made of, and of itself after a reversal.
#[derive(Drop)]
pub(crate) struct Trains {
    /// The composition without the unit at its rear.
    pub fronts: Vec<u32>,
    /// The composition without the unit at its front.
    pub rears: Vec<u32>,
    /// No units, where none may be uncoupled or coupled.
    pub none: Vec<u32>,
    /// The composition in the other direction.
    pub turned: Vec<u32>,
    /// The composition.
    pub same: Vec<u32>,
    /// The type of the unit at its rear.
    pub lasts: Vec<TypeNo>,
}

impl Trains {
    /// Those of a day. The error is want of memory.
    pub(crate) fn of(alloc: Global, instance: &Instance) -> Result<Trains, NoMemory>
        ensures { IfOk result (AreTrains instance.now) }
    {
        let fronts = rests(alloc, instance, End::Rear)?;
        let rears = rests(alloc, instance, End::Front)?;
        let none = rests(alloc, instance, End::None)?;
        let turned = turned_places(alloc, instance, true)?;
        let same = turned_places(alloc, instance, false)?;
        let lasts = lasts(alloc, instance)?;
        Ok(Trains {
            fronts,
            rears,
            none,
            turned,
            same,
            lasts,
        })
    }

    /// For each composition the place without the unit at an end.
    pub(crate) fn rests(&self, end: End) -> &[u32]
        ensures { result.now ≡ rests_at end self.now }
    {
        match end {
            End::None => &self.none,
            End::Rear => &self.fronts,
            End::Front => &self.rears,
        }
    }

    /// For each composition its place after a reversal, or without one.
    pub(crate) fn places(&self, reversed: bool) -> &[u32]
        ensures { result.now ≡ turned_at reversed self.now }
    {
        if reversed { &self.turned } else { &self.same }
    }
}

/// For each composition the place without the unit at an end.
fn rests(alloc: Global, instance: &Instance, end: End) -> Result<Vec<u32>, NoMemory>
    ensures { IfOk result (λ rests. AreEach (IsRest instance.now end)
        (length (compositions_of instance.now)) rests.items) }
{
    let mut rests = Vec::new(alloc);
    for comp in 0..instance.catalogue().len() {
        rests.push(rest(instance, end, CompNo(comp)))?;
    }
    Ok(rests)
}

/// For each composition its place after a reversal, or without one.
fn turned_places(alloc: Global, instance: &Instance, reversed: bool) -> Result<Vec<u32>, NoMemory>
    ensures { IfOk result
        (λ places. AreEach (IsTurnedPlace instance.now reversed) (length (compositions_of instance.now)) places.items) }
{
    let mut places = Vec::new(alloc);
    for comp in 0..instance.catalogue().len() {
        places.push(turned_place(instance, reversed, CompNo(comp)))?;
    }
    Ok(places)
}

/// For each composition the type of the unit at its rear.
fn lasts(alloc: Global, instance: &Instance) -> Result<Vec<TypeNo>, NoMemory>
    ensures { IfOk result (λ lasts. AreEach (IsLast instance.now) (length (compositions_of instance.now)) lasts.items) }
{
    let mut lasts = Vec::new(alloc);
    for comp in 0..instance.catalogue().len() {
        lasts.push(last(instance, CompNo(comp)))?;
    }
    Ok(lasts)
}

/// The place of a composition without the unit at an end.
fn rest(instance: &Instance, end: End, comp: CompNo) -> u32
    requires { comp < length (compositions_of instance.now) }
    ensures { IsRest instance.now end comp result }
{
    let composition = instance.catalogue().get(comp);
    match without_one(composition, end) {
        Some(less) => place_of(instance.catalogue(), &less),
        None => instance.catalogue().len(),
    }
}

/// The place of a composition after a reversal, or without one.
fn turned_place(instance: &Instance, reversed: bool, comp: CompNo) -> u32
    requires { comp < length (compositions_of instance.now) }
    ensures { IsTurnedPlace instance.now reversed comp result }
{
    if !reversed {
        return comp.0;
    }
    let composition = instance.catalogue().get(comp);
    place_of(instance.catalogue(), &composition.reversed())
}

/// The type of the unit at the rear of a composition.
fn last(instance: &Instance, comp: CompNo) -> TypeNo
    requires { comp < length (compositions_of instance.now) }
    ensures { IsLast instance.now comp result }
{
    let composition = instance.catalogue().get(comp);
    composition.at(composition.len() - 1)
}

/// A composition without the unit at an end, or nothing where no units are left; none are where no end is named.
fn without_one(composition: &Composition, end: End) -> Option<Composition>
    ensures some { IfSome result (IsOneLess end composition.now) }
    ensures units { IfSome result (λ less. 1 ≤ length less) }
    ensures none { IsNone result → IsOneLess end composition.now [] }
{
    let units = composition.len();
    if units < 2 {
        return None;
    }
    match end {
        End::None => None,
        End::Rear => Some(composition.front(units - 1)),
        End::Front => Some(composition.rear(units - 1)),
    }
}

/// The place of a composition of a catalogue.
fn place_of(catalogue: &Catalogue, composition: &Composition) -> u32
    requires { Contains catalogue.now composition.now }
    ensures { slice_get catalogue.now result ≡ Some composition.now }
{
    let Some(place) = catalogue.find(composition) else {
        unreachable!()
    };
    place.0
}
