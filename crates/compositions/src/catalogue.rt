//! The catalogue: all compositions that fit the longest platform, numbered in one order.

ghost use Rattle.std.specs.Prelude.{List, AllPairs, slice_index_or, false, ◌≡◌, ◌<◌, ◌≤◌, ◌+◌, ◌++◌, ℕ, [], ◌∷◌, ◌↔◌};
ghost use Rattle.std.specs.Prelude.{IsTrue, IsNone, IfSome, IfOk, OnOk, IfErr, Some, length, slice_get, Contains};
ghost use Rattle.compositions.specs.Catalogue.{IsCatalogue, catalogue_of, comes_before};
ghost use Rattle.compositions.specs.Composition.{fits_in};
ghost use Rattle.compositions.specs.Extensions.{where_it_fits, extensions};
ghost use Rattle.compositions.specs.declared.catalogue.CatalogueRefusal.TheVariants.{TooMany};

use crate::composition::Composition;
use crate::types::UnitTypes;
use rail_base::limits::{MAX_COMPOSITION_UNITS, MAX_COMPOSITIONS};
use rail_base::{CompNo, TypeNo};
use std::alloc::Global;
use std::marker::Model;
use thiserror::Error;

/// Why there is no catalogue.
#[derive(Debug, Drop, Error)]
pub enum CatalogueRefusal {
    /// More than 1,000 compositions fit.
    #[error("too many compositions")]
    TooMany,
    /// The memory for the catalogue could not be had.
    #[error("out of memory")]
    NoMemory,
}

/// All compositions of one family that fit in so many metres, at most 1,000, by number of units and then by type
/// numbers from the front. A contract sees the list of them.
#[derive(Drop)]
pub struct Catalogue {
    compositions: Vec<Composition>,
}

impl Model for Catalogue {
    ghost use Rattle.std.specs.Prelude.{List, ℕ, length, ◌≤◌, IsTrue, AllPairs};
    ghost use Rattle.rail_base.specs.declared.limits.TheConstants.{MAX_COMPOSITIONS};
    ghost use Rattle.compositions.specs.Catalogue.{comes_before};

    ghost Value = { List (List ℕ) };

    ghost view = { λ a. a.compositions.items };

    ghost invariant = { λ a. (length a.compositions.items ≤ MAX_COMPOSITIONS)
        × AllPairs (λ ms ns. IsTrue (comes_before ms ns)) a.compositions.items };
}

impl Catalogue {
    /// The catalogue of the compositions that are no longer than so many metres. It is refused as `TooMany` exactly
    /// where more than 1,000 fit; the other refusal is want of memory.
    pub fn build(
        alloc: Global,
        types: &UnitTypes,
        longest: u32,
    ) -> Result<Catalogue, CatalogueRefusal>
        ensures ok { IfOk result (λ catalogue. catalogue ≡ catalogue_of types.now longest) }
        ensures few { IfOk result (λ catalogue. length catalogue ≤ MAX_COMPOSITIONS) }
        ensures too_many { IfErr result
            (λ refusal. refusal ≡ TooMany → MAX_COMPOSITIONS < length (catalogue_of types.now longest)) }
        ensures law { IsCatalogue types.now longest (catalogue_of types.now longest) }
    {
        let mut compositions = Vec::new(alloc);
        add_extensions(&mut compositions, &[], types, longest)?;
        let mut next = 0;
        while next < compositions.len() {
            let front = compositions[next].copied();
            add_extensions(&mut compositions, front.units(), types, longest)?;
            next += 1;
        }
        Ok(Catalogue { compositions })
    }

    /// How many compositions there are.
    pub fn len(&self) -> u32
        ensures value { result ≡ length self.now }
        ensures few { result ≤ MAX_COMPOSITIONS }
        ensures in_order { AllPairs (λ ms ns. IsTrue (comes_before ms ns)) self.now }
    {
        self.compositions.len() as u32
    }

    /// The composition of this number, which is below `len`.
    pub fn get(&self, comp: CompNo) -> &Composition
        requires { comp < length self.now }
        ensures { slice_get self.now comp ≡ Some result.now }
    {
        &self.compositions[comp.place()]
    }

    /// The number of a composition, or nothing where it is not in the catalogue.
    pub fn find(&self, composition: &Composition) -> Option<CompNo>
        ensures some { IfSome result (λ comp. slice_get self.now comp ≡ Some composition.now) }
        ensures none { IsNone result ↔ (Contains self.now composition.now → ⊥) }
    {
        let place = first_not_before(&self.compositions, composition);
        if place == self.compositions.len() {
            return None;
        }
        if !self.compositions[place].is(composition) {
            return None;
        }
        Some(CompNo(place as u32))
    }
}

/// The place of the first composition that does not come before this one, among compositions in order.
fn first_not_before(compositions: &[Composition], composition: &Composition) -> usize
    requires { AllPairs (λ ms ns. IsTrue (comes_before ms ns)) compositions.now }
    ensures within { result ≤ length compositions.now }
    ensures before { (k : ℕ) (d : List ℕ) → k < result
        → IsTrue (comes_before (slice_index_or compositions.now k d) composition.now) }
    ensures after { (d : List ℕ) → result < length compositions.now
        → comes_before (slice_index_or compositions.now result d) composition.now ≡ false }
{
    let mut low = 0;
    let mut high = compositions.len();
    while low < high {
        let middle = low + (high - low) / 2;
        if compositions[middle].is_before(composition) {
            low = middle + 1;
        } else {
            high = middle;
        }
    }
    low
}

/// Adds what is made of a front by one more unit at the rear, of each type in turn, where that fits.
fn add_extensions(
    compositions: &mut Vec<Composition>,
    front: &[TypeNo],
    types: &UnitTypes,
    longest: u32,
) -> Result<(), CatalogueRefusal>
    requires few { length compositions.old.items ≤ MAX_COMPOSITIONS }
    requires front_few { length front.now ≤ MAX_COMPOSITION_UNITS }
    ensures ok { OnOk result
        (compositions.new.items
        ≡ compositions.old.items ++ extensions (fits_in types.now longest) (length types.now) front.now) }
    ensures within { OnOk result (length compositions.new.items ≤ MAX_COMPOSITIONS) }
    ensures too_many { IfErr result
        (λ refusal. refusal ≡ TooMany
        → (k : ℕ)
        × (MAX_COMPOSITIONS
        < length (compositions.old.items ++ extensions (fits_in types.now longest) k front.now))) }
{
    for number in 0..types.len() {
        add_extension(compositions, front, TypeNo(number), types, longest)?;
    }
    Ok(())
}

/// Adds what is made of a front by one more unit at the rear, where that fits.
fn add_extension(
    compositions: &mut Vec<Composition>,
    front: &[TypeNo],
    unit_type: TypeNo,
    types: &UnitTypes,
    longest: u32,
) -> Result<(), CatalogueRefusal>
    requires few { length compositions.old.items ≤ MAX_COMPOSITIONS }
    requires front_few { length front.now ≤ MAX_COMPOSITION_UNITS }
    ensures ok { OnOk result
        (compositions.new.items
        ≡ compositions.old.items ++ where_it_fits (fits_in types.now longest) (front.now ++ unit_type ∷ [])) }
    ensures within { OnOk result (length compositions.new.items ≤ MAX_COMPOSITIONS) }
    ensures too_many { IfErr result
        (λ refusal. refusal ≡ TooMany
        → MAX_COMPOSITIONS
        < length (compositions.old.items ++ where_it_fits (fits_in types.now longest) (front.now ++ unit_type ∷ []))) }
{
    let Some(composition) = Composition::extended(front, unit_type) else {
        return Ok(());
    };
    if !composition.fits(types, longest) {
        return Ok(());
    }
    if compositions.len() == MAX_COMPOSITIONS {
        return Err(CatalogueRefusal::TooMany);
    }
    compositions
        .push(composition)
        .map_err(|_| CatalogueRefusal::NoMemory)?;
    Ok(())
}
