//! Compositions: the units of one train, front to rear.

ghost use Rattle.std.specs.Prelude.{[], ◌∷◌, ◌≡◌, ◌<◌, ◌≤◌, ◌+◌, ◌-◌, ◌++◌, ◌==◌, ◌⊎◌, ◌↔◌, IsTrue, IsNone, IfSome};
ghost use Rattle.std.specs.Prelude.{Some, length, slice_get, take, drop, reverse, count_by};
ghost use Rattle.std.specs.List.{list_all};
ghost use Rattle.std.specs.Str.{bytes_eq};
ghost use Rattle.compositions.specs.Catalogue.{comes_before};
ghost use Rattle.compositions.specs.Composition.{metres_of, seats_of, first_seats_of, carriages_of, family_of};
ghost use Rattle.compositions.specs.Composition.{is_one_family, are_types, fits_in, sum_over};
ghost use Rattle.compositions.specs.Measure.{measure_of};
ghost use Rattle.compositions.specs.UnitTypes.{is_within_limits};

use crate::types::{UnitType, UnitTypes};
use arrayvec::ArrayVec;
use rail_base::limits::{MAX_COMPOSITION_UNITS, MAX_SEATS};
use rail_base::{Name, TypeNo};
use std::marker::Model;

/// The types of a train's 1 to 6 units, front to rear in its driving direction. A contract sees the list of the type
/// numbers.
#[derive(Drop)]
pub struct Composition {
    units: ArrayVec<TypeNo, MAX_COMPOSITION_UNITS>,
}

impl Model for Composition {
    ghost use Rattle.std.specs.Prelude.{List, ℕ, length, ◌≤◌};
    ghost use Rattle.rail_base.specs.declared.limits.TheConstants.{MAX_COMPOSITION_UNITS};

    ghost Value = { List ℕ };

    ghost view = { λ a. a.units.items };

    ghost invariant = { λ a. (1 ≤ length a.units.items) × (length a.units.items ≤ MAX_COMPOSITION_UNITS) };
}

impl Composition {
    /// The composition of these units, or nothing where they are none or more than six. It takes no memory.
    pub fn of(types: &[TypeNo]) -> Option<Composition>
        ensures none { IsNone result ↔ (length types.now < 1) ⊎ (MAX_COMPOSITION_UNITS < length types.now) }
        ensures some { IfSome result (λ composition. composition ≡ types.now) }
    {
        if types.is_empty() {
            return None;
        }
        let mut units = ArrayVec::new();
        match units.try_extend_from_slice(types) {
            Ok(()) => Some(Composition { units }),
            Err(_) => None,
        }
    }

    /// A front of at most six units with one more at its rear, or nothing where these are more than six.
    pub(crate) fn extended(front: &[TypeNo], unit_type: TypeNo) -> Option<Composition>
        requires { length front.now ≤ MAX_COMPOSITION_UNITS }
        ensures none { IsNone result ↔ (MAX_COMPOSITION_UNITS < length front.now + 1) }
        ensures some { IfSome result (λ composition. composition ≡ front.now ++ unit_type ∷ []) }
    {
        let mut units = copies_of(front);
        match units.try_push(unit_type) {
            Ok(()) => Some(Composition { units }),
            Err(_) => None,
        }
    }

    /// The same composition again. It takes no memory.
    pub fn copied(&self) -> Composition
        ensures { result ≡ self.now }
    {
        Composition {
            units: copies_of(self.units()),
        }
    }

    /// How many units there are.
    pub fn len(&self) -> u32
        ensures value { result ≡ length self.now }
        ensures some { 1 ≤ result }
        ensures few { result ≤ MAX_COMPOSITION_UNITS }
    {
        self.units.len() as u32
    }

    /// The type of the unit at a place, counted from 0 at the front; the place is below `len`.
    pub fn at(&self, place: u32) -> TypeNo
        requires { place < length self.now }
        ensures { slice_get self.now place ≡ Some result }
    {
        self.units[place as usize]
    }

    /// The types of the units, front to rear.
    pub fn units(&self) -> &[TypeNo]
        ensures value { result.now ≡ self.now }
        ensures some { 1 ≤ length self.now }
        ensures few { length self.now ≤ MAX_COMPOSITION_UNITS }
    {
        self.units.as_slice()
    }

    /// Whether two compositions have the same units in the same order.
    pub fn is(&self, other: &Composition) -> bool
        ensures { IsTrue result ↔ (self.now ≡ other.now) }
    {
        self.units() == other.units()
    }

    /// Whether this composition comes before another in the order of the catalogue: by number of units, and then by
    /// type numbers from the front.
    pub fn is_before(&self, other: &Composition) -> bool
        ensures { result ≡ comes_before self.now other.now }
    {
        if self.len() != other.len() {
            return self.len() < other.len();
        }
        self.units() < other.units()
    }

    /// The same units as the train goes the other way.
    pub fn reversed(&self) -> Composition
        ensures { result ≡ reverse self.now }
    {
        let mut units = copies_of(self.units());
        units.reverse();
        Composition { units }
    }

    /// These units with those of `rear` behind them, or nothing where they are more than six together.
    pub fn joined(&self, rear: &Composition) -> Option<Composition>
        ensures none { IsNone result ↔ (MAX_COMPOSITION_UNITS < length self.now + length rear.now) }
        ensures some { IfSome result (λ composition. composition ≡ self.now ++ rear.now) }
    {
        let mut units = copies_of(self.units());
        match units.try_extend_from_slice(rear.units()) {
            Ok(()) => Some(Composition { units }),
            Err(_) => None,
        }
    }

    /// The first so many units: at least 1 and at most `len`.
    pub fn front(&self, units: u32) -> Composition
        requires some { 1 ≤ units }
        requires within { units ≤ length self.now }
        ensures { result ≡ take units self.now }
    {
        let kept = units as usize;
        Composition {
            units: copies_of(&self.units()[..kept]),
        }
    }

    /// The last so many units: at least 1 and at most `len`.
    pub fn rear(&self, units: u32) -> Composition
        requires some { 1 ≤ units }
        requires within { units ≤ length self.now }
        ensures { result ≡ drop (length self.now - units) self.now }
    {
        let before = (self.len() - units) as usize;
        Composition {
            units: copies_of(&self.units()[before..]),
        }
    }

    /// The metres of all units, whose types are among these.
    pub fn metres(&self, types: &UnitTypes) -> u32
        requires { IsTrue (are_types types.now self.now) }
        ensures { result ≡ metres_of types.now self.now }
    {
        Measure::Metres.total(types, self.units())
    }

    /// The seats of second class of all units, whose types are among these.
    pub fn seats(&self, types: &UnitTypes) -> u32
        requires { IsTrue (are_types types.now self.now) }
        ensures { result ≡ seats_of types.now self.now }
    {
        Measure::Seats.total(types, self.units())
    }

    /// The seats of first class of all units, whose types are among these.
    pub fn first_seats(&self, types: &UnitTypes) -> u32
        requires { IsTrue (are_types types.now self.now) }
        ensures { result ≡ first_seats_of types.now self.now }
    {
        Measure::FirstSeats.total(types, self.units())
    }

    /// The carriages of all units, whose types are among these.
    pub fn carriages(&self, types: &UnitTypes) -> u32
        requires { IsTrue (are_types types.now self.now) }
        ensures { result ≡ carriages_of types.now self.now }
    {
        Measure::Carriages.total(types, self.units())
    }

    /// Whether all units are of one family, whose types are among these.
    pub fn one_family(&self, types: &UnitTypes) -> bool
        requires { IsTrue (are_types types.now self.now) }
        ensures { result ≡ is_one_family types.now self.now }
    {
        let units = self.units();
        are_of_family(types, &units[1..], &types.get(units[0]).family)
    }

    /// How many units have this type.
    #[tactic(auto, using(crate::proofs::Sums::few_count))]
    pub fn count(&self, unit_type: TypeNo) -> u32
        ensures value { result ≡ count_by (λ m. m == unit_type) self.now }
        ensures few { result ≤ MAX_COMPOSITION_UNITS }
    {
        self.units()
            .iter()
            .filter(|unit| **unit == unit_type)
            .count() as u32
    }

    /// Whether the units are of these types and of one family, and no longer than so many metres.
    pub fn fits(&self, types: &UnitTypes, longest: u32) -> bool
        ensures { result ≡ fits_in types.now longest self.now }
    {
        if !are_known(types, self.units()) {
            return false;
        }
        if !self.one_family(types) {
            return false;
        }
        self.metres(types) <= longest
    }
}

/// What is added up over the units of a composition.
#[derive(Clone, Copy)]
enum Measure {
    Carriages,
    Seats,
    FirstSeats,
    Metres,
}

impl Measure {
    /// The measure of one unit of a type. No measure has a higher limit than seats have.
    #[tactic(auto, using(crate::proofs::Sums::measure_le))]
    fn of(self, unit_type: &UnitType) -> u32
        requires { IsTrue (is_within_limits unit_type.now) }
        ensures value { result ≡ measure_of self unit_type.now }
        ensures few { result ≤ MAX_SEATS }
    {
        match self {
            Measure::Carriages => unit_type.carriages,
            Measure::Seats => unit_type.seats,
            Measure::FirstSeats => unit_type.first,
            Measure::Metres => unit_type.metres,
        }
    }

    /// The measure of all units.
    #[tactic(auto, using(crate::proofs::Sums::sums))]
    fn total(self, types: &UnitTypes, units: &[TypeNo]) -> u32
        requires few { length units.now ≤ MAX_COMPOSITION_UNITS }
        requires known { IsTrue (are_types types.now units.now) }
        ensures { result ≡ sum_over (measure_of self) types.now units.now }
    {
        let mut total = 0;
        for unit in units {
            total += self.of(types.get(*unit));
        }
        total
    }
}

/// The units in the same order, at most six.
fn copies_of(units: &[TypeNo]) -> ArrayVec<TypeNo, MAX_COMPOSITION_UNITS>
    requires { length units.now ≤ MAX_COMPOSITION_UNITS }
    ensures { result.items ≡ units.now }
{
    let mut copies = ArrayVec::new();
    for unit in units {
        copies.push(*unit);
    }
    copies
}

/// Whether each unit's type is in the list of types.
fn are_known(types: &UnitTypes, units: &[TypeNo]) -> bool
    ensures { result ≡ are_types types.now units.now }
{
    units.iter().all(|unit| unit.0 < types.len())
}

/// Whether each unit's type is of a family.
#[tactic(auto, using(crate::proofs::Sums::is_type_at))]
fn are_of_family(types: &UnitTypes, units: &[TypeNo], family: &Name) -> bool
    requires { IsTrue (are_types types.now units.now) }
    ensures { result ≡ list_all (λ n. bytes_eq (family_of types.now n) family.now) units.now }
{
    for unit in units {
        if !types.get(*unit).family.is(family) {
            return false;
        }
    }
    true
}
