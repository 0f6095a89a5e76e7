//! What runs on each trip of a day: units, or types of units. The rule of a link is one over both.

ghost use Rattle.std.specs.Prelude.{ℕ, ◌≡◌, ◌<◌, ◌≤◌, List, length, map, IsTrue};
ghost use Rattle.timetable.specs.Day.{Day, type_of};
ghost use Rattle.timetable.specs.Links.{itself, list_of};
ghost use Rattle.timetable.specs.Picks.{ArePicks, picked};
ghost use Rattle.timetable.specs.Running.{IsPlan};
ghost use Rattle.timetable.specs.Turns.{same};

use crate::day::instance::Instance;
use crate::day::picks::Picks;
use crate::day::plan::NamedPlan;
use arrayvec::ArrayVec;
use rail_base::limits::MAX_COMPOSITION_UNITS;
use rail_base::{TripNo, TypeNo, UnitNo};
use rules::copy_of;

/// An entry of the list of a trip, which is front to rear: a unit of a plan, or a type of the composition of picks.
pub trait TripEntry: Copy + Default + Drop {
    /// The lists of all trips of a day.
    type Lists;

    // the entry as a number
    ghost number: { Self → ℕ };

    // the type of the entry of a number: that of a unit, and of a type itself
    ghost type_of: { Day → ℕ → ℕ };

    // the lists, of numbers
    ghost lists_of: { Day → Self.Lists → List (List ℕ) };

    // they are lists of the trips of the day
    ghost AreOf: { Day → Self.Lists → Type 0 };

    /// The list of a trip of the day: at most six entries.
    fn list<'a>(lists: &'a Self::Lists, instance: &'a Instance, trip: TripNo) -> &'a [Self]
        requires lists { AreOf instance.now lists.now }
        requires trip { trip < length instance.now.trips }
        ensures value { map number result.now ≡ list_of (lists_of instance.now lists.now) trip }
        ensures few { length result.now ≤ MAX_COMPOSITION_UNITS };

    /// The types of the entries of a trip of the day.
    fn list_types(
        lists: &Self::Lists,
        instance: &Instance,
        trip: TripNo,
    ) -> ArrayVec<TypeNo, MAX_COMPOSITION_UNITS>
        requires lists { AreOf instance.now lists.now }
        requires trip { trip < length instance.now.trips }
        ensures { result.items ≡ map (type_of instance.now) (list_of (lists_of instance.now lists.now) trip) };

    /// Whether two lists are one.
    fn are_same(list: &[Self], other: &[Self]) -> bool
        ensures { result ≡ same (map number list.now) (map number other.now) };
}

impl TripEntry for UnitNo {
    type Lists = NamedPlan;

    ghost number = { λ unit. unit };

    ghost type_of = { type_of };

    ghost lists_of = { λ day plan. plan };

    ghost AreOf = { IsPlan };

    fn list<'a>(plan: &'a NamedPlan, _instance: &'a Instance, trip: TripNo) -> &'a [UnitNo] {
        plan.units(trip)
    }

    fn list_types(
        plan: &NamedPlan,
        instance: &Instance,
        trip: TripNo,
    ) -> ArrayVec<TypeNo, MAX_COMPOSITION_UNITS> {
        plan.types(instance, trip)
    }

    fn are_same(list: &[UnitNo], other: &[UnitNo]) -> bool {
        list == other
    }
}

impl TripEntry for TypeNo {
    type Lists = Picks;

    ghost number = { λ unit_type. unit_type };

    ghost type_of = { λ day. itself };

    ghost lists_of = { picked };

    ghost AreOf = { ArePicks };

    fn list<'a>(picks: &'a Picks, instance: &'a Instance, trip: TripNo) -> &'a [TypeNo] {
        instance.composition(picks, trip).units()
    }

    fn list_types(
        picks: &Picks,
        instance: &Instance,
        trip: TripNo,
    ) -> ArrayVec<TypeNo, MAX_COMPOSITION_UNITS> {
        copy_of(instance.composition(picks, trip).units())
    }

    fn are_same(list: &[TypeNo], other: &[TypeNo]) -> bool {
        list == other
    }
}
