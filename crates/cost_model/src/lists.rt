//! The types of the units on each trip of a day: of picks, and of a plan.

ghost use Rattle.std.specs.Prelude.{◌≡◌, ◌<◌, ◌≤◌, ℕ, List, length, map, IsTrue};
ghost use Rattle.compositions.specs.Composition.{are_types};
ghost use Rattle.timetable.specs.Day.{Day, types_of};
ghost use Rattle.timetable.specs.Links.{list_of};
ghost use Rattle.timetable.specs.Running.{IsPlan};
ghost use Rattle.timetable.specs.Picks.{ArePicks, picked};

use arrayvec::ArrayVec;
use rail_base::limits::MAX_COMPOSITION_UNITS;
use rail_base::{TripNo, TypeNo};
use timetable::{Instance, NamedPlan, Picks, copy_of};

/// What gives each trip of a day a list of types, front to rear.
pub(crate) trait TypeLists {
    /// Whether it is of this day.
    ghost are_of: { Self → Day → Type 0 };

    /// The lists, one a trip.
    ghost lists: { Self → Day → List (List ℕ) };

    /// The types on a trip: at most six, and all of the day.
    fn types_on(&self, instance: &Instance, trip: TripNo) -> ArrayVec<TypeNo, MAX_COMPOSITION_UNITS>
        requires of_day { are_of self.now instance.now }
        requires trip { trip < length instance.now.trips }
        ensures types { result.items ≡ list_of (lists self.now instance.now) trip }
        ensures known { IsTrue (are_types instance.now.types result.items) };
}

impl TypeLists for Picks {
    ghost are_of = { λ picks day. ArePicks day picks };

    ghost lists = { λ picks day. picked day picks };

    fn types_on(
        &self,
        instance: &Instance,
        trip: TripNo,
    ) -> ArrayVec<TypeNo, MAX_COMPOSITION_UNITS> {
        copy_of(instance.composition(self, trip).units())
    }
}

impl TypeLists for NamedPlan {
    ghost are_of = { λ plan day. IsPlan day plan };

    ghost lists = { λ plan day. map (types_of day) plan };

    fn types_on(
        &self,
        instance: &Instance,
        trip: TripNo,
    ) -> ArrayVec<TypeNo, MAX_COMPOSITION_UNITS> {
        self.types(instance, trip)
    }
}
