//! Which types a trip gives to the yard and takes from it, where each trip has a picked composition.

ghost use Rattle.std.specs.Prelude.{◌≡◌, ◌<◌, length, IsTrue};
ghost use Rattle.compositions.specs.Composition.{are_types};
ghost use Rattle.timetable.specs.Links.{itself, list_of, given_with, taken_with};
ghost use Rattle.timetable.specs.Picks.{ArePicks, picked};

use crate::day::instance::Instance;
use crate::day::picks::Picks;
use arrayvec::ArrayVec;
use compositions::Composition;
use rail_base::limits::MAX_COMPOSITION_UNITS;
use rail_base::{TripNo, TypeNo};

impl Instance {
    /// The composition that is picked for a trip, which is below `trips`. The picks are of the day.
    #[tactic(auto, unfolding(rules::specs::Links::list_of))]
    pub fn composition(&self, picks: &Picks, trip: TripNo) -> &Composition
        requires picks { ArePicks self.now picks.now }
        requires trip { trip < length self.now.trips }
        ensures value { result.now ≡ list_of (picked self.now picks.now) trip }
        ensures known { IsTrue (are_types self.now.types result.now) }
    {
        self.catalogue().get(picks.get(trip))
    }

    /// The types of the units that a trip gives to the yard where it arrives, front to rear after a reversal, where
    /// each trip has the picked composition: those that a turn uncouples, all of them where no link leads on or the
    /// rule of the turn is broken, and none at a join or a split. The trip is below `trips`. It takes no memory.
    pub fn given_types(
        &self,
        picks: &Picks,
        trip: TripNo,
    ) -> ArrayVec<TypeNo, MAX_COMPOSITION_UNITS>
        requires picks { ArePicks self.now picks.now }
        requires trip { trip < length self.now.trips }
        ensures { result.items ≡ given_with itself self.now (picked self.now picks.now) trip }
    {
        self.given::<TypeNo>(picks, trip)
    }

    /// The types of the units that a trip takes from the yard where it leaves, front to rear, where each trip has the
    /// picked composition: those that a turn couples, all of them where no link leads into it or the rule of the turn
    /// is broken, and none at a join or a split. The trip is below `trips`. It takes no memory.
    pub fn taken_types(
        &self,
        picks: &Picks,
        trip: TripNo,
    ) -> ArrayVec<TypeNo, MAX_COMPOSITION_UNITS>
        requires picks { ArePicks self.now picks.now }
        requires trip { trip < length self.now.trips }
        ensures { result.items ≡ taken_with itself self.now (picked self.now picks.now) trip }
    {
        self.taken::<TypeNo>(picks, trip)
    }
}
