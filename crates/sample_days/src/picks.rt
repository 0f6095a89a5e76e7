//! Whether picks that are drawn meet what calls on picks require of them.

ghost use Rattle.std.specs.Prelude.{◌<◌, length, IsTrue};
ghost use Rattle.timetable.specs.Picks.{ArePicks};
ghost use Rattle.transitions.specs.Edges.{IsAdmittedComp};
ghost use Rattle.unit_duties.specs.Broken.{AreAdmissible};

use rail_base::{CompNo, TripNo};
use timetable::{Instance, Picks};

/// Whether the picks have one composition of the day for each trip, and each may run on its trip.
pub fn may_run(day: &Instance, picks: &Picks) -> bool
    ensures picks { IsTrue result → ArePicks day.now picks.now }
    ensures admissible { IsTrue result → AreAdmissible day.now picks.now }
{
    if picks.len() != day.trips() {
        return false;
    }
    for number in 0..day.trips() {
        if !is_admitted(day, TripNo(number), picks.get(TripNo(number))) {
            return false;
        }
    }
    true
}

/// Whether there is a composition of this number, and it may run on a trip.
fn is_admitted(day: &Instance, trip: TripNo, comp: CompNo) -> bool
    requires { trip < length day.now.trips }
    ensures { IsTrue result → IsAdmittedComp day.now trip comp }
{
    comp.0 < day.catalogue().len() && day.admits(trip, comp)
}
