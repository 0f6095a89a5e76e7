//! What happens on a day, where its units and trips are, and what can be wrong with a step.

use rail_base::{LinkNo, StationNo, TripNo, TypeNo, UnitNo};
use thiserror::Error;

/// One step of the day.
#[derive(Clone, Copy, Debug, PartialEq, Eq)]
pub enum DayEvent {
    /// A trip leaves.
    Depart(TripNo),
    /// A trip arrives.
    Arrive(TripNo),
}

/// Where a unit is.
#[derive(Clone, Copy)]
pub enum UnitLocation {
    /// In the yard of a station, ready from a minute on.
    Yard {
        /// The station.
        station: StationNo,
        /// The first minute at which it is ready: in minutes since the first midnight.
        ready: u32,
    },
    /// In a trip that is under way.
    Aboard(TripNo),
    /// In the train of this trip, which has arrived and goes on as another.
    Standing(TripNo),
}

/// What has become of a trip.
#[derive(Clone, Copy)]
pub enum Stage {
    /// It has not left.
    Waiting,
    /// It has left and has not arrived.
    UnderWay,
    /// It has arrived.
    Arrived,
}

/// Why a step cannot be made, or why the day cannot end so.
#[derive(Clone, Copy, Debug, PartialEq, Eq, Error)]
pub enum StepFault {
    /// The event is out of turn, or is missing at the end.
    #[error("event out of turn")]
    NotNow(DayEvent),
    /// The trip has no units.
    #[error("a trip has no units")]
    NoUnits(TripNo),
    /// The trip's units are no composition that may run on it.
    #[error("a trip has no admissible composition")]
    NotAdmissible(TripNo),
    /// The link's rule is broken.
    #[error("a link is broken")]
    LinkBroken(LinkNo),
    /// The unit is not in the yard and ready when the trip takes it.
    #[error("a unit is not ready for its trip")]
    NotInYard {
        /// The unit.
        unit: UnitNo,
        /// The trip that is to take it.
        trip: TripNo,
    },
    /// A station has another number of units of a type at the end than is wanted.
    #[error("a station has another number of units of a type than is wanted")]
    Balance {
        /// The station.
        station: StationNo,
        /// The type of the units.
        unit_type: TypeNo,
        /// How many of them stand in its yard.
        count: u32,
        /// How many are wanted there.
        wanted: u32,
    },
}
