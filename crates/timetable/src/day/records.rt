//! The parts of a day, as `rules` has them, and the hand-overs of its links.

use rail_base::{LinkNo, TripNo};
pub use rules::{Link, LinkKind, LinkTrips, Station, Stock, Trip, Unit, Weights};

/// The second trip of a join or a split, whose units pass from one chain to another.
#[derive(Clone, Copy)]
pub struct Handover {
    /// The join or the split.
    pub link: LinkNo,
    /// The second arriving trip of a join, or the second departing trip of a split.
    pub second: TripNo,
}
