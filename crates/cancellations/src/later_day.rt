//! The later day: a day without the trips that are cancelled.

ghost use Rattle.std.specs.Prelude.{◌≡◌, ◌<◌, length, slice_get, Some};

use rail_base::TripNo;
use timetable::Instance;

/// A day without some of its trips, and without the links that name one of them.
#[derive(Drop)]
pub struct Later {
    /// The day. Its trips and links have the order that they had, and units have their numbers.
    pub instance: Instance,
    /// The numbers that its trips had, in order.
    pub numbers: Vec<TripNo>,
    /// Each trip has one.
    pub ghost as_many: { length numbers.items ≡ length instance.trips },
}

impl Later {
    /// The number that a trip of the later day had before. The trip is below the number of its trips.
    pub fn old(&self, trip: TripNo) -> TripNo
        requires { trip < length self.now.instance.trips }
        ensures { slice_get self.now.numbers.items trip ≡ Some result }
    {
        self.numbers[trip.place()]
    }
}
