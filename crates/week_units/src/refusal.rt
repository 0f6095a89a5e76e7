//! Why days make no week.

use rail_base::{NoMemory, StationNo, TripNo, TypeNo};
use std::alloc::AllocFailed;
use thiserror::Error;

/// Why days make no week: the first of these that holds, of the first day that does not go on from the day before. Days
/// are counted from 1.
#[derive(Clone, Copy, Debug, PartialEq, Eq, Error)]
pub enum WeekRefusal {
    /// This day has other types than the first.
    #[error("day {0} has other types")]
    TypesDiffer(u32),
    /// This day has other stations than the first.
    #[error("day {0} has other stations")]
    StationsDiffer(u32),
    /// This day begins with another number of units than the day before ends with. The station and the type are the
    /// first, by station and then by type, of which it does.
    #[error("day {day} begins with {start} units where {end} are wanted the day before")]
    NightDiffers {
        /// The day.
        day: u32,
        /// The station.
        station: StationNo,
        /// The type of the units.
        unit_type: TypeNo,
        /// How many units are wanted there at the end of the day before.
        end: u32,
        /// How many stand there at the start of the day.
        start: u32,
    },
    /// The reallocation after a trip of the day before ends only when a trip of this day has left; or, where this day
    /// has no trip, when it has begun. That is asked of each trip, also of one that gives no unit to a yard.
    #[error("a trip before day {day} is late")]
    LateTrip {
        /// The day.
        day: u32,
        /// The trip of the day before, the first that is late.
        trip: TripNo,
    },
    /// Want of memory.
    #[error("out of memory")]
    NoMemory,
}

impl From<NoMemory> for WeekRefusal {
    ghost use Rattle.std.specs.Prelude.{◌≡◌};
    ghost use Rattle.week_units.specs.declared.refusal.WeekRefusal.TheVariants as refusals;

    ghost from_gives = { λ _ e. e ≡ refusals.NoMemory };

    fn from(_error: NoMemory) -> WeekRefusal {
        WeekRefusal::NoMemory
    }
}

impl<T: Drop> From<AllocFailed<T>> for WeekRefusal {
    ghost use Rattle.std.specs.Prelude.{◌≡◌};
    ghost use Rattle.week_units.specs.declared.refusal.WeekRefusal.TheVariants as refusals;

    ghost from_gives = { λ _ e. e ≡ refusals.NoMemory };

    fn from(_error: AllocFailed<T>) -> WeekRefusal {
        WeekRefusal::NoMemory
    }
}
