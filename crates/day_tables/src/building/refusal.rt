//! Why the tables make no day, and why rows make no plan of a day.

use rail_base::NoMemory;
use rail_csv::Table;
use std::alloc::AllocFailed;
use thiserror::Error;

/// Why tables make no day: the first test that fails. Rows are counted from 1, columns from 0.
#[derive(Clone, Copy, Debug, Error)]
pub enum InstanceRefusal {
    /// The row has the name of an earlier row of its table.
    #[error("repeated name")]
    RepeatedName {
        /// The table: types, stations or trips.
        table: Table,
        /// The later one of the two rows.
        row: u32,
    },
    /// A column names what no row of the table that it speaks of has as its name.
    #[error("unknown name")]
    UnknownName {
        /// The table that the row is in: stock, trips or links.
        table: Table,
        /// The row.
        row: u32,
        /// The column.
        column: u32,
    },
    /// The stock row has the station and the type of an earlier one.
    #[error("repeated station and type")]
    RepeatedStock(u32),
    /// The trip does not arrive after it departs.
    #[error("arrival is not after departure")]
    ArrivalNotAfterDeparture(u32),
    /// The trip goes from a station to the same one.
    #[error("same station")]
    SameStation(u32),
    /// The link names a trip as arriving, or as departing, that it or an earlier link has named so already.
    #[error("trip used twice")]
    TripUsedTwice(u32),
    /// An arriving trip of the link ends at another station than a departing trip of it begins at.
    #[error("trips do not meet at a station")]
    WrongStation(u32),
    /// A departing trip of the link departs before an arriving trip of it arrives.
    #[error("departure before arrival")]
    TooEarly(u32),
    /// The fields of the link do not fit its kind.
    #[error("fields do not fit the kind")]
    WrongLinkFields(u32),
    /// No composition may run on the trip: each is longer than one of its two platforms.
    #[error("no composition fits")]
    NoComposition(u32),
    /// More than 2,000 units stand at the stations as the day begins.
    #[error("too many units")]
    TooManyUnits,
    /// More than 1,000 compositions fit the longest platform.
    #[error("too many compositions")]
    TooManyCompositions,
    /// Want of memory, which may come at any test.
    #[error("out of memory")]
    NoMemory,
}

impl From<NoMemory> for InstanceRefusal {
    ghost use Rattle.std.specs.Prelude.{◌≡◌};
    ghost use Rattle.day_tables.specs.declared.building.refusal.InstanceRefusal.TheVariants as refusals;

    ghost from_gives = { λ _ e. e ≡ refusals.NoMemory };

    fn from(_error: NoMemory) -> InstanceRefusal {
        InstanceRefusal::NoMemory
    }
}

impl<T: Drop> From<AllocFailed<T>> for InstanceRefusal {
    ghost use Rattle.std.specs.Prelude.{◌≡◌};
    ghost use Rattle.day_tables.specs.declared.building.refusal.InstanceRefusal.TheVariants as refusals;

    ghost from_gives = { λ _ e. e ≡ refusals.NoMemory };

    fn from(_error: AllocFailed<T>) -> InstanceRefusal {
        InstanceRefusal::NoMemory
    }
}

/// Why rows make no plan of a day: the first row that is wrong. Rows are counted from 1.
#[derive(Clone, Copy, Debug, Error)]
pub enum PlanRefusal {
    /// The row names another trip than that of its number, or there is no such trip.
    #[error("wrong trip")]
    WrongTrip(u32),
    /// A unit of the row is no unit of the day.
    #[error("unknown unit")]
    UnknownUnit(u32),
    /// All rows are right, and trips are left after this row, the last one.
    #[error("trip missing")]
    MissingTrip(u32),
    /// Want of memory, which may come at any row.
    #[error("out of memory")]
    NoMemory,
}

impl From<NoMemory> for PlanRefusal {
    ghost use Rattle.std.specs.Prelude.{◌≡◌};
    ghost use Rattle.day_tables.specs.declared.building.refusal.PlanRefusal.TheVariants as refusals;

    ghost from_gives = { λ _ e. e ≡ refusals.NoMemory };

    fn from(_error: NoMemory) -> PlanRefusal {
        PlanRefusal::NoMemory
    }
}

impl<T: Drop> From<AllocFailed<T>> for PlanRefusal {
    ghost use Rattle.std.specs.Prelude.{◌≡◌};
    ghost use Rattle.day_tables.specs.declared.building.refusal.PlanRefusal.TheVariants as refusals;

    ghost from_gives = { λ _ e. e ≡ refusals.NoMemory };

    fn from(_error: AllocFailed<T>) -> PlanRefusal {
        PlanRefusal::NoMemory
    }
}
