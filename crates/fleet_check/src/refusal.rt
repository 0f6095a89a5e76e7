//! Why a table of prices is refused.

use rail_base::NoMemory;
use std::alloc::AllocFailed;
use thiserror::Error;

/// Why a table of prices is refused: the first of these that holds.
#[derive(Clone, Copy, Debug, PartialEq, Eq, Error)]
pub enum PriceRefusal {
    /// The first record is missing, or is not `type,cost`.
    #[error("wrong header")]
    WrongHeader,
    /// The row of this number, counted from 1, is the first that does not have two fields, does not name the type whose
    /// turn it is, or has no number for its cost; or no type is left for it.
    #[error("row {0} is wrong")]
    BadRow(u32),
    /// No row is wrong, but types are left after the last row, which has this number, counted from 1: it is 0 where
    /// there is no row.
    #[error("a row is missing after row {0}")]
    MissingRow(u32),
    /// Want of memory.
    #[error("out of memory")]
    NoMemory,
}

impl From<NoMemory> for PriceRefusal {
    ghost use Rattle.std.specs.Prelude.{◌≡◌};
    ghost use Rattle.fleet_check.specs.declared.refusal.PriceRefusal.TheVariants as refusals;

    ghost from_gives = { λ _ e. e ≡ refusals.NoMemory };

    fn from(_error: NoMemory) -> PriceRefusal {
        PriceRefusal::NoMemory
    }
}

impl<T: Drop> From<AllocFailed<T>> for PriceRefusal {
    ghost use Rattle.std.specs.Prelude.{◌≡◌};
    ghost use Rattle.fleet_check.specs.declared.refusal.PriceRefusal.TheVariants as refusals;

    ghost from_gives = { λ _ e. e ≡ refusals.NoMemory };

    fn from(_error: AllocFailed<T>) -> PriceRefusal {
        PriceRefusal::NoMemory
    }
}
