//! Why a wish is refused, and why no units are swapped.

use day_simulator::StepFault;
use rail_base::NoMemory;
use std::alloc::AllocFailed;
use thiserror::Error;

/// Why a wish is refused: the first of these that holds.
#[derive(Clone, Copy, Debug, PartialEq, Eq, Error)]
pub enum WishRefusal {
    /// The first record is missing, or is not `unit,depot`.
    #[error("wrong header")]
    WrongHeader,
    /// The row of this number, counted from 1, is the first that is wrong: it does not have two fields; it names no
    /// unit of the day, or no station; its unit is of another type than that of row 1, or named by a row before it; or
    /// its depot is another than that of row 1.
    #[error("row {0} is wrong")]
    BadRow(u32),
    /// No row follows the header.
    #[error("no row")]
    NoRow,
    /// Want of memory.
    #[error("out of memory")]
    NoMemory,
}

impl From<NoMemory> for WishRefusal {
    ghost use Rattle.std.specs.Prelude.{◌≡◌};
    ghost use Rattle.urgent_units.specs.declared.refusal.WishRefusal.TheVariants as refusals;

    ghost from_gives = { λ _ e. e ≡ refusals.NoMemory };

    fn from(_error: NoMemory) -> WishRefusal {
        WishRefusal::NoMemory
    }
}

impl<T: Drop> From<AllocFailed<T>> for WishRefusal {
    ghost use Rattle.std.specs.Prelude.{◌≡◌};
    ghost use Rattle.urgent_units.specs.declared.refusal.WishRefusal.TheVariants as refusals;

    ghost from_gives = { λ _ e. e ≡ refusals.NoMemory };

    fn from(_error: AllocFailed<T>) -> WishRefusal {
        WishRefusal::NoMemory
    }
}

/// Why no units are swapped.
#[derive(Clone, Copy, Debug, Error)]
pub enum UrgentRefusal {
    /// The plan that was given stops: the first fault in the fixed order of the day's events.
    #[error("the day stops")]
    Stops(StepFault),
    /// Want of memory.
    #[error("out of memory")]
    NoMemory,
}

impl From<NoMemory> for UrgentRefusal {
    ghost use Rattle.std.specs.Prelude.{◌≡◌};
    ghost use Rattle.urgent_units.specs.declared.refusal.UrgentRefusal.TheVariants as refusals;

    ghost from_gives = { λ _ e. e ≡ refusals.NoMemory };

    fn from(_error: NoMemory) -> UrgentRefusal {
        UrgentRefusal::NoMemory
    }
}
