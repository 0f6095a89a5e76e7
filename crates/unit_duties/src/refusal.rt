//! Why picked compositions have no plan that runs.

use inventory::StockFault;
use rail_base::{LinkNo, NoMemory};
use thiserror::Error;

/// Why units are not named: no plan that runs has the picked compositions, but for want of memory.
#[derive(Clone, Copy, Debug, PartialEq, Eq, Error)]
pub enum DutyRefusal {
    /// The rule of the link is broken by the picked types, and those of the links before it are not.
    #[error("a link is broken")]
    LinkBroken(LinkNo),
    /// No link is broken, and this is the first fault of the yards.
    #[error("a yard is short of units or ends with another number of them than is wanted")]
    Stock(StockFault),
    /// Want of memory.
    #[error("out of memory")]
    NoMemory,
}

impl From<NoMemory> for DutyRefusal {
    ghost use Rattle.std.specs.Prelude.{◌≡◌};
    ghost use Rattle.unit_duties.specs.declared.refusal.DutyRefusal.TheVariants as refusals;

    ghost from_gives = { λ _ e. e ≡ refusals.NoMemory };

    fn from(_error: NoMemory) -> DutyRefusal {
        DutyRefusal::NoMemory
    }
}
