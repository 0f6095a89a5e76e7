//! Why a disturbed day is not planned.

use day_simulator::StepFault;
use rail_base::NoMemory;
use thiserror::Error;

/// Why the rest of a day is not planned.
#[derive(Clone, Copy, Debug, Error)]
pub enum ReplanRefusal {
    /// The plan that was made does not run: the first fault in the fixed order.
    #[error("the plan stops")]
    Stops(StepFault),
    /// Want of memory.
    #[error("out of memory")]
    NoMemory,
}

impl From<NoMemory> for ReplanRefusal {
    ghost use Rattle.std.specs.Prelude.{◌≡◌};
    ghost use Rattle.replan.specs.declared.refusal.ReplanRefusal.TheVariants as refusals;

    ghost from_gives = { λ _ e. e ≡ refusals.NoMemory };

    fn from(_error: NoMemory) -> ReplanRefusal {
        ReplanRefusal::NoMemory
    }
}
