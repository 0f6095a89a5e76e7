//! The status that planning a day ends with.

ghost use Rattle.std.specs.Prelude.{◌≡◌};
ghost use Rattle.answer_check.specs.Headline.{status_said};

use answer_text::Head;
use statuses::{BOUNDED, FAILURE, SUCCESS};

/// The status that goes with what an answer to a day says, where the answer was written: 0 where it is optimal, 1 where
/// it is infeasible, and 4 where it is bounded, with a plan or without.
pub fn status_said(head: Head) -> u8
    ensures { result ≡ status_said head }
{
    match head {
        Head::Optimal { .. } => SUCCESS,
        Head::Infeasible => FAILURE,
        Head::Bounded { .. } | Head::BoundedPlan { .. } => BOUNDED,
    }
}
