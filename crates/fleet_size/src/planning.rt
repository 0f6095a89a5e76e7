//! The answer to the day with a fleet.

ghost use Rattle.std.specs.Prelude.{All, ◌+◌, ◌*◌, ◌≤◌, ◌^◌, IfOk};
ghost use Rattle.search.specs.Questions.{AreAsked, AreTheSame, in_rounds};
ghost use Rattle.answer_check.specs.Headline.{IsHeadline};
ghost use Rattle.fleet_size.specs.Found.{IsGranted};

use advisors::Advisor;
use answer_text::Answer;
use day_improver::DayImprover;
use day_planner::{Allowed, answer_by_made};
use rail_base::NoMemory;
use std::alloc::Global;
use timetable::Instance;
use transitions::Graphs;

/// The most branchings of one day's tree that a search for a fleet may be granted.
pub const MAX_DAY_BRANCHINGS: u32 = 200;

/// What a search for a fleet may take.
#[derive(Clone, Copy)]
pub struct Granted {
    /// The most branchings of one day's tree, at most `MAX_DAY_BRANCHINGS`.
    pub branchings: u32,
    /// In how many rounds advisors may be asked at a node, at most `MAX_ROUNDS`.
    pub rounds: u8,
    /// The most splits of boxes, at most `MAX_SPLITS`.
    pub splits: u32,
    /// The most evaluations of bounds by the improver at the root of a day; with none it proposes nothing.
    pub evaluations: u32,
}

/// Plans a day within what is granted. The error is want of memory.
pub(crate) fn planned(
    alloc: Global,
    day: &Instance,
    granted: Granted,
    advisors: &mut Vec<Box<dyn Advisor>>,
) -> Result<Answer, NoMemory>
    requires granted { IsGranted granted }
    requires asked { All (λ advisor. asked advisor ≤ 2 ^ 63) advisors.old.items }
    ensures headline { IfOk result (IsHeadline day.now granted.branchings) }
    ensures advisors { AreTheSame advisors.old.items advisors.new.items identity }
    ensures asked { AreAsked advisors.old.items advisors.new.items asked has_quit 0
        (granted.rounds * (2 * granted.branchings + 1)) }
    ensures counted { IfOk result (λ answer. AreAsked advisors.old.items advisors.new.items asked has_quit
        (in_rounds granted.rounds answer.branchings) (granted.rounds * (2 * answer.branchings + 1))) }
{
    let graphs = Graphs::build(alloc, day)?;
    let made = DayImprover::new(alloc, day, &graphs, granted.evaluations);
    let allowed = Allowed {
        branchings: granted.branchings,
        rounds: granted.rounds,
    };
    let answer = answer_by_made(alloc, day, &graphs, allowed, made, advisors)?;
    Ok(answer)
}
