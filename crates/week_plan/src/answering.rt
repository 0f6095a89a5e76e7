//! The answers to the days of a week, one after another.

ghost use Rattle.std.specs.Prelude.{All, ◌≡◌, ◌≤◌, ◌+◌, ◌*◌, ◌^◌, IfOk, length};
ghost use Rattle.rail_base.specs.declared.limits.TheConstants.{MAX_BRANCHINGS, MAX_ROUNDS};
ghost use Rattle.search.specs.Questions.{AreAsked, AreTheSame, in_rounds};
ghost use Rattle.answer_check.specs.Headline.{IsHeadline};
ghost use Rattle.answer_check.specs.ProvedTrees.{open_leaves};
ghost use Rattle.week_units.specs.declared.nights.TheConstants.{MAX_DAYS};
ghost use Rattle.week_plan.specs.DayAnswers.{AreDayAnswers, is_infeasible, least_asked, most_asked};

use advisors::Advisor;
use answer_text::{Answer, Head};
use day_improver::DayImprover;
use day_planner::{Allowed, answer_by_made};
use rail_base::NoMemory;
use std::alloc::Global;
use timetable::Instance;
use transitions::Graphs;

/// The answer to each day, up to the first on which no plan runs. The error is want of memory.
pub(crate) fn day_answers(
    alloc: Global,
    days: &[Instance],
    allowed: Allowed,
    evaluations: u32,
    advisors: &mut Vec<Box<dyn Advisor>>,
) -> Result<Vec<Answer>, NoMemory>
    requires few { length days.now ≤ MAX_DAYS }
    requires branchings { allowed.branchings ≤ MAX_BRANCHINGS }
    requires rounds { allowed.rounds ≤ MAX_ROUNDS }
    requires asked { All (λ advisor. asked advisor ≤ 2 ^ 62) advisors.old.items }
    ensures answers { IfOk result (λ answers. AreDayAnswers allowed.branchings days.now answers.items) }
    ensures advisors { AreTheSame advisors.old.items advisors.new.items identity }
    ensures asked { AreAsked advisors.old.items advisors.new.items asked has_quit 0
        (MAX_DAYS * (allowed.rounds * (2 * allowed.branchings + 1))) }
    ensures counted { IfOk result (λ answers. AreAsked advisors.old.items advisors.new.items asked has_quit
        (least_asked allowed.rounds answers.items) (most_asked allowed.rounds answers.items)) }
{
    let mut answers = Vec::new(alloc);
    for place in 0..days.len() {
        let day = &days[place];
        let answer = day_answer(alloc, day, allowed, evaluations, advisors)?;
        let ends = is_infeasible(answer.head);
        answers.push(answer)?;
        if ends {
            return Ok(answers);
        }
    }
    Ok(answers)
}

/// Whether no plan runs.
fn is_infeasible(head: Head) -> bool
    ensures { result ≡ is_infeasible head }
{
    match head {
        Head::Infeasible => true,
        _ => false,
    }
}

/// The answer to a day, by a search that asks the improver of days too, at most so many evaluations long. The error is
/// want of memory.
fn day_answer(
    alloc: Global,
    instance: &Instance,
    allowed: Allowed,
    evaluations: u32,
    advisors: &mut Vec<Box<dyn Advisor>>,
) -> Result<Answer, NoMemory>
    requires branchings { allowed.branchings ≤ MAX_BRANCHINGS }
    requires rounds { allowed.rounds ≤ MAX_ROUNDS }
    requires asked { All (λ advisor. asked advisor ≤ 2 ^ 63) advisors.old.items }
    ensures headline { IfOk result (IsHeadline instance.now allowed.branchings) }
    ensures advisors { AreTheSame advisors.old.items advisors.new.items identity }
    ensures asked { AreAsked advisors.old.items advisors.new.items asked has_quit 0
        (allowed.rounds * (2 * allowed.branchings + 1)) }
    ensures counted { IfOk result (λ answer. AreAsked advisors.old.items advisors.new.items asked has_quit
        (in_rounds allowed.rounds (answer.branchings + open_leaves answer))
        (allowed.rounds * (2 * answer.branchings + 1))) }
{
    let graphs = Graphs::build(alloc, instance)?;
    let made = DayImprover::new(alloc, instance, &graphs, evaluations);
    answer_by_made(alloc, instance, &graphs, allowed, made, advisors)
}
