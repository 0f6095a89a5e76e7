//! The command that plans a day.

ghost use Rattle.std.specs.Prelude.{false, ◌≡◌, ◌≤◌, ◌+◌, ◌*◌, ◌^◌, All, IfOk};
ghost use Rattle.rail_base.specs.declared.limits.TheConstants.{MAX_BRANCHINGS, MAX_ROUNDS};
ghost use Rattle.rail_io.specs.Folders.{CountsFault, OnlyReads};
ghost use Rattle.search.specs.Questions.{AreAsked, AreTheSame, in_rounds};
ghost use Rattle.answer_check.specs.Headline.{IsHeadline};
ghost use Rattle.answer_check.specs.ProvedTrees.{open_leaves};
ghost use Rattle.desk_app.specs.Outcomes.{is_unread};
ghost use Rattle.desk_app.specs.PlanOutcomes.{IsDayOutcome, IsPlanOutcome};
ghost use Rattle.desk_app.specs.Statuses.{AreAskedFor};

use crate::outcome::DeskOutcome;
use advisors::Advisor;
use answer_text::Answer;
use day_files::day_in;
use day_improver::{DayImprover, Watcher};
use day_planner::{Allowed, answer_by_made};
use desk_commands::Planning;
use rail_base::NoMemory;
use rail_io::Folder;
use std::alloc::Global;
use timetable::Instance;
use transitions::Graphs;

/// Plans the day of a folder, and tells a watcher how far the search has come, where that is asked for.
pub(crate) fn planned<F: Folder, W: Watcher>(
    alloc: Global,
    folder: &mut F,
    planning: &Planning,
    advisors: &mut Vec<Box<dyn Advisor>>,
    watcher: &mut W,
) -> DeskOutcome
    // The grants, and the advisors before.
    requires nodes { planning.now.nodes ≤ MAX_BRANCHINGS }
    requires rounds { planning.now.rounds ≤ MAX_ROUNDS }
    requires asked { All (λ advisor. asked advisor ≤ 2 ^ 62) advisors.old.items }

    // What it comes to.
    ensures outcome { IsPlanOutcome planning.now (F.state folder.old) (F.state folder.new) result }

    // The folder.
    ensures only_reads { OnlyReads (F.state folder.old) (F.state folder.new) }
    ensures fault_counted { CountsFault (is_unread result) (F.state folder.old) (F.state folder.new) }

    // The advisors.
    ensures advisors { AreTheSame advisors.old.items advisors.new.items identity }
    ensures asked { AreAsked advisors.old.items advisors.new.items asked has_quit 0
        (planning.now.rounds * (2 * planning.now.nodes + 1)) }
    ensures asked_for { AreAskedFor planning.now.rounds result advisors.old.items advisors.new.items asked has_quit }
{
    match day_in(alloc, folder, planning.dir.as_str()) {
        Ok(instance) => planned_day(alloc, &instance, planning, advisors, watcher),
        Err(error) => DeskOutcome::from(error),
    }
}

/// Plans a day.
fn planned_day<W: Watcher>(
    alloc: Global,
    instance: &Instance,
    planning: &Planning,
    advisors: &mut Vec<Box<dyn Advisor>>,
    watcher: &mut W,
) -> DeskOutcome
    // The grants, and the advisors before.
    requires nodes { planning.now.nodes ≤ MAX_BRANCHINGS }
    requires rounds { planning.now.rounds ≤ MAX_ROUNDS }
    requires asked { All (λ advisor. asked advisor ≤ 2 ^ 62) advisors.old.items }

    // What it comes to.
    ensures outcome { IsDayOutcome instance.now planning.now.nodes result }
    ensures read { is_unread result ≡ false }

    // The advisors.
    ensures advisors { AreTheSame advisors.old.items advisors.new.items identity }
    ensures asked { AreAsked advisors.old.items advisors.new.items asked has_quit 0
        (planning.now.rounds * (2 * planning.now.nodes + 1)) }
    ensures asked_for { AreAskedFor planning.now.rounds result advisors.old.items advisors.new.items asked has_quit }
{
    match answer(alloc, instance, planning, advisors, watcher) {
        Ok(answer) => DeskOutcome::Planned(answer),
        Err(NoMemory) => DeskOutcome::NoMemory,
    }
}

/// The answer to a day. The error is want of memory.
fn answer<W: Watcher>(
    alloc: Global,
    instance: &Instance,
    planning: &Planning,
    advisors: &mut Vec<Box<dyn Advisor>>,
    watcher: &mut W,
) -> Result<Answer, NoMemory>
    // The grants, and the advisors before.
    requires nodes { planning.now.nodes ≤ MAX_BRANCHINGS }
    requires rounds { planning.now.rounds ≤ MAX_ROUNDS }
    requires asked { All (λ advisor. asked advisor ≤ 2 ^ 62) advisors.old.items }

    // The answer.
    ensures headline { IfOk result (IsHeadline instance.now planning.now.nodes) }

    // The advisors.
    ensures advisors { AreTheSame advisors.old.items advisors.new.items identity }
    ensures asked { AreAsked advisors.old.items advisors.new.items asked has_quit 0
        (planning.now.rounds * (2 * planning.now.nodes + 1)) }
    ensures counted { IfOk result (λ answer. AreAsked advisors.old.items advisors.new.items asked has_quit
        (in_rounds planning.now.rounds (answer.branchings + open_leaves answer))
        (planning.now.rounds * (2 * answer.branchings + 1))) }
{
    let graphs = Graphs::build(alloc, instance)?;
    let evaluations = planning.evaluations;
    let allowed = Allowed {
        branchings: planning.nodes,
        rounds: planning.rounds,
    };
    if planning.tells_progress {
        let made = DayImprover::watched(alloc, instance, &graphs, &[], evaluations, watcher);
        return answer_by_made(alloc, instance, &graphs, allowed, made, advisors);
    }
    let made = DayImprover::new(alloc, instance, &graphs, evaluations);
    answer_by_made(alloc, instance, &graphs, allowed, made, advisors)
}
