//! The command that plans a week.

ghost use Rattle.std.specs.Prelude.{false, ◌≡◌, ◌≤◌, ◌+◌, ◌*◌, ◌^◌, All, length};
ghost use Rattle.rail_base.specs.declared.limits.TheConstants.{MAX_BRANCHINGS, MAX_ROUNDS};
ghost use Rattle.rail_io.specs.Folders.{CountsFault, OnlyReads};
ghost use Rattle.search.specs.Questions.{AreAsked, AreTheSame};
ghost use Rattle.week_units.specs.declared.nights.TheConstants.{MAX_DAYS};
ghost use Rattle.desk_app.specs.Outcomes.{is_unread};
ghost use Rattle.desk_app.specs.Statuses.{AreAskedFor};
ghost use Rattle.desk_app.specs.WeekOutcomes.{IsDaysOutcome, IsWeekOutcome};

use crate::outcome::DeskOutcome;
use advisors::Advisor;
use desk_commands::WeekPlanning;
use rail_io::Folder;
use std::alloc::Global;
use timetable::Instance;
use week_files::days_in;
use week_plan::week;

/// Plans the week of a folder. All days are read before the first is planned.
pub(crate) fn planned_week<F: Folder>(
    alloc: Global,
    folder: &mut F,
    planning: &WeekPlanning,
    advisors: &mut Vec<Box<dyn Advisor>>,
) -> DeskOutcome
    // The days, the grants, and the advisors before.
    requires days { planning.now.days ≤ MAX_DAYS }
    requires nodes { planning.now.nodes ≤ MAX_BRANCHINGS }
    requires rounds { planning.now.rounds ≤ MAX_ROUNDS }
    requires asked { All (λ advisor. asked advisor ≤ 2 ^ 62) advisors.old.items }

    // What it comes to.
    ensures outcome { IsWeekOutcome planning.now (F.state folder.old) (F.state folder.new) result }

    // The folder.
    ensures only_reads { OnlyReads (F.state folder.old) (F.state folder.new) }
    ensures fault_counted { CountsFault (is_unread result) (F.state folder.old) (F.state folder.new) }

    // The advisors.
    ensures advisors { AreTheSame advisors.old.items advisors.new.items identity }
    ensures asked { AreAsked advisors.old.items advisors.new.items asked has_quit 0
        (MAX_DAYS * (planning.now.rounds * (2 * planning.now.nodes + 1))) }
    ensures asked_for { AreAskedFor planning.now.rounds result advisors.old.items advisors.new.items asked has_quit }
{
    match days_in(alloc, folder, planning.dir.as_str(), planning.days) {
        Ok(days) => planned_days(alloc, &days, planning, advisors),
        Err(error) => DeskOutcome::from(error),
    }
}

/// Plans these days, where they make a week.
fn planned_days(
    alloc: Global,
    days: &[Instance],
    planning: &WeekPlanning,
    advisors: &mut Vec<Box<dyn Advisor>>,
) -> DeskOutcome
    // The days, the grants, and the advisors before.
    requires days { length days.now ≤ MAX_DAYS }
    requires nodes { planning.now.nodes ≤ MAX_BRANCHINGS }
    requires rounds { planning.now.rounds ≤ MAX_ROUNDS }
    requires asked { All (λ advisor. asked advisor ≤ 2 ^ 62) advisors.old.items }

    // What it comes to.
    ensures outcome { IsDaysOutcome days.now planning.now.nodes result }
    ensures read { is_unread result ≡ false }

    // The advisors.
    ensures advisors { AreTheSame advisors.old.items advisors.new.items identity }
    ensures asked { AreAsked advisors.old.items advisors.new.items asked has_quit 0
        (MAX_DAYS * (planning.now.rounds * (2 * planning.now.nodes + 1))) }
    ensures asked_for { AreAskedFor planning.now.rounds result advisors.old.items advisors.new.items asked has_quit }
{
    let nodes = planning.nodes;
    let rounds = planning.rounds;
    match week(alloc, days, nodes, rounds, planning.evaluations, advisors) {
        Ok(week) => DeskOutcome::PlannedWeek(week),
        Err(refusal) => DeskOutcome::from(refusal),
    }
}
