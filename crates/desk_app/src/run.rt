//! From the words to the outcome.

ghost use Rattle.std.specs.Prelude.{◌≡◌, ◌≤◌, ◌^◌, All};
ghost use Rattle.rail_io.specs.Folders.{CountsFault, OnlyReads};
ghost use Rattle.desk_commands.specs.declared.command.Command.{Command};
ghost use Rattle.desk_commands.specs.PlainForm.{IsPlainForm};
ghost use Rattle.desk_app.specs.Outcomes.{AskInVain, IsOutcome, is_unread};
ghost use Rattle.desk_app.specs.Statuses.{AreAskedFor, LeavesAdvisors, rounds_of};

use crate::fleet_finding::found_fleet;
use crate::outcome::DeskOutcome;
use crate::planning::planned;
use crate::replanning::replanned;
use crate::swapping::swapped;
use crate::week_planning::planned_week;
use advisors::Advisor;
use day_improver::Watcher;
use desk_commands::{Command, read_words};
use plain_words::WordsRefusal;
use rail_base::Words;
use rail_io::Folder;
use std::alloc::Global;

/// What the words and the folder come to; a watcher is told how far a search has come, where the words ask for it.
pub(crate) fn outcome_of<F: Folder, W: Watcher>(
    alloc: Global,
    words: &Words,
    folder: &mut F,
    advisors: &mut Vec<Box<dyn Advisor>>,
    watcher: &mut W,
) -> DeskOutcome
    // The advisors before.
    requires asked { All (λ advisor. asked advisor ≤ 2 ^ 62) advisors.old.items }

    // What it comes to.
    ensures outcome { IsOutcome words.now (F.state folder.old) (F.state folder.new) result }

    // The advisors.
    ensures advisors { LeavesAdvisors words.now advisors.old.items advisors.new.items identity asked has_quit }
    ensures asked_for { (named : Command) → IsPlainForm words.now named
        → AreAskedFor (rounds_of named) result advisors.old.items advisors.new.items asked has_quit }

    // The folder.
    ensures only_reads { OnlyReads (F.state folder.old) (F.state folder.new) }
    ensures fault_counted { CountsFault (is_unread result) (F.state folder.old) (F.state folder.new) }
    ensures untouched { AskInVain words.now → folder.new ≡ folder.old }
{
    match read_words(alloc, words) {
        Ok(Command::Plan(planning)) => planned(alloc, folder, &planning, advisors, watcher),
        Ok(Command::Urgent(swapping)) => swapped(alloc, folder, swapping.dir.as_str()),
        Ok(Command::Replan(replanning)) => replanned(alloc, folder, &replanning, advisors),
        Ok(Command::Week(planning)) => planned_week(alloc, folder, &planning, advisors),
        Ok(Command::Fleet(planning)) => found_fleet(alloc, folder, &planning, advisors),
        Err(WordsRefusal::NotUnderstood) => DeskOutcome::Usage,
        Err(WordsRefusal::NoMemory) => DeskOutcome::NoMemory,
    }
}
