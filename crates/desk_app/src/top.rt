//! The top call: it reads a folder, writes one document and answers a status.

ghost use Rattle.std.specs.Prelude.{true, ◌≡◌, ◌≤◌, ◌^◌, All};
ghost use Rattle.rail_io.specs.Folders.{CountsFault};
ghost use Rattle.statuses.specs.Endings.{LeavesFolder, LeavesSink};
ghost use Rattle.statuses.specs.Written.{CountsFailedWrites, IsStatus, IsUndisturbed};
ghost use Rattle.desk_commands.specs.declared.command.Command.{Command};
ghost use Rattle.desk_commands.specs.PlainForm.{IsPlainForm};
ghost use Rattle.desk_app.specs.declared.outcome.DeskOutcome.{DeskOutcome};
ghost use Rattle.desk_app.specs.DeskEndings.{EndsByCommand};
ghost use Rattle.desk_app.specs.Outcomes.{AskInVain, IsOutcome, is_unread};
ghost use Rattle.desk_app.specs.Statuses.{AreAskedFor, LeavesAdvisors, WroteOutcome, rounds_of};

use crate::document::document;
use crate::outcome::DeskOutcome;
use crate::run::outcome_of;
use advisors::Advisor;
use day_improver::{NoWatcher, Watcher};
use rail_base::Words;
use rail_io::{Folder, Sink};
use statuses::write_document;
use std::alloc::Global;

/// Writes the document of an outcome, made whole in memory before the first write, and answers the status.
fn write_outcome<K: Sink>(alloc: Global, outcome: DeskOutcome, out: &mut K) -> u8
    ensures wrote { WroteOutcome outcome result (K.written out.old) (K.written out.new) (K.faults out.old)
        (K.faults out.new) }
    ensures lasting { K.faults out.old ≤ K.faults out.new }
    ensures failed_writes { K.counts_failed ≡ true → CountsFailedWrites result (K.faults out.old) (K.faults out.new) }
{
    let status = outcome.status();
    write_document(document(alloc, outcome), status, out)
}

/// Runs the command that the words name over a folder, writes one document to the sink and answers the status.
///
/// The first word stands for the program's name and is not looked at. Each command reads the six tables of a day,
/// `types.csv`, `stations.csv`, `stock.csv`, `trips.csv`, `links.csv` and `weights.csv` in DIR.
///
/// - `plan DIR --nodes N --rounds K --evaluations E` plans the day by a search of at most N branchings, 200 where no N
///   is given, and writes an answer: the plan of named units, its cost, and a tree that proves what is said of all
///   other plans. The improver of days may take E bounds at the root, 500 where no E is given, and the advisors are
///   asked for proposals in at most K rounds at each node, in none where no K is given. Whatever they propose, what the
///   answer says is true.
/// - `urgent DIR` reads `plan.csv` as well, and where the plan runs, `urgent.csv`: units that are urgent, and the depot
///   where they are to end the day. It swaps units, so that as many urgent ones as can be end the day there, and writes
///   how many these are, the plan that brings them, which has the same types on every trip, and a yard cut that shows
///   that no plan which runs with these types brings more. It asks no advisor.
///
/// - `replan DIR NOW --change W --nodes N --rounds K --evaluations E` reads `plan.csv` as well, and where the plan
///   runs, `cancelled.csv`: the trips that are cancelled at the minute NOW. It plans the rest of the day without them
///   by a search of at most N branchings, 200 where no N is given, and writes a plan that keeps what has happened: each
///   trip that has left has the very units that it had, and each frozen one their types. A trip with other types than
///   were planned costs W more, nothing where no W is given, and what the answer says of the price is true of every
///   such plan. The advisors are asked in at most K rounds at each node, in 20 where no K is given, and the improver
///   may take E bounds at the root; it is not asked where no E is given.
/// - `week DIR DAYS --nodes N --rounds K --evaluations E` reads the tables of DAYS days, at most seven, in DIR/1, DIR/2
///   and so on; of each day all files, before those of the next. Where each day goes on from the day before, it plans
///   each by a search of its own, with N, K and E as in `replan`, and writes the answers to the days and what they say
///   together of all week plans, whose units keep their numbers all week; and where there is a plan, which unit of the
///   week each unit of a day is.
/// - `fleet DIR --nodes N --rounds K --splits S --evaluations E` reads `fleet.csv` as well: what a unit of each type
///   costs. A fleet says how many units of each type stand at each station, in the morning and again in the evening, at
///   most as many as the day's stock has in the morning. It looks for the fleet that costs the least together with a
///   plan. For that it splits the fleets S times at most, 50 times where no S is given, and plans one day at
///   first and one more for each split, by a search of at most N branchings, 50 where no N is given, with K and E as in
///   `replan`. Where it finds a plan it writes the fleet and the plan. What it says of the price is true of all fleets
///   and all their plans; where more splits or branchings are wanted than were granted, it writes the parts of the
///   fleets with the trees that prove it.
///
/// The statuses:
///
/// - 0 comes exactly where the files that the command reads are accepted, and the answer found is optimal, to the day
///   or to the rest of it or to the week or of all fleets, or the plan runs whose units are to be swapped.
/// - 1 comes exactly where the tables are accepted and the answer found is infeasible, or where they and the plan are
///   accepted and the plan doesn't run: then the line `stops` is written.
/// - 2 comes exactly where the words are no command; the line `usage` is written.
/// - 3 comes exactly where a file is refused; the line `refused FILE` is written. Where days make no week, that is the
///   file of the day which doesn't go on from the day before, as `2/stock.csv`, or the trips of the day before, where
///   one of them is late.
/// - 4 comes exactly where the tables are accepted, and the answer found is bounded: all granted branchings were made,
///   or all granted splits, and a leaf is open.
/// - 5 comes only where the folder's count of faults rose in this call, or stands at its last value, 2^64 - 1; the line
///   `cannot read FILE` is written.
/// - 6 comes only where the sink's count of faults rose in this call, or stands there; a front of the document was
///   written, and not all of it.
/// - 7 is want of memory; nothing was written.
///
/// Each "exactly where" yields to statuses 5, 6 and 7. What is said of the files holds where the folder tells what it
/// holds, and what is said of the document where the sink tells what was written. Where the folder counts its failed
/// calls, at most one read of a run fails, and where the sink does, at most one write, unless a count comes to its last
/// value: the write is told by status 6, and the read by 5, unless the status is 6 or 7.
///
/// Each advisor was asked at most 2^62 times before. Afterwards an advisor of the same identity stands at each place,
/// and none was asked fewer times than before, whatever the status is. One that had quit stays so and is not asked.
pub fn raildesk<F: Folder, K: Sink>(
    alloc: Global,
    words: &Words,
    folder: &mut F,
    out: &mut K,
    advisors: &mut Vec<Box<dyn Advisor>>,
) -> u8
    requires asked { All (λ advisor. asked advisor ≤ 2 ^ 62) advisors.old.items }

    // How each command ends, where the status is none of 5, 6 and 7.
    ensures ends { IsUndisturbed result
        → EndsByCommand (F.state folder.old).holds words.now result (K.written out.old) (K.written out.new) }
    ensures statuses { IsStatus result }

    // What was written is the document of an outcome of these words and this folder, whose status is the result unless
    // that is 6 or 7; and the advisors were asked as it tells.
    ensures document { (outcome : DeskOutcome)
        × IsOutcome words.now (F.state folder.old) (F.state folder.new) outcome
        × WroteOutcome outcome result (K.written out.old) (K.written out.new) (K.faults out.old) (K.faults out.new)
        × CountsFault (is_unread outcome) (F.state folder.old) (F.state folder.new)
        × ((named : Command) → IsPlainForm words.now named
        → AreAskedFor (rounds_of named) outcome advisors.old.items advisors.new.items asked has_quit) }

    // How the folder, the sink and the advisors are left, whatever the status is.
    ensures folder { LeavesFolder F.state (AskInVain words.now) result folder.old folder.new }
    ensures sink { LeavesSink K.counts_failed result (K.written out.old) (K.written out.new) (K.faults out.old)
        (K.faults out.new) }
    ensures advisors { LeavesAdvisors words.now advisors.old.items advisors.new.items identity asked has_quit }
{
    raildesk_watched(alloc, words, folder, out, advisors, &mut NoWatcher)
}

/// The same with a watcher, which is told how far a search has come, where the words ask for it by `--progress`. What
/// it does with that is its own, and changes nothing of the document.
pub fn raildesk_watched<F: Folder, K: Sink, W: Watcher>(
    alloc: Global,
    words: &Words,
    folder: &mut F,
    out: &mut K,
    advisors: &mut Vec<Box<dyn Advisor>>,
    watcher: &mut W,
) -> u8
    requires asked { All (λ advisor. asked advisor ≤ 2 ^ 62) advisors.old.items }

    // How each command ends, where the status is none of 5, 6 and 7.
    ensures ends { IsUndisturbed result
        → EndsByCommand (F.state folder.old).holds words.now result (K.written out.old) (K.written out.new) }
    ensures statuses { IsStatus result }

    // What was written is the document of an outcome of these words and this folder, whose status is the result unless
    // that is 6 or 7; and the advisors were asked as it tells.
    ensures document { (outcome : DeskOutcome)
        × IsOutcome words.now (F.state folder.old) (F.state folder.new) outcome
        × WroteOutcome outcome result (K.written out.old) (K.written out.new) (K.faults out.old) (K.faults out.new)
        × CountsFault (is_unread outcome) (F.state folder.old) (F.state folder.new)
        × ((named : Command) → IsPlainForm words.now named
        → AreAskedFor (rounds_of named) outcome advisors.old.items advisors.new.items asked has_quit) }

    // How the folder, the sink and the advisors are left, whatever the status is.
    ensures folder { LeavesFolder F.state (AskInVain words.now) result folder.old folder.new }
    ensures sink { LeavesSink K.counts_failed result (K.written out.old) (K.written out.new) (K.faults out.old)
        (K.faults out.new) }
    ensures advisors { LeavesAdvisors words.now advisors.old.items advisors.new.items identity asked has_quit }
{
    let outcome = outcome_of(alloc, words, folder, advisors, watcher);
    write_outcome(alloc, outcome, out)
}
