//! The top call: it reads a folder, writes one document and answers a status.

ghost use Rattle.std.specs.Prelude.{ℕ, true, ◌≡◌, ◌≤◌, ◌^◌, All};
ghost use Rattle.rail_io.specs.Folders.{CountsFault};
ghost use Rattle.search.specs.Questions.{LeavesAdvisors};
ghost use Rattle.statuses.specs.Endings.{LeavesFolder, LeavesSink};
ghost use Rattle.statuses.specs.Written.{CountsFailedWrites, IsStatus, IsUndisturbed};
ghost use Rattle.run_documents.specs.declared.outcome.Outcome.{Outcome};
ghost use Rattle.planner_app.specs.Advice.{AreAskedFor};
ghost use Rattle.planner_app.specs.Asked.{AskForNoFolder, Grants};
ghost use Rattle.planner_app.specs.Outcomes.{IsOutcome};
ghost use Rattle.planner_app.specs.PlannerEndings.{EndsByCommand};
ghost use Rattle.planner_app.specs.Statuses.{WroteOutcome, is_unread, status_of, status_of_verdict};

use crate::run::outcome_of;
use advisors::Advisor;
use answer_check::AnswerVerdict;
use rail_base::Words;
use rail_io::{Folder, Sink};
use run_documents::document::document;
use run_documents::{AnswerError, Outcome, status_said};
use statuses::{FAILURE, NO_MEMORY, REFUSED, SUCCESS, UNREAD, USAGE, write_document};
use std::alloc::Global;

/// The status that goes with a verdict.
fn status_of_verdict(verdict: &AnswerVerdict) -> u8
    ensures { result ≡ status_of_verdict verdict.now }
{
    match verdict {
        AnswerVerdict::Valid => SUCCESS,
        _ => FAILURE,
    }
}

/// The status of an outcome whose document was written, and of want of memory.
fn status_of(outcome: &Outcome) -> u8
    ensures { result ≡ status_of outcome.now }
{
    match outcome {
        Outcome::Planned(answer) | Outcome::Tried { answer, .. } => status_said(answer.head),
        Outcome::Runs(_) => SUCCESS,
        Outcome::Stops(_) => FAILURE,
        Outcome::Checked { verdict, .. } => status_of_verdict(verdict),
        Outcome::Reported(_) => SUCCESS,
        Outcome::NoPlan => FAILURE,
        Outcome::Usage => USAGE,
        Outcome::CannotRead(_) | Outcome::NoAnswer(AnswerError::CannotRead) => UNREAD,
        Outcome::Refused(_) | Outcome::NoAnswer(_) => REFUSED,
        Outcome::NoMemory => NO_MEMORY,
    }
}

/// Writes the document of an outcome, made whole in memory before the first write, and answers the status.
fn write_outcome<K: Sink>(alloc: Global, outcome: &Outcome, out: &mut K) -> u8
    ensures wrote { WroteOutcome outcome.now result (K.written out.old) (K.written out.new) (K.faults out.old)
        (K.faults out.new) }
    ensures lasting { K.faults out.old ≤ K.faults out.new }
    ensures failed_writes { K.counts_failed ≡ true → CountsFailedWrites result (K.faults out.old) (K.faults out.new) }
{
    write_document(document(alloc, outcome), status_of(outcome), out)
}

/// Runs the command that the words name over a folder, writes one document to the sink and answers the status.
///
/// The first word stands for the program's name and is not looked at. Each command but `trial` reads the six tables of
/// a day, `types.csv`, `stations.csv`, `stock.csv`, `trips.csv`, `links.csv` and `weights.csv` in DIR.
///
/// - `plan DIR --nodes N --rounds K` plans the day by a search of at most N branchings, 200 where no N is given, and
///   writes an answer: the plan of named units, its cost, and a tree that proves what is said of all other plans. The
///   advisors are asked for proposals in at most K rounds at each node, 20 where no K is given. Whatever they propose,
///   what the answer says is true.
/// - `simulate DIR` reads `plan.csv` as well, and says whether the plan runs and what it costs.
/// - `check DIR` reads `answer.txt` as well, and says whether the answer is valid: its plan, if it has one, runs, and
///   its tree proves what it says of all plans.
/// - `duties DIR`, `yards DIR` and `costs DIR` check `answer.txt` likewise, and write a report on its plan as a table.
/// - `trial SEED TRIPS --nodes N --rounds K` makes a day of the seed, plans it like `plan`, and writes what the answer
///   says, or the whole answer where it is bounded.
///
/// The statuses:
///
/// - 0 comes exactly where the files that the command reads are accepted, and the answer found is optimal, the plan
///   runs, the answer is valid, or it is valid and has a plan to report on.
/// - 1 comes exactly where they are accepted, and the answer found is infeasible, the plan doesn't run, the answer is
///   not valid, or it has no plan to report on.
/// - 2 comes exactly where the words are none of these commands.
/// - 3 comes exactly where a file is refused.
/// - 4 comes exactly where they are accepted, and the answer found is bounded: all granted branchings were made, and a
///   leaf is open.
/// - 5 comes only where the folder's count of faults rose in this call, or stands at its last value, 2^64 - 1.
/// - 6 comes only where the sink's count of faults rose in this call, or stands there; a front of the document was
///   written, and not all of it.
/// - 7 is want of memory; nothing was written.
///
/// Where the folder counts its failed calls, its count rises by one where the status is 5, by one or not at all where
/// it is 6 or 7, and else not at all; where the sink does, its count rises by one where the status is 6, and else not
/// at all. A count that stands at its last value stays. So, unless one comes to that value, at most one read of a run
/// fails, and at most one write: the write is told by status 6, and the read by 5, unless the status is 6 or 7.
///
/// Each "exactly where" yields to statuses 5, 6 and 7. What is said of the files holds where the folder tells what it
/// holds, and what is said of the document where the sink tells what was written.
///
/// Each advisor was asked at most 2^63 times before. Afterwards an advisor of the same identity stands at each place,
/// and none was asked fewer times than before, whatever the status is. One that had quit stays so and is not asked.
/// Where an answer with B branchings and L open leaves comes, each was asked K (2 B + 1) times at most, which is K
/// times for the root and for both sides of each branching; and one that has not quit at the end was asked B + L times
/// at least, unless K is 0. Where no day is read, other than for want of memory, none was asked. Other commands leave
/// the list as it is. Words that ask for no command on a folder leave the folder as it is, those of `trial` among them.
pub fn railplan<F: Folder, K: Sink>(
    alloc: Global,
    words: &Words,
    folder: &mut F,
    out: &mut K,
    advisors: &mut Vec<Box<dyn Advisor>>,
) -> u8
    requires asked { All (λ advisor. asked advisor ≤ 2 ^ 63) advisors.old.items }

    // How each command ends, where the status is none of 5, 6 and 7.
    ensures ends { IsUndisturbed result
        → EndsByCommand (F.state folder.old).holds words.now result (K.written out.old) (K.written out.new) }
    ensures statuses { IsStatus result }

    // What was written is the document of an outcome of these words and this folder, whose status is the result unless
    // that is 6 or 7. Whether a read failed, where the folder counts its failed calls, and how the advisors were asked
    // is as it tells.
    ensures document { (outcome : Outcome)
        × IsOutcome words.now (F.state folder.old) (F.state folder.new) outcome
        × WroteOutcome outcome result (K.written out.old) (K.written out.new) (K.faults out.old) (K.faults out.new)
        × CountsFault (is_unread outcome) (F.state folder.old) (F.state folder.new)
        × ((nodes rounds : ℕ) → Grants words.now nodes rounds
        → AreAskedFor rounds outcome advisors.old.items advisors.new.items asked has_quit) }

    // How the folder, the sink and the advisors are left, whatever the status is.
    ensures folder { LeavesFolder F.state (AskForNoFolder words.now) result folder.old folder.new }
    ensures sink { LeavesSink K.counts_failed result (K.written out.old) (K.written out.new) (K.faults out.old)
        (K.faults out.new) }
    ensures advisors { LeavesAdvisors (Grants words.now) advisors.old.items advisors.new.items identity asked
        has_quit }
{
    let outcome = outcome_of(alloc, words, folder, advisors);
    write_outcome(alloc, &outcome, out)
}
