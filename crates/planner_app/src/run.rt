//! From the words to the outcome: what each command does with the files of its folder.

ghost use Rattle.std.specs.Prelude.{ℕ, false, ◌≡◌, ◌≤◌, ◌+◌, ◌*◌, ◌^◌, All, None, length};
ghost use Rattle.rail_base.specs.declared.limits.TheConstants.{MAX_BRANCHINGS, MAX_ROUNDS, MAX_TRIPS};
ghost use Rattle.rail_io.specs.Folders.{CountsFault, OnlyReads};
ghost use Rattle.timetable.specs.Running.{IsPlan};
ghost use Rattle.search.specs.Questions.{AreAsked, AreTheSame, LeavesAdvisors};
ghost use Rattle.trial_day.specs.Trial.{IsTrialSize};
ghost use Rattle.planner_app.specs.Advice.{AreAskedFor};
ghost use Rattle.planner_app.specs.Asked.{AskForNoFolder, Grants, HasGrant, IsWithinLimits, folder_of};
ghost use Rattle.planner_app.specs.DayOutcomes.{IsCheckOutcome, IsPlanOutcome, IsRunOutcome, IsTrialOutcome};
ghost use Rattle.planner_app.specs.Outcomes.{ComesTo, IsAnswerChecked, IsDayPlanned, IsOutcome, IsPlanRun};
ghost use Rattle.planner_app.specs.Statuses.{is_unread};

use crate::answered::answered_in;
use crate::reports::{ReportKind, reported};
use advisors::Advisor;
use answer_check::verdict_on;
use answer_text::Answer;
use commands::{Command, read_words};
use day_files::{Inputs, day_in, inputs_in};
use day_planner::answer_for;
use day_simulator::{SimulateRefusal, simulate};
use plain_words::WordsRefusal;
use rail_base::{NoMemory, Words};
use rail_io::Folder;
use run_documents::Outcome;
use std::alloc::Global;
use timetable::Instance;
use trial_day::trial_instance;

/// What the words and the folder come to.
pub(crate) fn outcome_of<F: Folder>(
    alloc: Global,
    words: &Words,
    folder: &mut F,
    advisors: &mut Vec<Box<dyn Advisor>>,
) -> Outcome
    // The advisors before.
    requires asked { All (λ advisor. asked advisor ≤ 2 ^ 63) advisors.old.items }

    // What it comes to.
    ensures outcome { IsOutcome words.now (F.state folder.old) (F.state folder.new) result }

    // The advisors.
    ensures advisors { LeavesAdvisors (Grants words.now) advisors.old.items advisors.new.items identity asked
        has_quit }
    ensures asked_for { (nodes rounds : ℕ) → Grants words.now nodes rounds
        → AreAskedFor rounds result advisors.old.items advisors.new.items asked has_quit }

    // The folder.
    ensures only_reads { OnlyReads (F.state folder.old) (F.state folder.new) }
    ensures fault_counted { CountsFault (is_unread result) (F.state folder.old) (F.state folder.new) }
    ensures untouched { AskForNoFolder words.now → folder.new ≡ folder.old }
{
    match read_words(alloc, words) {
        Ok(command) => command_outcome(alloc, &command, folder, advisors),
        Err(WordsRefusal::NotUnderstood) => Outcome::Usage,
        Err(WordsRefusal::NoMemory) => Outcome::NoMemory,
    }
}

/// What a command and the folder come to.
fn command_outcome<F: Folder>(
    alloc: Global,
    command: &Command,
    folder: &mut F,
    advisors: &mut Vec<Box<dyn Advisor>>,
) -> Outcome
    // The numbers of the command, and the advisors before.
    requires limits { IsWithinLimits command.now }
    requires asked { All (λ advisor. asked advisor ≤ 2 ^ 63) advisors.old.items }

    // What it comes to.
    ensures outcome { ComesTo command.now (F.state folder.old) (F.state folder.new) result }

    // The advisors.
    ensures advisors { LeavesAdvisors (HasGrant command.now) advisors.old.items advisors.new.items identity asked
        has_quit }
    ensures asked_for { (nodes rounds : ℕ) → HasGrant command.now nodes rounds
        → AreAskedFor rounds result advisors.old.items advisors.new.items asked has_quit }

    // The folder.
    ensures only_reads { OnlyReads (F.state folder.old) (F.state folder.new) }
    ensures fault_counted { CountsFault (is_unread result) (F.state folder.old) (F.state folder.new) }
    ensures untouched { folder_of command.now ≡ None → folder.new ≡ folder.old }
{
    match command {
        Command::Plan { dir, nodes, rounds } => {
            planned(alloc, folder, dir.as_str(), *nodes, *rounds, advisors)
        }
        Command::Simulate { dir } => simulated(alloc, folder, dir.as_str()),
        Command::Check { dir } => checked(alloc, folder, dir.as_str()),
        Command::Duties { dir } => reported(alloc, folder, dir.as_str(), ReportKind::Duties),
        Command::Yards { dir } => reported(alloc, folder, dir.as_str(), ReportKind::Yards),
        Command::Costs { dir } => reported(alloc, folder, dir.as_str(), ReportKind::Costs),
        Command::Trial {
            seed,
            trips,
            nodes,
            rounds,
        } => tried(alloc, *seed, *trips, *nodes, *rounds, advisors),
    }
}

/// Plans the day of a folder.
fn planned<F: Folder>(
    alloc: Global,
    folder: &mut F,
    dir: &str,
    grant: u32,
    rounds: u8,
    advisors: &mut Vec<Box<dyn Advisor>>,
) -> Outcome
    // The grants, and the advisors before.
    requires grant { grant ≤ MAX_BRANCHINGS }
    requires rounds { rounds ≤ MAX_ROUNDS }
    requires asked { All (λ advisor. asked advisor ≤ 2 ^ 63) advisors.old.items }

    // What it comes to.
    ensures outcome { IsDayPlanned dir.now grant (F.state folder.old) (F.state folder.new) result }

    // The folder.
    ensures only_reads { OnlyReads (F.state folder.old) (F.state folder.new) }
    ensures fault_counted { CountsFault (is_unread result) (F.state folder.old) (F.state folder.new) }

    // The advisors.
    ensures advisors { AreTheSame advisors.old.items advisors.new.items identity }
    ensures asked { AreAsked advisors.old.items advisors.new.items asked has_quit 0 (rounds * (2 * grant + 1)) }
    ensures asked_for { AreAskedFor rounds result advisors.old.items advisors.new.items asked has_quit }
{
    match day_in(alloc, folder, dir) {
        Ok(instance) => planned_day(alloc, &instance, grant, rounds, advisors),
        Err(error) => Outcome::from(error),
    }
}

/// Plans a day.
fn planned_day(
    alloc: Global,
    instance: &Instance,
    grant: u32,
    rounds: u8,
    advisors: &mut Vec<Box<dyn Advisor>>,
) -> Outcome
    // The grants, and the advisors before.
    requires grant { grant ≤ MAX_BRANCHINGS }
    requires rounds { rounds ≤ MAX_ROUNDS }
    requires asked { All (λ advisor. asked advisor ≤ 2 ^ 63) advisors.old.items }

    // What it comes to.
    ensures outcome { IsPlanOutcome instance.now grant result }
    ensures read { is_unread result ≡ false }

    // The advisors.
    ensures advisors { AreTheSame advisors.old.items advisors.new.items identity }
    ensures asked { AreAsked advisors.old.items advisors.new.items asked has_quit 0 (rounds * (2 * grant + 1)) }
    ensures asked_for { AreAskedFor rounds result advisors.old.items advisors.new.items asked has_quit }
{
    match answer_for(alloc, instance, grant, rounds, advisors) {
        Ok(answer) => Outcome::Planned(answer),
        Err(NoMemory) => Outcome::NoMemory,
    }
}

/// Plans the trial day of a seed and a number of trips.
fn tried(
    alloc: Global,
    seed: u32,
    trips: u32,
    grant: u32,
    rounds: u8,
    advisors: &mut Vec<Box<dyn Advisor>>,
) -> Outcome
    // The size, the grants, and the advisors before.
    requires size { IsTrialSize trips }
    requires grant { grant ≤ MAX_BRANCHINGS }
    requires rounds { rounds ≤ MAX_ROUNDS }
    requires asked { All (λ advisor. asked advisor ≤ 2 ^ 63) advisors.old.items }

    // What it comes to.
    ensures outcome { IsTrialOutcome seed trips grant result }

    // The advisors.
    ensures advisors { AreTheSame advisors.old.items advisors.new.items identity }
    ensures asked { AreAsked advisors.old.items advisors.new.items asked has_quit 0 (rounds * (2 * grant + 1)) }
    ensures asked_for { AreAskedFor rounds result advisors.old.items advisors.new.items asked has_quit }
{
    let Ok(instance) = trial_instance(alloc, seed, trips) else {
        return Outcome::NoMemory;
    };
    match answer_for(alloc, &instance, grant, rounds, advisors) {
        Ok(answer) => Outcome::Tried {
            seed,
            trips,
            answer,
        },
        Err(NoMemory) => Outcome::NoMemory,
    }
}

/// Runs the plan of a folder.
fn simulated<F: Folder>(alloc: Global, folder: &mut F, dir: &str) -> Outcome
    ensures outcome { IsPlanRun dir.now (F.state folder.old) (F.state folder.new) result }
    ensures only_reads { OnlyReads (F.state folder.old) (F.state folder.new) }
    ensures fault_counted { CountsFault (is_unread result) (F.state folder.old) (F.state folder.new) }
{
    match inputs_in(alloc, folder, dir) {
        Ok(inputs) => simulated_plan(alloc, &inputs),
        Err(error) => Outcome::from(error),
    }
}

/// Runs a plan of a day.
fn simulated_plan(alloc: Global, inputs: &Inputs) -> Outcome
    requires { IsPlan inputs.now.instance inputs.now.plan }
    ensures outcome { IsRunOutcome inputs.now result }
    ensures read { is_unread result ≡ false }
{
    match simulate(alloc, &inputs.instance, &inputs.plan) {
        Ok(ran) => Outcome::Runs(ran.cost),
        Err(SimulateRefusal::Stops(fault)) => Outcome::Stops(fault),
        Err(SimulateRefusal::NoMemory) => Outcome::NoMemory,
    }
}

/// Checks the answer of a folder.
fn checked<F: Folder>(alloc: Global, folder: &mut F, dir: &str) -> Outcome
    ensures outcome { IsAnswerChecked dir.now (F.state folder.old) (F.state folder.new) result }
    ensures only_reads { OnlyReads (F.state folder.old) (F.state folder.new) }
    ensures fault_counted { CountsFault (is_unread result) (F.state folder.old) (F.state folder.new) }
{
    match answered_in(alloc, folder, dir) {
        Ok(answered) => checked_answer(alloc, &answered.instance, &answered.answer),
        Err(outcome) => outcome,
    }
}

/// Checks an answer to a day.
fn checked_answer(alloc: Global, instance: &Instance, answer: &Answer) -> Outcome
    requires { length answer.now.runs ≤ MAX_TRIPS }
    ensures outcome { IsCheckOutcome instance.now answer.now result }
    ensures read { is_unread result ≡ false }
{
    match verdict_on(alloc, instance, answer) {
        Ok(verdict) => Outcome::Checked {
            head: answer.head,
            verdict,
        },
        Err(NoMemory) => Outcome::NoMemory,
    }
}
