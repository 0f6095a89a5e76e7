//! The command that plans the rest of a disturbed day.

ghost use Rattle.std.specs.Prelude.{false, ◌≡◌, ◌≤◌, ◌+◌, ◌*◌, ◌^◌, All, IfOk, length};
ghost use Rattle.rail_base.specs.declared.limits.TheConstants.{MAX_BRANCHINGS, MAX_CHANGE, MAX_ROUNDS};
ghost use Rattle.rail_base.specs.declared.limits.TheConstants.{MAX_TABLE_BYTES};
ghost use Rattle.rail_io.specs.Folders.{CountsFault, OnlyReads};
ghost use Rattle.timetable.specs.Running.{IsPlan, Runs};
ghost use Rattle.timetable.specs.DayTables.{IsDayOfBytes};
ghost use Rattle.branch_tree.specs.Trees.{branchings_of};
ghost use Rattle.search.specs.Questions.{AreAsked, AreTheSame, in_rounds};
ghost use Rattle.answer_check.specs.ProvedTrees.{open_leaves};
ghost use Rattle.cancellations.specs.Cancellations.{AreCancellable};
ghost use Rattle.transitions.specs.Edges.{AreGraphs};
ghost use Rattle.replan.specs.Disturbances.{later_day};
ghost use Rattle.replan.specs.Promises.{IsReplanned, as_answer};
ghost use Rattle.desk_app.specs.Outcomes.{is_unread};
ghost use Rattle.desk_app.specs.ReplanOutcomes.{IsCancelledOutcome, IsPlannedRest, IsReplanOutcome, IsRestOutcome};
ghost use Rattle.desk_app.specs.ReplanOutcomes.{IsRunningOutcome, IsTripsOutcome};
ghost use Rattle.desk_app.specs.Statuses.{AreAskedFor};

use crate::files::{CANCELLED_FILE, DeskFile};
use crate::outcome::{DeskOutcome, PlannedRest};
use advisors::Advisor;
use cancellations::{CancelRefusal, Cancelled, later, read_cancelled};
use day_files::{InputsWithBytes, file_in, inputs_with_bytes_in};
use day_improver::DayImprover;
use day_planner::Allowed;
use day_simulator::{SimulateRefusal, simulate};
use desk_commands::Replanning;
use improvers::NoImprover;
use rail_base::NoMemory;
use rail_base::limits::MAX_TABLE_BYTES;
use rail_io::{FileRefusal, Folder};
use replan::{Disturbance, ReplanRefusal, Replanned, RestOfDay, improved_replan, rest_of};
use std::alloc::Global;
use transitions::Graphs;

/// Plans the rest of a folder's day. The plan is simulated before the table of cancelled trips is read.
pub(crate) fn replanned<F: Folder>(
    alloc: Global,
    folder: &mut F,
    replanning: &Replanning,
    advisors: &mut Vec<Box<dyn Advisor>>,
) -> DeskOutcome
    // The grants, what a change costs, and the advisors before.
    requires nodes { replanning.now.nodes ≤ MAX_BRANCHINGS }
    requires rounds { replanning.now.rounds ≤ MAX_ROUNDS }
    requires change { replanning.now.change ≤ MAX_CHANGE }
    requires asked { All (λ advisor. asked advisor ≤ 2 ^ 62) advisors.old.items }

    // What it comes to.
    ensures outcome { IsReplanOutcome replanning.now (F.state folder.old) (F.state folder.new) result }

    // The folder.
    ensures only_reads { OnlyReads (F.state folder.old) (F.state folder.new) }
    ensures fault_counted { CountsFault (is_unread result) (F.state folder.old) (F.state folder.new) }

    // The advisors.
    ensures advisors { AreTheSame advisors.old.items advisors.new.items identity }
    ensures asked { AreAsked advisors.old.items advisors.new.items asked has_quit 0
        (replanning.now.rounds * (2 * replanning.now.nodes + 1)) }
    ensures asked_for { AreAskedFor replanning.now.rounds result advisors.old.items advisors.new.items asked has_quit }
{
    match inputs_with_bytes_in(alloc, folder, replanning.dir.as_str()) {
        Ok(read) => replanned_plan(alloc, folder, &read, replanning, advisors),
        Err(error) => DeskOutcome::from(error),
    }
}

/// Plans the rest of a day, where its plan runs.
#[tactic(auto, using(search::proofs::Asking::are_unasked))]
fn replanned_plan<F: Folder>(
    alloc: Global,
    folder: &mut F,
    read: &InputsWithBytes,
    replanning: &Replanning,
    advisors: &mut Vec<Box<dyn Advisor>>,
) -> DeskOutcome
    // The grants, what a change costs, and the advisors before.
    requires nodes { replanning.now.nodes ≤ MAX_BRANCHINGS }
    requires rounds { replanning.now.rounds ≤ MAX_ROUNDS }
    requires change { replanning.now.change ≤ MAX_CHANGE }
    requires asked { All (λ advisor. asked advisor ≤ 2 ^ 62) advisors.old.items }

    // The day and its plan, which runs.
    requires plan { IsPlan read.now.inputs.instance read.now.inputs.plan }
    requires kept { IsDayOfBytes read.now.bytes read.now.inputs.instance }

    // What it comes to.
    ensures outcome { IsRunningOutcome replanning.now read.now.inputs (F.state folder.old) (F.state folder.new) result }

    // The folder.
    ensures only_reads { OnlyReads (F.state folder.old) (F.state folder.new) }
    ensures fault_counted { CountsFault (is_unread result) (F.state folder.old) (F.state folder.new) }

    // The advisors.
    ensures advisors { AreTheSame advisors.old.items advisors.new.items identity }
    ensures asked { AreAsked advisors.old.items advisors.new.items asked has_quit 0
        (replanning.now.rounds * (2 * replanning.now.nodes + 1)) }
    ensures asked_for { AreAskedFor replanning.now.rounds result advisors.old.items advisors.new.items asked has_quit }
{
    match simulate(alloc, &read.inputs.instance, &read.inputs.plan) {
        Ok(_) => replanned_as_told(alloc, folder, read, replanning, advisors),
        Err(SimulateRefusal::Stops(_)) => DeskOutcome::Stops,
        Err(SimulateRefusal::NoMemory) => DeskOutcome::NoMemory,
    }
}

/// Plans the rest of a day whose plan runs, without the trips that the table of cancelled trips tells.
#[tactic(auto, using(search::proofs::Asking::are_unasked))]
fn replanned_as_told<F: Folder>(
    alloc: Global,
    folder: &mut F,
    read: &InputsWithBytes,
    replanning: &Replanning,
    advisors: &mut Vec<Box<dyn Advisor>>,
) -> DeskOutcome
    // The grants, what a change costs, and the advisors before.
    requires nodes { replanning.now.nodes ≤ MAX_BRANCHINGS }
    requires rounds { replanning.now.rounds ≤ MAX_ROUNDS }
    requires change { replanning.now.change ≤ MAX_CHANGE }
    requires asked { All (λ advisor. asked advisor ≤ 2 ^ 62) advisors.old.items }

    // The day and its plan, which runs.
    requires plan { IsPlan read.now.inputs.instance read.now.inputs.plan }
    requires kept { IsDayOfBytes read.now.bytes read.now.inputs.instance }
    requires runs { Runs read.now.inputs.instance read.now.inputs.plan }

    // What it comes to.
    ensures outcome { IsTripsOutcome replanning.now read.now.inputs (F.state folder.old) (F.state folder.new) result }

    // The folder.
    ensures only_reads { OnlyReads (F.state folder.old) (F.state folder.new) }
    ensures fault_counted { CountsFault (is_unread result) (F.state folder.old) (F.state folder.new) }

    // The advisors.
    ensures advisors { AreTheSame advisors.old.items advisors.new.items identity }
    ensures asked { AreAsked advisors.old.items advisors.new.items asked has_quit 0
        (replanning.now.rounds * (2 * replanning.now.nodes + 1)) }
    ensures asked_for { AreAskedFor replanning.now.rounds result advisors.old.items advisors.new.items asked has_quit }
{
    let dir = replanning.dir.as_str();
    match file_in(alloc, folder, dir, CANCELLED_FILE, MAX_TABLE_BYTES) {
        Ok(bytes) => replanned_by_table(alloc, read, bytes.items(), replanning, advisors),
        Err(FileRefusal::ReadFault) => DeskOutcome::CannotRead(DeskFile::CancelledTrips),
        Err(FileRefusal::TooLong) => DeskOutcome::Refused(DeskFile::CancelledTrips),
        Err(FileRefusal::NoMemory) => DeskOutcome::NoMemory,
    }
}

/// Plans the rest of a day whose plan runs, without the trips that these bytes tell.
#[tactic(auto, using(search::proofs::Asking::are_unasked))]
fn replanned_by_table(
    alloc: Global,
    read: &InputsWithBytes,
    bytes: &[u8],
    replanning: &Replanning,
    advisors: &mut Vec<Box<dyn Advisor>>,
) -> DeskOutcome
    // The grants, what a change costs, and the advisors before.
    requires nodes { replanning.now.nodes ≤ MAX_BRANCHINGS }
    requires rounds { replanning.now.rounds ≤ MAX_ROUNDS }
    requires change { replanning.now.change ≤ MAX_CHANGE }
    requires asked { All (λ advisor. asked advisor ≤ 2 ^ 62) advisors.old.items }

    // The day and its plan, which runs.
    requires plan { IsPlan read.now.inputs.instance read.now.inputs.plan }
    requires kept { IsDayOfBytes read.now.bytes read.now.inputs.instance }
    requires runs { Runs read.now.inputs.instance read.now.inputs.plan }
    requires few { length bytes.now ≤ MAX_TABLE_BYTES }

    // What it comes to.
    ensures outcome { IsCancelledOutcome read.now.inputs replanning.now bytes.now result }
    ensures read { is_unread result ≡ false }

    // The advisors.
    ensures advisors { AreTheSame advisors.old.items advisors.new.items identity }
    ensures asked { AreAsked advisors.old.items advisors.new.items asked has_quit 0
        (replanning.now.rounds * (2 * replanning.now.nodes + 1)) }
    ensures asked_for { AreAskedFor replanning.now.rounds result advisors.old.items advisors.new.items asked has_quit }
{
    match read_cancelled(alloc, &read.inputs.instance, replanning.minute, bytes) {
        Ok(cancelled) => replanned_without(alloc, read, &cancelled, replanning, advisors),
        Err(CancelRefusal::NoMemory) => DeskOutcome::NoMemory,
        Err(_) => DeskOutcome::Refused(DeskFile::CancelledTrips),
    }
}

/// Plans the rest of a day whose plan runs, without these trips.
fn replanned_without(
    alloc: Global,
    read: &InputsWithBytes,
    cancelled: &Cancelled,
    replanning: &Replanning,
    advisors: &mut Vec<Box<dyn Advisor>>,
) -> DeskOutcome
    // The grants, what a change costs, and the advisors before.
    requires nodes { replanning.now.nodes ≤ MAX_BRANCHINGS }
    requires rounds { replanning.now.rounds ≤ MAX_ROUNDS }
    requires change { replanning.now.change ≤ MAX_CHANGE }
    requires asked { All (λ advisor. asked advisor ≤ 2 ^ 62) advisors.old.items }

    // The day and its plan, which runs.
    requires plan { IsPlan read.now.inputs.instance read.now.inputs.plan }
    requires kept { IsDayOfBytes read.now.bytes read.now.inputs.instance }
    requires runs { Runs read.now.inputs.instance read.now.inputs.plan }
    requires cancelled { AreCancellable read.now.inputs.instance replanning.now.minute cancelled.now }

    // What it comes to.
    ensures outcome { IsRestOutcome read.now.inputs replanning.now cancelled.now result }
    ensures read { is_unread result ≡ false }

    // The advisors.
    ensures advisors { AreTheSame advisors.old.items advisors.new.items identity }
    ensures asked { AreAsked advisors.old.items advisors.new.items asked has_quit 0
        (replanning.now.rounds * (2 * replanning.now.nodes + 1)) }
    ensures asked_for { AreAskedFor replanning.now.rounds result advisors.old.items advisors.new.items asked has_quit }
{
    match planned_rest(alloc, read, cancelled, replanning, advisors) {
        Ok(rest) => DeskOutcome::Replanned(rest),
        Err(NoMemory) => DeskOutcome::NoMemory,
    }
}

/// The rest of a day whose plan runs, planned without these trips. The error is want of memory.
#[tactic(auto, using(search::proofs::Asking::are_unasked))]
fn planned_rest(
    alloc: Global,
    read: &InputsWithBytes,
    cancelled: &Cancelled,
    replanning: &Replanning,
    advisors: &mut Vec<Box<dyn Advisor>>,
) -> Result<PlannedRest, NoMemory>
    // The grants, what a change costs, and the advisors before.
    requires nodes { replanning.now.nodes ≤ MAX_BRANCHINGS }
    requires rounds { replanning.now.rounds ≤ MAX_ROUNDS }
    requires change { replanning.now.change ≤ MAX_CHANGE }
    requires asked { All (λ advisor. asked advisor ≤ 2 ^ 62) advisors.old.items }

    // The day and its plan, which runs.
    requires plan { IsPlan read.now.inputs.instance read.now.inputs.plan }
    requires kept { IsDayOfBytes read.now.bytes read.now.inputs.instance }
    requires runs { Runs read.now.inputs.instance read.now.inputs.plan }
    requires cancelled { AreCancellable read.now.inputs.instance replanning.now.minute cancelled.now }

    // The answer.
    ensures planned { IfOk result (IsPlannedRest read.now.inputs replanning.now cancelled.now) }

    // The advisors.
    ensures advisors { AreTheSame advisors.old.items advisors.new.items identity }
    ensures asked { AreAsked advisors.old.items advisors.new.items asked has_quit 0
        (replanning.now.rounds * (2 * replanning.now.nodes + 1)) }
    ensures counted { IfOk result (λ rest. AreAsked advisors.old.items advisors.new.items asked has_quit
        (in_rounds replanning.now.rounds (branchings_of rest.replanned.tree + open_leaves (as_answer rest.replanned)))
        (replanning.now.rounds * (2 * branchings_of rest.replanned.tree + 1))) }
{
    let instance = &read.inputs.instance;
    let later = later(alloc, &read.bytes, instance, cancelled)?;
    let replanned = {
        let disturbance = Disturbance::new(
            instance,
            &read.inputs.plan,
            replanning.minute,
            cancelled,
            &later,
            replanning.change,
        );
        searched(alloc, &disturbance, replanning, advisors)?
    };
    Ok(PlannedRest { later, replanned })
}

/// The answer to a disturbed day whose plan runs. The error is want of memory.
#[tactic(auto, using(search::proofs::Asking::are_unasked))]
fn searched(
    alloc: Global,
    disturbance: &Disturbance<'_>,
    replanning: &Replanning,
    advisors: &mut Vec<Box<dyn Advisor>>,
) -> Result<Replanned, NoMemory>
    // The grants, and the advisors before.
    requires nodes { replanning.now.nodes ≤ MAX_BRANCHINGS }
    requires rounds { replanning.now.rounds ≤ MAX_ROUNDS }
    requires asked { All (λ advisor. asked advisor ≤ 2 ^ 62) advisors.old.items }

    // The plan runs.
    requires runs { Runs disturbance.now.day disturbance.now.plan }

    // The answer.
    ensures promise { IfOk result (IsReplanned disturbance.now replanning.now.nodes) }

    // The advisors.
    ensures advisors { AreTheSame advisors.old.items advisors.new.items identity }
    ensures asked { AreAsked advisors.old.items advisors.new.items asked has_quit 0
        (replanning.now.rounds * (2 * replanning.now.nodes + 1)) }
    ensures counted { IfOk result (λ replanned. AreAsked advisors.old.items advisors.new.items asked has_quit
        (in_rounds replanning.now.rounds (branchings_of replanned.tree + open_leaves (as_answer replanned)))
        (replanning.now.rounds * (2 * branchings_of replanned.tree + 1))) }
{
    let rest = match rest_of(alloc, disturbance) {
        Ok(rest) => rest,
        // A plan that runs doesn't stop.
        Err(ReplanRefusal::Stops(_)) => unreachable!(),
        Err(ReplanRefusal::NoMemory) => return Err(NoMemory),
    };
    let graphs = Graphs::build(alloc, rest.instance())?;
    searched_rest(alloc, &rest, &graphs, replanning, advisors)
}

/// The answer to the rest of a disturbed day of which the edges are known. The error is want of memory.
#[tactic(auto, using(search::proofs::Asking::are_unasked))]
fn searched_rest(
    alloc: Global,
    rest: &RestOfDay<'_>,
    graphs: &Graphs,
    replanning: &Replanning,
    advisors: &mut Vec<Box<dyn Advisor>>,
) -> Result<Replanned, NoMemory>
    // The edges, the grants, and the advisors before.
    requires graphs { AreGraphs (later_day rest.now) graphs.now }
    requires nodes { replanning.now.nodes ≤ MAX_BRANCHINGS }
    requires rounds { replanning.now.rounds ≤ MAX_ROUNDS }
    requires asked { All (λ advisor. asked advisor ≤ 2 ^ 62) advisors.old.items }

    // The answer.
    ensures promise { IfOk result (IsReplanned rest.now replanning.now.nodes) }

    // The advisors.
    ensures advisors { AreTheSame advisors.old.items advisors.new.items identity }
    ensures asked { AreAsked advisors.old.items advisors.new.items asked has_quit 0
        (replanning.now.rounds * (2 * replanning.now.nodes + 1)) }
    ensures counted { IfOk result (λ replanned. AreAsked advisors.old.items advisors.new.items asked has_quit
        (in_rounds replanning.now.rounds (branchings_of replanned.tree + open_leaves (as_answer replanned)))
        (replanning.now.rounds * (2 * branchings_of replanned.tree + 1))) }
{
    let allowed = Allowed {
        branchings: replanning.nodes,
        rounds: replanning.rounds,
    };
    let evaluations = replanning.evaluations;
    if evaluations == 0 {
        return improved_replan(alloc, rest, graphs, allowed, &mut NoImprover, advisors);
    }
    let changes = rest.changes();
    let mut improver = DayImprover::with_changes(
        alloc,
        rest.instance(),
        graphs,
        changes,
        evaluations,
    )?;
    improved_replan(alloc, rest, graphs, allowed, &mut improver, advisors)
}
