//! Checking an answer: whether its plan runs, and whether its tree proves what it says of all plans.

ghost use Rattle.std.specs.Prelude.{◌≡◌, ◌≤◌, IfErr, IfOk, length};
ghost use Rattle.rail_base.specs.declared.limits.TheConstants.{MAX_TRIPS};
ghost use Rattle.timetable.specs.Accepted.{IsSoundDay};
ghost use Rattle.branch_tree.specs.Claims.{IsConcluded, said_by};
ghost use Rattle.branch_tree.specs.Regions.{root_of};
ghost use Rattle.cert_check.specs.Verdicts.{IsVerdict};
ghost use Rattle.price_bound.specs.DayMeanings.{meanings_of};
ghost use Rattle.transitions.specs.Edges.{AreGraphs};
ghost use Rattle.answer_check.specs.Headline.{IsTrueOf};
ghost use Rattle.answer_check.specs.Validity.{HasPicks, conclusion_of};
ghost use Rattle.answer_check.specs.Verdicts.{CanCome, IsAnswerVerdict, IsPicksRefusal, VerdictOf};

use crate::answered_plan::{RunsRefusal, picks_of};
use answer_text::{Answer, Head};
use branch_tree::{Claim, ClaimHead, Region};
use cert_check::{Reason, Verdict, checked};
use day_simulator::StepFault;
use price_bound::DayBounds;
use rail_base::{NoMemory, TripNo};
use std::alloc::Global;
use timetable::{Instance, Picks};
use transitions::Graphs;

/// What a check finds of an answer.
#[derive(Clone, Copy, PartialEq, Eq)]
pub enum AnswerVerdict {
    /// Its plan, where it has one, runs and costs what it says, and its tree proves what it says of every plan of the
    /// day.
    Valid,
    /// It has a plan with another number of runs than the day has trips.
    RunsDiffer {
        /// How many runs it has.
        said: u32,
        /// How many trips the day has.
        found: u32,
    },
    /// The run of this trip, the first such, names a unit that the day does not have.
    UnknownUnit(TripNo),
    /// Its plan stops with this fault.
    Stops(StepFault),
    /// Its tree does not prove what it says, for this reason.
    Claim(Reason),
}

/// Checks an answer against the day: it is valid exactly where its plan, if it has one, runs, and its tree proves what
/// it says; else the verdict is the first thing that is wrong, in the order of `AnswerVerdict`, and never that an event
/// is out of turn or that the picks of a plan fail. A valid answer is true of all plans of named units, whoever wrote
/// it. The graphs are of the day, and the answer has at most 400 runs. The error is want of memory.
pub fn check_answer(
    alloc: Global,
    instance: &Instance,
    graphs: &Graphs,
    answer: &Answer,
) -> Result<AnswerVerdict, NoMemory>
    requires graphs { AreGraphs instance.now graphs.now }
    requires runs { length answer.now.runs ≤ MAX_TRIPS }
    ensures verdict { IfOk result (IsAnswerVerdict instance.now answer.now) }
    ensures holds { IfOk result (λ verdict. verdict ≡ AnswerVerdict.Valid →
        IsTrueOf instance.now answer.now.head answer.now.runs) }
    ensures can_come { IfOk result CanCome }
{
    // What is known of an accepted day: some verdicts never come, and what holds of all solutions holds of all plans.
    instance.is_sound();
    match picks_for(alloc, instance, answer) {
        Ok(picks) => check_claim(alloc, instance, graphs, answer, &picks),
        Err(refusal) => verdict_of(refusal),
    }
}

/// The verdict on an answer of the day, as `check_answer` finds it. The answer has at most 400 runs. The error is want
/// of memory.
pub fn verdict_on(
    alloc: Global,
    instance: &Instance,
    answer: &Answer,
) -> Result<AnswerVerdict, NoMemory>
    requires { length answer.now.runs ≤ MAX_TRIPS }
    ensures verdict { IfOk result (IsAnswerVerdict instance.now answer.now) }
    ensures holds { IfOk result (λ verdict. verdict ≡ AnswerVerdict.Valid →
        IsTrueOf instance.now answer.now.head answer.now.runs) }
    ensures can_come { IfOk result CanCome }
{
    let graphs = Graphs::build(alloc, instance)?;
    check_answer(alloc, instance, &graphs, answer)
}

/// The verdict where the runs of an answer are no plan that runs.
fn verdict_of(refusal: RunsRefusal) -> Result<AnswerVerdict, NoMemory>
    ensures { VerdictOf refusal result }
{
    match refusal {
        RunsRefusal::Differ { said, found } => Ok(AnswerVerdict::RunsDiffer { said, found }),
        RunsRefusal::UnknownUnit(trip) => Ok(AnswerVerdict::UnknownUnit(trip)),
        RunsRefusal::Stops(fault) => Ok(AnswerVerdict::Stops(fault)),
        RunsRefusal::NoMemory => Err(NoMemory),
    }
}

/// The picks of an answer's plan; none where it has no plan.
fn picks_for(alloc: Global, instance: &Instance, answer: &Answer) -> Result<Picks, RunsRefusal>
    requires { length answer.now.runs ≤ MAX_TRIPS }
    ensures picks { IfOk result (HasPicks instance.now answer.now.head answer.now.runs) }
    ensures refused { IfErr result (IsPicksRefusal instance.now answer.now) }
{
    if answer.head.has_plan() {
        picks_of(alloc, instance, &answer.runs)
    } else {
        Ok(Picks::new(alloc, 0)?)
    }
}

/// What the head of an answer claims, where these are the picks of its plan.
pub fn claimed<'a>(head: Head, picks: &'a Picks) -> ClaimHead<'a>
    ensures { said_by result ≡ conclusion_of head picks.now }
{
    match head {
        Head::Optimal { cost } => ClaimHead::Optimal { cost, picks },
        Head::Infeasible => ClaimHead::Infeasible,
        Head::Bounded { bound } => ClaimHead::Bounded { bound },
        Head::BoundedPlan { bound, cost } => ClaimHead::BoundedPlan { bound, cost, picks },
    }
}

/// The claim of an answer, where these are the picks of its plan.
pub fn claim_of<'a>(answer: &'a Answer, picks: &'a Picks) -> Claim<'a>
    ensures head { said_by result.head ≡ conclusion_of answer.now.head picks.now }
    ensures branchings { result.branchings ≡ answer.now.branchings }
    ensures tree { result.tree.now ≡ answer.now.tree }
{
    Claim {
        head: claimed(answer.head, picks),
        branchings: answer.branchings,
        tree: &answer.tree,
    }
}

/// Checks what an answer says of all plans, where these are the picks of its plan.
fn check_claim(
    alloc: Global,
    instance: &Instance,
    graphs: &Graphs,
    answer: &Answer,
    picks: &Picks,
) -> Result<AnswerVerdict, NoMemory>
    requires graphs { AreGraphs instance.now graphs.now }
    requires accepted { IsSoundDay instance.now }
    requires picks { HasPicks instance.now answer.now.head answer.now.runs picks.now }
    ensures verdict { IfOk result (IsAnswerVerdict instance.now answer.now) }
    ensures holds { IfOk result (λ verdict. verdict ≡ AnswerVerdict.Valid →
        IsTrueOf instance.now answer.now.head answer.now.runs) }
{
    let claim = claim_of(answer, picks);
    match verdict_on_claim(alloc, instance, graphs, &claim)? {
        Verdict::Valid => Ok(AnswerVerdict::Valid),
        Verdict::Invalid(reason) => Ok(AnswerVerdict::Claim(reason)),
    }
}

/// The verdict on a claim of the day, over the region of all admissible compositions.
fn verdict_on_claim(
    alloc: Global,
    instance: &Instance,
    graphs: &Graphs,
    claim: &Claim<'_>,
) -> Result<Verdict, NoMemory>
    requires { AreGraphs instance.now graphs.now }
    ensures verdict { IfOk result (IsVerdict (meanings_of instance.now) (root_of instance.now) claim.now) }
    ensures holds { IfOk result (λ verdict. verdict ≡ Verdict.Valid →
        IsConcluded (meanings_of instance.now) (root_of instance.now) (said_by claim.now.head)) }
{
    let mut root = Region::root(alloc, instance)?;
    let mut bounds = DayBounds::new(alloc, instance, graphs)?;
    checked(alloc, &mut bounds, &mut root, claim)
}
