//! Reports on the plan of a folder's answer, once it is found valid.

ghost use Rattle.std.specs.Prelude.{◌≡◌, ◌≤◌, IfOk, length};
ghost use Rattle.rail_base.specs.declared.limits.TheConstants.{MAX_TRIPS};
ghost use Rattle.rail_io.specs.Folders.{CountsFault, OnlyReads};
ghost use Rattle.timetable.specs.Running as running;
ghost use Rattle.answer_text.specs.Limits.{has_plan};
ghost use Rattle.planner_app.specs.DayOutcomes.{IsReportOutcome};
ghost use Rattle.planner_app.specs.Outcomes.{IsAnswerReported};
ghost use Rattle.planner_app.specs.ReportTexts.{report_text};
ghost use Rattle.planner_app.specs.Statuses.{is_unread};

use crate::answered::{Answered, answered_in};
use answer_check::{AnswerVerdict, picks_of_plan, verdict_on};
use answer_text::Answer;
use day_reports::{costs_table, duties_table, yards_table};
use rail_base::{Bytes, NoMemory};
use rail_io::Folder;
use run_documents::Outcome;
use std::alloc::Global;
use timetable::{Instance, NamedPlan};

/// What a report tells of a plan.
#[derive(Clone, Copy)]
pub enum ReportKind {
    /// The trips of each unit.
    Duties,
    /// The units in the yards of the stations.
    Yards,
    /// What the plan costs, in parts.
    Costs,
}

/// Reports on the answer of a folder.
pub(crate) fn reported<F: Folder>(
    alloc: Global,
    folder: &mut F,
    dir: &str,
    kind: ReportKind,
) -> Outcome
    ensures outcome { IsAnswerReported dir.now kind (F.state folder.old) (F.state folder.new) result }
    ensures only_reads { OnlyReads (F.state folder.old) (F.state folder.new) }
    ensures fault_counted { CountsFault (is_unread result) (F.state folder.old) (F.state folder.new) }
{
    let Answered { instance, answer } = match answered_in(alloc, folder, dir) {
        Ok(answered) => answered,
        Err(outcome) => return outcome,
    };
    match report_on(alloc, &instance, &answer, kind) {
        Ok(outcome) => outcome,
        Err(NoMemory) => Outcome::NoMemory,
    }
}

/// What a report on an answer of the day comes to: what is wrong with it, that it has no plan, or the report.
fn report_on(
    alloc: Global,
    instance: &Instance,
    answer: &Answer,
    kind: ReportKind,
) -> Result<Outcome, NoMemory>
    requires { length answer.now.runs ≤ MAX_TRIPS }
    ensures { IfOk result (IsReportOutcome kind instance.now answer.now) }
{
    let verdict = verdict_on(alloc, instance, answer)?;
    if verdict != AnswerVerdict::Valid {
        return Ok(Outcome::Checked {
            head: answer.head,
            verdict,
        });
    }
    if !answer.head.has_plan() {
        return Ok(Outcome::NoPlan);
    }
    let text = table_of(alloc, instance, answer, kind)?;
    Ok(Outcome::Reported(Bytes::of(text)))
}

/// The report on the plan of a valid answer.
fn table_of(
    alloc: Global,
    instance: &Instance,
    answer: &Answer,
    kind: ReportKind,
) -> Result<Vec<u8>, NoMemory>
    requires few { length answer.now.runs ≤ MAX_TRIPS }
    requires runs { running.Runs instance.now answer.now.runs }
    ensures { IfOk result (λ text. text.items ≡ report_text kind instance.now answer.now.runs) }
{
    let plan = NamedPlan::copied(alloc, answer.runs.items())?;
    match kind {
        ReportKind::Duties => duties_table(alloc, instance, &plan),
        ReportKind::Yards => yards_table_of(alloc, instance, &plan),
        ReportKind::Costs => costs_table_of(alloc, instance, &plan),
    }
}

/// The report on the yards under a plan that runs.
fn yards_table_of(alloc: Global, instance: &Instance, plan: &NamedPlan) -> Result<Vec<u8>, NoMemory>
    requires { running.Runs instance.now plan.now }
    ensures { IfOk result (λ text. text.items ≡ report_text ReportKind.Yards instance.now plan.now) }
{
    let picks = picks_of_plan(alloc, instance, plan)?;
    yards_table(alloc, instance, &picks)
}

/// The report on the costs of a plan that runs.
fn costs_table_of(alloc: Global, instance: &Instance, plan: &NamedPlan) -> Result<Vec<u8>, NoMemory>
    requires { running.Runs instance.now plan.now }
    ensures { IfOk result (λ text. text.items ≡ report_text ReportKind.Costs instance.now plan.now) }
{
    let picks = picks_of_plan(alloc, instance, plan)?;
    costs_table(alloc, instance, &picks)
}
