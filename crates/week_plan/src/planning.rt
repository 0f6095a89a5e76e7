//! From the days of a week to its answer.

ghost use Rattle.std.specs.Prelude.{All, ◌≡◌, ◌≤◌, ◌+◌, ◌*◌, ◌^◌, IfErr, IfOk, IsTrue, MatchOption};
ghost use Rattle.std.specs.Prelude.{false, length, ⊤};
ghost use Rattle.std.specs.List.{AllZip};
ghost use Rattle.rail_base.specs.declared.limits.TheConstants.{MAX_BRANCHINGS, MAX_ROUNDS, MAX_TRIPS};
ghost use Rattle.timetable.specs.Running.{Runs};
ghost use Rattle.search.specs.Questions.{AreAsked, AreTheSame};
ghost use Rattle.answer_text.specs.Limits.{has_plan};
ghost use Rattle.week_units.specs.declared.nights.TheConstants.{MAX_DAYS};
ghost use Rattle.week_units.specs.Names.{AreNamesDayByDay};
ghost use Rattle.week_units.specs.WeekPlans.{week_units};
ghost use Rattle.week_units.specs.Weeks.{AreWeek, IsFirstFault};
ghost use Rattle.week_plan.specs.DayAnswers.{AreDayAnswers, least_asked, most_asked, plans_in};
ghost use Rattle.week_plan.specs.WeekAnswers.{IsWeekAnswer, fault_said};

use crate::answering::day_answers;
use crate::answers::{Answers, Week};
use crate::heads::head_of;
use advisors::Advisor;
use answer_text::{Answer, Head};
use day_planner::Allowed;
use rail_base::NoMemory;
use std::alloc::Global;
use timetable::{Instance, NamedPlan};
use week_units::{WeekNames, WeekRefusal, names, week_fault};

/// Plans a week of at most seven days. Each day is planned by itself, by a search with the improver of days, as
/// `day_planner::improved_answer_for` plans it: `grant` is how many branchings are granted for each day, at most 4,000,
/// `rounds` in how many rounds the advisors may be asked at a node, at most 100, and `evaluations` how many evaluations
/// of the bound the improver may take at a root, none where it is not to be asked.
///
/// Days that make no week are refused for the first reason why they make none, before any is planned or an advisor is
/// asked. Each advisor was asked at most 2^62 times before. Afterwards one of the same identity stands at each place,
/// whatever the answer is. Any other error than that of such days is want of memory.
pub fn week(
    alloc: Global,
    days: &[Instance],
    grant: u32,
    rounds: u8,
    evaluations: u32,
    advisors: &mut Vec<Box<dyn Advisor>>,
) -> Result<Week, WeekRefusal>
    requires few { length days.now ≤ MAX_DAYS }
    requires grant { grant ≤ MAX_BRANCHINGS }
    requires rounds { rounds ≤ MAX_ROUNDS }
    requires asked { All (λ advisor. asked advisor ≤ 2 ^ 62) advisors.old.items }

    // The answer, or why there is none.
    ensures week { IfOk result (λ _. AreWeek days.now) }
    ensures answer { IfOk result (IsWeekAnswer days.now grant) }
    ensures refusal { IfErr result (λ why. MatchOption (fault_said why) (AreWeek days.now) (IsFirstFault days.now)) }

    // The advisors: that one of the same identity stands at each place, and how often it was asked; none was, where
    // days are refused.
    ensures advisors { AreTheSame advisors.old.items advisors.new.items identity }
    ensures asked { AreAsked advisors.old.items advisors.new.items asked has_quit 0
        (MAX_DAYS * (rounds * (2 * grant + 1))) }
    ensures counted { IfOk result (λ week. AreAsked advisors.old.items advisors.new.items asked has_quit
        (least_asked rounds week.days) (most_asked rounds week.days)) }
    ensures unasked { IfErr result (λ why. MatchOption (fault_said why) ⊤
        (λ _. advisors.new.items ≡ advisors.old.items)) }
{
    if let Some(fault) = week_fault(days) {
        return Err(fault);
    }
    let allowed = Allowed {
        branchings: grant,
        rounds,
    };
    let answers = day_answers(alloc, days, allowed, evaluations, advisors)?;
    let head = head_of(&answers);
    let named = names_for(alloc, days, head, &answers)?;
    Ok(Week {
        head,
        days: Answers::of(answers),
        named,
    })
}

/// Which unit of the week each unit of each day is by these answers, where their head has a plan. The error is want of
/// memory.
fn names_for(
    alloc: Global,
    days: &[Instance],
    head: Head,
    answers: &[Answer],
) -> Result<Option<WeekNames>, NoMemory>
    requires week { AreWeek days.now }
    requires few { All (λ answer. length answer.runs ≤ MAX_TRIPS) answers.now }
    requires run { IsTrue (has_plan head) → AllZip Runs days.now (plans_in answers.now) }
    ensures { IfOk result (λ named. MatchOption named (has_plan head ≡ false)
        (λ names. IsTrue (has_plan head)
        × AreNamesDayByDay (week_units days.now) days.now (plans_in answers.now) names)) }
{
    if !head.has_plan() {
        return Ok(None);
    }
    let plans = plans_of(alloc, answers)?;
    let named = names(alloc, days, &plans)?;
    Ok(Some(named))
}

/// The plans of these answers. The error is want of memory.
fn plans_of(alloc: Global, answers: &[Answer]) -> Result<Vec<NamedPlan>, NoMemory>
    requires { All (λ answer. length answer.runs ≤ MAX_TRIPS) answers.now }
    ensures { IfOk result (λ plans. plans.items ≡ plans_in answers.now) }
{
    let mut plans = Vec::new(alloc);
    for place in 0..answers.len() {
        let answer = &answers[place];
        let plan = NamedPlan::copied(alloc, answer.runs.items())?;
        plans.push(plan)?;
    }
    Ok(plans)
}
