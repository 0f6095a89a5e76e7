//! From a disturbed day to a proved answer: a plan that keeps what has happened, its price, and what is proved of every
//! other plan that does.

ghost use Rattle.std.specs.Prelude.{◌≡◌, ◌≤◌, ◌+◌, ◌*◌, ◌^◌, [], All, IfOk, IfErr, MatchBool, is_some, length};
ghost use Rattle.std.specs.Prelude.{unwrap_or};
ghost use Rattle.rail_base.specs.declared.limits.TheConstants.{MAX_BRANCHINGS, MAX_ROUNDS, MAX_TRIPS};
ghost use Rattle.timetable.specs.Running as running;
ghost use Rattle.transitions.specs.Edges.{AreGraphs};
ghost use Rattle.branch_tree.specs.Trees.{branchings_of};
ghost use Rattle.search.specs.Questions.{AreAsked, AreTheSame, in_rounds};
ghost use Rattle.answer_text.specs.Limits.{has_plan};
ghost use Rattle.answer_check.specs.ProvedTrees.{open_leaves};
ghost use Rattle.replan.specs.Disturbances.{later_day};
ghost use Rattle.replan.specs.Laws.{IsUnderWay};
ghost use Rattle.replan.specs.Promises.{HasProvedTree, IsReplanned, IsStopped, as_answer, changes_made};

use crate::disturbances::Disturbance;
use crate::refusal::ReplanRefusal;
use crate::rest_of_day::{RestOfDay, rest_of};
use advisors::Advisor;
use answer_text::{Answer, Head, Runs};
use branch_tree::Tree;
use day_planner::{Allowed, Scope, answer_to};
use improvers::{Improver, NoImprover};
use price_bound::DayBounds;
use rail_base::NoMemory;
use std::alloc::Global;
use timetable::NamedPlan;
use transitions::Graphs;

/// The answer to a disturbed day.
#[derive(Drop)]
pub struct Replanned {
    /// What it says. Its costs and bounds are prices: of a plan of the later day, its cost and the cost of a change for
    /// each trip that it gives other types than were planned.
    pub head: Head,
    /// The plan of the later day, where the head has one.
    pub plan: Option<NamedPlan>,
    /// To how many trips it gives other types than were planned; 0 where there is no plan.
    pub changes: u32,
    /// The tree that proves it.
    pub tree: Tree,
}

/// Plans the rest of a disturbed day by a search of at most so many branchings, and answers it with a proof of what it
/// says.
///
/// The plan that is answered runs in the later day and agrees with the past: each trip that has left keeps its very
/// units, and each frozen one their types: one that has left, or to which a link of the later day leads from one that
/// has arrived. What is said of the price of every such plan, or that there is none, is true of all plans of named
/// units that run in the later day and agree with the past. It is `bounded` exactly where all branchings that are
/// granted were made and a leaf is open.
///
/// At most 4,000 branchings are allowed and at most 100 rounds; each advisor was asked at most 2^63 times before.
/// Afterwards an advisor of the same identity stands at each place, whatever the answer is, and they are asked as
/// `search::solve` tells.
///
/// - `Stops`: the plan that was made does not run; the fault is the first one, as `day_simulator::simulate` tells it.
/// - `NoMemory`: want of memory, here or in an advisor.
pub fn replan(
    alloc: Global,
    disturbance: &Disturbance<'_>,
    allowed: Allowed,
    advisors: &mut Vec<Box<dyn Advisor>>,
) -> Result<Replanned, ReplanRefusal>
    requires branchings { allowed.branchings ≤ MAX_BRANCHINGS }
    requires rounds { allowed.rounds ≤ MAX_ROUNDS }
    requires asked { All (λ advisor. asked advisor ≤ 2 ^ 63) advisors.old.items }

    // The answer, or why there is none.
    ensures promise { IfOk result (IsReplanned disturbance.now allowed.branchings) }
    ensures runs { IfOk result (λ _. running.Runs disturbance.now.day disturbance.now.plan) }
    ensures refused { IfErr result (IsStopped disturbance.now) }

    // The advisors: that one of the same identity stands at each place, and how often it was asked.
    ensures advisors { AreTheSame advisors.old.items advisors.new.items identity }
    ensures asked { AreAsked advisors.old.items advisors.new.items asked has_quit 0
        (allowed.rounds * (2 * allowed.branchings + 1)) }
    ensures counted { IfOk result (λ replanned. AreAsked advisors.old.items advisors.new.items asked has_quit
        (in_rounds allowed.rounds (branchings_of replanned.tree + open_leaves (as_answer replanned)))
        (allowed.rounds * (2 * branchings_of replanned.tree + 1))) }
{
    let rest = rest_of(alloc, disturbance)?;
    let graphs = Graphs::build(alloc, rest.instance())?;
    let replanned = improved_replan(alloc, &rest, &graphs, allowed, &mut NoImprover, advisors)?;
    Ok(replanned)
}

/// Plans the rest of a disturbed day as `replan` does, by a search that asks an improver too, as `search::solve_with`
/// tells. The graphs are those of the later day. An improver may go by them, and by the changes of the rest of the day.
///
/// Nothing is asked of the improver: all that is said of the answer and of the advisors holds whatever is proposed. The
/// error is want of memory, here, in an advisor or in the improver.
pub fn improved_replan<I: Improver>(
    alloc: Global,
    rest: &RestOfDay<'_>,
    graphs: &Graphs,
    allowed: Allowed,
    improver: &mut I,
    advisors: &mut Vec<Box<dyn Advisor>>,
) -> Result<Replanned, NoMemory>
    requires graphs { AreGraphs (later_day rest.now) graphs.now }
    requires branchings { allowed.branchings ≤ MAX_BRANCHINGS }
    requires rounds { allowed.rounds ≤ MAX_ROUNDS }
    requires asked { All (λ advisor. asked advisor ≤ 2 ^ 63) advisors.old.items }

    // The answer.
    ensures promise { IfOk result (IsReplanned rest.now allowed.branchings) }

    // The advisors: that one of the same identity stands at each place, and how often it was asked.
    ensures advisors { AreTheSame advisors.old.items advisors.new.items identity }
    ensures asked { AreAsked advisors.old.items advisors.new.items asked has_quit 0
        (allowed.rounds * (2 * allowed.branchings + 1)) }
    ensures counted { IfOk result (λ replanned. AreAsked advisors.old.items advisors.new.items asked has_quit
        (in_rounds allowed.rounds (branchings_of replanned.tree + open_leaves (as_answer replanned)))
        (allowed.rounds * (2 * branchings_of replanned.tree + 1))) }
{
    let answer = later_answer(alloc, rest, graphs, allowed, improver, advisors)?;
    let Answer {
        head,
        runs,
        tree,
        ..
    } = answer;
    Ok(said_of(rest, head, runs, tree))
}

/// The answer to the later day, whose costs are prices, in the root region of the rest of the day.
fn later_answer<I: Improver>(
    alloc: Global,
    rest: &RestOfDay<'_>,
    graphs: &Graphs,
    allowed: Allowed,
    improver: &mut I,
    advisors: &mut Vec<Box<dyn Advisor>>,
) -> Result<Answer, NoMemory>
    requires graphs { AreGraphs (later_day rest.now) graphs.now }
    requires branchings { allowed.branchings ≤ MAX_BRANCHINGS }
    requires rounds { allowed.rounds ≤ MAX_ROUNDS }
    requires asked { All (λ advisor. asked advisor ≤ 2 ^ 63) advisors.old.items }
    ensures under_way { IfOk result (λ _. IsUnderWay rest.now) }
    ensures tree { IfOk result (HasProvedTree rest.now allowed.branchings) }
    ensures advisors { AreTheSame advisors.old.items advisors.new.items identity }
    ensures asked { AreAsked advisors.old.items advisors.new.items asked has_quit 0
        (allowed.rounds * (2 * allowed.branchings + 1)) }
    ensures counted { IfOk result (λ answer. AreAsked advisors.old.items advisors.new.items asked has_quit
        (in_rounds allowed.rounds (answer.branchings + open_leaves answer))
        (allowed.rounds * (2 * answer.branchings + 1))) }
{
    let mut bounds = DayBounds::with_changes(alloc, rest.instance(), graphs, rest.changes())?;
    let naming = rest.naming();
    let scope = Scope {
        root: &rest.root,
        naming: &naming,
    };
    answer_to(alloc, &mut bounds, scope, allowed, improver, advisors)
}

/// The answer to a disturbed day with this head, these runs, which are a plan of the later day where the head has one,
/// and this tree. It takes no memory.
fn said_of(rest: &RestOfDay<'_>, head: Head, runs: Runs, tree: Tree) -> Replanned
    requires few { length runs ≤ MAX_TRIPS }
    requires runs { MatchBool (has_plan head) (running.IsPlan (later_day rest.now) runs) (runs ≡ []) }
    ensures head { result.head ≡ head }
    ensures runs { unwrap_or result.plan [] ≡ runs }
    ensures tree { result.tree ≡ tree }
    ensures there { is_some result.plan ≡ has_plan head }
    ensures changes { result.changes ≡ changes_made rest.now result.plan }
{
    if !head.has_plan() {
        return Replanned {
            head,
            plan: None,
            changes: 0,
            tree,
        };
    }
    let plan = NamedPlan::of(runs.into_items());
    let changes = rest.changes_in(&plan);
    Replanned {
        head,
        plan: Some(plan),
        changes,
        tree,
    }
}
