//! Answers that say what a search has found: whatever relaxation was searched, in whatever root region, and by whatever
//! rule the units are named.

ghost use Rattle.std.specs.Prelude.{◌≡◌, [], IfOk};
ghost use Rattle.timetable.specs.Picks.{RunsByPicks};
ghost use Rattle.branch_tree.specs.Trees.{KeepLimits, branchings_of};
ghost use Rattle.search.specs.declared.found.Found.TheVariants.{Bounded};
ghost use Rattle.day_planner.specs.FoundAnswers.{IsNameable, SaysFound};

use crate::naming::Naming;
use answer_text::{Answer, Head, Runs};
use branch_tree::Tree;
use rail_base::{Money, NoMemory};
use search::{Best, Found};
use std::alloc::Global;
use timetable::Picks;

/// The answer that says what was found: where a plan was found, the rule names its units, which it can. The error is
/// want of memory. All that is said of the answer's tree follows by `laws::said_answers_are_proved`.
pub fn said<N: Naming>(alloc: Global, naming: &N, found: Found) -> Result<Answer, NoMemory>
    requires { IsNameable (N.CanName naming.now) found }
    ensures { IfOk result (SaysFound (N.day naming.now) (N.named naming.now) found) }
{
    match found {
        Found::Optimal { picks, cost, tree } => {
            let runs = runs_for(alloc, naming, &picks)?;
            Ok(answer_with(Head::Optimal { cost }, runs, tree))
        }
        Found::Infeasible { tree } => Ok(answer_with(Head::Infeasible, no_runs(alloc), tree)),
        Found::Bounded { best, bound, tree } => said_with(alloc, naming, best, bound, tree),
    }
}

/// The answer that says a bound that was found, and the plan of the best solution, where one was found.
fn said_with<N: Naming>(
    alloc: Global,
    naming: &N,
    best: Option<Best>,
    bound: Money,
    tree: Tree,
) -> Result<Answer, NoMemory>
    requires { IsNameable (N.CanName naming.now) (Bounded best bound tree) }
    ensures { IfOk result (SaysFound (N.day naming.now) (N.named naming.now) (Bounded best bound tree)) }
{
    let Some(Best { picks, cost }) = best else {
        return Ok(answer_with(Head::Bounded { bound }, no_runs(alloc), tree));
    };
    let runs = runs_for(alloc, naming, &picks)?;
    Ok(answer_with(Head::BoundedPlan { bound, cost }, runs, tree))
}

/// The answer with this head, these runs and this tree, whose branchings it says.
pub fn answer_with(head: Head, runs: Runs, tree: Tree) -> Answer
    ensures head { result.head ≡ head }
    ensures branchings { result.branchings ≡ branchings_of result.tree }
    ensures runs { result.runs ≡ runs }
    ensures tree { result.tree ≡ tree }
    ensures kept { KeepLimits result.tree }
{
    Answer {
        head,
        branchings: tree.branchings(),
        runs,
        tree,
    }
}

/// No runs.
fn no_runs(alloc: Global) -> Runs
    ensures { result ≡ [] }
{
    Runs::of(Vec::new(alloc))
}

/// The runs of the plan that the rule names for picks, which it can name. The error is want of memory.
pub fn runs_for<N: Naming>(alloc: Global, naming: &N, picks: &Picks) -> Result<Runs, NoMemory>
    requires { N.CanName naming.now picks.now }
    ensures named { IfOk result (λ runs. runs ≡ N.named naming.now picks.now) }
    ensures by_picks { IfOk result (λ runs. RunsByPicks (N.day naming.now) runs picks.now) }
{
    let plan = naming.name(alloc, picks)?;
    Ok(Runs::of(plan.into_lists()))
}
