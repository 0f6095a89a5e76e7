//! From a day to a proved answer: the search, the plan of named units for what it found, and the tree that proves it.

ghost use Rattle.std.specs.Prelude.{ℕ, List, ◌≡◌, ◌≤◌, ◌+◌, ◌*◌, ◌^◌, All, IfOk, IsTrue};
ghost use Rattle.rail_base.specs.declared.limits.TheConstants.{MAX_BRANCHINGS, MAX_ROUNDS};
ghost use Rattle.transitions.specs.Edges.{AreGraphs};
ghost use Rattle.branch_tree.specs.Regions.{IsOver, are_in};
ghost use Rattle.search.specs.Questions.{AreAsked, AreTheSame, in_rounds};
ghost use Rattle.answer_check.specs.Headline.{IsHeadline};
ghost use Rattle.answer_check.specs.ProvedTrees.{HasProvedTree, HasProvedTreeIn, open_leaves};
ghost use Rattle.answer_check.specs.Verdicts.{IsAnswerVerdict};
ghost use Rattle.day_planner.specs.Answerable.{IsAnswerable};

use crate::answers::said;
use crate::naming::{DayNaming, Naming};
use advisors::Advisor;
use answer_check::AnswerVerdict;
use answer_text::Answer;
use branch_tree::{Region, Relaxation};
use improvers::{Improver, NoImprover};
use price_bound::DayBounds;
use rail_base::NoMemory;
use search::{Allowed, solve_with};
use std::alloc::Global;
use timetable::Instance;
use transitions::Graphs;

/// Where a problem over a day is searched, and by which rule the units of what is found there are named.
pub struct Scope<'a, N> {
    /// The compositions that each trip may have.
    pub root: &'a Region,
    /// The rule by which units are named.
    pub naming: &'a N,
}

/// Searches a root region of an answerable problem, and answers it with a proof of what the answer says. The root is
/// one of the problem, and of each solution in it the rule can name the units. Each advisor was asked at most 2^63
/// times before. Nothing is asked of the improver: all that is said here holds whatever it proposes.
///
/// Afterwards an advisor of the same identity stands at each place, whatever the answer is, and they are asked as
/// `search::solve_with` tells. The error is want of memory alone, here, in the improver or in an advisor. What the
/// problem means is as before after any answer.
pub fn answer_to<R: Relaxation, N: Naming, I: Improver>(
    alloc: Global,
    problem: &mut R,
    scope: Scope<'_, N>,
    allowed: Allowed,
    improver: &mut I,
    advisors: &mut Vec<Box<dyn Advisor>>,
) -> Result<Answer, NoMemory>
    // An answerable problem, a root region of it, a rule that can name each solution in it, and what is allowed.
    requires answerable { IsAnswerable (N.day scope.naming.now) (R.meanings (R.problem problem.old)) scope.root.now }
    requires over { IsOver (R.meanings (R.problem problem.old)).trips
        (R.meanings (R.problem problem.old)).catalogue scope.root.now }
    requires names { (picks : List ℕ) → (R.meanings (R.problem problem.old)).IsSolution picks →
        IsTrue (are_in picks scope.root.now) → N.CanName scope.naming.now picks }
    requires branchings { allowed.branchings ≤ MAX_BRANCHINGS }
    requires rounds { allowed.rounds ≤ MAX_ROUNDS }
    requires asked { All (λ advisor. asked advisor ≤ 2 ^ 63) advisors.old.items }

    // The problem, and the answer.
    ensures same { R.problem problem.new ≡ R.problem problem.old }
    ensures tree { IfOk result (HasProvedTreeIn (N.day scope.entry.naming.now) (R.meanings (R.problem problem.old))
        scope.entry.root.now (N.named scope.entry.naming.now) allowed.branchings) }

    // The advisors: that one of the same identity stands at each place, and how often it was asked.
    ensures advisors { AreTheSame advisors.old.items advisors.new.items identity }
    ensures asked { AreAsked advisors.old.items advisors.new.items asked has_quit 0
        (allowed.rounds * (2 * allowed.branchings + 1)) }
    ensures counted { IfOk result (λ answer. AreAsked advisors.old.items advisors.new.items asked has_quit
        (in_rounds allowed.rounds (answer.branchings + open_leaves answer))
        (allowed.rounds * (2 * answer.branchings + 1))) }
{
    let Scope { root, naming } = scope;
    let found = solve_with(alloc, problem, root, allowed, improver, advisors)?;
    let answer = said(alloc, naming, found)?;
    Ok(answer)
}

/// Plans a day by a search of at most so many branchings, and answers it with a proof of what it says.
///
/// `grant` is how many branchings are granted, at most 4,000, and `rounds` in how many rounds the advisors may be asked
/// at a node, at most 100: in all, each is asked at most `rounds` times for each node of the tree, of which there are
/// at most `2 * grant + 1`. Each advisor was asked at most 2^63 times before.
///
/// The answer is true whatever the advisors propose: its plan, where it has one, runs and costs what it says, what it
/// says of all plans of named units is true of them, and its tree proves that, so that `check_answer` finds it valid.
/// The units of its plan are named by the rule of `name_units`.
/// It is `bounded` exactly where all branchings that are granted were made and a leaf is open.
///
/// Afterwards an advisor of the same identity stands at each place, whatever the answer is, and they are asked as
/// `search::solve` tells. The error is want of memory alone, here or in an advisor.
pub fn answer_for(
    alloc: Global,
    instance: &Instance,
    grant: u32,
    rounds: u8,
    advisors: &mut Vec<Box<dyn Advisor>>,
) -> Result<Answer, NoMemory>
    requires grant { grant ≤ MAX_BRANCHINGS }
    requires rounds { rounds ≤ MAX_ROUNDS }
    requires asked { All (λ advisor. asked advisor ≤ 2 ^ 63) advisors.old.items }
    ensures headline { IfOk result (IsHeadline instance.now grant) }
    ensures checks { IfOk result (λ answer. (verdict : AnswerVerdict) →
        IsAnswerVerdict instance.now answer verdict → verdict ≡ AnswerVerdict.Valid) }
    ensures advisors { AreTheSame advisors.old.items advisors.new.items identity }
    ensures asked { AreAsked advisors.old.items advisors.new.items asked has_quit 0 (rounds * (2 * grant + 1)) }
    ensures counted { IfOk result (λ answer. AreAsked advisors.old.items advisors.new.items asked has_quit
        (in_rounds rounds (answer.branchings + open_leaves answer)) (rounds * (2 * answer.branchings + 1))) }
{
    let graphs = Graphs::build(alloc, instance)?;
    let allowed = Allowed {
        branchings: grant,
        rounds,
    };
    improved_answer_for(alloc, instance, &graphs, allowed, &mut NoImprover, advisors)
}

/// Plans a day as `answer_for` does, by a search that asks an improver too, as `search::solve_with` tells. The graphs
/// are those of the day, which an improver may go by too.
///
/// Nothing is asked of the improver: the conditions are those of `answer_for`, and all that is said of its answer and
/// of the advisors holds whatever is proposed. The error is want of memory alone, here, in the improver or in an
/// advisor.
pub fn improved_answer_for<I: Improver>(
    alloc: Global,
    instance: &Instance,
    graphs: &Graphs,
    allowed: Allowed,
    improver: &mut I,
    advisors: &mut Vec<Box<dyn Advisor>>,
) -> Result<Answer, NoMemory>
    requires graphs { AreGraphs instance.now graphs.now }
    requires branchings { allowed.branchings ≤ MAX_BRANCHINGS }
    requires rounds { allowed.rounds ≤ MAX_ROUNDS }
    requires asked { All (λ advisor. asked advisor ≤ 2 ^ 63) advisors.old.items }

    // The answer.
    ensures headline { IfOk result (IsHeadline instance.now allowed.branchings) }
    ensures checks { IfOk result (λ answer. (verdict : AnswerVerdict) →
        IsAnswerVerdict instance.now answer verdict → verdict ≡ AnswerVerdict.Valid) }

    // The advisors: that one of the same identity stands at each place, and how often it was asked.
    ensures advisors { AreTheSame advisors.old.items advisors.new.items identity }
    ensures asked { AreAsked advisors.old.items advisors.new.items asked has_quit 0
        (allowed.rounds * (2 * allowed.branchings + 1)) }
    ensures counted { IfOk result (λ answer. AreAsked advisors.old.items advisors.new.items asked has_quit
        (in_rounds allowed.rounds (answer.branchings + open_leaves answer))
        (allowed.rounds * (2 * answer.branchings + 1))) }
{
    // What is known of an accepted day.
    instance.is_sound();
    let answer = day_answer(alloc, instance, graphs, allowed, improver, advisors)?;
    Ok(answer)
}

/// Plans a day as `improved_answer_for` does, by an improver of which it is told how its making ended. Where memory ran
/// out in that, so it does here, and no advisor is asked.
///
/// It is made for the callers that make an improver: that is dropped in this call.
pub fn answer_by_made<I: Improver + Drop>(
    alloc: Global,
    instance: &Instance,
    graphs: &Graphs,
    allowed: Allowed,
    made: Result<I, NoMemory>,
    advisors: &mut Vec<Box<dyn Advisor>>,
) -> Result<Answer, NoMemory>
    requires graphs { AreGraphs instance.now graphs.now }
    requires branchings { allowed.branchings ≤ MAX_BRANCHINGS }
    requires rounds { allowed.rounds ≤ MAX_ROUNDS }
    requires asked { All (λ advisor. asked advisor ≤ 2 ^ 63) advisors.old.items }

    // The answer.
    ensures headline { IfOk result (IsHeadline instance.now allowed.branchings) }

    // The advisors: that one of the same identity stands at each place, and how often it was asked.
    ensures advisors { AreTheSame advisors.old.items advisors.new.items identity }
    ensures asked { AreAsked advisors.old.items advisors.new.items asked has_quit 0
        (allowed.rounds * (2 * allowed.branchings + 1)) }
    ensures counted { IfOk result (λ answer. AreAsked advisors.old.items advisors.new.items asked has_quit
        (in_rounds allowed.rounds (answer.branchings + open_leaves answer))
        (allowed.rounds * (2 * answer.branchings + 1))) }
{
    let mut improver = made?;
    improved_answer_for(alloc, instance, graphs, allowed, &mut improver, advisors)
}

/// The answer to a day, in the region of all admissible compositions, with its units named by the rule of `name_units`.
fn day_answer<I: Improver>(
    alloc: Global,
    instance: &Instance,
    graphs: &Graphs,
    allowed: Allowed,
    improver: &mut I,
    advisors: &mut Vec<Box<dyn Advisor>>,
) -> Result<Answer, NoMemory>
    requires graphs { AreGraphs instance.now graphs.now }
    requires branchings { allowed.branchings ≤ MAX_BRANCHINGS }
    requires rounds { allowed.rounds ≤ MAX_ROUNDS }
    requires asked { All (λ advisor. asked advisor ≤ 2 ^ 63) advisors.old.items }
    ensures tree { IfOk result (HasProvedTree instance.now allowed.branchings) }
    ensures advisors { AreTheSame advisors.old.items advisors.new.items identity }
    ensures asked { AreAsked advisors.old.items advisors.new.items asked has_quit 0
        (allowed.rounds * (2 * allowed.branchings + 1)) }
    ensures counted { IfOk result (λ answer. AreAsked advisors.old.items advisors.new.items asked has_quit
        (in_rounds allowed.rounds (answer.branchings + open_leaves answer))
        (allowed.rounds * (2 * answer.branchings + 1))) }
{
    let root = Region::root(alloc, instance)?;
    let mut bounds = DayBounds::new(alloc, instance, graphs)?;
    let naming = DayNaming::new(instance, graphs);
    // What is known of an accepted day.
    instance.is_sound();
    let scope = Scope {
        root: &root,
        naming: &naming,
    };
    answer_to(alloc, &mut bounds, scope, allowed, improver, advisors)
}
