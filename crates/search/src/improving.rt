//! Improvements: an improver is asked about a node while it is open, and what it proposes is tested before it is used.

ghost use Rattle.std.specs.Prelude.{◌≡◌, ℕ, OnOk};
ghost use Rattle.search.specs.Conclusions.{plan_in};
ghost use Rattle.search.specs.Improvements.{AreImproved, AreProposed, IsProposed};
ghost use Rattle.search.specs.Nodes.{IsSubregion};
ghost use Rattle.search.specs.NodesInWork.{Advances, IsWorkedOn};
ghost use Rattle.search.specs.Offers.{IsOffered};

use crate::evaluation::offer;
use crate::found::Best;
use crate::solving::Terms;
use crate::work::Work;
use branch_tree::{Region, Relaxation, Settled, Slacks};
use improvers::{Improvement, Improver};
use rail_base::NoMemory;
use std::alloc::Global;
use timetable::Picks;

/// How often an improver is asked about one node at most.
const MAX_ATTEMPTS: u32 = 10_000;

/// What is shown to an improver of one node beside its evaluations.
#[derive(Drop)]
pub(crate) struct Attempt {
    /// How many nodes were made before it.
    pub node: u32,
    /// How often the improver was asked about it before.
    pub number: u32,
    /// The slacks of its kept picks.
    pub slacks: Slacks,
}

/// What an improver answers.
#[derive(Drop)]
struct Reply {
    /// What it proposes.
    improvement: Improvement,
    /// Whether it may be asked again about the node.
    more: bool,
}

/// Asks an improver about a node while it is open and the improver has more to propose, and uses what it proposes. The
/// error is want of memory.
pub(crate) fn improve<R: Relaxation, I: Improver>(
    terms: &Terms<'_>,
    problem: &mut R,
    work: &mut Work,
    number: u32,
    best: &mut Option<Best>,
    improver: &mut I,
) -> Result<(), NoMemory>
    requires within { IsSubregion terms.now.root.now work.old.region }
    requires worked { IsWorkedOn (R.meanings (R.problem problem.old)) (plan_in best.old) work.old }
    ensures same { R.problem problem.new ≡ R.problem problem.old }
    ensures advances { OnOk result (Advances (R.meanings (R.problem problem.old)) terms.now.root.now (plan_in best.old)
        (plan_in best.new) work.old work.new) }
    ensures improved { OnOk result ((attempts : ℕ) × AreImproved (R.meanings (R.problem problem.old)) terms.now.root.now
        attempts (plan_in best.old) (plan_in best.new) work.old work.new) }
{
    let mut attempt = Attempt {
        node: number,
        number: 0,
        slacks: Slacks::new(terms.alloc)?,
    };
    for made in 0..MAX_ATTEMPTS {
        if !work.is_open(best) {
            return Ok(());
        }
        attempt.number = made;
        let reply = ask(terms.alloc, problem, work, best, &mut attempt, improver)?;
        let Reply { improvement, more } = reply;
        work.take_improvement(terms.alloc, problem, terms.root, improvement, best)?;
        if !more {
            return Ok(());
        }
    }
    Ok(())
}

/// Shows a node to an improver, and asks it for an improvement. The error is want of memory.
fn ask<R: Relaxation, I: Improver>(
    alloc: Global,
    problem: &mut R,
    work: &Work,
    best: &Option<Best>,
    attempt: &mut Attempt,
    improver: &mut I,
) -> Result<Reply, NoMemory>
    requires { (R.meanings (R.problem problem.old)).Follow work.now.kept.picks }
    ensures { R.problem problem.new ≡ R.problem problem.old }
{
    problem.slacks(work.kept_picks(), &mut attempt.slacks);
    let mut improvement = Improvement::new(alloc);
    let seen = work.seen(problem, attempt, best);
    let more = improver.improve(&seen, &mut improvement)?;
    Ok(Reply { improvement, more })
}

/// Offers picks that are proposed, one after another. The error is want of memory.
pub(crate) fn offer_solutions<R: Relaxation>(
    alloc: Global,
    problem: &mut R,
    root: &Region,
    proposed: &[Picks],
    best: &mut Option<Best>,
) -> Result<(), NoMemory>
    ensures same { R.problem problem.new ≡ R.problem problem.old }
    ensures offered { OnOk result (IsOffered (R.meanings (R.problem problem.old)) root.now (plan_in best.old)
        (plan_in best.new)) }
    ensures proposed { OnOk result (AreProposed (R.meanings (R.problem problem.old)) root.now proposed.now
        (plan_in best.old) (plan_in best.new)) }
{
    for place in 0..proposed.len() {
        offer_solution(alloc, problem, root, &proposed[place], best)?;
    }
    Ok(())
}

/// Offers picks that are proposed as the best solution, where they lie in the root and are one. The error is want of
/// memory.
fn offer_solution<R: Relaxation>(
    alloc: Global,
    problem: &mut R,
    root: &Region,
    picks: &Picks,
    best: &mut Option<Best>,
) -> Result<(), NoMemory>
    ensures same { R.problem problem.new ≡ R.problem problem.old }
    ensures offered { OnOk result (IsOffered (R.meanings (R.problem problem.old)) root.now (plan_in best.old)
        (plan_in best.new)) }
    ensures proposed { OnOk result (IsProposed (R.meanings (R.problem problem.old)) root.now picks.now
        (plan_in best.old) (plan_in best.new)) }
{
    if !root.holds(picks) {
        return Ok(());
    }
    if picks.len() != problem.trips() {
        return Ok(());
    }
    if !problem.follows(picks) {
        return Ok(());
    }
    match problem.settle(picks) {
        Settled::Costs(cost) => offer(alloc, best, picks, cost),
        Settled::Broken { .. } => Ok(()),
    }
}
