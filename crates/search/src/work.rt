//! A node in work: its region, and what its evaluations have given so far.

ghost use Rattle.std.specs.Prelude.{◌≡◌, map, IfOk, OnOk};
ghost use Rattle.branch_tree.specs.Bounds.{AreSlacks};
ghost use Rattle.branch_tree.specs.Meanings.{DoFitFor};
ghost use Rattle.branch_tree.specs.Sets.{size_of};
ghost use Rattle.search.specs.Improvements.{AreTried, IsSeenOf, IsUsedUp, shown_plan};
ghost use Rattle.search.specs.NodeAdvice.{IsLookAt};
ghost use Rattle.search.specs.Nodes.{IsSubregion};
ghost use Rattle.search.specs.Conclusions.{plan_in};
ghost use Rattle.search.specs.NodesInWork.{Advances, HasInherited, IsConsidered, IsTakenUp, IsWorkedOn};
ghost use Rattle.search.specs.NodesInWork.{begun, is_open_work, learned, node_from, remembering};

use crate::evaluation::{Ending, Evaluation, EvaluationEnd, evaluate, is_below};
use crate::found::Best;
use crate::improving::{Attempt, offer_solutions};
use crate::nodes::{PendingNode, SearchNode};
use advisors::{Look, Proposal};
use branch_tree::{Cut, Multipliers, Node, Region, Relaxation, Slacks};
use improvers::{Improvement, Incumbent, Seen};
use rail_base::{Money, NoMemory};
use std::alloc::Global;
use timetable::Picks;

/// A node whose first evaluation, with no multipliers, has not shown that its region has no solution.
#[derive(Drop)]
pub(crate) struct Work {
    /// The region of the node.
    region: Region,
    /// The least priced value with no multipliers.
    first: Money,
    /// The evaluation with the greatest value, the earliest of these.
    kept: Evaluation,
    /// The last evaluation that showed no end.
    last: Evaluation,
    /// The cut that was proposed last.
    cut: Option<Cut>,
    /// Why the region has no solution, once that is shown.
    end: Option<Ending>,
}

/// What is shown of a node beside its evaluations.
#[derive(Drop)]
pub(crate) struct Shown {
    /// How many rounds of advice were made before.
    pub rounds_made: u8,
    /// How many compositions each trip of its region has.
    pub sizes: Vec<u32>,
    /// The slacks of its last picks.
    pub slacks: Slacks,
}

impl Work {
    /// A node after its first evaluation. The error is want of memory.
    pub(crate) fn new(
        alloc: Global,
        region: Region,
        evaluation: Evaluation,
    ) -> Result<Work, NoMemory>
        ensures { IfOk result (λ work. work ≡ begun region evaluation) }
    {
        Ok(Work {
            region,
            first: evaluation.value,
            kept: evaluation.copy(alloc)?,
            last: evaluation,
            cut: None,
            end: None,
        })
    }

    /// The region of the node.
    pub(crate) fn region(&self) -> &Region
        ensures { result.now ≡ self.now.region }
    {
        &self.region
    }

    /// The picks of the last evaluation that showed no end.
    pub(crate) fn last_picks(&self) -> &Picks
        ensures { result.now ≡ self.now.last.picks }
    {
        &self.last.picks
    }

    /// The picks of the kept evaluation.
    pub(crate) fn kept_picks(&self) -> &Picks
        ensures { result.now ≡ self.now.kept.picks }
    {
        &self.kept.picks
    }

    /// All that is shown of the node to advisors.
    pub(crate) fn look<'a, R: Relaxation>(&'a self, problem: &R, shown: &'a Shown) -> Look<'a>
        requires sizes { shown.now.sizes.items ≡ map size_of self.now.region }
        requires slacks { AreSlacks (R.meanings (R.problem problem.now)) self.now.last.picks shown.now.slacks }
        ensures { IsLookAt (R.meanings (R.problem problem.now)) shown.now.rounds_made self.now result }
    {
        Look {
            round: shown.rounds_made,
            sizes: &shown.sizes,
            first: self.first,
            kept: self.kept.value,
            last: self.last.value,
            multipliers: &self.last.multipliers,
            picks: &self.last.picks,
            slacks: &shown.slacks,
            free_from: problem.free_from(),
        }
    }

    /// All that is shown of the node to an improver.
    pub(crate) fn seen<'a, R: Relaxation>(
        &'a self,
        problem: &R,
        attempt: &'a Attempt,
        best: &'a Option<Best>,
    ) -> Seen<'a>
        requires { AreSlacks (R.meanings (R.problem problem.now)) self.now.kept.picks attempt.now.slacks }
        ensures { IsSeenOf (R.meanings (R.problem problem.now)) attempt.now.node attempt.now.number (plan_in best.now)
            self.now result }
    {
        Seen {
            node: attempt.node,
            attempt: attempt.number,
            region: &self.region,
            kept: self.kept.value,
            multipliers: &self.kept.multipliers,
            picks: &self.kept.picks,
            slacks: &attempt.slacks,
            best: incumbent(best),
            free_from: problem.free_from(),
        }
    }

    /// Whether the node may still have a better solution than the best one.
    pub(crate) fn is_open(&self, best: &Option<Best>) -> bool
        ensures { result ≡ is_open_work (plan_in best.now) self.now }
    {
        self.end.is_none() && is_below(self.kept.value, best)
    }

    /// Evaluates the node under multipliers that fit. They are kept where their value is greater than that of the kept
    /// ones. The error is want of memory.
    pub(crate) fn consider<R: Relaxation>(
        &mut self,
        alloc: Global,
        problem: &mut R,
        multipliers: Multipliers,
        best: &mut Option<Best>,
    ) -> Result<(), NoMemory>
        requires fits { DoFitFor (R.meanings (R.problem problem.old)) multipliers }
        requires worked { IsWorkedOn (R.meanings (R.problem problem.old)) (plan_in best.old) self.old }
        ensures same { R.problem problem.new ≡ R.problem problem.old }
        ensures advances { OnOk result (Advances (R.meanings (R.problem problem.old)) self.old.region
            (plan_in best.old) (plan_in best.new) self.old self.new) }
        ensures considered { OnOk result (IsConsidered (R.meanings (R.problem problem.old)) (plan_in best.new)
            multipliers self.old self.new) }
    {
        match evaluate(alloc, problem, &self.region, multipliers, best)? {
            EvaluationEnd::Ended(ending) => self.end = Some(ending),
            EvaluationEnd::Open(evaluation) => self.learn(alloc, evaluation)?,
        }
        Ok(())
    }

    /// Evaluates the node under the multipliers that it inherits, where there are such and the node is open. The
    /// error is want of memory.
    #[tactic(auto, using(crate::proofs::Working::not_advanced))]
    pub(crate) fn inherit<R: Relaxation>(
        &mut self,
        alloc: Global,
        problem: &mut R,
        inherited: &Multipliers,
        best: &mut Option<Best>,
    ) -> Result<(), NoMemory>
        requires fits { DoFitFor (R.meanings (R.problem problem.old)) inherited.now }
        requires worked { IsWorkedOn (R.meanings (R.problem problem.old)) (plan_in best.old) self.old }
        ensures same { R.problem problem.new ≡ R.problem problem.old }
        ensures advances { OnOk result (Advances (R.meanings (R.problem problem.old)) self.old.region
            (plan_in best.old) (plan_in best.new) self.old self.new) }
        ensures inherited { OnOk result (HasInherited (R.meanings (R.problem problem.old)) (plan_in best.old)
            (plan_in best.new) inherited.now self.old self.new) }
    {
        if inherited.len() > 0 && self.is_open(best) {
            return self.consider(alloc, problem, inherited.copy(alloc)?, best);
        }
        Ok(())
    }

    /// Takes up a proposal for the node: its cut is remembered, and its multipliers, where it has an entry, are
    /// considered. The error is want of memory.
    pub(crate) fn take_up<R: Relaxation>(
        &mut self,
        alloc: Global,
        problem: &mut R,
        proposal: &Proposal,
        best: &mut Option<Best>,
    ) -> Result<(), NoMemory>
        requires indices { proposal.now.indices ≡ (R.meanings (R.problem problem.old)).indices }
        requires free_from { proposal.now.free_from ≡ (R.meanings (R.problem problem.old)).free_from }
        requires worked { IsWorkedOn (R.meanings (R.problem problem.old)) (plan_in best.old) self.old }
        ensures same { R.problem problem.new ≡ R.problem problem.old }
        ensures advances { OnOk result (Advances (R.meanings (R.problem problem.old)) self.old.region
            (plan_in best.old) (plan_in best.new) self.old self.new) }
        ensures taken_up { OnOk result (IsTakenUp (R.meanings (R.problem problem.old)) (plan_in best.old)
            (plan_in best.new) proposal.now self.old self.new) }
    {
        self.remember(proposal.asked_cut());
        if proposal.multipliers().len() > 0 {
            self.consider(alloc, problem, proposal.multipliers().copy(alloc)?, best)?;
        }
        Ok(())
    }

    /// Uses what an improver proposes for the node: its cut is remembered, its picks are offered where they are
    /// solutions in the root, and its multipliers are considered. The error is want of memory.
    pub(crate) fn take_improvement<R: Relaxation>(
        &mut self,
        alloc: Global,
        problem: &mut R,
        root: &Region,
        improvement: Improvement,
        best: &mut Option<Best>,
    ) -> Result<(), NoMemory>
        requires within { IsSubregion root.now self.old.region }
        requires worked { IsWorkedOn (R.meanings (R.problem problem.old)) (plan_in best.old) self.old }
        ensures same { R.problem problem.new ≡ R.problem problem.old }
        ensures advances { OnOk result (Advances (R.meanings (R.problem problem.old)) root.now (plan_in best.old)
            (plan_in best.new) self.old self.new) }
        ensures used { OnOk result (IsUsedUp (R.meanings (R.problem problem.old)) root.now improvement
            (plan_in best.old) (plan_in best.new) self.old self.new) }
    {
        let Improvement {
            multipliers,
            picks,
            cut,
        } = improvement;
        self.remember(cut);
        offer_solutions(alloc, problem, root, &picks, best)?;
        self.consider_any(alloc, problem, multipliers, best)
    }

    /// Evaluates the node under multipliers, where there are any, they fit and the node is open. The error is want of
    /// memory.
    #[tactic(auto, using(crate::proofs::Working::not_advanced))]
    fn consider_any<R: Relaxation>(
        &mut self,
        alloc: Global,
        problem: &mut R,
        multipliers: Option<Multipliers>,
        best: &mut Option<Best>,
    ) -> Result<(), NoMemory>
        requires worked { IsWorkedOn (R.meanings (R.problem problem.old)) (plan_in best.old) self.old }
        ensures same { R.problem problem.new ≡ R.problem problem.old }
        ensures advances { OnOk result (Advances (R.meanings (R.problem problem.old)) self.old.region
            (plan_in best.old) (plan_in best.new) self.old self.new) }
        ensures tried { OnOk result (AreTried (R.meanings (R.problem problem.old)) multipliers (plan_in best.old)
            (plan_in best.new) self.old self.new) }
    {
        let Some(multipliers) = multipliers else {
            return Ok(());
        };
        if !self.is_open(best) {
            return Ok(());
        }
        if !multipliers.fits(problem.indices(), problem.free_from()) {
            return Ok(());
        }
        self.consider(alloc, problem, multipliers, best)
    }

    /// Makes an evaluation the last one, and keeps it where its value is greater than that of the kept one. The error
    /// is want of memory.
    fn learn(&mut self, alloc: Global, evaluation: Evaluation) -> Result<(), NoMemory>
        ensures { OnOk result (self.new ≡ learned self.old evaluation) }
    {
        if self.kept.value.0 < evaluation.value.0 {
            self.kept = evaluation.copy(alloc)?;
        }
        self.last = evaluation;
        Ok(())
    }

    /// Remembers a cut in place of an earlier one.
    fn remember(&mut self, cut: Option<Cut>)
        ensures { self.new ≡ remembering cut self.old }
    {
        if let Some(cut) = cut {
            self.cut = Some(cut);
        }
    }

    /// The node of the search, by the number of nodes that were made before it.
    pub(crate) fn into_node(self, number: u32, best: &Option<Best>) -> SearchNode
        ensures { result ≡ node_from number (plan_in best.now) self }
    {
        let Work {
            region,
            kept,
            last,
            cut,
            end,
            ..
        } = self;
        drop(last);
        if let Some(ending) = end {
            return SearchNode::Fixed(ending.into_leaf());
        }
        let Evaluation {
            value,
            multipliers,
            picks,
        } = kept;
        if !is_below(value, best) {
            return SearchNode::Fixed(Node::CostLeaf {
                bound: value,
                multipliers,
            });
        }
        SearchNode::Pending(PendingNode {
            number,
            region,
            bound: value,
            multipliers,
            picks,
            cut,
        })
    }
}

/// The best solution, as an improver sees it.
fn incumbent(best: &Option<Best>) -> Option<Incumbent<'_>>
    ensures { shown_plan result ≡ plan_in best.now }
{
    match best {
        Some(best) => Some(Incumbent {
            picks: &best.picks,
            cost: best.cost,
        }),
        None => None,
    }
}
