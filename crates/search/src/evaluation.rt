//! Evaluations: what a relaxation tells of a region under multipliers.

ghost use Rattle.std.specs.Prelude.{◌≡◌, ◌⊎◌, ◌∷◌, [], length, pos, negsuc, IfOk, OnOk, if◌then◌else◌};
ghost use Rattle.branch_tree.specs.Bounds.{IsEmpty};
ghost use Rattle.branch_tree.specs.Claims.{is_below};
ghost use Rattle.branch_tree.specs.Meanings.{DoFitFor};
ghost use Rattle.search.specs.Evaluations.{IsOutcome, IsRayTest, IsSettledAs, leaf_of};
ghost use Rattle.search.specs.Offers.{IsOffered};
ghost use Rattle.search.specs.Conclusions.{plan_in};

use crate::found::Best;
use branch_tree::{
    BoundAnswer, Multipliers, Node, Region, Relaxation, Settled, Weight, is_positive,
};
use rail_base::{Money, NoMemory};
use std::alloc::Global;
use timetable::Picks;

/// What a region with picks near it has under multipliers.
#[derive(Drop)]
pub(crate) struct Evaluation {
    /// The least priced value, with the cost.
    pub value: Money,
    /// The multipliers.
    pub multipliers: Multipliers,
    /// The picks that were chosen, which have that value.
    pub picks: Picks,
}

/// Why a region has no solution.
#[derive(Drop)]
pub(crate) enum Ending {
    /// No picks are near it.
    Empty,
    /// Under these multipliers its least priced value without cost is positive.
    Ray(Multipliers),
}

/// How an evaluation ends.
#[derive(Drop)]
pub(crate) enum EvaluationEnd {
    /// The region has no solution.
    Ended(Ending),
    /// The region may have a solution.
    Open(Evaluation),
}

impl Ending {
    /// The leaf that says so.
    pub(crate) fn into_leaf(self) -> Node
        ensures { result ≡ leaf_of self }
    {
        match self {
            Ending::Empty => Node::EmptyLeaf,
            Ending::Ray(multipliers) => Node::RayLeaf { multipliers },
        }
    }
}

impl Evaluation {
    /// The same again. The error is want of memory.
    pub(crate) fn copy(&self, alloc: Global) -> Result<Evaluation, NoMemory>
        ensures { IfOk result (λ copy. copy ≡ self.now) }
    {
        Ok(Evaluation {
            value: self.value,
            multipliers: self.multipliers.copy(alloc)?,
            picks: self.picks.copy(alloc)?,
        })
    }
}

/// Evaluates a region under multipliers that fit. A solution that is met there is offered as the best. The error is
/// want of memory.
pub(crate) fn evaluate<R: Relaxation>(
    alloc: Global,
    problem: &mut R,
    region: &Region,
    multipliers: Multipliers,
    best: &mut Option<Best>,
) -> Result<EvaluationEnd, NoMemory>
    requires fits { DoFitFor (R.meanings (R.problem problem.old)) multipliers }
    requires region { length region.now ≡ (R.meanings (R.problem problem.old)).trips }
    ensures same { R.problem problem.new ≡ R.problem problem.old }
    ensures offered { OnOk result (IsOffered (R.meanings (R.problem problem.old)) region.now (plan_in best.old)
        (plan_in best.new)) }
    ensures accepted { OnOk result (R.IsWellPosed (R.problem problem.old)) }
    ensures outcome { IfOk result (IsOutcome (R.meanings (R.problem problem.old)) region.now multipliers
        (plan_in best.new)) }
{
    let mut picks = Picks::new(alloc, problem.trips())?;
    let BoundAnswer::Value(value) = problem.bound(region, &multipliers, Weight::Cost, &mut picks)
    else {
        return Ok(EvaluationEnd::Ended(Ending::Empty));
    };
    if let Some(named) = settle(alloc, problem, region, &picks, best)? {
        return Ok(EvaluationEnd::Ended(Ending::Ray(named)));
    }
    if multipliers.len() > 0 && is_ray(alloc, problem, region, &multipliers)? {
        return Ok(EvaluationEnd::Ended(Ending::Ray(multipliers)));
    }
    Ok(EvaluationEnd::Open(Evaluation {
        value,
        multipliers,
        picks,
    }))
}

/// Settles picks that are near a region. Where they are a solution they are offered as the best; else the multiplier
/// that is named for them is answered where it alone shows that the region has no solution.
fn settle<R: Relaxation>(
    alloc: Global,
    problem: &mut R,
    region: &Region,
    picks: &Picks,
    best: &mut Option<Best>,
) -> Result<Option<Multipliers>, NoMemory>
    requires region { length region.now ≡ (R.meanings (R.problem problem.old)).trips }
    requires accepted { R.IsWellPosed (R.problem problem.old) }
    requires near { (R.meanings (R.problem problem.old)).AreNear picks.now region.now }
    ensures same { R.problem problem.new ≡ R.problem problem.old }
    ensures offered { OnOk result (IsOffered (R.meanings (R.problem problem.old)) region.now (plan_in best.old)
        (plan_in best.new)) }
    ensures settled { IfOk result (IsSettledAs (R.meanings (R.problem problem.old)) region.now
        (plan_in best.new) picks.now) }
{
    match problem.settle(picks) {
        Settled::Costs(cost) => {
            offer(alloc, best, picks, cost)?;
            Ok(None)
        }
        Settled::Broken { index, sign } => {
            let named = single(alloc, index, sign)?;
            if is_ray(alloc, problem, region, &named)? {
                Ok(Some(named))
            } else {
                Ok(None)
            }
        }
    }
}

/// Whether the least priced value of a region under multipliers, without cost, is positive. Something is near the
/// region.
fn is_ray<R: Relaxation>(
    alloc: Global,
    problem: &mut R,
    region: &Region,
    multipliers: &Multipliers,
) -> Result<bool, NoMemory>
    requires fits { DoFitFor (R.meanings (R.problem problem.old)) multipliers.now }
    requires region { length region.now ≡ (R.meanings (R.problem problem.old)).trips }
    requires some { IsEmpty (R.meanings (R.problem problem.old)) region.now → ⊥ }
    ensures same { R.problem problem.new ≡ R.problem problem.old }
    ensures ray { IfOk result (IsRayTest (R.meanings (R.problem problem.old)) region.now multipliers.now) }
{
    let mut picks = Picks::new(alloc, problem.trips())?;
    match problem.bound(region, multipliers, Weight::NoCost, &mut picks) {
        BoundAnswer::Empty => Ok(false),
        BoundAnswer::Value(value) => Ok(is_positive(Some(value))),
    }
}

/// One multiplier: a sign at an index.
fn single(alloc: Global, index: u32, sign: i8) -> Result<Multipliers, NoMemory>
    requires { (sign ≡ pos 1) ⊎ (sign ≡ negsuc 0) }
    ensures { IfOk result (λ multipliers. multipliers ≡ record { index = index; value = sign } ∷ []) }
{
    let mut multipliers = Multipliers::new(alloc)?;
    let put = multipliers.put(index, i64::from(sign));
    prove!(put.is_ok());
    Ok(multipliers)
}

/// Makes a solution the best where it costs less than the best one so far, or is the first.
pub(crate) fn offer(
    alloc: Global,
    best: &mut Option<Best>,
    picks: &Picks,
    cost: Money,
) -> Result<(), NoMemory>
    ensures { OnOk result (plan_in best.new ≡ (if is_below cost.0 (plan_in best.old)
        then Some (record { cost = cost.0; picks = picks.now }) else plan_in best.old)) }
{
    if is_below(cost, best) {
        *best = Some(Best {
            picks: picks.copy(alloc)?,
            cost,
        });
    }
    Ok(())
}

/// Whether a bound leaves room for a better solution: there is none yet, or the bound is below its cost.
pub(crate) fn is_below(bound: Money, best: &Option<Best>) -> bool
    ensures { result ≡ is_below bound.0 (plan_in best.now) }
{
    match best {
        Some(best) => bound.0 < best.cost.0,
        None => true,
    }
}
