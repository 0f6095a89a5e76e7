//! Rounds of advice: while a node is open, each advisor that has not quit and has not said `Enough` for it is asked
//! once a round.

ghost use Rattle.std.specs.Prelude.{◌≡◌, [], None, false, true, length, map, replicate};
ghost use Rattle.std.specs.Prelude.{IfOk, OnOk};
ghost use Rattle.branch_tree.specs.Sets.{size_of};
ghost use Rattle.advisors.specs.Quits.{quit_after};
ghost use Rattle.advisors.specs.Proposals.{IsOverSame};
ghost use Rattle.search.specs.Questions.{AreAsked, AreLeftAlone, AreOnlyAsked, CanBeAsked, IsAskedOnce, MayBeAsked};
ghost use Rattle.search.specs.Questions.{in_rounds};
ghost use Rattle.search.specs.NodeAdvice.{HasAdvised, IsAdviceFor, IsQuestionFor, MayBePutAgain};
ghost use Rattle.search.specs.Conclusions.{plan_in};
ghost use Rattle.search.specs.NodesInWork.{Advances, IsWorkedOn, is_open_work};
ghost use Rattle.search.specs.Rounds.{AreAdvised, IsFollowed, IsRound, advice_state};

use crate::found::Best;
use crate::work::{Shown, Work};
use advisors::{Advisor, Look, Proposal, Word};
use branch_tree::{Region, Relaxation, Slacks};
use rail_base::{NoMemory, TripNo};
use std::alloc::Global;

/// What an advisor is asked about a node.
#[derive(Drop)]
struct Question {
    /// What is shown beside the evaluations of the node.
    shown: Shown,
    /// The proposal that it is to fill.
    proposal: Proposal,
}

/// What the advisors of one node are asked, and which of them have enough.
#[derive(Drop)]
struct NodeAdvice {
    /// What each of them is asked.
    question: Question,
    /// For each advisor whether it has said `Enough`.
    has_enough: Vec<bool>,
}

/// Asks the advisors about a node while it is open, in so many rounds at most, and takes up what they propose. The
/// error is want of memory.
pub(crate) fn advise<R: Relaxation>(
    alloc: Global,
    problem: &mut R,
    work: &mut Work,
    best: &mut Option<Best>,
    rounds: u8,
    advisors: &mut Vec<Box<dyn Advisor>>,
) -> Result<(), NoMemory>
    requires worked { IsWorkedOn (R.meanings (R.problem problem.old)) (plan_in best.old) work.old }
    requires room { MayBeAsked advisors.old.items asked rounds }
    ensures same { R.problem problem.new ≡ R.problem problem.old }
    ensures advances { OnOk result (Advances (R.meanings (R.problem problem.old)) work.old.region (plan_in best.old)
        (plan_in best.new) work.old work.new) }
    ensures advisors { AreOnlyAsked advisors.old.items advisors.new.items identity asked has_quit rounds }
    ensures least { OnOk result (is_open_work (plan_in best.new) work.new ≡ true →
        AreAsked advisors.old.items advisors.new.items asked has_quit (in_rounds rounds 1) rounds) }
    ensures advised { OnOk result (AreAdvised has_quit has_answered (R.meanings (R.problem problem.old)) rounds
        advisors.old.items advisors.new.items (plan_in best.old) (plan_in best.new) work.old work.new) }
{
    let mut advice = NodeAdvice::new(alloc, problem, work.region(), advisors.len())?;
    for round in 0..rounds {
        if !work.is_open(best) {
            return Ok(());
        }
        advice.question.shown.rounds_made = round;
        make_round(alloc, problem, work, best, &mut advice, advisors)?;
    }
    Ok(())
}

/// Asks each advisor once that has not quit and has not said `Enough` for this node, in order, while the node is open.
/// The error is want of memory.
fn make_round<R: Relaxation>(
    alloc: Global,
    problem: &mut R,
    work: &mut Work,
    best: &mut Option<Best>,
    advice: &mut NodeAdvice,
    advisors: &mut Vec<Box<dyn Advisor>>,
) -> Result<(), NoMemory>
    requires worked { IsWorkedOn (R.meanings (R.problem problem.old)) (plan_in best.old) work.old }
    requires room { MayBeAsked advisors.old.items asked 1 }
    requires advice { IsAdviceFor (R.meanings (R.problem problem.old)) work.old.region
        (length advisors.old.items) advice.old }
    ensures same { R.problem problem.new ≡ R.problem problem.old }
    ensures advances { OnOk result (Advances (R.meanings (R.problem problem.old)) work.old.region (plan_in best.old)
        (plan_in best.new) work.old work.new) }
    ensures advice { OnOk result (IsAdviceFor (R.meanings (R.problem problem.old)) work.old.region
        (length advisors.old.items) advice.new) }
    ensures advisors { AreOnlyAsked advisors.old.items advisors.new.items identity asked has_quit 1 }
    ensures alone { AreLeftAlone advisors.old.items advisors.new.items advice.old.has_enough.items }
    ensures round { OnOk result (IsRound asked has_quit has_answered (R.meanings (R.problem problem.old))
        advice.old.question.shown.rounds_made
        (advice_state advisors.old.items advice.old (plan_in best.old) work.old)
        (advice_state advisors.new.items advice.new (plan_in best.new) work.new)) }
{
    for place in 0..advisors.len() {
        if !work.is_open(best) {
            return Ok(());
        }
        if advice.has_enough[place] {
            continue;
        }
        if did_quit(&advisors[place]) {
            continue;
        }
        let word = take_advice(
            alloc,
            problem,
            work,
            best,
            &mut advice.question,
            &mut advisors[place],
        )?;
        advice.has_enough[place] = word == Word::Enough;
    }
    Ok(())
}

/// Asks an advisor, which has not quit, about a node, and takes up what it proposes unless it quits. Answers its word;
/// the error is want of memory.
fn take_advice<R: Relaxation>(
    alloc: Global,
    problem: &mut R,
    work: &mut Work,
    best: &mut Option<Best>,
    question: &mut Question,
    advisor: &mut Box<dyn Advisor>,
) -> Result<Word, NoMemory>
    requires worked { IsWorkedOn (R.meanings (R.problem problem.old)) (plan_in best.old) work.old }
    requires question { IsQuestionFor (R.meanings (R.problem problem.old)) work.old.region question.old }
    requires ready { CanBeAsked asked has_quit advisor.old }
    ensures same { R.problem problem.new ≡ R.problem problem.old }
    ensures advances { OnOk result (Advances (R.meanings (R.problem problem.old)) work.old.region (plan_in best.old)
        (plan_in best.new) work.old work.new) }
    ensures question { MayBePutAgain question.old question.new }
    ensures once { IsAskedOnce identity asked advisor.old advisor.new }
    ensures followed { IfOk result (IsFollowed has_quit has_answered (R.meanings (R.problem problem.old))
        question.old.shown.rounds_made advisor.new (plan_in best.old) (plan_in best.new) work.old work.new) }
{
    let word = ask(problem, work, question, advisor)?;
    if word != Word::Quit {
        work.take_up(alloc, problem, &question.proposal, best)?;
    }
    Ok(word)
}

/// Whether an advisor has quit.
fn did_quit(advisor: &Box<dyn Advisor>) -> bool
    ensures { result ≡ has_quit advisor.now }
{
    advisor.has_quit()
}

/// Shows an advisor a node, and asks it for a proposal.
fn ask<R: Relaxation>(
    problem: &mut R,
    work: &Work,
    question: &mut Question,
    advisor: &mut Box<dyn Advisor>,
) -> Result<Word, NoMemory>
    requires follow { (R.meanings (R.problem problem.old)).Follow work.now.last.picks }
    requires question { IsQuestionFor (R.meanings (R.problem problem.old)) work.now.region question.old }
    requires ready { CanBeAsked asked has_quit advisor.old }
    ensures same { R.problem problem.new ≡ R.problem problem.old }
    ensures question { MayBePutAgain question.old question.new }
    ensures once { IsAskedOnce identity asked advisor.old advisor.new }
    ensures quit { has_quit advisor.new ≡ quit_after result }
    ensures answered { HasAdvised has_answered (R.meanings (R.problem problem.old)) question.old.shown.rounds_made
        work.now advisor.new result question.new.proposal }
{
    problem.slacks(work.last_picks(), &mut question.shown.slacks);
    question.proposal.clear();
    let look = work.look(problem, &question.shown);
    propose(&look, &mut question.proposal, advisor)
}

/// Asks an advisor to fill a proposal that is empty.
fn propose(
    look: &Look<'_>,
    proposal: &mut Proposal,
    advisor: &mut Box<dyn Advisor>,
) -> Result<Word, NoMemory>
    requires ready { CanBeAsked asked has_quit advisor.old }
    requires multipliers { proposal.old.multipliers ≡ [] }
    requires cut { proposal.old.cut ≡ None }
    ensures once { IsAskedOnce identity asked advisor.old advisor.new }
    ensures quit { has_quit advisor.new ≡ quit_after result }
    ensures over { IsOverSame proposal.old proposal.new }
    ensures answered { has_answered advisor.new look.now proposal.old result proposal.new ≡ true }
{
    advisor.advise(look, proposal)
}

impl NodeAdvice {
    /// What so many advisors are asked about a region, none of whom has answered yet. The error is want of memory.
    fn new<R: Relaxation>(
        alloc: Global,
        problem: &R,
        region: &Region,
        advisors: usize,
    ) -> Result<NodeAdvice, NoMemory>
        ensures advice { IfOk result (IsAdviceFor (R.meanings (R.problem problem.now)) region.now advisors) }
        ensures none { IfOk result (λ advice. advice.has_enough.items ≡ replicate advisors false) }
    {
        let question = Question {
            shown: Shown {
                rounds_made: 0,
                sizes: sizes_of(alloc, region)?,
                slacks: Slacks::new(alloc)?,
            },
            proposal: Proposal::new(alloc, problem.indices(), problem.free_from())?,
        };
        Ok(NodeAdvice {
            question,
            has_enough: vec![in alloc; false; advisors]?,
        })
    }
}

/// How many compositions each trip of a region has. The error is want of memory.
fn sizes_of(alloc: Global, region: &Region) -> Result<Vec<u32>, NoMemory>
    ensures { IfOk result (λ sizes. sizes.items ≡ map size_of region.now) }
{
    let mut sizes = Vec::new(alloc);
    for trip in 0..region.trips() {
        sizes.push(region.size(TripNo(trip)))?;
    }
    Ok(sizes)
}
