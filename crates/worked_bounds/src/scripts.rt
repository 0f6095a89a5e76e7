//! Advisors that answer by a script, and want to be shown what stands in it.

ghost use Rattle.std.specs.Prelude.{◌≡◌};
ghost use Rattle.advisors.specs.Quits.{quit_after};
ghost use Rattle.advisors.specs.Proposals.{DoesFit, IsOverSame};

use crate::telling::write_look;
use advisors::{Advisor, Look, Proposal, Word};
use branch_tree::Cut;
use rail_base::{CompNo, NoMemory, TripNo, TypeNo};
use std::alloc::{AllocError, Global};

/// A cut by the numbers in it.
#[derive(Clone, Copy)]
pub(crate) enum CutNumbers {
    /// No cut.
    None,
    /// A trip, and the composition that it has on the left side.
    Only(u32, u32),
    /// A trip, a type of units, and how many of these it has at most on the left side.
    AtMost(u32, u32, u32),
}

/// A call of an advisor: what it is shown, and what it answers.
#[derive(Clone, Copy)]
pub(crate) struct Call {
    /// The look that is to be shown, as a text; where that is empty, whatever is shown is right.
    pub(crate) shown: &'static str,
    /// The indices and values of the multipliers that are put and taken.
    pub(crate) puts: &'static [(u32, i64)],
    /// The cut that is proposed.
    pub(crate) cut: CutNumbers,
    /// What is answered beside the proposal.
    pub(crate) word: Word,
}

/// A call that is shown anything, proposes nothing, and may be asked again.
pub(crate) const NO_PROPOSALS: Call = Call {
    shown: "",
    puts: &[],
    cut: CutNumbers::None,
    word: Word::More,
};

/// An advisor that has a script of calls, of which the last stands for all later ones too. It quits where the proposal
/// that it is given is not empty, where it is shown anything else than its script has, and where what it puts is
/// refused.
#[derive(Drop)]
pub(crate) struct Scripted {
    alloc: Global,
    script: &'static [Call],
    asked: u64,
    has_quit: bool,
}

impl Scripted {
    /// One that was not asked yet.
    pub(crate) fn by(alloc: Global, script: &'static [Call]) -> Scripted
        ensures { result.asked ≡ 0 }
    {
        Scripted {
            alloc,
            script,
            asked: 0,
            has_quit: false,
        }
    }
}

impl Advisor for Scripted {
    ghost asked = { λ advisor. advisor.asked };

    ghost has_quit = { λ advisor. advisor.has_quit };

    fn advise(&mut self, look: &Look<'_>, to: &mut Proposal) -> Result<Word, NoMemory> {
        let answer = answer(self.alloc, self.script, self.asked, look, to);
        self.asked += 1;
        self.has_quit = is_quit(&answer);
        answer
    }

    fn asked(&self) -> u64 {
        self.asked
    }

    fn has_quit(&self) -> bool {
        self.has_quit
    }
}

/// Whether an answer is that an advisor quits.
fn is_quit(answer: &Result<Word, NoMemory>) -> bool
    ensures { result ≡ quit_after answer.now }
{
    match answer {
        Ok(Word::Quit) => true,
        Ok(Word::More) | Ok(Word::Enough) | Err(_) => false,
    }
}

/// The answer of a script to its call of this number.
fn answer(
    alloc: Global,
    script: &[Call],
    number: u64,
    look: &Look<'_>,
    to: &mut Proposal,
) -> Result<Word, NoMemory>
    ensures over { IsOverSame to.old to.new }
    ensures fit { DoesFit to.new }
{
    let is_given_nothing = is_empty(to);
    let Some(call) = call_of(script, number) else {
        return Ok(Word::Quit);
    };
    let is_right = is_given_nothing && is_shown(alloc, call.shown, look)?;
    if !is_right {
        return Ok(Word::Quit);
    }
    Ok(propose(to, &call))
}

/// The call of a number, and the last one where there are not so many.
fn call_of(script: &[Call], number: u64) -> Option<Call> {
    match script.get(number as usize) {
        Some(call) => Some(*call),
        None => script.last().copied(),
    }
}

/// Whether a proposal has nothing in it.
fn is_empty(proposal: &Proposal) -> bool
    ensures fit { DoesFit proposal.now }
{
    proposal.multipliers().len() == 0 && proposal.asked_cut().is_none()
}

/// Whether a look is the one that is wanted.
fn is_shown(alloc: Global, wanted: &str, look: &Look<'_>) -> Result<bool, AllocError> {
    if wanted.len() == 0 {
        return Ok(true);
    }
    let mut text = String::new(alloc);
    write_look(&mut text, look)?;
    Ok(text.as_str() == wanted)
}

/// Proposes what a call has, and answers its word, or that it quits where what it puts is refused.
fn propose(to: &mut Proposal, call: &Call) -> Word
    ensures over { IsOverSame to.old to.new }
    ensures fit { DoesFit to.new }
{
    let are_taken = takes_all(to, call.puts);
    propose_cut(to, cut_of(call.cut));
    if are_taken { call.word } else { Word::Quit }
}

/// Puts multipliers, and tells whether they are all taken.
fn takes_all(to: &mut Proposal, puts: &[(u32, i64)]) -> bool
    ensures over { IsOverSame to.old to.new }
    ensures fit { DoesFit to.new }
{
    to.multipliers();
    for put in puts {
        let (index, value) = *put;
        if to.put(index, value).is_err() {
            return false;
        }
    }
    true
}

/// The cut of these numbers.
fn cut_of(numbers: CutNumbers) -> Option<Cut> {
    match numbers {
        CutNumbers::None => None,
        CutNumbers::Only(trip, comp) => Some(Cut::Only {
            trip: TripNo(trip),
            comp: CompNo(comp),
        }),
        CutNumbers::AtMost(trip, unit_type, count) => Some(Cut::AtMost {
            trip: TripNo(trip),
            unit_type: TypeNo(unit_type),
            count,
        }),
    }
}

/// Proposes a cut, where there is one.
fn propose_cut(to: &mut Proposal, cut: Option<Cut>)
    ensures over { IsOverSame to.old to.new }
    ensures fit { DoesFit to.new }
{
    to.multipliers();
    if let Some(cut) = cut {
        to.cut(cut);
    }
}
