//! Advisors, what they are shown of a node, and what they answer.

ghost use Rattle.std.specs.Prelude.{◌≡◌, ℕ, ◌+◌, ◌<◌, ◌^◌, Bool, true, false, Result};
ghost use Rattle.rail_base.specs.declared.memory.NoMemory.{NoMemory};
ghost use Rattle.advisors.specs.declared.advisor.Look.{Look};
ghost use Rattle.advisors.specs.declared.advisor.Word.{Word};
ghost use Rattle.advisors.specs.Quits.{quit_after};
ghost use Rattle.advisors.specs.Proposals.{DoesFit, IsOverSame};
ghost use Rattle.advisors.specs.Proposed.{Proposed};

use crate::proposal::Proposal;
use branch_tree::{Multipliers, Slacks};
use rail_base::{Money, NoMemory};
use timetable::Picks;

/// What an advisor answers beside its proposal.
#[derive(Clone, Copy, Debug, PartialEq, Eq)]
pub enum Word {
    /// It may be asked again for this node.
    More,
    /// It is not to be asked again for this node.
    Enough,
    /// It is not to be asked again at all, and this proposal is not to be used.
    Quit,
}

/// What an advisor is shown of a node: how far its region is divided, and what its evaluations gave.
#[derive(Drop)]
pub struct Look<'a> {
    /// How many rounds of advice this node had before.
    pub round: u8,
    /// For each trip how many compositions the node's region has left.
    pub sizes: &'a [u32],
    /// The least priced value with no multipliers.
    pub first: Money,
    /// The greatest least priced value so far.
    pub kept: Money,
    /// The least priced value of the last evaluation.
    pub last: Money,
    /// The multipliers of the last evaluation.
    pub multipliers: &'a Multipliers,
    /// The picks of the last evaluation, one for each trip.
    pub picks: &'a Picks,
    /// The slacks of these picks.
    pub slacks: &'a Slacks,
    /// The index from which on a multiplier may be negative.
    pub free_from: u32,
}

/// Proposes multipliers and a cut for a node, in whatever way. No answer of it can make what a search says false.
pub trait Advisor: Drop {
    /// How often it was asked.
    ghost asked: { Self → ℕ };

    /// Whether it has answered `Quit`, after which it is not asked again.
    ghost has_quit: { Self → Bool };

    /// Which advisor it is: where nothing else is said, none is told from another. `advise` leaves it as it is.
    ghost identity: { Self → ℕ } = { λ _. 0 };

    /// Whether its last call may have been this one: what it was shown, the proposal that it was given, its answer, and
    /// the proposal that it left. Where nothing else is said, it may have been any.
    ghost has_answered: { Self → Look → Proposed → Result Word NoMemory → Proposed → Bool } = { λ _ _ _ _ _. true };

    /// Asks for a proposal, which it puts into `to`, and for a word. It has not quit, and it was asked fewer than
    /// 2^64 - 1 times. The error is want of memory, after which too the count of calls has risen by one, it has the
    /// identity that it had, and `to` has the indices that it had and multipliers that fit them. An implementation that
    /// leaves `to` as it is learns from `Proposal::multipliers` that they fit.
    fn advise(&mut self, look: &Look<'_>, to: &mut Proposal) -> Result<Word, NoMemory>
        requires stays { has_quit self.old ≡ false }
        requires room { asked self.old + 1 < 2 ^ 64 }
        ensures asked { asked self.new ≡ asked self.old + 1 }
        ensures quit { has_quit self.new ≡ quit_after result }
        ensures same { identity self.new ≡ identity self.old }
        ensures answered { has_answered self.new look.now to.old result to.new ≡ true }
        ensures over { IsOverSame to.old to.new }
        ensures fit { DoesFit to.new };

    /// How often it was asked.
    fn asked(&self) -> u64
        ensures { result ≡ asked self.now };

    /// Whether it has answered `Quit`.
    fn has_quit(&self) -> bool
        ensures { result ≡ has_quit self.now };
}
