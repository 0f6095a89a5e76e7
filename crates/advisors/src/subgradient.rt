//! The subgradient: the last multipliers, moved along the slacks that the picks have under them.

ghost use Rattle.std.specs.Prelude.{◌≡◌, ◌≢◌, ◌+◌, ◌<◌, ◌≤◌, ◌^◌, [], ◌∷◌, ◌++◌, pos, unsigned_abs, false, Ok};
ghost use Rattle.rail_base.specs.declared.limits.TheConstants.{MAX_MULTIPLIER};
ghost use Rattle.branch_tree.specs.Entries.{AreRising};
ghost use Rattle.advisors.specs.EntriesByIndex.{below, from_on};
ghost use Rattle.advisors.specs.Proposals.{DoesFit, IsOverSame};
ghost use Rattle.advisors.specs.MultiplierSteps.{moved, step_of, word_for};
ghost use Rattle.advisors.specs.Puts.{AreDividedAt, moved_entry, with_entries, with_entry};
ghost use Rattle.advisors.specs.SteppedProposals.{IsStepped};

use crate::advisor::{Advisor, Look, Word};
use crate::proposal::Proposal;
use branch_tree::Entry;
use rail_base::limits::MAX_MULTIPLIER;
use rail_base::{Money, NoMemory};
use std::marker::Model;

/// Proposes the last multipliers, raised at each index with a positive slack and lowered at each with a negative one,
/// by a step that never grows from round to round, and no cut. A contract sees how often it was asked.
#[derive(Drop)]
pub struct Subgradient {
    asked: u64,
}

impl Model for Subgradient {
    ghost use Rattle.std.specs.Prelude.{ℕ};

    ghost Value = { ℕ };

    ghost view = { λ a. a.asked };
}

impl Subgradient {
    /// One that was not asked yet.
    pub fn new() -> Subgradient
        ensures { result ≡ 0 }
    {
        Subgradient { asked: 0 }
    }
}

impl Advisor for Subgradient {
    ghost asked = { λ subgradient. subgradient };

    ghost has_quit = { λ _. false };

    /// It is told from a `Diver`, and from an advisor that says nothing of its identity.
    ghost identity = { λ _. 1 };

    /// Proposes the last multipliers, moved by the step times the slack at each index that has one, kept within 10^12
    /// in size, and at 0 where they may not be negative and would be. They are put by rising index, and one that the
    /// proposal refuses, as it does where there is no room for it, is left out. It answers `More`; without slacks it
    /// proposes nothing and answers `Enough`. It was asked fewer than 2^64 - 1 times, and takes no memory.
    fn advise(&mut self, look: &Look<'_>, to: &mut Proposal) -> Result<Word, NoMemory>
        requires room { self.old + 1 < 2 ^ 64 }

        // The count of calls, and the word.
        ensures asked { self.new ≡ self.old + 1 }
        ensures answer { result ≡ Ok (word_for look.now.slacks.now) }

        // What is proposed.
        ensures nothing { look.now.slacks.now ≡ [] → to.new ≡ to.old }
        ensures stepped { look.now.slacks.now ≢ [] → IsStepped look.now to.old to.new }
        ensures over { IsOverSame to.old to.new }
        ensures fit { DoesFit to.new }
    {
        self.asked += 1;
        to.multipliers();
        if look.slacks.len() == 0 {
            return Ok(Word::Enough);
        }
        propose(look, to);
        Ok(Word::More)
    }

    fn asked(&self) -> u64 {
        self.asked
    }

    fn has_quit(&self) -> bool {
        false
    }
}

/// Proposes the last multipliers, moved at each index that has a slack, by rising index.
fn propose(look: &Look<'_>, to: &mut Proposal)
    ensures stepped { IsStepped look.now to.old to.new }
    ensures over { IsOverSame to.old to.new }
    ensures fit { DoesFit to.new }
{
    to.multipliers();
    let mut entries = look.multipliers.entries();
    for place in 0..look.slacks.len() {
        entries = put_through(to, look, look.slacks.at(place), entries);
    }
    put_all(to, entries);
}

/// Puts the multipliers of the indices below that of a slack, and then the one that is moved along it. Answers those of
/// the indices above.
fn put_through<'a>(
    to: &mut Proposal,
    look: &Look<'_>,
    slack: Entry,
    entries: &'a [Entry],
) -> &'a [Entry]
    requires { AreRising entries.now }
    ensures put { to.new ≡ with_entries to.old (below slack.index entries.now ++ moved_entry look.now slack ∷ []) }
    ensures rest { result.now ≡ from_on (slack.index + 1) entries.now }
    ensures fit { DoesFit to.new }
{
    let index = u64::from(slack.index);
    put_all(to, &entries[..count_below(entries, index)]);
    put_if_room(to, moved_entry(look, slack));
    &entries[count_below(entries, index + 1)..]
}

/// Puts entries one after another, and leaves out those that are refused.
fn put_all(to: &mut Proposal, entries: &[Entry])
    ensures put { to.new ≡ with_entries to.old entries.now }
    ensures fit { DoesFit to.new }
{
    to.multipliers();
    for place in 0..entries.len() {
        put_if_room(to, entries[place]);
    }
}

/// Puts an entry, or leaves it out where it is refused.
fn put_if_room(to: &mut Proposal, entry: Entry)
    ensures put { to.new ≡ with_entry to.old entry }
    ensures fit { DoesFit to.new }
{
    let _is_put = to.put(entry.index, entry.value).is_ok();
}

/// How many entries, by rising index, are of indices below this one.
fn count_below(entries: &[Entry], index: u64) -> usize
    requires { AreRising entries.now }
    ensures { AreDividedAt entries.now index result }
{
    for place in 0..entries.len() {
        if u64::from(entries[place].index) >= index {
            return place;
        }
    }
    entries.len()
}

/// The last multiplier of the index of a slack, moved along the slack.
fn moved_entry(look: &Look<'_>, slack: Entry) -> Entry
    ensures { result ≡ moved_entry look.now slack }
{
    look.multipliers.entries();
    let step = step_of(look.first, look.round);
    let value = look.multipliers.value(slack.index);
    let may_be_negative = slack.index >= look.free_from;
    Entry {
        index: slack.index,
        value: moved(value, step, slack.value, may_be_negative),
    }
}

/// A quarter of the size of the bound with no multipliers, divided by the number of the round counted from 1, both
/// rounded down; at least 1.
fn step_of(first: Money, round: u8) -> i128
    ensures { result ≡ pos (step_of first.0 round) }
{
    let quarter = first.0.unsigned_abs() / 4;
    let step = quarter / (u128::from(round) + 1);
    step.max(1) as i128
}

/// A multiplier moved by the step times the slack, within 10^12 in size, and at 0 where it may not be negative and
/// would be.
fn moved(value: i64, step: i128, slack: i64, may_be_negative: bool) -> i64
    requires { unsigned_abs value ≤ MAX_MULTIPLIER }
    ensures { result ≡ moved value step slack may_be_negative }
{
    let most = MAX_MULTIPLIER as i128;
    let least = if may_be_negative { -most } else { 0 };
    let moved = step
        .saturating_mul(i128::from(slack))
        .saturating_add(i128::from(value));
    moved.clamp(least, most) as i64
}
