//! The diver: a cut that decides the trip which is nearest to being decided.

ghost use Rattle.std.specs.Prelude.{◌≡◌, ◌+◌, ◌<◌, ◌^◌, length, false, Ok};
ghost use Rattle.advisors.specs.declared.advisor.Word.TheVariants.{Enough};
ghost use Rattle.advisors.specs.Dives.{IsDived, IsNarrowestOf};
ghost use Rattle.advisors.specs.Proposals.{DoesFit, IsOverSame};

use crate::advisor::{Advisor, Look, Word};
use crate::proposal::Proposal;
use branch_tree::Cut;
use rail_base::{NoMemory, TripNo};
use std::marker::Model;
use timetable::Picks;

/// Proposes no multipliers, and the cut that leaves one trip its composition in the last picks alone: the trip with
/// the fewest compositions left, of those with more than one. A contract sees how often it was asked.
#[derive(Drop)]
pub struct Diver {
    asked: u64,
}

impl Model for Diver {
    ghost use Rattle.std.specs.Prelude.{ℕ};

    ghost Value = { ℕ };

    ghost view = { λ a. a.asked };
}

impl Diver {
    /// One that was not asked yet.
    pub fn new() -> Diver
        ensures { result ≡ 0 }
    {
        Diver { asked: 0 }
    }
}

impl Advisor for Diver {
    ghost asked = { λ diver. diver };

    ghost has_quit = { λ _. false };

    /// It is told from a `Subgradient`, and from an advisor that says nothing of its identity.
    ghost identity = { λ _. 2 };

    /// Proposes the cut of the first trip with the fewest compositions left, more than one, and answers `Enough`. Where
    /// no trip has more than one it proposes nothing. It was asked fewer than 2^64 - 1 times, and takes no memory.
    fn advise(&mut self, look: &Look<'_>, to: &mut Proposal) -> Result<Word, NoMemory>
        requires room { self.old + 1 < 2 ^ 64 }
        ensures asked { self.new ≡ self.old + 1 }
        ensures answer { result ≡ Ok Enough }
        ensures dived { IsDived look.now.sizes.now look.now.picks.now to.old to.new }
        ensures multipliers { to.new.multipliers ≡ to.old.multipliers }
        ensures over { IsOverSame to.old to.new }
        ensures fit { DoesFit to.new }
    {
        self.asked += 1;
        dive(look.sizes, look.picks, to);
        Ok(Word::Enough)
    }

    fn asked(&self) -> u64 {
        self.asked
    }

    fn has_quit(&self) -> bool {
        false
    }
}

/// Proposes the cut of the narrowest trip, where there is one that has a pick.
fn dive(sizes: &[u32], picks: &Picks, to: &mut Proposal)
    ensures dived { IsDived sizes.now picks.now to.old to.new }
    ensures multipliers { to.new.multipliers ≡ to.old.multipliers }
    ensures over { IsOverSame to.old to.new }
    ensures fit { DoesFit to.new }
{
    to.multipliers();
    let Some(place) = narrowest(sizes) else {
        return;
    };
    if place >= picks.len() as usize {
        return;
    }
    let trip = TripNo(place as u32);
    let comp = picks.get(trip);
    to.cut(Cut::Only { trip, comp });
}

/// The first of the trips with the fewest compositions left, more than one; nothing where no trip has more.
fn narrowest(sizes: &[u32]) -> Option<usize>
    ensures { IsNarrowestOf (length sizes.now) sizes.now result }
{
    let mut found = None;
    for trip in 0..sizes.len() {
        found = narrower(sizes, trip, found);
    }
    found
}

/// The narrowest of the trips up to this one, where `found` is that of the trips before it.
fn narrower(sizes: &[u32], trip: usize, found: Option<usize>) -> Option<usize>
    requires trip { trip < length sizes.now }
    requires found { IsNarrowestOf trip sizes.now found }
    ensures { IsNarrowestOf (trip + 1) sizes.now result }
{
    if sizes[trip] <= 1 {
        return found;
    }
    match found {
        Some(before) if sizes[before] <= sizes[trip] => found,
        _ => Some(trip),
    }
}
