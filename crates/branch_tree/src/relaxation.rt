//! Relaxations: problems over picks whose least priced values bound the cost of every solution.

ghost use Rattle.std.specs.Prelude.{◌≡◌, ◌↔◌, ◌<ℤ◌, IsTrue, MatchOption, length, pos};
ghost use Rattle.branch_tree.specs.Bounds.{AreSlacks, IsBound, IsSettled};
ghost use Rattle.branch_tree.specs.Meanings.{DoFitFor, IsRelaxation, Meanings};

use crate::multipliers::Multipliers;
use crate::regions::Region;
use crate::slacks::Slacks;
use compositions::Catalogue;
use rail_base::Money;
use timetable::Picks;

/// What is priced besides the slacks.
#[derive(Clone, Copy)]
pub enum Weight {
    /// The cost of the picks.
    Cost,
    /// Nothing: the cost counts as 0.
    NoCost,
}

/// The least priced value over the picks near a region.
#[derive(Clone, Copy, Debug)]
pub enum BoundAnswer {
    /// No picks are near the region.
    Empty,
    /// The least priced value.
    Value(Money),
}

/// Whether a least priced value was found, and is positive.
pub fn is_positive(found: Option<Money>) -> bool
    ensures { IsTrue result ↔ MatchOption found ⊥ (λ value. pos 0 <ℤ value.0) }
{
    match found {
        Some(value) => value.0 > 0,
        None => false,
    }
}

/// Whether picks that follow are a solution.
#[derive(Clone, Copy, Debug)]
pub enum Settled {
    /// They are a solution of this cost.
    Costs(Money),
    /// They are no solution.
    Broken {
        /// An index at which they have a slack.
        index: u32,
        /// The sign of that slack.
        sign: i8,
    },
}

/// A problem over picks, one composition for each trip, whose least priced values bound the cost of every solution.
pub trait Relaxation {
    /// What a problem is, apart from the room in which it is worked on.
    type Problem;

    /// The problem that is worked on; no call changes it.
    ghost problem: { Self → Self.Problem };

    /// The trips, costs, slacks and solutions of a problem.
    ghost meanings: { Self.Problem → Meanings };

    /// What is known of every problem that is worked on.
    ghost IsWellPosed: { Self.Problem → Type 0 };

    /// How many trips there are.
    fn trips(&self) -> u32
        ensures value { result ≡ (meanings (problem self.now)).trips }
        ensures accepted { IsWellPosed (problem self.now) };

    /// How many multiplier indices there are.
    fn indices(&self) -> u32
        ensures { result ≡ (meanings (problem self.now)).indices };

    /// The index from which on a multiplier may be negative.
    fn free_from(&self) -> u32
        ensures { result ≡ (meanings (problem self.now)).free_from };

    /// The compositions by number.
    fn catalogue(&self) -> &Catalogue
        ensures { result.now ≡ (meanings (problem self.now)).catalogue };

    /// The least priced value that picks near a region have under multipliers that fit, with the picks in `best`: of
    /// several those whose compositions, in the problem's order of trips, come first as a list. If nothing is near the
    /// region the answer is `Empty`, and `best` stays. The region and `best` have a set and a pick for each trip.
    fn bound(
        &mut self,
        region: &Region,
        multipliers: &Multipliers,
        weight: Weight,
        best: &mut Picks,
    ) -> BoundAnswer
        requires fit { DoFitFor (meanings (problem self.old)) multipliers.now }
        requires region { length region.now ≡ (meanings (problem self.old)).trips }
        requires best { length best.old ≡ (meanings (problem self.old)).trips }
        ensures same { problem self.new ≡ problem self.old }
        ensures bound { IsBound (meanings (problem self.old)) region.now multipliers.now weight result
            best.old best.new };

    /// Whether picks follow: each is admissible, and from trip to trip each chain has allowed edges. There is one for
    /// each trip.
    fn follows(&self, picks: &Picks) -> bool
        requires { length picks.now ≡ (meanings (problem self.now)).trips }
        ensures { IsTrue result ↔ (meanings (problem self.now)).Follow picks.now };

    /// Whether picks that follow are a solution, and its cost; else an index at which they have a slack, and its sign.
    fn settle(&mut self, picks: &Picks) -> Settled
        requires { (meanings (problem self.old)).Follow picks.now }
        ensures same { problem self.new ≡ problem self.old }
        ensures settled { IsSettled (meanings (problem self.old)) picks.now result };

    /// Puts the slacks of picks that follow, those that are not 0, in place of what `into` held.
    fn slacks(&mut self, picks: &Picks, into: &mut Slacks)
        requires { (meanings (problem self.old)).Follow picks.now }
        ensures same { problem self.new ≡ problem self.old }
        ensures slacks { AreSlacks (meanings (problem self.old)) picks.now into.new };

    /// An accepted problem is a relaxation of its solutions.
    ghost relaxes: { (accepted : Self.Problem) → IsWellPosed accepted → IsRelaxation (meanings accepted) };
}
