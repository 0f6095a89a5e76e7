//! A relaxation in small: what `Relaxation` asks can be met.

ghost use Rattle.std.specs.Prelude.{◌≡◌, ◌<◌, ◌≤◌, ◌≤ℤ◌, ◌↔◌, pos, [], ◌∷◌, length, IsNone, IfSome};
ghost use Rattle.branch_tree.specs.Entries.{DoFit};
ghost use Rattle.branch_tree.specs.Meanings.{priced, weighted};
ghost use Rattle.branch_tree.specs.Regions.{are_in};
ghost use Rattle.worked_bounds.specs.LonePicks.{is_short, lone, lone_picks};
ghost use Rattle.worked_bounds.specs.LoneRelaxes.{lone_picks_relax};

use branch_tree::{BoundAnswer, Entry, Multipliers, Region, Relaxation, Settled, Slacks, Weight};
use compositions::Catalogue;
use rail_base::{CompNo, Money, TripNo};
use timetable::Picks;

/// Two trips, for which composition 0 alone follows, at a cost of 7. They are a solution where the catalogue has two
/// compositions.
#[derive(Drop)]
pub struct LonePicks<'a> {
    catalogue: &'a Catalogue,
    ghost some: { 0 < length catalogue.now },
}

impl<'a> LonePicks<'a> {
    /// The problem over a catalogue, or nothing where that has no composition.
    pub fn over(catalogue: &'a Catalogue) -> Option<LonePicks<'a>>
        ensures none { IsNone result ↔ (length catalogue.now ≡ 0) }
        ensures some { IfSome result (λ picks. picks.catalogue.now ≡ catalogue.now) }
    {
        if catalogue.len() == 0 {
            return None;
        }
        Some(LonePicks { catalogue })
    }
}

/// Whether there are too few compositions for a solution.
fn is_short(catalogue: &Catalogue) -> bool
    ensures { result ≡ is_short catalogue.now }
{
    catalogue.len() < 2
}

/// The cost under a weight.
fn cost(weight: Weight) -> i128
    ensures value { result ≡ weighted weight (pos 7) }
    ensures least { pos 0 ≤ℤ result }
    ensures most { result ≤ℤ pos 7 }
{
    match weight {
        Weight::Cost => 7,
        Weight::NoCost => 0,
    }
}

/// The priced value of composition 0 for both trips.
fn price(catalogue: &Catalogue, multipliers: &Multipliers, weight: Weight) -> Money
    requires { DoFit 1 1 multipliers.now }
    ensures { result.0 ≡ priced (lone_picks catalogue.now) multipliers.now weight lone }
{
    let cost = cost(weight);
    if !is_short(catalogue) {
        return Money(cost);
    }
    if multipliers.len() == 0 {
        return Money(cost);
    }
    Money(cost + i128::from(multipliers.value(0)))
}

/// Whether a region of two trips has composition 0 for both.
fn has_both(region: &Region) -> bool
    requires { length region.now ≡ 2 }
    ensures { result ≡ are_in lone region.now }
{
    region.has(TripNo(0), CompNo(0)) && region.has(TripNo(1), CompNo(0))
}

/// Makes picks of two trips composition 0 for both.
fn set_both(picks: &mut Picks)
    requires { length picks.old ≡ 2 }
    ensures { picks.new ≡ lone }
{
    picks.set(TripNo(0), CompNo(0));
    picks.set(TripNo(1), CompNo(0));
}

impl<'a> Relaxation for LonePicks<'a> {
    type Problem = Catalogue;

    ghost problem = { λ picks. picks.catalogue.now };

    ghost meanings = { lone_picks };

    ghost IsWellPosed = { λ catalogue. 0 < length catalogue };

    fn trips(&self) -> u32 {
        2
    }

    fn indices(&self) -> u32 {
        1
    }

    fn free_from(&self) -> u32 {
        1
    }

    fn catalogue(&self) -> &Catalogue {
        self.catalogue
    }

    fn bound(
        &mut self,
        region: &Region,
        multipliers: &Multipliers,
        weight: Weight,
        best: &mut Picks,
    ) -> BoundAnswer {
        if !has_both(region) {
            return BoundAnswer::Empty;
        }
        set_both(best);
        BoundAnswer::Value(price(self.catalogue, multipliers, weight))
    }

    fn follows(&self, picks: &Picks) -> bool {
        picks.get(TripNo(0)) == CompNo(0) && picks.get(TripNo(1)) == CompNo(0)
    }

    fn settle(&mut self, _picks: &Picks) -> Settled {
        if is_short(self.catalogue) {
            return Settled::Broken { index: 0, sign: 1 };
        }
        Settled::Costs(Money(7))
    }

    fn slacks(&mut self, _picks: &Picks, into: &mut Slacks) {
        into.clear();
        if is_short(self.catalogue) {
            into.put(Entry { index: 0, value: 1 });
        }
    }

    ghost relaxes = { lone_picks_relax };
}
