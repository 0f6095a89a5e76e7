//! Changes: what it costs to give trips other compositions than bases.

ghost use Rattle.std.specs.Prelude.{◌≡◌, ◌<◌, ◌==◌, if◌then◌else◌, All, length, pos};
ghost use Rattle.price_bound.specs.CellSizes.{IsSmall, most_number, most_chain_value};
ghost use Rattle.price_bound.specs.ChangedDays.{added_cost, own_cost};
ghost use Rattle.price_bound.specs.Changes.{AreFrom, IsOwnCount, change_cost};

use crate::priced_costs::added;
use rail_base::{CompNo, Money, TripNo};
use timetable::Picks;

/// What a trip costs more with another composition than its base.
#[derive(Clone, Copy)]
pub struct Change {
    /// The trip.
    pub trip: TripNo,
    /// The composition with which nothing is added.
    pub base: CompNo,
    /// What is added with another one, in the unit of the weights; at most 1,000,000.
    pub cost: u32,
}

/// How many of the first changes are a trip's, where the trips of the changes rise, and none is before it: one or none.
pub(crate) fn own_count(changes: &[Change], trip: TripNo) -> usize
    requires { AreFrom changes.now trip }
    ensures { IsOwnCount changes.now trip result }
{
    let Some(change) = changes.first() else {
        return 0;
    };
    if change.trip == trip {
        return 1;
    }
    0
}

/// What the change of a trip costs with a composition: 0 with its base, and 0 where the trip has no change.
pub(crate) fn change_cost(changes: &[Change], trip: TripNo, comp: CompNo) -> u32
    ensures { result ≡ change_cost changes.now trip comp }
{
    for place in 0..changes.len() {
        let change = &changes[place];
        if change.trip == trip {
            return cost_from(change, comp);
        }
    }
    0
}

/// What a change costs with a composition.
fn cost_from(change: &Change, comp: CompNo) -> u32
    ensures { result ≡ (if change.now.base == comp then 0 else change.now.cost) }
{
    if change.base == comp {
        return 0;
    }
    change.cost
}

/// What changes add to the cost of picks, which have one for the trip of each change.
pub(crate) fn added_cost(changes: &[Change], picks: &Picks) -> Money
    requires { All (λ change. change.trip < length picks.now) changes.now }
    ensures value { result.0 ≡ pos (added_cost changes.now picks.now) }
    ensures small { IsSmall most_chain_value result.0 }
{
    let mut sum = Money(0);
    for place in 0..changes.len() {
        let more = own_cost(&changes[place], picks);
        sum = added(sum, more);
    }
    sum
}

/// What one change adds to the cost of picks, which have one for its trip.
fn own_cost(change: &Change, picks: &Picks) -> Money
    requires { change.now.trip < length picks.now }
    ensures value { result.0 ≡ pos (own_cost picks.now change.now) }
    ensures small { IsSmall most_number result.0 }
{
    let comp = picks.get(change.trip);
    Money(i128::from(cost_from(change, comp)))
}
