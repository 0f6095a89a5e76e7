//! Costs: for each trip and composition what the trip costs with it, under changes.
//!
//! They depend neither on a region nor on multipliers, so they are made once for a day, and no bound measures a train.

ghost use Rattle.std.specs.Prelude.{ℕ, ◌≡◌, ◌<◌, ◌≤◌, length, option_map, pos};
ghost use Rattle.timetable.specs.Compositions.{compositions_of};
ghost use Rattle.price_bound.specs.CellSizes.{most_cost};
ghost use Rattle.price_bound.specs.Changes.{AreFrom, changed_cost};
ghost use Rattle.price_bound.specs.Costs.{AreCosts, AreCostsIn, IsCostOf, cost_in};
ghost use Rattle.price_bound.specs.Credits.{AreRowsBut};
ghost use Rattle.price_bound.specs.PriceTables.{HasSize};

use crate::amounts::AmountTable;
use crate::changes::{Change, change_cost, own_count};
use crate::priced_costs::{Amount, types_of};
use cost_model::trip_cost;
use rail_base::{CompNo, TripNo};
use timetable::Instance;

/// What stands in a table of costs where a composition may not run on a trip: no cost is below 0.
const NO_COST: i64 = -1;

/// Puts into a table for each trip and composition what the trip costs with it under changes whose trips rise, where it
/// may run on the trip. It takes no memory, and goes through the changes once.
pub(crate) fn fill_costs(instance: &Instance, changes: &[Change], costs: &mut AmountTable)
    requires changes { AreFrom changes.now 0 }
    requires room { HasSize (length instance.now.trips) (length (compositions_of instance.now)) costs.old }
    ensures { AreCosts instance.now changes.now costs.new }
{
    let mut place = 0;
    for trip in 0..instance.trips() {
        let left = &changes[place..];
        let count = own_count(left, TripNo(trip));
        fill_row(instance, &left[..count], TripNo(trip), costs);
        place += count;
    }
}

/// Puts the costs of one trip, under changes of which the first is the trip's, if any is.
fn fill_row(instance: &Instance, changes: &[Change], trip: TripNo, costs: &mut AmountTable)
    requires trip { trip < length instance.now.trips }
    requires room { HasSize (length instance.now.trips) (length (compositions_of instance.now)) costs.old }
    ensures room { HasSize (length instance.now.trips) (length (compositions_of instance.now)) costs.new }
    ensures costs { AreCostsIn instance.now changes.now trip (length (compositions_of instance.now)) costs.new }
    ensures others { AreRowsBut trip costs.old costs.new }
{
    for comp in 0..instance.catalogue().len() {
        let cost = cost_of(instance, changes, trip, CompNo(comp));
        costs.put(trip.place(), comp as usize, cost);
    }
}

/// What a table has for a trip and a composition: what the trip costs with it, or `NO_COST` where it may not run on the
/// trip.
fn cost_of(instance: &Instance, changes: &[Change], trip: TripNo, comp: CompNo) -> i64
    requires trip { trip < length instance.now.trips }
    requires comp { comp < length (compositions_of instance.now) }
    ensures { IsCostOf instance.now changes.now trip comp result }
{
    if !instance.admits(trip, comp) {
        return NO_COST;
    }
    changed_cost(instance, changes, trip, comp)
}

/// What a trip costs with a composition, under changes.
#[tactic(auto, unfolding(crate::specs::Changes::changed_cost))]
fn changed_cost(instance: &Instance, changes: &[Change], trip: TripNo, comp: CompNo) -> i64
    requires trip { trip < length instance.now.trips }
    requires comp { comp < length (compositions_of instance.now) }
    ensures value { result ≡ pos (changed_cost instance.now changes.now trip comp) }
    ensures few { changed_cost instance.now changes.now trip comp ≤ most_cost }
{
    let cost = trip_cost(instance, trip, types_of(instance, comp));
    let change = change_cost(changes, trip, comp);
    (cost + u64::from(change)) as i64
}

/// The cost that an amount of a table stands for: none where it is below 0.
pub(crate) fn cost_in(amount: Amount) -> Option<Amount>
    ensures { option_map (λ cost. cost.0) result ≡ cost_in amount.0 }
{
    if amount.0 < 0 {
        return None;
    }
    Some(amount)
}
