//! Changes of a day by chance, and what they add to the cost of picks.

ghost use Rattle.std.specs.Prelude.{◌<◌, ◌≤◌, All, IsTrue, length};
ghost use Rattle.rail_base.specs.declared.limits.TheConstants.{MAX_CHANGE};
ghost use Rattle.timetable.specs.Compositions.{compositions_of};
ghost use Rattle.timetable.specs.Picks.{ArePicks};
ghost use Rattle.transitions.specs.Edges.{AreGraphs};
ghost use Rattle.price_bound.specs.ChangedDays.{AreChanges};

use crate::drawn_days::Draws;
use cost_model::cost;
use price_bound::{Change, DayBounds};
use rail_base::limits::MAX_CHANGE;
use rail_base::{CompNo, TripNo};
use std::alloc::Global;
use std::test::Fail;
use timetable::{Instance, Picks};
use transitions::Graphs;

/// The relaxation of a day under changes. Those that are none of the day fail the test.
pub(crate) fn bounds_under<'a>(
    alloc: Global,
    day: &'a Instance,
    graphs: &'a Graphs,
    changes: &'a [Change],
) -> Result<DayBounds<'a>, Fail>
    requires { AreGraphs day.now graphs.now }
{
    if !are_changes(day, changes) {
        return Err(Fail::new("the changes are none of the day"));
    }
    Ok(DayBounds::with_changes(alloc, day, graphs, changes)?)
}

/// Changes of about every other trip, with a base by chance; one day in three has none.
pub(crate) fn drawn_changes(
    alloc: Global,
    day: &Instance,
    draws: &mut Draws,
) -> Result<Vec<Change>, Fail> {
    let mut changes = Vec::new(alloc);
    if draws.below(3) == 0 {
        return Ok(changes);
    }
    for trip in 0..day.trips() {
        if draws.below(2) == 0 {
            changes.push(Change {
                trip: TripNo(trip),
                base: CompNo(draws.below(day.catalogue().len().max(1))),
                cost: drawn_cost(draws),
            })?;
        }
    }
    Ok(changes)
}

/// What a change costs: now and then the most that it may, and mostly as little as a composition costs more on a trip.
fn drawn_cost(draws: &mut Draws) -> u32 {
    if draws.below(8) == 0 {
        MAX_CHANGE
    } else {
        10 * draws.below(12)
    }
}

/// What picks cost under changes.
pub(crate) fn cost_under(day: &Instance, changes: &[Change], picks: &Picks) -> i128
    requires { ArePicks day.now picks.now }
{
    cost(day, picks).0.wrapping_add(added_cost(changes, picks))
}

/// What changes add to the cost of picks.
fn added_cost(changes: &[Change], picks: &Picks) -> i128 {
    let mut sum: i128 = 0;
    for change in changes {
        if change.trip.0 < picks.len() && picks.get(change.trip) != change.base {
            sum = sum.wrapping_add(i128::from(change.cost));
        }
    }
    sum
}

/// Whether the trips of changes rise and are the day's, each base is in the catalogue, and no cost is too high.
fn are_changes(day: &Instance, changes: &[Change]) -> bool
    ensures { IsTrue result → AreChanges day.now changes.now }
{
    for place in 0..changes.len() {
        let change = &changes[place];
        if !is_change(day, change) {
            return false;
        }
        if !is_after(change, &changes[..place]) {
            return false;
        }
    }
    true
}

/// Whether the trip of a change is the day's, its base is in the catalogue, and its cost is not too high.
fn is_change(day: &Instance, change: &Change) -> bool
    ensures trip { IsTrue result → change.now.trip < length day.now.trips }
    ensures base { IsTrue result → change.now.base < length (compositions_of day.now) }
    ensures cost { IsTrue result → change.now.cost ≤ MAX_CHANGE }
{
    let trips = day.trips();
    let comps = day.catalogue().len();
    change.trip.0 < trips && change.base.0 < comps && change.cost <= MAX_CHANGE
}

/// Whether the trip of a change comes after those of other changes.
fn is_after(change: &Change, others: &[Change]) -> bool
    ensures { IsTrue result → All (λ other. other.trip < change.now.trip) others.now }
{
    for place in 0..others.len() {
        if !is_earlier(&others[place], change) {
            return false;
        }
    }
    true
}

/// Whether the trip of a change comes before that of another.
fn is_earlier(change: &Change, other: &Change) -> bool
    ensures { IsTrue result → change.now.trip < other.now.trip }
{
    change.trip.0 < other.trip.0
}
