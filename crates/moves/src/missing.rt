//! What is certainly missing after an event: the counts below zero that no later event of a move can raise in time, and
//! ends that no later event changes.

use crate::counts::{Counts, MANY, size_of};
use crate::events::{Arrival, Event};
use crate::network::{Network, Units};
use crate::reaches::{Reach, Reaches};
use rail_base::StationNo;
use rail_base::limits::MAX_TYPES;

/// What there is of one type before an event.
#[derive(Clone, Copy)]
struct Low {
    /// The least count between the place of the give and that of the take.
    between: i32,
    /// The least count from both places on, up to the reach.
    after: i32,
    /// The count at the end of the day less the wanted one, where no later event changes it.
    end: Option<i64>,
    /// The least count where the first departing trip arrives.
    first: i32,
    /// The end there, likewise.
    first_end: Option<i64>,
    /// The least count where the second departing trip arrives.
    second: i32,
    /// The end there, likewise.
    second_end: Option<i64>,
}

/// What there is of each type before an event.
#[derive(Clone, Copy)]
pub(crate) struct Lows {
    by_type: [Low; MAX_TYPES],
    types: usize,
    gives_first: bool,
}

/// What an event moves.
#[derive(Clone, Copy)]
pub(crate) struct Moved {
    /// What is given to the yard.
    pub given: Units,
    /// What is taken from it.
    pub taken: Units,
    /// The units of the first departing trip.
    pub first: Units,
    /// The units of the second departing trip.
    pub second: Units,
}

/// Nothing below any limit.
const ENOUGH: Low = Low {
    between: MANY,
    after: MANY,
    end: None,
    first: MANY,
    first_end: None,
    second: MANY,
    second_end: None,
};

impl Lows {
    /// What there is before an event, by the counts then.
    pub(crate) fn new(
        network: &Network,
        event: &Event,
        reaches: &Reaches,
        counts: &Counts,
    ) -> Lows {
        let mut lows = Lows {
            by_type: [ENOUGH; MAX_TYPES],
            types: network.types.min(MAX_TYPES),
            gives_first: event.give_place <= event.take_place,
        };
        let low = event.give_place.min(event.take_place);
        let high = event.give_place.max(event.take_place);
        let minutes = network.places(event.station);
        for unit_type in 0..lows.types {
            lows.by_type[unit_type] = Low {
                between: counts.least(network, event.station, unit_type, low, high.min(minutes)),
                after: counts.least(network, event.station, unit_type, high, reaches.here.until),
                end: end_of(network, event.station, unit_type, reaches.here, counts),
                first: least_at(network, event.first, unit_type, reaches.first, counts),
                first_end: end_at(network, event.first, unit_type, reaches.first, counts),
                second: least_at(network, event.second, unit_type, reaches.second, counts),
                second_end: end_at(network, event.second, unit_type, reaches.second, counts),
            };
        }
        lows
    }

    /// What is missing after the event moves units.
    pub(crate) fn missing(&self, moved: &Moved) -> i64 {
        let mut sum: i64 = 0;
        for unit_type in 0..self.types.min(MAX_TYPES) {
            sum = sum.saturating_add(self.missing_of(moved, unit_type));
        }
        sum
    }

    /// The same of one type.
    fn missing_of(&self, moved: &Moved, unit_type: usize) -> i64 {
        if unit_type >= MAX_TYPES {
            return 0;
        }
        let low = self.by_type[unit_type];
        let given = i64::from(moved.given.by_type[unit_type]);
        let taken = i64::from(moved.taken.by_type[unit_type]);
        let change = given.saturating_sub(taken);
        let between = if self.gives_first {
            given
        } else {
            0i64.saturating_sub(taken)
        };
        let here = lacking(low.after, change).max(lacking(low.between, between));
        let first = i64::from(moved.first.by_type[unit_type]);
        let second = i64::from(moved.second.by_type[unit_type]);
        here.saturating_add(off(low.end, change))
            .saturating_add(lacking(low.first, first))
            .saturating_add(off(low.first_end, first))
            .saturating_add(lacking(low.second, second))
            .saturating_add(off(low.second_end, second))
    }
}

/// How far a count is below zero after a change.
fn lacking(count: i32, change: i64) -> i64 {
    0i64.saturating_sub(i64::from(count).saturating_add(change))
        .max(0)
}

/// How far an end is from the wanted one after a change; 0 where it is not known.
fn off(end: Option<i64>, change: i64) -> i64 {
    match end {
        Some(end) => size_of(end.saturating_add(change)),
        None => 0,
    }
}

/// The count at the end of the day less the wanted one, where it is the last.
fn end_of(
    network: &Network,
    station: StationNo,
    unit_type: usize,
    reach: Reach,
    counts: &Counts,
) -> Option<i64> {
    if !reach.is_last {
        return None;
    }
    let end = counts.end(network.yard_place(station, unit_type));
    let wanted = network.yard(station, unit_type).wanted;
    Some(i64::from(end).saturating_sub(i64::from(wanted)))
}

/// The same where a trip arrives.
fn end_at(
    network: &Network,
    arrival: Option<Arrival>,
    unit_type: usize,
    reach: Reach,
    counts: &Counts,
) -> Option<i64> {
    let arrival = arrival?;
    end_of(network, arrival.station, unit_type, reach, counts)
}

/// The least count where a trip arrives, from when its units are ready up to the reach.
fn least_at(
    network: &Network,
    arrival: Option<Arrival>,
    unit_type: usize,
    reach: Reach,
    counts: &Counts,
) -> i32 {
    match arrival {
        Some(arrival) => counts.least(
            network,
            arrival.station,
            unit_type,
            arrival.place,
            reach.until,
        ),
        None => MANY,
    }
}
