//! Reaches: up to which departure minutes the events that follow in a move cannot raise a count again.

use crate::events::{Arrival, Event, EventKind};
use crate::network::Network;
use rail_base::StationNo;

/// How far what is missing at a station is certain.
#[derive(Clone, Copy)]
pub(crate) struct Reach {
    /// The place before which nothing is given later.
    pub until: usize,
    /// Whether no later event gives or takes there.
    pub is_last: bool,
}

/// The reaches of one event.
#[derive(Clone, Copy)]
pub(crate) struct Reaches {
    /// At the event's own station.
    pub here: Reach,
    /// Where the first departing trip arrives.
    pub first: Reach,
    /// Where the second departing trip arrives.
    pub second: Reach,
}

/// The reach of nothing.
pub(crate) const NO_REACH: Reach = Reach {
    until: 0,
    is_last: false,
};

/// The reaches of nothing.
pub(crate) const NO_REACHES: Reaches = Reaches {
    here: NO_REACH,
    first: NO_REACH,
    second: NO_REACH,
};

/// What is known of a station from the events that follow.
#[derive(Clone, Copy)]
pub(crate) struct Later {
    /// Whether one of them gives or takes there.
    pub touched: bool,
    /// The least place from which on something is given there; past all places where nothing is.
    pub next_give: usize,
}

/// What is known of a station after all events.
pub(crate) const UNTOUCHED: Later = Later {
    touched: false,
    next_give: usize::MAX,
};

/// The reaches of an event, by what is known of the stations from the events that follow it.
pub(crate) fn reaches_of(network: &Network, event: &Event, later: &[Later]) -> Reaches {
    let from = event.give_place.max(event.take_place);
    Reaches {
        here: reach_at(network, later, event.station, from),
        first: reach_of(network, later, event.first),
        second: reach_of(network, later, event.second),
    }
}

/// The reach where a trip arrives.
fn reach_of(network: &Network, later: &[Later], arrival: Option<Arrival>) -> Reach {
    match arrival {
        Some(arrival) => reach_at(network, later, arrival.station, arrival.place),
        None => NO_REACH,
    }
}

/// The reach at a station from a place on.
fn reach_at(network: &Network, later: &[Later], station: StationNo, from: usize) -> Reach {
    let places = network.places(station);
    let known = match later.get(station.place()) {
        Some(known) => *known,
        None => UNTOUCHED,
    };
    if !known.touched {
        return Reach {
            until: places,
            is_last: true,
        };
    }
    Reach {
        until: places.min(known.next_give.max(from.saturating_add(1))),
        is_last: false,
    }
}

/// Notes what an event does at its stations.
pub(crate) fn note(event: &Event, later: &mut [Later]) {
    if event.touches {
        let give = if event.gives {
            event.give_place
        } else {
            usize::MAX
        };
        note_at(later, event.station, give);
    }
    if let Some(arrival) = event.first {
        note_at(later, arrival.station, arrival.place);
    }
    if let Some(arrival) = event.second {
        note_at(later, arrival.station, arrival.place);
    }
}

/// Notes that a station is touched, and from which place on something is given there.
fn note_at(later: &mut [Later], station: StationNo, give: usize) {
    let place = station.place();
    if place < later.len() {
        later[place] = Later {
            touched: true,
            next_give: later[place].next_give.min(give),
        };
    }
}
