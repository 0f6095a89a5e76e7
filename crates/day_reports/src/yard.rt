//! The yard of a type at a station: what is taken from it, what becomes ready there, and how many units stand there.

ghost use Rattle.std.specs.Prelude.{◌≡◌, ◌<◌, ◌≤◌, ◌&&◌, length};
ghost use Rattle.timetable.specs.Lists.{count_of};
ghost use Rattle.day_reports.specs.YardRows.{gives_between, is_later, is_no_later, ready_between, taken_at, takes_at};

use inventory::Ledger;
use rail_base::limits::MAX_COMPOSITION_UNITS;
use rail_base::{Minute, StationNo, TripNo, TypeNo};
use std::marker::Model;
use timetable::{Instance, Picks};

/// The yard of a type at a station, where the trips have picked compositions. A contract sees the day, the types of the
/// compositions, the station and the type.
#[derive(Drop)]
pub(crate) struct Yard<'day, 'picks, 'ledger> {
    /// The day.
    pub(crate) instance: &'day Instance,
    /// The compositions of its trips.
    pub(crate) picks: &'picks Picks,
    /// The counts of all yards with these compositions.
    pub(crate) ledger: &'ledger Ledger<'day>,
    /// The station.
    pub(crate) station: StationNo,
    /// The type.
    pub(crate) unit_type: TypeNo,
}

impl<'day, 'picks, 'ledger> Model for Yard<'day, 'picks, 'ledger> {
    ghost use Rattle.timetable.specs.Picks.{picked};
    ghost use Rattle.day_reports.specs.YardRows.{YardOf};
    ghost use Rattle.day_reports.specs.LoadedYards.{IsLoadedYard};

    ghost Value = { YardOf };

    ghost view = { λ a. record {
      day = a.instance.now;
      lists = picked a.instance.now a.picks.now;
      station = a.station;
      unit_type = a.unit_type;
    } };

    ghost invariant = { λ a. IsLoadedYard a.instance.now a.picks.now a.ledger.now a.station a.unit_type };
}

/// The minutes after one minute, where one is told, and up to another, where one is told.
#[derive(Drop)]
pub(crate) struct Span {
    /// The minute after which they begin.
    pub(crate) after: Option<Minute>,
    /// The last of them.
    pub(crate) by: Option<Minute>,
}

/// The three numbers of a row of the report.
#[derive(Clone, Copy)]
pub(crate) struct RowCounts {
    /// Units that are taken.
    pub(crate) taken: u32,
    /// Units that became ready.
    pub(crate) ready: u32,
    /// Units that stand there, below zero where more were taken than there were.
    pub(crate) count: i64,
}

/// How many times a type is in a list of at most six.
fn count_of(unit_type: TypeNo, types: &[TypeNo]) -> u32
    requires { length types.now ≤ MAX_COMPOSITION_UNITS }
    ensures value { result ≡ count_of unit_type types.now }
    ensures few { result ≤ MAX_COMPOSITION_UNITS }
{
    let mut count = 0;
    for each in types {
        if *each == unit_type {
            count += 1;
        }
    }
    count
}

/// Whether a minute is one of these.
fn is_in(span: &Span, minute: u32) -> bool
    ensures { result ≡ is_later span.now.after minute && is_no_later span.now.by minute }
{
    let is_later = match span.after {
        Some(after) => after.minutes() < minute,
        None => true,
    };
    let is_no_later = match span.by {
        Some(by) => minute <= by.minutes(),
        None => true,
    };
    is_later && is_no_later
}

impl<'day, 'picks, 'ledger> Yard<'day, 'picks, 'ledger> {
    /// How many units are taken at a minute.
    #[tactic(auto, unfolding(crate::specs::YardRows::taken_at))]
    pub(crate) fn taken_at(&self, minute: Minute) -> u32
        ensures { result ≡ taken_at self.now minute }
    {
        let mut taken = 0;
        for number in 0..self.instance.trips() {
            taken += self.takes_at(TripNo(number), minute);
        }
        taken
    }

    /// How many units one trip takes at a minute.
    #[tactic(auto, unfolding(rules::specs::Day::leaves, rules::specs::Day::from_of))]
    fn takes_at(&self, trip: TripNo, minute: Minute) -> u32
        requires { trip < length self.now.day.trips }
        ensures value { result ≡ takes_at self.now minute trip }
        ensures few { result ≤ MAX_COMPOSITION_UNITS }
    {
        let timetabled = self.instance.trip(trip);
        if timetabled.from != self.station || timetabled.departure != minute {
            return 0;
        }
        let types = self.instance.taken_types(self.picks, trip);
        count_of(self.unit_type, types.as_slice())
    }

    /// How many units that trips give become ready in a span of minutes.
    #[tactic(auto, unfolding(crate::specs::YardRows::ready_between))]
    pub(crate) fn ready_between(&self, span: &Span) -> u32
        ensures { result ≡ ready_between self.now span.now.after span.now.by }
    {
        let mut ready = 0;
        for number in 0..self.instance.trips() {
            ready += self.gives_between(TripNo(number), span);
        }
        ready
    }

    /// How many units that one trip gives become ready in a span of minutes.
    #[tactic(auto, unfolding(rules::specs::Day::to_of))]
    fn gives_between(&self, trip: TripNo, span: &Span) -> u32
        requires { trip < length self.now.day.trips }
        ensures value { result ≡ gives_between self.now span.now.after span.now.by trip }
        ensures few { result ≤ MAX_COMPOSITION_UNITS }
    {
        let ready = self.instance.ready_at(trip).minutes();
        if self.instance.trip(trip).to != self.station || !is_in(span, ready) {
            return 0;
        }
        let types = self.instance.given_types(self.picks, trip);
        count_of(self.unit_type, types.as_slice())
    }
}
