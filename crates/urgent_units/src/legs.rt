//! The legs of the units of a type, the moments of the stations, and what a yard cut is worth.

ghost use Rattle.std.specs.Prelude.{ℕ, ◌≡◌, ◌≤◌, ◌<◌, ◌+◌, ◌*◌, length, if◌then◌else◌};
ghost use Rattle.std.specs.List.{All, AllPairs, count_by};
ghost use Rattle.rail_base.specs.declared.limits.TheConstants.{MAX_MINUTES, MAX_REALLOCATION, MAX_STATIONS};
ghost use Rattle.rail_base.specs.declared.limits.TheConstants.{MAX_TRIPS, MAX_UNITS};
ghost use Rattle.timetable.specs.Day.{home_of, unit_count};
ghost use Rattle.urgent_units.specs.Cuts.{HasMoments, goes_out, held_out, held_out_at, homes_outside, is_left};
ghost use Rattle.urgent_units.specs.Cuts.{legs_out};
ghost use Rattle.urgent_units.specs.Cuts.{value_of};
ghost use Rattle.urgent_units.specs.Held.{held, is_held};
ghost use Rattle.urgent_units.specs.LegParts.{AreLegs, IsLegAt};
ghost use Rattle.urgent_units.specs.Moments.{minutes_at, moment_count, moment_of, over_after};
ghost use Rattle.urgent_units.specs.Wishes.{IsWish};

use crate::cut::YardCut;
use crate::wish::Wish;
use inventory::place_of;
use rail_base::{Minute, StationNo, UnitNo};
use std::marker::Model;
use timetable::Instance;

/// A leg: a longest run of trips in a unit's duty, each kept into the next.
#[derive(Clone, Copy, PartialEq, Eq)]
pub struct Leg {
    /// The station that its first trip leaves from.
    pub from: StationNo,
    /// The minute at which that trip leaves.
    pub departs: Minute,
    /// The station where its last trip arrives.
    pub to: StationNo,
    /// The minute from which the unit may be taken there.
    pub ready: Minute,
    /// How many trips it has.
    pub trips: u32,
}

/// Legs of one unit. A contract sees the list of them.
#[derive(Drop)]
pub struct LegList {
    pub(crate) legs: Vec<Leg>,
}

impl Model for LegList {
    ghost use Rattle.std.specs.Prelude.{List};
    ghost use Rattle.urgent_units.specs.declared.legs.Leg.{Leg};

    ghost Value = { List Leg };

    ghost view = { λ a. a.legs.items };
}

impl LegList {
    /// The legs in the order in which they leave. It takes no memory.
    pub fn items(&self) -> &[Leg]
        ensures { result.now ≡ self.now }
    {
        self.legs.as_slice()
    }
}

/// A unit with its legs.
#[derive(Drop)]
pub struct UnitLegs {
    /// The unit.
    pub unit: UnitNo,
    /// The station where it stands at the start of the day.
    pub home: StationNo,
    /// Its legs in the order in which they leave.
    pub legs: LegList,
}

/// Minutes in rising order. A contract sees the list of them.
#[derive(Drop)]
pub(crate) struct Minutes {
    pub(crate) minutes: Vec<Minute>,
}

impl Model for Minutes {
    ghost use Rattle.std.specs.Prelude.{List, ℕ};

    ghost Value = { List ℕ };

    ghost view = { λ a. a.minutes.items };
}

/// The units of one type with their legs, and the moments of the stations. Moment 0 of a station is the start of the
/// day; then come the distinct minutes at which a leg leaves it or is ready at it, in rising order; its last moment is
/// the end of the day. A contract sees how many stations there are, and the units with their legs.
#[derive(Drop)]
pub struct Legs {
    pub(crate) units: Vec<UnitLegs>,
    pub(crate) minutes: Vec<Minutes>,
}

impl Model for Legs {
    ghost use Rattle.urgent_units.specs.Legs.{TypeLegs};

    ghost Value = { TypeLegs };

    ghost use Rattle.urgent_units.specs.LegParts.{legs_in, Holds};

    ghost view = { legs_in };

    ghost invariant = { Holds };
}

impl Legs {
    /// For how many stations there are moments.
    pub fn stations(&self) -> u32
        ensures value { result ≡ self.now.stations }
        ensures few { result ≤ MAX_STATIONS }
    {
        self.minutes.len() as u32
    }

    /// The units of the type with their legs, by number.
    pub fn units(&self) -> &[UnitLegs]
        ensures value { result.now ≡ self.now.units }
        ensures few { length self.now.units ≤ MAX_UNITS }
    {
        self.units.as_slice()
    }

    /// How many moments a station has. It is below `stations`.
    pub fn moments(&self, station: StationNo) -> u32
        requires { station < self.now.stations }
        ensures value { result ≡ moment_count self.now station }
        ensures few { result ≤ MAX_MINUTES + MAX_REALLOCATION + 2 }
    {
        self.minutes_of(station).len() as u32 + 2
    }

    /// How many units of the type are in the yard of a station and ready, after all that happens at a moment. The
    /// station is below `stations`, and the moment below its `moments`.
    #[tactic(auto, unfolding(crate::specs::Held::held))]
    pub fn held(&self, station: StationNo, moment: u32) -> u32
        requires station { station < self.now.stations }
        requires moment { moment < moment_count self.now station }
        ensures value { result ≡ held self.now station moment }
        ensures few { result ≤ MAX_UNITS }
    {
        let over = over_after(self.minutes_of(station), moment as usize);
        let units = self.units();
        let mut held = 0;
        for unit in units {
            if is_held(unit, station, over) {
                held += 1;
            }
        }
        held
    }

    /// What a cut is worth: how many urgent units' homes have a moment 0 that isn't in it; and how many legs leave at a
    /// moment in it and are ready at one that isn't; and how many units are held at the moments in it whose next moment
    /// isn't in it. There is no value where the depot's last moment is in the cut. The wish is one of the day, the day
    /// has as many stations as the legs, and the cut has their moments. It bounds namings where the legs are those of a
    /// plan of this day that runs, of the wish's type.
    #[tactic(auto, unfolding(crate::specs::Cuts::value_of, crate::specs::Cuts::cut_value))]
    pub fn value(&self, instance: &Instance, wish: &Wish, cut: &YardCut) -> Option<u32>
        requires wish { IsWish instance.now wish.now }
        requires stations { length instance.now.stations ≡ self.now.stations }
        requires cut { HasMoments self.now cut.now }
        ensures { result ≡ value_of instance.now self.now wish.now cut.now }
    {
        if cut.has(wish.depot, self.moments(wish.depot) - 1) {
            return None;
        }
        let homes = self.homes_outside(instance, wish, cut);
        Some(homes + self.legs_out(cut) + self.held_out(cut))
    }

    /// That the legs are within the limits of a day. It does nothing.
    pub(crate) fn limits(&self)
        ensures { AreLegs self.now }
    {
        let _ = self.units.len();
    }

    /// The minutes of the moments of a station, in rising order.
    fn minutes_of(&self, station: StationNo) -> &[Minute]
        requires { station < self.now.stations }
        ensures value { result.now ≡ minutes_at self.now station }
        ensures rise { AllPairs (λ a b. a < b) result.now }
        ensures few { length result.now ≤ MAX_MINUTES + MAX_REALLOCATION }
    {
        self.minutes[station.place()].minutes.as_slice()
    }

    /// The moment of a station at a minute at which a leg leaves it or is ready at it.
    pub(crate) fn moment_of(&self, station: StationNo, minute: Minute) -> u32
        requires station { station < self.now.stations }
        ensures value { result ≡ moment_of self.now station minute }
        ensures within { result < moment_count self.now station }
    {
        place_of(self.minutes_of(station), minute) as u32 + 1
    }

    /// How many urgent units' homes have a moment 0 that isn't in the cut.
    fn homes_outside(&self, instance: &Instance, wish: &Wish, cut: &YardCut) -> u32
        requires wish { IsWish instance.now wish.now }
        requires stations { length instance.now.stations ≡ self.now.stations }
        requires cut { HasMoments self.now cut.now }
        ensures value { result ≡ homes_outside instance.now wish.now cut.now }
        ensures few { result ≤ MAX_UNITS }
    {
        instance.is_sound();
        let units = wish.units.items();
        let mut outside = 0;
        for unit in units {
            if !cut.has(home_of(instance, *unit), 0) {
                outside += 1;
            }
        }
        outside
    }

    /// How many legs leave at a moment in the cut and are ready at one that isn't.
    fn legs_out(&self, cut: &YardCut) -> u32
        requires cut { HasMoments self.now cut.now }
        ensures value { result ≡ legs_out self.now cut.now }
        ensures few { result ≤ MAX_UNITS * MAX_TRIPS }
    {
        self.limits();
        let units = self.units();
        let mut out = 0;
        for unit in units {
            out += self.legs_out_of(cut, unit.legs.items());
        }
        out
    }

    /// How many of these legs leave at a moment in the cut and are ready at one that isn't.
    fn legs_out_of(&self, cut: &YardCut, legs: &[Leg]) -> u32
        requires cut { HasMoments self.now cut.now }
        requires legs { All (IsLegAt self.now) legs.now }
        requires few { length legs.now ≤ MAX_TRIPS }
        ensures value { result ≡ count_by (goes_out self.now cut.now) legs.now }
        ensures few { result ≤ MAX_TRIPS }
    {
        let mut out = 0;
        for leg in legs {
            if self.goes_out(cut, leg) {
                out += 1;
            }
        }
        out
    }

    /// Whether a leg leaves at a moment in the cut and is ready at one that isn't.
    fn goes_out(&self, cut: &YardCut, leg: &Leg) -> bool
        requires cut { HasMoments self.now cut.now }
        requires leg { IsLegAt self.now leg.now }
        ensures { result ≡ goes_out self.now cut.now leg.now }
    {
        cut.has(leg.from, self.moment_of(leg.from, leg.departs))
            && !cut.has(leg.to, self.moment_of(leg.to, leg.ready))
    }

    /// How many units are held at moments in the cut whose next moment isn't in it.
    fn held_out(&self, cut: &YardCut) -> u32
        requires cut { HasMoments self.now cut.now }
        ensures value { result ≡ held_out self.now cut.now }
        ensures few { result ≤ MAX_STATIONS * (MAX_MINUTES + MAX_REALLOCATION + 1) * MAX_UNITS }
    {
        let mut out = 0;
        for number in 0..self.stations() {
            out += self.held_out_at(cut, StationNo(number));
        }
        out
    }

    /// How many units are held at moments of a station in the cut whose next moment isn't in it.
    fn held_out_at(&self, cut: &YardCut, station: StationNo) -> u32
        requires station { station < self.now.stations }
        requires cut { HasMoments self.now cut.now }
        ensures value { result ≡ held_out_at self.now cut.now station }
        ensures few { result ≤ (MAX_MINUTES + MAX_REALLOCATION + 1) * MAX_UNITS }
    {
        let mut out = 0;
        for moment in 0..self.moments(station) - 1 {
            out += self.left_at(cut, station, moment);
        }
        out
    }

    /// How many units are held at a moment, where it is in the cut and the next one isn't; else 0. There is a next one.
    fn left_at(&self, cut: &YardCut, station: StationNo, moment: u32) -> u32
        requires station { station < self.now.stations }
        requires moment { moment + 1 < moment_count self.now station }
        requires cut { HasMoments self.now cut.now }
        ensures value { result ≡ if is_left cut.now station moment then held self.now station moment else 0 }
        ensures few { result ≤ MAX_UNITS }
    {
        self.limits();
        if cut.has(station, moment) && !cut.has(station, moment + 1) {
            return self.held(station, moment);
        }
        0
    }
}

/// The station where a unit stands at the start of the day.
#[tactic(auto, unfolding(rules::specs::Day::home_of))]
pub(crate) fn home_of(instance: &Instance, unit: UnitNo) -> StationNo
    requires { unit < unit_count instance.now }
    ensures { result ≡ home_of instance.now unit }
{
    instance.unit(unit).home
}

/// How many minutes are over after a moment, by the rising minutes of a station's moments: those up to its own, and
/// none after the start of the day.
fn over_after(minutes: &[Minute], moment: usize) -> u32
    ensures { result ≡ over_after 0 minutes.now moment }
{
    let passed = moment.min(minutes.len());
    if passed == 0 {
        return 0;
    }
    minutes[passed - 1].minutes() + 1
}

/// Whether a unit is in the yard of a station and ready, when so many minutes are over.
fn is_held(unit: &UnitLegs, station: StationNo, over: u32) -> bool
    ensures { result ≡ is_held unit.now station over }
{
    let legs = unit.legs.items();
    let mut at = unit.home;
    let mut since = 0;
    for leg in legs {
        let departs = leg.departs.minutes();
        if departs >= over {
            return at == station && since <= over;
        }
        at = leg.to;
        since = leg.ready.minutes() + 1;
    }
    at == station && since <= over
}
