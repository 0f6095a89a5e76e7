//! The slacks of picks that follow, those that are not 0, by rising index.

ghost use Rattle.std.specs.Prelude.{ℕ, ◌≡◌, ◌≢◌, ◌+◌, ◌++◌, ◌≤◌, ◌<◌, ◌*◌, ◌^◌, [], length, negsuc, pos, ◌-ℤ◌, ◌≤ℤ◌};
ghost use Rattle.rail_base.specs.declared.limits.TheConstants.{MAX_SLACKS};
ghost use Rattle.timetable.specs.Accepted.{IsSoundDay};
ghost use Rattle.timetable.specs.declared.day.indices.Place.TheVariants.{Lambda, Mu, Sigma};
ghost use Rattle.timetable.specs.Compositions.{compositions_of};
ghost use Rattle.timetable.specs.Handovers.{handovers_of};
ghost use Rattle.timetable.specs.Indices.{IsPlace, lambdas_of, mus_of, places_of};
ghost use Rattle.timetable.specs.Minutes.{minutes_of};
ghost use Rattle.transitions.specs.Edges.{AreGraphs};
ghost use Rattle.branch_tree.specs.Bounds.{AreSlacks};
ghost use Rattle.branch_tree.specs.Entries.{IsPastLast, entry_of};
ghost use Rattle.price_bound.specs.DayMeanings.{meanings_of};
ghost use Rattle.price_bound.specs.Entered.{end_index, entered, handover_index, station_index, yard_index};
ghost use Rattle.price_bound.specs.FollowingPicks.{Follow};
ghost use Rattle.price_bound.specs.Slacks.{slack_at};

use crate::parts::{part_at, second_at};
use branch_tree::{Entry, Slacks};
use inventory::Ledger;
use rail_base::limits::{MAX_HANDOVERS, MAX_SLACKS};
use rail_base::{StationNo, TypeNo};
use std::marker::Model;
use timetable::{Instance, Picks};
use transitions::Graphs;

/// Puts the slacks of picks that follow, those that are not 0, in place of what `into` held. The ledger is one of the
/// day. It takes no memory. Its time, of which no clause speaks, grows with the units of the trains, with
/// the counts of the yards, with the hand-overs, and for each station and type with the rows of the stock.
pub(crate) fn put_slacks(
    instance: &Instance,
    graphs: &Graphs,
    ledger: &mut Ledger<'_>,
    picks: &Picks,
    into: &mut Slacks,
)
    requires accepted { IsSoundDay instance.now }
    requires graphs { AreGraphs instance.now graphs.now }
    requires ledger { ledger.old.day ≡ instance.now }
    requires follow { Follow instance.now picks.now }
    ensures day { ledger.new.day ≡ ledger.old.day }
    ensures slacks { AreSlacks (meanings_of instance.now) picks.now into.new }
{
    prove!(instance.free_from() <= instance.indices());
    prove!(instance.handovers() as usize <= MAX_HANDOVERS);
    into.clear();
    ledger.load(picks);
    let counted = CountedPicks {
        instance,
        graphs,
        ledger,
        picks,
    };
    let ends = counted.put_minutes(into);
    let parts = counted.put_ends(ends, into);
    counted.put_parts(parts, into);
    prove!(into.len() as usize <= MAX_SLACKS);
}

/// Picks that follow, with the counts that they make in the yards. A contract sees the day and the picks.
#[derive(Drop)]
struct CountedPicks<'a> {
    instance: &'a Instance,
    graphs: &'a Graphs,
    ledger: &'a Ledger<'a>,
    picks: &'a Picks,
}

impl<'a> Model for CountedPicks<'a> {
    ghost use Rattle.price_bound.specs.Entered.{Counted, IsCounted};

    ghost Value = { Counted };

    ghost view = { λ a. record { day = a.instance.now; picks = a.picks.now } };

    ghost invariant = { λ a. IsCounted a.instance.now a.graphs.now a.ledger.now a.picks.now };
}

impl<'a> CountedPicks<'a> {
    /// The slack at a departure minute: minus the count.
    fn minute_slack(&self, station: StationNo, unit_type: TypeNo, place: u32) -> i64
        requires { IsPlace self.now.day (Lambda station unit_type place) }
        ensures { result ≡ slack_at self.now.day self.now.picks (Lambda station unit_type place) }
    {
        -self.ledger.count_after(station, unit_type, place)
    }

    /// The slack at an end: what is wanted less what is there.
    fn end_slack(&self, station: StationNo, unit_type: TypeNo) -> i64
        requires { IsPlace self.now.day (Mu station unit_type) }
        ensures { result ≡ slack_at self.now.day self.now.picks (Mu station unit_type) }
    {
        i64::from(self.instance.end(station, unit_type)) - self.ledger.end(station, unit_type)
    }

    /// Puts the slacks of all departure minutes, and tells the index after the last.
    fn put_minutes(&self, into: &mut Slacks) -> u32
        requires { into.old ≡ [] }
        ensures index { result ≡ length (lambdas_of self.now.day) }
        ensures slacks { into.new ≡ entered self.now.day self.now.picks result }
    {
        let mut index = 0;
        for station in 0..self.instance.stations() {
            index = self.put_station(StationNo(station), index, into);
        }
        index
    }

    /// Puts the slacks of the departure minutes of a station, from the first index on, and tells the index after the
    /// last.
    fn put_station(&self, station: StationNo, first: u32, into: &mut Slacks) -> u32
        requires station { station < length self.now.day.stations }
        requires first { first ≡ station_index self.now.day station }
        requires slacks { into.old ≡ entered self.now.day self.now.picks first }
        ensures index { result ≡ station_index self.now.day (station + 1) }
        ensures slacks { into.new ≡ entered self.now.day self.now.picks result }
    {
        let mut index = first;
        for unit_type in 0..self.instance.types().len() {
            index = self.put_yard(station, TypeNo(unit_type), index, into);
        }
        index
    }

    /// Puts the slacks of the departure minutes of a station for a type, from the first index on, and tells the index
    /// after the last.
    fn put_yard(&self, station: StationNo, unit_type: TypeNo, first: u32, into: &mut Slacks) -> u32
        requires station { station < length self.now.day.stations }
        requires unit_type { unit_type < length self.now.day.types }
        requires first { first ≡ yard_index self.now.day station unit_type }
        requires slacks { into.old ≡ entered self.now.day self.now.picks first }
        ensures index { result ≡ yard_index self.now.day station (unit_type + 1) }
        ensures slacks { into.new ≡ entered self.now.day self.now.picks result }
    {
        let mut index = first;
        for place in 0..self.instance.minutes(station).len() as u32 {
            put_slack(into, index, self.minute_slack(station, unit_type, place));
            index += 1;
        }
        index
    }

    /// Puts the slacks of all ends, from the first index on, and tells the index after the last.
    fn put_ends(&self, first: u32, into: &mut Slacks) -> u32
        requires first { first ≡ length (lambdas_of self.now.day) }
        requires slacks { into.old ≡ entered self.now.day self.now.picks first }
        ensures index { result ≡ length (lambdas_of self.now.day) + length (mus_of self.now.day) }
        ensures slacks { into.new ≡ entered self.now.day self.now.picks result }
    {
        let mut index = first;
        for station in 0..self.instance.stations() {
            index = self.put_station_ends(StationNo(station), index, into);
        }
        index
    }

    /// Puts the slacks of the ends of a station, from the first index on, and tells the index after the last.
    fn put_station_ends(&self, station: StationNo, first: u32, into: &mut Slacks) -> u32
        requires station { station < length self.now.day.stations }
        requires first { first ≡ end_index self.now.day station }
        requires slacks { into.old ≡ entered self.now.day self.now.picks first }
        ensures index { result ≡ end_index self.now.day (station + 1) }
        ensures slacks { into.new ≡ entered self.now.day self.now.picks result }
    {
        let mut index = first;
        for unit_type in 0..self.instance.types().len() {
            put_slack(into, index, self.end_slack(station, TypeNo(unit_type)));
            index += 1;
        }
        index
    }

    /// Puts the slacks of all hand-overs, from the first index on.
    fn put_parts(&self, first: u32, into: &mut Slacks)
        requires first { first ≡ length (lambdas_of self.now.day) + length (mus_of self.now.day) }
        requires slacks { into.old ≡ entered self.now.day self.now.picks first }
        ensures { into.new ≡ entered self.now.day self.now.picks (length (places_of self.now.day)) }
    {
        let comps = self.instance.catalogue().len();
        for handover in 0..self.instance.handovers() {
            self.put_handover(handover, first + handover * comps, into);
        }
    }

    /// Puts the slacks of a hand-over, from the first index on: 1 at the part and -1 at the composition of the second
    /// trip, where these are two.
    fn put_handover(&self, handover: u32, first: u32, into: &mut Slacks)
        requires handover { handover < length (handovers_of self.now.day) }
        requires first { first ≡ handover_index self.now.day handover }
        requires slacks { into.old ≡ entered self.now.day self.now.picks first }
        requires few { length into.old ≤ length (lambdas_of self.now.day) + length (mus_of self.now.day)
            + 2 * handover }
        ensures slacks { into.new ≡ entered self.now.day self.now.picks (handover_index self.now.day (handover + 1)) }
        ensures few { length into.new ≤ length into.old + 2 }
    {
        let part = part_at(self.instance, self.graphs, self.picks, handover);
        let second = second_at(self.instance, self.picks, handover);
        if part.0 < second.0 {
            put_slack(into, first + part.0, 1);
            put_slack(into, first + second.0, -1);
        } else if second.0 < part.0 {
            put_slack(into, first + second.0, -1);
            put_slack(into, first + part.0, 1);
        }
    }
}

/// Puts a slack at the end, if it is not 0.
fn put_slack(into: &mut Slacks, index: u32, value: i64)
    requires room { length into.old < MAX_SLACKS }
    requires rising { IsPastLast into.old index }
    ensures { into.new ≡ into.old ++ entry_of index value }
{
    if value != 0 {
        into.put(Entry { index, value });
    }
}
