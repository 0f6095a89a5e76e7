//! The chains of a day, along which links lead from trip to trip, and the hand-overs between them.

ghost use Rattle.std.specs.Prelude.{◌≡◌, ◌<◌, ◌≤◌, ◌==◌, ℕ, length, Some, IfOk};
ghost use Rattle.timetable.specs.Chains.{leads_to, next_by, next_in, is_led_in, chain_from, chains_below};
ghost use Rattle.timetable.specs.Handovers.{handovers_from};
ghost use Rattle.timetable.specs.Links.{arriving_in, departing_in};
ghost use Rattle.timetable.specs.LinkTables.{link_table};

use crate::day::records::{Handover, Link, LinkKind};
use day_tables::{Side, links_by_trip};
use rail_base::limits::{MAX_LINKS, MAX_TRIPS};
use rail_base::{LinkNo, NoMemory, TripNo};
use std::alloc::Global;
use std::marker::Model;

/// The trips of a chain, in the order in which they run. A contract sees the list of their numbers.
#[derive(Drop)]
pub struct Chain {
    trips: Vec<TripNo>,
}

impl Model for Chain {
    ghost use Rattle.std.specs.Prelude.{List, ℕ};

    ghost Value = { List ℕ };

    ghost view = { λ a. a.trips.items };
}

impl Chain {
    /// The trips in order. It takes no memory.
    pub fn items(&self) -> &[TripNo]
        ensures { result.now ≡ self.now }
    {
        self.trips.as_slice()
    }
}

/// The trip that a link leads a trip's chain on to: none where it leads no chain from this trip.
fn next_by(kind: LinkKind, trip: TripNo) -> Option<TripNo>
    ensures { result ≡ next_by kind trip }
{
    if kind.leads_from() == trip {
        Some(kind.leads_to())
    } else {
        None
    }
}

/// The trip that follows a trip in its chain, by the table of the links that lead on from trips: none at the chain's
/// end.
fn next_in(links: &[Link], outgoing: &[Option<LinkNo>], trip: TripNo) -> Option<TripNo>
    requires table { outgoing.now ≡ link_table arriving_in links.now (length outgoing.now) }
    requires trip { trip < length outgoing.now }
    ensures { result ≡ next_in links.now trip }
{
    let Some(link) = outgoing[trip.place()] else {
        return None;
    };
    next_by(links[link.place()].kind, trip)
}

/// Whether a link leads a chain to a trip.
fn is_led_by(kind: LinkKind, trip: TripNo) -> bool
    ensures { result ≡ (leads_to kind == trip) }
{
    kind.leads_to() == trip
}

/// Whether a link leads a chain to a trip, by the table of the links that lead into trips.
fn is_led_in(links: &[Link], incoming: &[Option<LinkNo>], trip: TripNo) -> bool
    requires table { incoming.now ≡ link_table departing_in links.now (length incoming.now) }
    requires trip { trip < length incoming.now }
    ensures { result ≡ is_led_in links.now trip }
{
    let Some(link) = incoming[trip.place()] else {
        return false;
    };
    is_led_by(links[link.place()].kind, trip)
}

/// The chain that begins with a trip.
fn chain_from(
    alloc: Global,
    links: &[Link],
    outgoing: &[Option<LinkNo>],
    first: TripNo,
) -> Result<Chain, NoMemory>
    requires table { outgoing.now ≡ link_table arriving_in links.now (length outgoing.now) }
    requires known { (t b : ℕ) → next_in links.now t ≡ Some b → b < length outgoing.now }
    requires first { first < length outgoing.now }
    ensures { IfOk result (λ chain. chain ≡ chain_from links.now (length outgoing.now) first) }
{
    let mut trips = Vec::new(alloc);
    let mut following = Some(first);
    // no chain has more trips than the day
    for _ in 0..outgoing.len() {
        let Some(trip) = following else {
            break;
        };
        trips.push(trip)?;
        following = next_in(links, outgoing, trip);
    }
    Ok(Chain { trips })
}

/// The chains, by the tables of the links that lead into trips and on from them: one for each trip that no link leads
/// a chain to, in the order of these trips.
fn chains_of(
    alloc: Global,
    links: &[Link],
    incoming: &[Option<LinkNo>],
    outgoing: &[Option<LinkNo>],
) -> Result<Vec<Chain>, NoMemory>
    requires incoming { incoming.now ≡ link_table departing_in links.now (length incoming.now) }
    requires as_many { length incoming.now ≡ length outgoing.now }
    requires outgoing { outgoing.now ≡ link_table arriving_in links.now (length outgoing.now) }
    requires few { length outgoing.now ≤ MAX_TRIPS }
    requires known { (t b : ℕ) → next_in links.now t ≡ Some b → b < length outgoing.now }
    ensures { IfOk result
        (λ chains. chains.items ≡ chains_below links.now (length outgoing.now) (length outgoing.now)) }
{
    let mut chains = Vec::new(alloc);
    for trip in 0..outgoing.len() as u32 {
        let trip = TripNo(trip);
        if !is_led_in(links, incoming, trip) {
            chains.push(chain_from(alloc, links, outgoing, trip)?)?;
        }
    }
    Ok(chains)
}

/// The hand-overs of joins and splits, in the order of the links.
fn handovers_of(alloc: Global, links: &[Link]) -> Result<Vec<Handover>, NoMemory>
    requires { length links.now ≤ MAX_LINKS }
    ensures { IfOk result (λ handovers. handovers.items ≡ handovers_from 0 links.now) }
{
    let mut handovers = Vec::new(alloc);
    for number in 0..links.len() {
        if let Some(second) = links[number].kind.second() {
            handovers.push(Handover {
                link: LinkNo(number as u32),
                second,
            })?;
        }
    }
    Ok(handovers)
}

/// What the links of a day give.
#[derive(Drop)]
pub struct Linking {
    /// For each trip the link that it departs by.
    pub incoming: Vec<Option<LinkNo>>,
    /// For each trip the link that its train goes on by.
    pub outgoing: Vec<Option<LinkNo>>,
    /// The chains.
    pub chains: Vec<Chain>,
    /// The hand-overs.
    pub handovers: Vec<Handover>,
}

/// What the links of a day of so many trips give.
pub fn linking_of(alloc: Global, links: &[Link], trips: u32) -> Result<Linking, NoMemory>
    requires links { length links.now ≤ MAX_LINKS }
    requires trips { trips ≤ MAX_TRIPS }
    requires known { (t b : ℕ) → next_in links.now t ≡ Some b → b < trips }
    ensures incoming { IfOk result (λ linking. linking.incoming.items ≡ link_table departing_in links.now trips) }
    ensures outgoing { IfOk result (λ linking. linking.outgoing.items ≡ link_table arriving_in links.now trips) }
    ensures chains { IfOk result (λ linking. linking.chains.items ≡ chains_below links.now trips trips) }
    ensures handovers { IfOk result (λ linking. linking.handovers.items ≡ handovers_from 0 links.now) }
{
    let incoming = links_by_trip(alloc, links, Side::Departing, trips)?;
    let outgoing = links_by_trip(alloc, links, Side::Arriving, trips)?;
    let chains = chains_of(alloc, links, &incoming, &outgoing)?;
    let handovers = handovers_of(alloc, links)?;
    Ok(Linking {
        incoming,
        outgoing,
        chains,
        handovers,
    })
}
