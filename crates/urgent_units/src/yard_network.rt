//! The network in which urgent units flow to the depot: along legs, and through the yards from one moment to the next.

ghost use Rattle.std.specs.Prelude.{ℕ, ◌≡◌, ◌≤◌, ◌<◌, ◌+◌, ◌-◌, ◌*◌, ◌++◌, ◌∷◌, [], length, map, IfOk, OnOk};
ghost use Rattle.std.specs.List.{All, flat_map};
ghost use Rattle.flow_network.specs.declared.network.Arc.{Arc};
ghost use Rattle.rail_base.specs.declared.limits.TheConstants.{MAX_MINUTES, MAX_REALLOCATION, MAX_STATIONS};
ghost use Rattle.timetable.specs.Day.{home_of, unit_count};
ghost use Rattle.timetable.specs.Lists.{joined, listed, sum_below};
ghost use Rattle.urgent_units.specs.LegParts.{IsLegAt};
ghost use Rattle.urgent_units.specs.Legs.{all_legs};
ghost use Rattle.urgent_units.specs.Moments.{moment_count};
ghost use Rattle.urgent_units.specs.NetworkSteps.{HasMore, IsOver};
ghost use Rattle.urgent_units.specs.Wishes.{IsWish};
ghost use Rattle.urgent_units.specs.YardNetwork.{home_arc, leg_arc, node_of, source_of, wait_arc, wait_arcs};
ghost use Rattle.urgent_units.specs.YardNetwork.{yard_network};

use crate::legs::{Leg, Legs, home_of};
use crate::wish::Wish;
use flow_network::Network;
use rail_base::{NoMemory, StationNo, UnitNo};
use std::alloc::Global;
use timetable::Instance;

/// The network of these legs, in which nothing flows yet.
#[tactic(auto, unfolding(crate::specs::YardNetwork::yard_network))]
pub(crate) fn network_of(
    alloc: Global,
    instance: &Instance,
    legs: &Legs,
    wish: &Wish,
) -> Result<Network, NoMemory>
    requires wish { IsWish instance.now wish.now }
    requires stations { length instance.now.stations ≡ legs.now.stations }
    ensures { IfOk result (λ network. network ≡ yard_network instance.now legs.now wish.now) }
{
    let source = moments_before(legs, legs.stations()) as usize;
    let sink = node_of(legs, wish.depot, legs.moments(wish.depot) - 1);
    let mut network = Network::new(alloc, source + 1, source, sink);
    add_all_legs(&mut network, legs)?;
    add_homes(&mut network, instance, legs, wish)?;
    add_all_waits(&mut network, legs)?;
    Ok(network)
}

/// How many moments the stations before one have, or all of them.
fn moments_before(legs: &Legs, stations: u32) -> u32
    requires { stations ≤ legs.now.stations }
    ensures value { result ≡ sum_below (moment_count legs.now) stations }
    ensures few { result ≤ stations * (MAX_MINUTES + MAX_REALLOCATION + 2) }
{
    let _ = legs.stations();
    let mut moments = 0;
    for station in 0..stations {
        moments += legs.moments(StationNo(station));
    }
    moments
}

/// The node of a moment.
pub(crate) fn node_of(legs: &Legs, station: StationNo, moment: u32) -> usize
    requires station { station < legs.now.stations }
    requires moment { moment < moment_count legs.now station }
    ensures value { result ≡ node_of legs.now station moment }
    ensures within { result < source_of legs.now }
{
    let _ = legs.stations();
    let _ = legs.moments(station);
    (moments_before(legs, station.0) + moment) as usize
}

/// Adds the arcs of all legs.
fn add_all_legs(network: &mut Network, legs: &Legs) -> Result<(), NoMemory>
    requires network { IsOver legs.now network.old }
    ensures { OnOk result (HasMore legs.now network.old (map (leg_arc legs.now) (all_legs legs.now)) network.new) }
{
    legs.limits();
    let units = legs.units();
    for unit in units {
        add_legs_of(network, legs, unit.legs.items())?;
    }
    Ok(())
}

/// Adds the arcs of some legs.
fn add_legs_of(network: &mut Network, legs: &Legs, some: &[Leg]) -> Result<(), NoMemory>
    requires network { IsOver legs.now network.old }
    requires legs { All (IsLegAt legs.now) some.now }
    ensures { OnOk result (HasMore legs.now network.old (map (leg_arc legs.now) some.now) network.new) }
{
    for leg in some {
        add_leg(network, legs, leg)?;
    }
    Ok(())
}

/// Adds the arc of a leg, along which one unit may go.
fn add_leg(network: &mut Network, legs: &Legs, leg: &Leg) -> Result<(), NoMemory>
    requires network { IsOver legs.now network.old }
    requires leg { IsLegAt legs.now leg.now }
    ensures { OnOk result (HasMore legs.now network.old (leg_arc legs.now leg.now ∷ []) network.new) }
{
    let from = node_of(legs, leg.from, legs.moment_of(leg.from, leg.departs));
    let to = node_of(legs, leg.to, legs.moment_of(leg.to, leg.ready));
    network.add(from, to, 1)?;
    Ok(())
}

/// Adds an arc for each urgent unit, from the source to its home.
fn add_homes(
    network: &mut Network,
    instance: &Instance,
    legs: &Legs,
    wish: &Wish,
) -> Result<(), NoMemory>
    requires network { IsOver legs.now network.old }
    requires wish { IsWish instance.now wish.now }
    requires stations { length instance.now.stations ≡ legs.now.stations }
    ensures { OnOk result (HasMore legs.now network.old
        (map (home_arc instance.now legs.now) wish.now.units) network.new) }
{
    instance.is_sound();
    let units = wish.units.items();
    for unit in units {
        add_home(network, instance, legs, *unit)?;
    }
    Ok(())
}

/// Adds an arc from the source to the home of a unit.
fn add_home(
    network: &mut Network,
    instance: &Instance,
    legs: &Legs,
    unit: UnitNo,
) -> Result<(), NoMemory>
    requires network { IsOver legs.now network.old }
    requires unit { unit < unit_count instance.now }
    requires home { home_of instance.now unit < legs.now.stations }
    ensures { OnOk result (HasMore legs.now network.old (home_arc instance.now legs.now unit ∷ []) network.new) }
{
    let source = moments_before(legs, legs.stations()) as usize;
    network.add(source, node_of(legs, home_of(instance, unit), 0), 1)?;
    Ok(())
}

/// Adds the arcs along which units wait at the stations.
fn add_all_waits(network: &mut Network, legs: &Legs) -> Result<(), NoMemory>
    requires network { IsOver legs.now network.old }
    ensures { OnOk result (HasMore legs.now network.old
        (joined (wait_arcs legs.now) legs.now.stations) network.new) }
{
    for station in 0..legs.stations() {
        add_waits_at(network, legs, StationNo(station))?;
    }
    Ok(())
}

/// Adds the arcs along which units wait at a station.
fn add_waits_at(network: &mut Network, legs: &Legs, station: StationNo) -> Result<(), NoMemory>
    requires network { IsOver legs.now network.old }
    requires station { station < legs.now.stations }
    ensures { OnOk result (HasMore legs.now network.old (wait_arcs legs.now station) network.new) }
{
    for moment in 0..legs.moments(station) - 1 {
        add_wait(network, legs, station, moment)?;
    }
    Ok(())
}

/// Adds an arc from a moment of a station to the next one, along which as many units may go as are held.
fn add_wait(
    network: &mut Network,
    legs: &Legs,
    station: StationNo,
    moment: u32,
) -> Result<(), NoMemory>
    requires network { IsOver legs.now network.old }
    requires station { station < legs.now.stations }
    requires moment { moment + 1 < moment_count legs.now station }
    ensures { OnOk result (HasMore legs.now network.old (wait_arc legs.now station moment ∷ []) network.new) }
{
    let _ = legs.moments(station);
    let from = node_of(legs, station, moment);
    let to = node_of(legs, station, moment + 1);
    network.add(from, to, legs.held(station, moment))?;
    Ok(())
}
