//! Yard cuts: sets of moments of the stations.

ghost use Rattle.std.specs.Prelude.{ℕ, ◌≡◌, ◌<◌, ◌⊎◌, Bool, false, true, length, replicate, slice_set, IfOk, IsTrue};
ghost use Rattle.std.specs.Prelude.{◌↔◌, ◌+◌};
ghost use Rattle.flow_network.specs.Flows.{is_reached};
ghost use Rattle.timetable.specs.Lists.{listed};
ghost use Rattle.urgent_units.specs.Cuts.{HasMoments, is_in, moments_in};
ghost use Rattle.urgent_units.specs.Moments.{moment_count};
ghost use Rattle.urgent_units.specs.YardNetwork.{node_of, reached_cut, source_of};

use crate::legs::Legs;
use crate::yard_network::node_of;
use flow_network::Reached;
use rail_base::{NoMemory, StationNo};
use std::alloc::Global;
use std::marker::Model;

/// For each moment of a station, whether it is in the set. A contract sees the list of them.
#[derive(Drop)]
struct Flags {
    flags: Vec<bool>,
}

impl Model for Flags {
    ghost use Rattle.std.specs.Prelude.{List, Bool};

    ghost Value = { List Bool };

    ghost view = { λ a. a.flags.items };
}

/// A set of moments of the stations. A contract sees for each station, and then for each of its moments, whether it is
/// in the set.
#[derive(Drop)]
pub struct YardCut {
    stations: Vec<Flags>,
}

impl Model for YardCut {
    ghost use Rattle.std.specs.Prelude.{List, Bool};

    ghost Value = { List (List Bool) };

    ghost view = { λ a. a.stations.items };
}

impl Flags {
    /// Sets the flag of a moment. There is such a moment.
    fn set(&mut self, moment: u32)
        requires { moment < length self.old }
        ensures { self.new ≡ slice_set self.old moment true }
    {
        self.flags[moment as usize] = true;
    }
}

/// For each moment of a station that it isn't in the set.
fn no_flags(alloc: Global, moments: u32) -> Result<Flags, NoMemory>
    ensures { IfOk result (λ flags. flags ≡ replicate moments false) }
{
    Ok(Flags {
        flags: vec![in alloc; false; moments as usize]?,
    })
}

/// For each moment of a station whether its node is reached.
fn reached_flags(
    alloc: Global,
    legs: &Legs,
    station: StationNo,
    reached: &Reached,
) -> Result<Flags, NoMemory>
    requires station { station < legs.now.stations }
    requires nodes { length reached.now ≡ source_of legs.now + 1 }
    ensures { IfOk result (λ flags. flags
        ≡ listed (λ k. is_reached reached.now (node_of legs.now station k)) (moment_count legs.now station)) }
{
    let mut flags = Vec::new(alloc);
    for moment in 0..legs.moments(station) {
        flags.push(reached.has(node_of(legs, station, moment)))?;
    }
    Ok(Flags { flags })
}

impl YardCut {
    /// The empty set of moments of these legs. The error is want of memory.
    pub fn new(alloc: Global, legs: &Legs) -> Result<YardCut, NoMemory>
        ensures moments { IfOk result (λ cut. HasMoments legs.now cut) }
        ensures empty { IfOk result (λ cut. (s k : ℕ) → is_in cut s k ≡ false) }
    {
        let mut stations = Vec::new(alloc);
        for number in 0..legs.stations() {
            stations.push(no_flags(alloc, legs.moments(StationNo(number)))?)?;
        }
        Ok(YardCut { stations })
    }

    /// The set of the moments whose nodes are reached. The error is want of memory.
    #[tactic(auto, unfolding(crate::specs::YardNetwork::reached_cut))]
    pub(crate) fn of_reached(
        alloc: Global,
        legs: &Legs,
        reached: &Reached,
    ) -> Result<YardCut, NoMemory>
        requires { length reached.now ≡ source_of legs.now + 1 }
        ensures { IfOk result (λ cut. cut ≡ reached_cut legs.now reached.now) }
    {
        let mut stations = Vec::new(alloc);
        for number in 0..legs.stations() {
            stations.push(reached_flags(alloc, legs, StationNo(number), reached)?)?;
        }
        Ok(YardCut { stations })
    }

    /// Whether a moment of a station is in the set. There is such a station, and it has such a moment.
    #[tactic(auto, unfolding(crate::specs::Cuts::is_in))]
    pub fn has(&self, station: StationNo, moment: u32) -> bool
        requires station { station < length self.now }
        requires moment { moment < length (moments_in self.now station) }
        ensures { result ≡ is_in self.now station moment }
    {
        self.stations[station.place()].flags[moment as usize]
    }

    /// How many stations there are.
    pub fn stations(&self) -> usize
        ensures { result ≡ length self.now }
    {
        self.stations.len()
    }

    /// For each moment of a station, whether it is in the set. There is such a station.
    pub fn flags(&self, station: usize) -> &[bool]
        requires { station < length self.now }
        ensures { result.now ≡ moments_in self.now station }
    {
        self.stations[station].flags.as_slice()
    }

    /// Puts a moment of a station into the set, and no other. There is such a station, and it has such a moment.
    #[tactic(auto, unfolding(crate::specs::Cuts::is_in))]
    pub fn put(&mut self, station: StationNo, moment: u32)
        requires station { station < length self.old }
        requires moment { moment < length (moments_in self.old station) }
        ensures there { (s k : ℕ) → IsTrue (is_in self.new s k) ↔
            (IsTrue (is_in self.old s k) ⊎ ((s ≡ station) × (k ≡ moment))) }
        ensures stations { length self.new ≡ length self.old }
        ensures moments { (s : ℕ) → length (moments_in self.new s) ≡ length (moments_in self.old s) }
    {
        self.stations[station.place()].set(moment);
    }
}
