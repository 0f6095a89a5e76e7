//! The links so far, with flags that tell which trips they name.

ghost use Rattle.std.specs.Prelude.{◌≡◌, ◌<◌, ◌≤◌, ◌++◌, ◌∷◌, [], length, slice_set, true, IfOk, OnOk, OnErr};
ghost use Rattle.day_tables.specs.Flags.{marked};
ghost use Rattle.day_tables.specs.LinkRows.{NamesBelow, is_arriving, is_departing};
ghost use Rattle.day_tables.specs.LinkTables.{trips_on};

use crate::building::link_tables::Side;
use rail_base::{NoMemory, TripNo};
use rules::{Link, LinkKind};
use std::alloc::Global;
use std::marker::Model;

/// Links in order, and for each trip two flags: whether one of the links names it as arriving, and as departing. A
/// contract sees the links and how many trips there are.
#[derive(Drop)]
pub struct Linked {
    links: Vec<Link>,
    arriving: Vec<bool>,
    departing: Vec<bool>,
}

impl Model for Linked {
    ghost use Rattle.day_tables.specs.Flags.{LinksOfTrips};

    ghost Value = { LinksOfTrips };

    ghost use Rattle.day_tables.specs.Flagged.{linked_in, AreFlagged};

    ghost view = { linked_in };

    ghost invariant = { AreFlagged };
}

impl Linked {
    /// No links, of so many trips.
    pub fn new(alloc: Global, trips: u32) -> Result<Linked, NoMemory>
        ensures links { IfOk result (λ linked. linked.links ≡ []) }
        ensures trips { IfOk result (λ linked. linked.trips ≡ trips) }
    {
        Ok(Linked {
            links: Vec::new(alloc),
            arriving: vec![in alloc; false; trips as usize]?,
            departing: vec![in alloc; false; trips as usize]?,
        })
    }

    /// How many links there are.
    pub fn len(&self) -> usize
        ensures { result ≡ length self.now.links }
    {
        self.links.len()
    }

    /// Whether one of the links names the trip as arriving.
    pub fn is_arriving(&self, trip: TripNo) -> bool
        requires { trip < self.now.trips }
        ensures { result ≡ is_arriving self.now.links trip }
    {
        self.arriving[trip.place()]
    }

    /// Whether one of the links names the trip as departing.
    pub fn is_departing(&self, trip: TripNo) -> bool
        requires { trip < self.now.trips }
        ensures { result ≡ is_departing self.now.links trip }
    {
        self.departing[trip.place()]
    }

    /// Adds a link at the end. The error is want of memory, and nothing is added then.
    pub fn push(&mut self, link: &Link) -> Result<(), NoMemory>
        requires { NamesBelow self.old.trips link.now.kind }
        ensures added { OnOk result (self.new.links ≡ self.old.links ++ link.now ∷ []) }
        ensures trips { self.new.trips ≡ self.old.trips }
        ensures unchanged { OnErr result (self.new.links ≡ self.old.links) }
    {
        self.links.push(*link)?;
        mark_named(&mut self.arriving, &link.kind, Side::Arriving);
        mark_named(&mut self.departing, &link.kind, Side::Departing);
        Ok(())
    }

    /// The links in order, to keep.
    pub fn into_links(self) -> Vec<Link>
        ensures { result.items ≡ self.links }
    {
        self.links
    }
}

/// Puts up the flags of the trips that a link names on one side.
fn mark_named(flags: &mut Vec<bool>, kind: &LinkKind, side: Side)
    requires { NamesBelow (length flags.old.items) kind.now }
    ensures { flags.new.items ≡ marked (trips_on side kind.now) flags.old.items }
{
    let trips = side.trips_of(*kind);
    mark(flags, trips.first);
    if let Some(second) = trips.second {
        mark(flags, second);
    }
}

/// Puts up the flag of a trip.
fn mark(flags: &mut Vec<bool>, trip: TripNo)
    requires { trip < length flags.old.items }
    ensures { flags.new.items ≡ slice_set flags.old.items trip true }
{
    flags[trip.place()] = true;
}
