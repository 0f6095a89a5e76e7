//! Which link names a trip, for each trip.

ghost use Rattle.std.specs.Prelude.{ℕ, ◌≡◌, ◌≤◌, Some, length, set, IfOk};
ghost use Rattle.day_tables.specs.LinkRows.{AreBelow, NamesBelow};
ghost use Rattle.day_tables.specs.Links.{trip_list};
ghost use Rattle.day_tables.specs.LinkTables.{trips_on, noted, link_table};

use rail_base::limits::MAX_LINKS;
use rail_base::{LinkNo, NoMemory, TripNo};
use rules::{Link, LinkKind, LinkTrips};
use std::alloc::Global;

/// A side of a link: the trips that arrive for it, or those that depart by it.
#[derive(Clone, Copy)]
pub enum Side {
    /// The trips whose trains go on by the link.
    Arriving,
    /// The trips that these trains go on as.
    Departing,
}

impl Side {
    /// The trips that a link names on this side.
    pub fn trips_of(self, kind: LinkKind) -> LinkTrips
        ensures trips { trip_list result ≡ trips_on self kind }
        ensures below { (bound : ℕ) → NamesBelow bound kind → AreBelow bound result }
    {
        match self {
            Side::Arriving => kind.arriving(),
            Side::Departing => kind.departing(),
        }
    }
}

/// Notes a link at a trip, where the table has an entry for the trip.
fn note_at(table: &mut Vec<Option<LinkNo>>, trip: TripNo, link: LinkNo)
    ensures { table.new.items ≡ set table.old.items trip (Some link) }
{
    if trip.place() < table.len() {
        table[trip.place()] = Some(link);
    }
}

/// Notes a link at each trip that it names on one side.
fn note_link(table: &mut Vec<Option<LinkNo>>, kind: LinkKind, side: Side, link: LinkNo)
    ensures { table.new.items ≡ noted (Some link) (trips_on side kind) table.old.items }
{
    let trips = side.trips_of(kind);
    note_at(table, trips.first, link);
    if let Some(second) = trips.second {
        note_at(table, second, link);
    }
}

/// For each trip the number of the first link that names it on one side. The links are noted from the last to the
/// first, so that the first stays.
pub fn links_by_trip(
    alloc: Global,
    links: &[Link],
    side: Side,
    trips: u32,
) -> Result<Vec<Option<LinkNo>>, NoMemory>
    requires { length links.now ≤ MAX_LINKS }
    ensures { IfOk result (λ table. table.items ≡ link_table (trips_on side) links.now trips) }
{
    let mut table = vec![in alloc; None; trips as usize]?;
    let mut left = links.len();
    while left > 0 {
        left -= 1;
        note_link(&mut table, links[left].kind, side, LinkNo(left as u32));
    }
    Ok(table)
}
