//! The tables of a day without some of its trips.

ghost use Rattle.std.specs.Prelude.{◌≡◌, ◌≤◌, ◌<◌, ◌+◌, ◌++◌, length, take, drop, not, filter, option_to_list};
ghost use Rattle.std.specs.Prelude.{if◌then◌else◌};
ghost use Rattle.std.specs.List.{list_any};
ghost use Rattle.day_tables.specs.DerivedDays.{is_gone, left, row_names_gone, tables_without};
ghost use Rattle.day_tables.specs.Lists.{has};

use crate::building::named::{HasName, find_name};
use crate::building::tables::{Rows, Tables};
use rail_base::limits::MAX_TRIPS;
use rail_base::{Name, TripNo};
use rail_csv::{LinkRow, TripRow};

impl HasName for TripRow {
    ghost name_of = { λ row. row.name };

    fn name(&self) -> &Name {
        &self.name
    }
}

/// Whether the trip is among those that are gone.
fn is_among(trip: TripNo, gone: &[TripNo]) -> bool
    ensures { result ≡ has trip gone.now }
{
    gone.contains(&trip)
}

/// Takes what is of the trip of this number out if the trip is gone.
fn take_out_at<T: Drop>(rows: &mut Vec<T>, place: usize, gone: &[TripNo])
    requires place { place < length rows.old.items }
    requires few { place < MAX_TRIPS }
    ensures { rows.new.items ≡ take place rows.old.items
        ++ drop (if has place gone.now then place + 1 else place) rows.old.items }
{
    if is_among(TripNo(place as u32), gone) {
        rows.remove(place);
    }
}

/// Of a list that has one entry for each trip, in the order of the trips, takes those out whose trips are gone.
pub fn take_out<T: Drop>(rows: &mut Vec<T>, gone: &[TripNo])
    requires { length rows.old.items ≤ MAX_TRIPS }
    ensures { rows.new.items ≡ left gone.now rows.old.items }
{
    let mut place = rows.len();
    while place > 0 {
        place -= 1;
        take_out_at(rows, place, gone);
    }
}

/// Whether the row of the trip with this name is gone.
fn is_gone(rows: &[TripRow], gone: &[TripNo], name: &Name) -> bool
    requires { length rows.now ≤ MAX_TRIPS }
    ensures { result ≡ is_gone rows.now gone.now name.now }
{
    match find_name(rows, name.as_str()) {
        Some(place) => is_among(TripNo(place as u32), gone),
        None => false,
    }
}

/// Whether the row of the trip with this name is gone, where there is a name.
fn is_second_gone(rows: &[TripRow], gone: &[TripNo], name: &Option<Name>) -> bool
    requires { length rows.now ≤ MAX_TRIPS }
    ensures { result ≡ list_any (is_gone rows.now gone.now) (option_to_list name.now) }
{
    match name {
        Some(name) => is_gone(rows, gone, name),
        None => false,
    }
}

/// Whether a link row names a trip whose row is gone.
#[tactic(auto, unfolding(crate::specs::DerivedDays::row_names_gone))]
fn row_names_gone(rows: &[TripRow], gone: &[TripNo], row: &LinkRow) -> bool
    requires { length rows.now ≤ MAX_TRIPS }
    ensures { result ≡ row_names_gone rows.now gone.now row.now }
{
    is_gone(rows, gone, &row.arriving)
        || is_second_gone(rows, gone, &row.arriving2)
        || is_gone(rows, gone, &row.departing)
        || is_second_gone(rows, gone, &row.departing2)
}

/// Takes the link rows out that name a trip whose row is gone.
fn take_links_out(links: &mut Vec<LinkRow>, rows: &[TripRow], gone: &[TripNo])
    requires { length rows.now ≤ MAX_TRIPS }
    ensures { links.new.items ≡ filter (λ row. not (row_names_gone rows.now gone.now row)) links.old.items }
{
    links.retain(|row| !row_names_gone(rows, gone, row));
}

impl Tables {
    /// The tables without the rows of some trips, which are told by their numbers, and without the rows of the links
    /// that name one of them; the other rows stay, in order. Where tables make a day, they make the day without these
    /// trips then, by the law `tables_make_days_without`. It takes no memory.
    #[tactic(auto, unfolding(crate::specs::DerivedDays::tables_without))]
    pub fn without_trips(self, gone: &[TripNo]) -> Tables
        requires { length self.trips ≤ MAX_TRIPS }
        ensures { result ≡ tables_without gone.now self }
    {
        let Tables {
            types,
            stations,
            stock,
            trips,
            links,
            weights,
        } = self;
        let mut links = links.into_items();
        take_links_out(&mut links, trips.items(), gone);
        let mut trips = trips.into_items();
        take_out(&mut trips, gone);
        Tables {
            types,
            stations,
            stock,
            trips: Rows::of(trips),
            links: Rows::of(links),
            weights,
        }
    }
}
