//! The tests on the rows of the links table.

ghost use Rattle.std.specs.Prelude.{◌≡◌, ◌+◌, ◌<◌, ◌≤◌, ◌&&◌, ◌||◌, length, Ok, IfOk, IfSome};
ghost use Rattle.std.specs.Result.{result_and};
ghost use Rattle.rail_base.specs.Answers.{Gives, GivesRows};
ghost use Rattle.day_tables.specs.Build.{is_memory};
ghost use Rattle.day_tables.specs.LinkRows.{trip_named, is_an_end, lacks_an_end, does_shunt};
ghost use Rattle.day_tables.specs.LinkRows.{turn_in, join_in, split_in};
ghost use Rattle.day_tables.specs.LinkRows.{kind_of, NamesBelow, names_again, do_meet, is_in_time, each_pair};
ghost use Rattle.day_tables.specs.LinkRows.{accept_trips, accept_link, links_in};
ghost use Rattle.day_tables.specs.Rowwise.{accept_each};

use crate::building::entries::row_after;
use crate::building::linked::Linked;
use crate::building::named::Named;
use crate::building::refusal::InstanceRefusal;
use crate::building::tables::Rows;
use rail_base::limits::{MAX_LINKS, MAX_TRIPS};
use rail_base::{Name, TripNo};
use rail_csv::{End, KindWord, LinkRow, Table};
use rules::{Link, LinkKind, Trip};
use std::alloc::Global;

/// The number of the trip that a column of a row names.
fn find_trip(
    trips: &Named<Trip>,
    row: u32,
    column: u32,
    name: &Name,
) -> Result<TripNo, InstanceRefusal>
    requires { length trips.now ≤ MAX_TRIPS }
    ensures value { result ≡ trip_named trips.now row column name.now }
    ensures within { IfOk result (λ t. t < length trips.now) }
{
    let Some(place) = trips.find(name) else {
        return Err(InstanceRefusal::UnknownName {
            table: Table::Links,
            row,
            column,
        });
    };
    Ok(TripNo(place as u32))
}

/// Whether it is an end of the train, and not none.
fn is_an_end(end: End) -> bool
    ensures { result ≡ is_an_end end }
{
    match end {
        End::None => false,
        End::Front | End::Rear => true,
    }
}

/// Whether units are exchanged, and not at an end each.
fn lacks_an_end(row: &LinkRow) -> bool
    ensures { result ≡ lacks_an_end row.now.uncouple row.now.couple row.now.exchange }
{
    row.exchange && !(is_an_end(row.uncouple) && is_an_end(row.couple))
}

/// Whether units are uncoupled, coupled or exchanged.
fn does_shunt(row: &LinkRow) -> bool
    ensures { result ≡ does_shunt row.now.uncouple row.now.couple row.now.exchange }
{
    is_an_end(row.uncouple) || is_an_end(row.couple) || row.exchange
}

/// The kind of a row that is a turn.
#[tactic(auto, unfolding(crate::specs::LinkRows::turn_in))]
fn turn_of(trips: &Named<Trip>, number: u32, row: &LinkRow) -> Result<LinkKind, InstanceRefusal>
    requires { length trips.now ≤ MAX_TRIPS }
    ensures value { result ≡ turn_in trips.now number row.now row.now.arriving2 row.now.departing2 }
    ensures within { IfOk result (λ kind. NamesBelow (length trips.now) kind) }
{
    let (None, None) = (&row.arriving2, &row.departing2) else {
        return Err(InstanceRefusal::WrongLinkFields(number));
    };
    if lacks_an_end(row) {
        return Err(InstanceRefusal::WrongLinkFields(number));
    }
    let arriving = find_trip(trips, number, 1, &row.arriving)?;
    let departing = find_trip(trips, number, 3, &row.departing)?;
    Ok(LinkKind::Turn {
        arriving,
        departing,
        uncouple: row.uncouple,
        couple: row.couple,
        exchange: row.exchange,
    })
}

/// The kind of a row that is a join.
#[tactic(auto, unfolding(crate::specs::LinkRows::join_in))]
fn join_of(trips: &Named<Trip>, number: u32, row: &LinkRow) -> Result<LinkKind, InstanceRefusal>
    requires { length trips.now ≤ MAX_TRIPS }
    ensures value { result ≡ join_in trips.now number row.now row.now.arriving2 row.now.departing2 }
    ensures within { IfOk result (λ kind. NamesBelow (length trips.now) kind) }
{
    let (Some(name), None) = (&row.arriving2, &row.departing2) else {
        return Err(InstanceRefusal::WrongLinkFields(number));
    };
    if does_shunt(row) {
        return Err(InstanceRefusal::WrongLinkFields(number));
    }
    let first = find_trip(trips, number, 1, &row.arriving)?;
    let second = find_trip(trips, number, 2, name)?;
    let departing = find_trip(trips, number, 3, &row.departing)?;
    Ok(LinkKind::Join {
        first,
        second,
        departing,
    })
}

/// The kind of a row that is a split.
#[tactic(auto, unfolding(crate::specs::LinkRows::split_in))]
fn split_of(trips: &Named<Trip>, number: u32, row: &LinkRow) -> Result<LinkKind, InstanceRefusal>
    requires { length trips.now ≤ MAX_TRIPS }
    ensures value { result ≡ split_in trips.now number row.now row.now.arriving2 row.now.departing2 }
    ensures within { IfOk result (λ kind. NamesBelow (length trips.now) kind) }
{
    let (None, Some(name)) = (&row.arriving2, &row.departing2) else {
        return Err(InstanceRefusal::WrongLinkFields(number));
    };
    if does_shunt(row) {
        return Err(InstanceRefusal::WrongLinkFields(number));
    }
    let arriving = find_trip(trips, number, 1, &row.arriving)?;
    let first = find_trip(trips, number, 3, &row.departing)?;
    let second = find_trip(trips, number, 4, name)?;
    Ok(LinkKind::Split {
        arriving,
        first,
        second,
    })
}

/// The kind of a row, with the trips that its names stand for.
fn kind_of(trips: &Named<Trip>, number: u32, row: &LinkRow) -> Result<LinkKind, InstanceRefusal>
    requires { length trips.now ≤ MAX_TRIPS }
    ensures value { result ≡ kind_of row.now.kind trips.now number row.now }
    ensures within { IfOk result (λ kind. NamesBelow (length trips.now) kind) }
{
    match row.kind {
        KindWord::Turn => turn_of(trips, number, row),
        KindWord::Join => join_of(trips, number, row),
        KindWord::Split => split_of(trips, number, row),
    }
}

/// Whether a trip is named as arriving, or as departing, that the kind or an earlier link has already named so.
fn names_again(before: &Linked, kind: LinkKind) -> bool
    requires { NamesBelow before.now.trips kind }
    ensures { result ≡ names_again before.now.links kind }
{
    match kind {
        LinkKind::Turn {
            arriving,
            departing,
            ..
        } => before.is_arriving(arriving) || before.is_departing(departing),
        LinkKind::Join {
            first,
            second,
            departing,
        } => {
            first == second
                || before.is_arriving(first)
                || before.is_arriving(second)
                || before.is_departing(departing)
        }
        LinkKind::Split {
            arriving,
            first,
            second,
        } => {
            first == second
                || before.is_arriving(arriving)
                || before.is_departing(first)
                || before.is_departing(second)
        }
    }
}

/// Whether one trip goes to the station that the other leaves from.
fn do_meet(trips: &[Trip], arriving: TripNo, departing: TripNo) -> bool
    requires arriving { arriving < length trips.now }
    requires departing { departing < length trips.now }
    ensures { result ≡ do_meet trips.now arriving departing }
{
    trips[arriving.place()].to == trips[departing.place()].from
}

/// Whether each arriving trip of a link goes to the station that each departing one leaves from.
fn all_meet(trips: &[Trip], kind: LinkKind) -> bool
    requires { NamesBelow (length trips.now) kind }
    ensures { result ≡ each_pair (do_meet trips.now) kind }
{
    match kind {
        LinkKind::Turn {
            arriving,
            departing,
            ..
        } => do_meet(trips, arriving, departing),
        LinkKind::Join {
            first,
            second,
            departing,
        } => do_meet(trips, first, departing) && do_meet(trips, second, departing),
        LinkKind::Split {
            arriving,
            first,
            second,
        } => do_meet(trips, arriving, first) && do_meet(trips, arriving, second),
    }
}

/// Whether one trip leaves at the minute at which the other arrives, or later.
fn is_in_time(trips: &[Trip], arriving: TripNo, departing: TripNo) -> bool
    requires arriving { arriving < length trips.now }
    requires departing { departing < length trips.now }
    ensures { result ≡ is_in_time trips.now arriving departing }
{
    trips[arriving.place()].arrival <= trips[departing.place()].departure
}

/// Whether each departing trip of a link leaves at the minute at which each arriving one arrives, or later.
fn all_in_time(trips: &[Trip], kind: LinkKind) -> bool
    requires { NamesBelow (length trips.now) kind }
    ensures { result ≡ each_pair (is_in_time trips.now) kind }
{
    match kind {
        LinkKind::Turn {
            arriving,
            departing,
            ..
        } => is_in_time(trips, arriving, departing),
        LinkKind::Join {
            first,
            second,
            departing,
        } => is_in_time(trips, first, departing) && is_in_time(trips, second, departing),
        LinkKind::Split {
            arriving,
            first,
            second,
        } => is_in_time(trips, arriving, first) && is_in_time(trips, arriving, second),
    }
}

/// The link, once its trips passed the tests of its row.
#[tactic(auto, unfolding(crate::specs::LinkRows::accept_trips))]
fn accept_trips(
    trips: &[Trip],
    before: &Linked,
    number: u32,
    link: Link,
) -> Result<Link, InstanceRefusal>
    requires named { NamesBelow (length trips.now) link.kind }
    requires trips { before.now.trips ≡ length trips.now }
    ensures value { result ≡ accept_trips trips.now before.now.links number link }
    ensures same { IfOk result (λ accepted. accepted ≡ link) }
{
    if names_again(before, link.kind) {
        return Err(InstanceRefusal::TripUsedTwice(number));
    }
    if !all_meet(trips, link.kind) {
        return Err(InstanceRefusal::WrongStation(number));
    }
    if !all_in_time(trips, link.kind) {
        return Err(InstanceRefusal::TooEarly(number));
    }
    Ok(link)
}

/// The link of a row, after those of the rows before it.
#[tactic(auto, unfolding(crate::specs::LinkRows::accept_link))]
fn accept_link(trips: &Named<Trip>, before: &Linked, row: &LinkRow) -> Result<Link, InstanceRefusal>
    requires trips { length trips.now ≤ MAX_TRIPS }
    requires before { length before.now.links ≤ MAX_LINKS }
    requires same_trips { before.now.trips ≡ length trips.now }
    ensures value { result ≡ accept_link trips.now before.now.links row.now }
    ensures named { IfOk result (λ link. NamesBelow (length trips.now) link.kind) }
{
    let number = row_after(before.len());
    let kind = kind_of(trips, number, row)?;
    let link = Link {
        kind,
        reverse: row.reverse,
    };
    accept_trips(trips.entries(), before, number, link)
}

/// Adds the links of the rows to those of the rows before them. An error is that of the first row that is refused, or
/// want of memory, and the links of the rows before it are added.
fn add_links(
    trips: &Named<Trip>,
    links: &mut Linked,
    rows: &[LinkRow],
) -> Result<(), InstanceRefusal>
    requires trips { length trips.now ≤ MAX_TRIPS }
    requires same_trips { links.old.trips ≡ length trips.now }
    requires rows { length links.old.links + length rows.now ≤ MAX_LINKS }
    ensures { Gives is_memory (result_and result (Ok links.new.links))
        (accept_each (accept_link trips.now) links.old.links rows.now) }
{
    for row in rows {
        // Taken apart and made anew: for a whole link that is kept here, rattle's borrow checker makes a plan that it
        // cannot build.
        let Link { kind, reverse } = accept_link(trips, links, row)?;
        links.push(&Link { kind, reverse })?;
    }
    Ok(())
}

/// The links of the rows.
#[tactic(auto, unfolding(crate::specs::LinkRows::links_in))]
pub fn links_of(
    alloc: Global,
    trips: &Named<Trip>,
    rows: &[LinkRow],
) -> Result<Vec<Link>, InstanceRefusal>
    requires trips { length trips.now ≤ MAX_TRIPS }
    requires rows { length rows.now ≤ MAX_LINKS }
    ensures { GivesRows is_memory result (links_in trips.now rows.now) }
{
    let mut links = Linked::new(alloc, trips.len() as u32)?;
    let added = add_links(trips, &mut links, rows);
    added.and(Ok(links.into_links()))
}
