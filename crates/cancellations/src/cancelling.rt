//! The table of the trips that are cancelled: its header, and a row for each trip, which names it.

ghost use Rattle.std.specs.Prelude.{ℕ, ◌≡◌, ◌≤◌, ◌<◌, ◌+◌, ◌↔◌, length, IfOk, IfErr, IfSome, IfNone, IsTrue, MatchBool};
ghost use Rattle.rail_base.specs.declared.limits.TheConstants.{MAX_TABLE_BYTES};
ghost use Rattle.csv.specs.Records.{fields_of};
ghost use Rattle.rail_csv.specs.Records.{ReadsOn, records_left};
ghost use Rattle.rail_csv.specs.Tables.{records_of};
ghost use Rattle.cancellations.specs.Cancellations.{AreCancellable, CancelAll, CancelEach, Cancels, IsCancelRefusal};
ghost use Rattle.cancellations.specs.Cancellations.{MayBeCancelled};
ghost use Rattle.cancellations.specs.ReadRows.{IsRowsRefusal, HasNoMore, HasOneMore, IsNextRowRefusal};

use crate::past::{has_any_left, has_left};
use csv::{ByteRecord, ByteRecordsIntoIter};
use rail_base::{Minute, NoMemory, TripNo};
use rail_csv::{field_text, is_header, next_record, records_in};
use std::alloc::{AllocFailed, Global};
use std::marker::Model;
use thiserror::Error;
use timetable::Instance;

/// The trips of a day that are cancelled at a minute, in the order of their rows. A contract sees the list of their
/// numbers.
#[derive(Drop)]
pub struct Cancelled {
    trips: Vec<TripNo>,
}

impl Model for Cancelled {
    ghost use Rattle.std.specs.Prelude.{List, ℕ};

    ghost Value = { List ℕ };

    ghost view = { λ a. a.trips.items };
}

impl Cancelled {
    /// The trips, in the order of their rows. It takes no memory.
    pub fn items(&self) -> &[TripNo]
        ensures { result.now ≡ self.now }
    {
        self.trips.as_slice()
    }
}

/// Why a table of cancelled trips is refused: the first thing wrong in it. Rows are counted from 1, and row 1 is the
/// record after the header.
#[derive(Clone, Copy, Debug, PartialEq, Eq, Error)]
pub enum CancelRefusal {
    /// The first record is absent, or it is not the one word `trip`.
    #[error("wrong header")]
    WrongHeader,
    /// The row cancels no trip: it does not have one field, or that is the name of no trip, or of a trip that an
    /// earlier row names, or of one that has left, or of one that leaves by a split by which the other trip has left.
    #[error("a row is wrong")]
    BadRow(u32),
    /// Want of memory.
    #[error("out of memory")]
    NoMemory,
}

impl From<NoMemory> for CancelRefusal {
    ghost use Rattle.std.specs.Prelude.{◌≡◌};
    ghost use Rattle.cancellations.specs.declared.cancelling.CancelRefusal.TheVariants as refusals;

    ghost from_gives = { λ _ e. e ≡ refusals.NoMemory };

    fn from(_error: NoMemory) -> CancelRefusal {
        CancelRefusal::NoMemory
    }
}

impl<T: Drop> From<AllocFailed<T>> for CancelRefusal {
    ghost use Rattle.std.specs.Prelude.{◌≡◌};
    ghost use Rattle.cancellations.specs.declared.cancelling.CancelRefusal.TheVariants as refusals;

    ghost from_gives = { λ _ e. e ≡ refusals.NoMemory };

    fn from(_error: AllocFailed<T>) -> CancelRefusal {
        CancelRefusal::NoMemory
    }
}

/// The trips that a table cancels at a minute of a day: the bytes of `cancelled.csv`, at most `MAX_TABLE_BYTES` of
/// them. A byte order mark at the front is dropped once, and empty lines are no records.
///
/// - `WrongHeader`: there is no first record, or it is not the one word `trip`.
/// - `BadRow`: the row is the first that is wrong. A row is right where it has one field, which is the name of a trip
///   that no row before it names, and this trip may be cancelled: neither it nor another trip by the same link has left
///   before the minute, as the other trip of a split may have.
/// - `NoMemory`: want of memory.
///
/// But for want of memory, trips are answered exactly where nothing is wrong, by the law `tables_are_decided`.
pub fn read_cancelled(
    alloc: Global,
    instance: &Instance,
    now: Minute,
    bytes: &[u8],
) -> Result<Cancelled, CancelRefusal>
    requires { length bytes.now ≤ MAX_TABLE_BYTES }
    ensures cancelled { IfOk result (CancelAll instance.now now (records_of bytes.now)) }
    ensures cancellable { IfOk result (AreCancellable instance.now now) }
    ensures refused { IfErr result (IsCancelRefusal instance.now now (records_of bytes.now)) }
{
    let mut records = records_in(alloc, bytes);
    let Some(header) = next_record(&mut records)? else {
        return Err(CancelRefusal::WrongHeader);
    };
    if !is_header(&["trip"], 1, &header) {
        return Err(CancelRefusal::WrongHeader);
    }
    let trips = read_rows(alloc, instance, now, &mut records)?;
    Ok(Cancelled { trips })
}

/// The trips that the rows under the header cancel, one a row.
fn read_rows(
    alloc: Global,
    instance: &Instance,
    now: Minute,
    records: &mut ByteRecordsIntoIter<&[u8]>,
) -> Result<Vec<TripNo>, CancelRefusal>
    requires reads { ReadsOn records.old }
    requires few { length (records_left records.old) ≤ MAX_TABLE_BYTES }
    ensures ok { IfOk result (λ trips. CancelEach instance.now now (records_left records.old) trips.items) }
    ensures err { IfErr result (IsRowsRefusal instance.now now (records_left records.old)) }
{
    let mut trips = Vec::new(alloc);
    while read_next(instance, now, records, &mut trips)? {}
    Ok(trips)
}

/// Reads on: whether there was a row, whose trip is then put behind those of the rows before it.
fn read_next(
    instance: &Instance,
    now: Minute,
    records: &mut ByteRecordsIntoIter<&[u8]>,
    trips: &mut Vec<TripNo>,
) -> Result<bool, CancelRefusal>
    requires reads { ReadsOn records.old }
    requires few { length trips.old.items + length (records_left records.old) ≤ MAX_TABLE_BYTES }
    ensures ok { IfOk result (λ more. MatchBool more
        (HasOneMore instance.now now trips.old.items trips.new.items records.old records.new)
        (HasNoMore trips.old.items trips.new.items records.old)) }
    ensures err { IfErr result (IsNextRowRefusal instance.now now trips.old.items (records_left records.old)) }
{
    let Some(row) = next_record(records)? else {
        return Ok(false);
    };
    let Some(trip) = cancelled_by(instance, now, trips, &row) else {
        return Err(CancelRefusal::BadRow(trips.len() as u32 + 1));
    };
    trips.push(trip)?;
    Ok(true)
}

/// The trip that a row cancels, after rows that cancel others; none where the row is wrong.
fn cancelled_by(
    instance: &Instance,
    now: Minute,
    others: &[TripNo],
    row: &ByteRecord,
) -> Option<TripNo>
    ensures some { IfSome result (Cancels instance.now now others.now (fields_of row.now)) }
    ensures none { IfNone result ((t : ℕ) → Cancels instance.now now others.now (fields_of row.now) t → ⊥) }
{
    // Names are apart on an accepted day.
    instance.is_sound();
    if row.len() != 1 {
        return None;
    }
    let name = field_text(row, 0)?;
    let trip = instance.find_trip(name)?;
    if others.contains(&trip) {
        return None;
    }
    if !may_be_cancelled(instance, now, trip) {
        return None;
    }
    Some(trip)
}

/// Whether a trip may be cancelled: neither it nor another trip by the same link has left.
fn may_be_cancelled(instance: &Instance, now: Minute, trip: TripNo) -> bool
    requires { trip < length instance.now.trips }
    ensures { IsTrue result ↔ MayBeCancelled instance.now now trip }
{
    // No trip leaves by two links.
    instance.is_sound();
    match instance.link_into(trip) {
        Some(link) => !has_any_left(instance, now, link.kind.departing()),
        None => !has_left(instance, now, trip),
    }
}
