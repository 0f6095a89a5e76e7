//! The table of urgent units, read.

ghost use Rattle.std.specs.Prelude.{ℕ, ◌≡◌, ◌≤◌, ◌<◌, ◌+◌, ◌++◌, List, [], length, map, IfOk, IfErr, MatchOption};
ghost use Rattle.std.specs.Prelude.{MatchBool};
ghost use Rattle.std.specs.Prelude.{IsTrue, ◌↔◌};
ghost use Rattle.std.specs.List.{All};
ghost use Rattle.csv.specs.Records.{fields_of};
ghost use Rattle.rail_csv.specs.Records.{ReadsOn, records_left};
ghost use Rattle.timetable.specs.Day.{unit_count};
ghost use Rattle.urgent_units.specs.Wishes.{AreRight, GoTogether, IsWish, IsWishOf, IsWishRefusal, NamesStation};
ghost use Rattle.urgent_units.specs.Wishes.{NamesUnit, SpellsWish};
ghost use Rattle.urgent_units.specs.WishReading.{AreRows, HasOneMore, HasReadHeader, IsHeaderRefusal, IsRightAfter};
ghost use Rattle.urgent_units.specs.WishReading.{IsRowRefusal};

use crate::refusal::WishRefusal;
use crate::wish::{Wish, WishRow, WishUnits};
use csv::{ByteRecord, ByteRecordsIntoIter};
use rail_base::limits::{MAX_TABLE_BYTES, MAX_UNITS};
use rail_base::{NoMemory, StationNo, UnitNo};
use rail_csv::{field_bytes, is_header, next_record, number_of, records_in};
use std::alloc::Global;
use timetable::Instance;

impl Wish {
    /// Reads the table of urgent units of a day. Its columns are `unit,depot`, and each row has a unit of the day, by
    /// its number, and the name of a station. The bytes are at most `MAX_TABLE_BYTES`.
    ///
    /// Refusals, the first that holds: `WrongHeader`, where the first record is missing or another; `BadRow`, with the
    /// first row that does not have two fields, names no unit or no station, names a unit of another type than row 1 or
    /// one that was named before, or another depot than row 1; `NoRow`, where no row follows the header. `NoMemory` may
    /// come at any of them.
    pub fn read(alloc: Global, instance: &Instance, bytes: &[u8]) -> Result<Wish, WishRefusal>
        requires { length bytes.now ≤ MAX_TABLE_BYTES }
        ensures wish { IfOk result (λ wish. IsWishOf instance.now bytes.now wish) }
        ensures known { IfOk result (λ wish. IsWish instance.now wish) }
        ensures refusal { IfErr result (λ refusal. IsWishRefusal instance.now bytes.now refusal) }
    {
        let mut records = records_in(alloc, bytes);
        read_header(&mut records)?;
        let rows = read_rows(alloc, instance, &mut records)?;
        let Some(first) = rows.first() else {
            return Err(WishRefusal::NoRow);
        };
        let units = units_of(alloc, &rows)?;
        Ok(Wish {
            unit_type: instance.unit(first.unit).unit_type,
            depot: first.depot,
            units: WishUnits { units },
        })
    }
}

/// Reads the header.
fn read_header(records: &mut ByteRecordsIntoIter<&[u8]>) -> Result<(), WishRefusal>
    requires { ReadsOn records.old }
    ensures ok { IfOk result (λ _. HasReadHeader records.old records.new) }
    ensures err { IfErr result (λ refusal. IsHeaderRefusal records.old refusal) }
{
    let Some(first) = next_record(records)? else {
        return Err(WishRefusal::WrongHeader);
    };
    if is_header(&["unit", "depot"], 2, &first) {
        Ok(())
    } else {
        Err(WishRefusal::WrongHeader)
    }
}

/// Reads the rows under the header.
fn read_rows(
    alloc: Global,
    instance: &Instance,
    records: &mut ByteRecordsIntoIter<&[u8]>,
) -> Result<Vec<WishRow>, WishRefusal>
    requires { ReadsOn records.old }
    ensures ok { IfOk result (λ rows. AreRight instance.now (records_left records.old) rows.items) }
    ensures err { IfErr result (λ refusal. IsRowRefusal instance.now (records_left records.old) refusal) }
{
    let mut rows: Vec<WishRow> = Vec::new(alloc);
    while read_next(instance, records, &mut rows)? {}
    Ok(rows)
}

/// Reads one row more, behind rows that are right: whether there was one.
fn read_next(
    instance: &Instance,
    records: &mut ByteRecordsIntoIter<&[u8]>,
    rows: &mut Vec<WishRow>,
) -> Result<bool, WishRefusal>
    requires reads { ReadsOn records.old }
    requires rows { AreRows instance.now rows.old.items }
    ensures rows { IfOk result (λ _. AreRows instance.now rows.new.items) }
    ensures ok { IfOk result (λ more. (seen : List (List (List ℕ))) → AreRight instance.now seen rows.old.items →
        MatchBool more (HasOneMore instance.now seen records.old records.new rows.new.items)
        ((records_left records.old ≡ []) × (rows.new.items ≡ rows.old.items))) }
    ensures err { IfErr result (λ refusal. (seen : List (List (List ℕ))) → AreRight instance.now seen rows.old.items →
        IsRowRefusal instance.now (seen ++ records_left records.old) refusal) }
{
    let Some(found) = next_record(records)? else {
        return Ok(false);
    };
    let Some(row) = right_row(instance, rows, &found) else {
        return Err(WishRefusal::BadRow(next_number(instance, rows)));
    };
    rows.push(row)?;
    Ok(true)
}

/// The number of the row behind these.
fn next_number(instance: &Instance, rows: &[WishRow]) -> u32
    requires { AreRows instance.now rows.now }
    ensures { result ≡ length rows.now + 1 }
{
    // No unit is named twice, so there are no more rows than units.
    prove!(instance.units() <= MAX_UNITS);
    rows.len() as u32 + 1
}

/// What a record says, if it is right after the rows before it.
fn right_row(instance: &Instance, before: &[WishRow], found: &ByteRecord) -> Option<WishRow>
    requires { AreRows instance.now before.now }
    ensures { MatchOption result
        ((row : WishRow) → ¬ IsRightAfter instance.now before.now (fields_of found.now) row)
        (λ row. IsRightAfter instance.now before.now (fields_of found.now) row) }
{
    let row = row_of(instance, found)?;
    if go_together(instance, before, &row) {
        Some(row)
    } else {
        None
    }
}

/// Whether each of some rows goes together with a row: they name two units of one type, and one depot.
fn go_together(instance: &Instance, before: &[WishRow], row: &WishRow) -> bool
    requires before { AreRows instance.now before.now }
    requires row { row.now.unit < unit_count instance.now }
    ensures { IsTrue result ↔ All (λ other. GoTogether instance.now other row.now) before.now }
{
    for other in before {
        if !goes_together(instance, other, row) {
            return false;
        }
    }
    true
}

/// Whether two rows name two units of one type, and one depot.
#[tactic(auto, unfolding(rules::specs::Day::type_of))]
fn goes_together(instance: &Instance, one: &WishRow, other: &WishRow) -> bool
    requires one { one.now.unit < unit_count instance.now }
    requires other { other.now.unit < unit_count instance.now }
    ensures { IsTrue result ↔ GoTogether instance.now one.now other.now }
{
    if instance.unit(one.unit).unit_type != instance.unit(other.unit).unit_type {
        return false;
    }
    if one.depot != other.depot {
        return false;
    }
    one.unit != other.unit
}

/// The unit and the station that a record of two fields names.
fn row_of(instance: &Instance, found: &ByteRecord) -> Option<WishRow>
    ensures { MatchOption result
        ((row : WishRow) → ¬ SpellsWish instance.now (fields_of found.now) row)
        (λ row. SpellsWish instance.now (fields_of found.now) row) }
{
    if found.len() != 2 {
        return None;
    }
    let unit = unit_named(instance, field_bytes(found, 0))?;
    let depot = station_named(instance, field_bytes(found, 1))?;
    Some(WishRow { unit, depot })
}

/// The unit of the day whose number a text spells.
fn unit_named(instance: &Instance, text: &[u8]) -> Option<UnitNo>
    ensures { MatchOption result
        ((u : ℕ) → ¬ NamesUnit instance.now text.now u) (λ u. NamesUnit instance.now text.now u) }
{
    let number = number_of(text)?;
    if number < instance.units() {
        Some(UnitNo(number))
    } else {
        None
    }
}

/// The station with this name.
fn station_named(instance: &Instance, text: &[u8]) -> Option<StationNo>
    ensures { MatchOption result
        ((s : ℕ) → ¬ NamesStation instance.now text.now s) (λ s. NamesStation instance.now text.now s) }
{
    match str::from_utf8(text) {
        Ok(name) => instance.find_station(name),
        Err(_) => None,
    }
}

/// The units of the rows.
fn units_of(alloc: Global, rows: &[WishRow]) -> Result<Vec<UnitNo>, NoMemory>
    ensures { IfOk result (λ units. units.items ≡ map (λ row. row.unit) rows.now) }
{
    let mut units = Vec::new(alloc);
    for row in rows {
        units.push(row.unit)?;
    }
    Ok(units)
}
