//! How every table is read: its header, and then its rows in order, up to the limit or the first that is wrong.

ghost use Rattle.std.specs.Prelude.{◌≡◌, ◌≤◌, ◌<◌, ◌+◌, ◌^◌, [], length, map, Ok, IfOk, IfErr, MatchOption, MatchBool};
ghost use Rattle.std.specs.Prelude.{is_some, IfSome};
ghost use Rattle.std.specs.Str.{is_utf8};
ghost use Rattle.csv.specs.Reading.{NotLengths, error_kind};
ghost use Rattle.csv.specs.Records.{fields_of};
ghost use Rattle.rail_base.specs.Answers.{Fails, Gives, GivesRows};
ghost use Rattle.rail_csv.specs.Columns.{field, field_or};
ghost use Rattle.rail_csv.specs.Tables.{Columns, is_header, is_memory, records_of, row_of, rows_from, rows_under};
ghost use Rattle.rail_csv.specs.Tables.{table_of};
ghost use Rattle.rail_csv.specs.Records.{ReadsOn, Took, records_left};
ghost use Rattle.rail_csv.specs.ReadRows.{GoesOn, HasOneMore, HasRead, all_rows, row_within, width_of};

use crate::refusal::TableRefusal;
use csv::{ByteRecord, ByteRecordsIntoIter, Error, ReaderBuilder, StringRecord};
use rail_base::NoMemory;
use rail_base::limits::MAX_TABLE_BYTES;
use std::alloc::Global;

/// A row of a table, read column by column.
pub trait TableRow: Drop {
    /// What the columns make of the fields of a row, whose number comes first.
    ghost columns: { Columns Self };

    /// Reads the columns from left to right: the row, or the first field that does not fit. `row` is its number.
    fn read(alloc: Global, row: u32, fields: &StringRecord) -> Result<Self, TableRefusal>
        ensures { Gives is_memory result (columns row (fields_of fields.now)) };
}

/// The field of a column, counted from 0; what is said for a missing one where the row's version has no such column.
pub fn field_or<'a>(missing: &'a str, fields: &'a StringRecord, column: usize) -> &'a str
    ensures { result.now ≡ field_or missing.now (fields_of fields.now) column }
{
    match fields.get(column) {
        Some(text) => text,
        None => missing,
    }
}

/// The field of a column that every version has.
pub fn field(fields: &StringRecord, column: usize) -> &str
    ensures { result.now ≡ field (fields_of fields.now) column }
{
    field_or("", fields, column)
}

/// The bytes of a record's field, by its column, counted from 0; none where there is no such column.
pub fn field_bytes(found: &ByteRecord, column: usize) -> &[u8]
    ensures { result.now ≡ field (fields_of found.now) column }
{
    match found.get(column) {
        Some(bytes) => bytes,
        None => b"",
    }
}

/// The text of a record's field, by its column, counted from 0, and the empty text where there is no such column;
/// nothing where the bytes of the field are not UTF-8.
pub fn field_text(found: &ByteRecord, column: usize) -> Option<&str>
    ensures utf8 { is_some result ≡ is_utf8 (field (fields_of found.now) column) }
    ensures text { IfSome result (λ text. text.now ≡ field (fields_of found.now) column) }
{
    match std::str::from_utf8(field_bytes(found, column)) {
        Ok(text) => Some(text),
        Err(_) => None,
    }
}

/// Whether a record is the header of a version: a front of the words of all columns, with `fewest` of them at least. A
/// table that has one version alone has as many words as `fewest`.
pub fn is_header(words: &[&str], fewest: usize, found: &ByteRecord) -> bool
    ensures { result ≡ is_header (map (λ word. word.now) words.now) fewest (fields_of found.now) }
{
    let width = found.len();
    if width < fewest {
        return false;
    }
    if width > words.len() {
        return false;
    }
    for column in 0..width {
        if field_bytes(found, column) != words[column].as_bytes() {
            return false;
        }
    }
    true
}

/// Reads the row of a record: the number of fields first, then whether all are UTF-8, then the columns. `width` is how
/// many columns its version has.
#[tactic(auto, unfolding(crate::specs::Tables::row_of))]
fn read_row<T: TableRow>(
    alloc: Global,
    width: usize,
    row: u32,
    found: ByteRecord,
) -> Result<T, TableRefusal>
    requires { length (fields_of found) < 2 ^ 32 }
    ensures { Gives is_memory result (row_of width T.columns row (fields_of found)) }
{
    if found.len() != width {
        return Err(TableRefusal::FieldCount {
            row,
            found: found.len() as u32,
        });
    }
    let Ok(fields) = StringRecord::from_byte_record(found) else {
        return Err(TableRefusal::NotUtf8(row));
    };
    T::read(alloc, row, &fields)
}

/// The records of a table, to be read one by one by `next_record`. A byte order mark at the front is dropped once, and
/// empty lines are no records. The bytes are at most `MAX_TABLE_BYTES`.
pub fn records_in(alloc: Global, bytes: &[u8]) -> ByteRecordsIntoIter<&[u8]>
    requires { length bytes.now ≤ MAX_TABLE_BYTES }
    ensures reads { ReadsOn result }
    ensures all { records_left result ≡ records_of bytes.now }
{
    ReaderBuilder::new()
        .has_headers(false)
        .flexible(true)
        .from_reader(alloc, bytes)
        .into_byte_records()
}

/// The record that csv read, which did not fail for its number of fields. Bytes in memory leave csv only want of memory
/// to fail for, so each error is told as that.
fn record_of(read: Result<ByteRecord, Error>) -> Result<ByteRecord, NoMemory>
    requires { IfErr read (λ e. NotLengths (error_kind e)) }
    ensures { IfOk result (λ found. read ≡ Ok found) }
{
    match read {
        Ok(found) => Ok(found),
        Err(_) => Err(NoMemory),
    }
}

/// The next of the records that are left; none where all are read, and then there is nothing more to be read. The error
/// is want of memory.
pub fn next_record(records: &mut ByteRecordsIntoIter<&[u8]>) -> Result<Option<ByteRecord>, NoMemory>
    requires { ReadsOn records.old }
    ensures { IfOk result (λ next. MatchOption next (records_left records.old ≡ [])
        (λ found. Took records.old records.new (fields_of found))) }
{
    let Some(read) = records.next() else {
        return Ok(None);
    };
    let found = record_of(read)?;
    Ok(Some(found))
}

/// Reads the row of a record and puts it behind the rows that were read before it, of which there are at most `limit`.
/// A row past `limit` is one too many.
fn push_row<T: TableRow>(
    alloc: Global,
    width: usize,
    limit: u32,
    found: ByteRecord,
    rows: &mut Vec<T>,
) -> Result<(), TableRefusal>
    requires fields { length (fields_of found) < 2 ^ 32 }
    requires few { length rows.old.items ≤ limit }
    requires limit { limit ≤ MAX_TABLE_BYTES }
    ensures ok { IfOk result
        (λ _. HasOneMore width limit T.columns (fields_of found) rows.old.items rows.new.items) }
    ensures err { IfErr result
        (λ e. Fails is_memory e (row_within width limit T.columns (length rows.old.items + 1) (fields_of found))) }
{
    if rows.len() == limit as usize {
        return Err(TableRefusal::TooManyRows);
    }
    let number = rows.len() as u32 + 1;
    let row = read_row(alloc, width, number, found)?;
    rows.push(row)?;
    Ok(())
}

/// Reads on: whether there was a record. Where there was none, all rows are read.
fn read_next<T: TableRow>(
    alloc: Global,
    width: usize,
    limit: u32,
    records: &mut ByteRecordsIntoIter<&[u8]>,
    rows: &mut Vec<T>,
) -> Result<bool, TableRefusal>
    requires reads { ReadsOn records.old }
    requires few { length rows.old.items ≤ limit }
    requires limit { limit ≤ MAX_TABLE_BYTES }
    ensures ok { IfOk result (λ more. MatchBool more
        (GoesOn width limit T.columns rows.old.items rows.new.items records.old records.new)
        (all_rows width limit T.columns rows.old.items (records_left records.old) ≡ Ok rows.new.items)) }
    ensures err { IfErr result
        (λ e. Fails is_memory e (all_rows width limit T.columns rows.old.items (records_left records.old))) }
{
    let Some(found) = next_record(records)? else {
        return Ok(false);
    };
    push_row(alloc, width, limit, found, rows)?;
    Ok(true)
}

/// Reads the rows under a header of so many columns, at most `limit`.
fn read_rows<T: TableRow>(
    alloc: Global,
    width: usize,
    limit: u32,
    records: &mut ByteRecordsIntoIter<&[u8]>,
) -> Result<Vec<T>, TableRefusal>
    requires reads { ReadsOn records.old }
    requires limit { limit ≤ MAX_TABLE_BYTES }
    ensures { GivesRows is_memory result (rows_from width limit T.columns 1 (records_left records.old)) }
{
    let mut rows: Vec<T> = Vec::new(alloc);
    while read_next(alloc, width, limit, records, &mut rows)? {}
    Ok(rows)
}

/// Reads the header of a version: how many columns it has.
fn read_header(
    words: &[&str],
    fewest: usize,
    records: &mut ByteRecordsIntoIter<&[u8]>,
) -> Result<usize, TableRefusal>
    requires { ReadsOn records.old }
    ensures ok { IfOk result
        (λ width. HasRead (map (λ word. word.now) words.now) fewest width records.old records.new) }
    ensures err { IfErr result
        (λ e. Fails is_memory e (width_of (map (λ word. word.now) words.now) fewest (records_left records.old))) }
{
    let Some(first) = next_record(records)? else {
        return Err(TableRefusal::WrongHeader);
    };
    if is_header(words, fewest, &first) {
        Ok(first.len())
    } else {
        Err(TableRefusal::WrongHeader)
    }
}

/// Reads the header of a version and the rows under it, at most `limit`.
fn read_under<T: TableRow>(
    alloc: Global,
    words: &[&str],
    fewest: usize,
    limit: u32,
    records: &mut ByteRecordsIntoIter<&[u8]>,
) -> Result<Vec<T>, TableRefusal>
    requires reads { ReadsOn records.old }
    requires limit { limit ≤ MAX_TABLE_BYTES }
    ensures { GivesRows is_memory result
        (rows_under (map (λ word. word.now) words.now) fewest limit T.columns (records_left records.old)) }
{
    let width = read_header(words, fewest, records)?;
    read_rows(alloc, width, limit, records)
}

/// Reads a table: the words of its columns, how many of them its first version has, and the most rows. Its header tells
/// its version. A byte order mark at the front is dropped once, and empty lines are no records. There can't be more
/// rows than bytes, so no limit needs to be over the one on bytes. The refusal is the first thing that is wrong, or
/// want of memory.
#[tactic(auto, unfolding(crate::specs::Tables::table_of))]
pub fn read_table<T: TableRow>(
    alloc: Global,
    words: &[&str],
    fewest: usize,
    limit: u32,
    bytes: &[u8],
) -> Result<Vec<T>, TableRefusal>
    requires small { length bytes.now ≤ MAX_TABLE_BYTES }
    requires limit { limit ≤ MAX_TABLE_BYTES }
    ensures { GivesRows is_memory result
        (table_of (map (λ word. word.now) words.now) fewest limit T.columns bytes.now) }
{
    let mut records = records_in(alloc, bytes);
    read_under(alloc, words, fewest, limit, &mut records)
}
