//! A table that no reader is for, read record by record as the reader of one more table does it.

ghost use Rattle.std.specs.Prelude.{IfOk};
ghost use Rattle.rail_csv.specs.Records.{ReadsOn};

use csv::{ByteRecord, ByteRecordsIntoIter};
use rail_base::NoMemory;
use rail_csv::{
    field_bytes, field_text, is_header, name_of, next_record, number_of, records_in, time_of,
};
use std::alloc::Global;
use std::process::Abort;
use std::test::Fail;

/// The next record. Where none is left, the test fails.
fn next_of(records: &mut ByteRecordsIntoIter<&[u8]>) -> Result<ByteRecord, Fail>
    requires { ReadsOn records.old }
    ensures { IfOk result (λ _found. ReadsOn records.new) }
{
    match next_record(records)? {
        Some(found) => Ok(found),
        None => Err(Fail::new("a record is missing")),
    }
}

/// Whether a record is the header of units and times, and not that of another table.
fn is_header_of_times(found: &ByteRecord) -> bool {
    is_header(&["unit", "time"], 2, found) && !is_header(&["unit", "depot"], 2, found)
}

/// Whether a record has the number 7, with a zero in front, and five past seven.
fn has_number_and_time(found: &ByteRecord) -> bool {
    number_of(field_bytes(found, 0)) == Some(7)
        && time_of(field_bytes(found, 1)).is_some_and(|time| time.0 == 425)
}

/// Whether a record has three fields, of which the first is no number, the second no time and the last `x`.
fn has_three_fields(found: &ByteRecord) -> bool {
    found.len() == 3
        && number_of(field_bytes(found, 0)).is_none()
        && time_of(field_bytes(found, 1)).is_none()
        && field_bytes(found, 2) == b"x".as_slice()
        && field_bytes(found, 3).is_empty()
        && field_text(found, 0) == Some("a")
        && field_text(found, 3) == Some("")
}

/// Whether a record has a text in UTF-8 and one that is none.
fn has_text_and_none(found: &ByteRecord) -> bool {
    field_text(found, 0) == Some("\u{e5}") && field_text(found, 1).is_none()
}

/// Whether the next record is that header.
fn header_is_next(records: &mut ByteRecordsIntoIter<&[u8]>) -> Result<bool, Fail>
    requires { ReadsOn records.old }
    ensures { IfOk result (λ _is_so. ReadsOn records.new) }
{
    let found = next_of(records)?;
    Ok(is_header_of_times(&found))
}

/// Whether the next record has that number and that time.
fn number_and_time_are_next(records: &mut ByteRecordsIntoIter<&[u8]>) -> Result<bool, Fail>
    requires { ReadsOn records.old }
    ensures { IfOk result (λ _is_so. ReadsOn records.new) }
{
    let found = next_of(records)?;
    Ok(has_number_and_time(&found))
}

/// Whether the next record has those three fields.
fn three_fields_are_next(records: &mut ByteRecordsIntoIter<&[u8]>) -> Result<bool, Fail>
    requires { ReadsOn records.old }
    ensures { IfOk result (λ _is_so. ReadsOn records.new) }
{
    let found = next_of(records)?;
    Ok(has_three_fields(&found))
}

/// Whether the next record has those two texts.
fn text_and_none_are_next(records: &mut ByteRecordsIntoIter<&[u8]>) -> Result<bool, Fail>
    requires { ReadsOn records.old }
    ensures { IfOk result (λ _is_so. ReadsOn records.new) }
{
    let found = next_of(records)?;
    Ok(has_text_and_none(&found))
}

/// Whether no record is left.
fn none_is_next(records: &mut ByteRecordsIntoIter<&[u8]>) -> Result<bool, Fail>
    requires { ReadsOn records.old }
{
    let next = next_record(records)?;
    Ok(next.is_none())
}

/// Asserts what the records of the table are, one after the other.
fn records_are_read(rt: &impl Abort, records: &mut ByteRecordsIntoIter<&[u8]>) -> Result<(), Fail>
    requires { ReadsOn records.old }
{
    assert!(rt; header_is_next(records)?);
    assert!(rt; number_and_time_are_next(records)?);
    assert!(rt; three_fields_are_next(records)?);
    assert!(rt; text_and_none_are_next(records)?);
    assert!(rt; none_is_next(records)?);
    Ok(())
}

#[test]
fn one_more_table_is_read_record_by_record(rt: HostRuntime) -> Result<(), Fail> {
    let table = b"\xEF\xBB\xBFunit,time\n07,7:05\n\n\"a\",24:60,x\n\xC3\xA5,\xE5\n";
    let mut records = records_in(rt.alloc(), table);
    records_are_read(&rt, &mut records)
}

/// Whether a text can be a name.
fn is_named(alloc: Global, text: &str) -> Result<bool, NoMemory> {
    Ok(name_of(alloc, text)?.is_some())
}

#[test]
fn names_have_no_space_in_front(rt: HostRuntime) -> Result<(), Fail> {
    assert!(rt; is_named(rt.alloc(), "Depot North")?);
    assert!(rt; !is_named(rt.alloc(), " Depot")?);
    Ok(())
}
