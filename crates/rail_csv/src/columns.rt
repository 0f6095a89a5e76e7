//! What each kind of column takes: a number, a time, a name, a word, units. A field that does not fit is refused with
//! its row and its column.

ghost use Rattle.std.specs.Prelude.{◌≡◌, ◌≤◌, length, Some, None, if◌then◌else◌, IfOk, option_map, nat_le};
ghost use Rattle.std.specs.List.{list_all};
ghost use Rattle.csv.specs.Records.{fields_of};
ghost use Rattle.rail_csv.specs.Fields.{are_digits, number_of, is_number, is_time, time_of, is_unit, numbers_of};
ghost use Rattle.rail_csv.specs.Fields.{pieces_of};
ghost use Rattle.rail_csv.specs.Columns.{number_column, time_column, name_column, optional_name_column, kind_column};
ghost use Rattle.rail_csv.specs.Columns.{answer_column, end_column, units_column, field, field_or};
ghost use Rattle.rail_csv.specs.Tables.{is_memory};
ghost use Rattle.rail_base.specs.Answers.{Gives};
ghost use Rattle.rail_base.specs.Names.{is_name};

use crate::limits::{
    LAST_HOUR, LAST_MINUTE_OF_AN_HOUR, MAX_NUMBER_DIGITS, MAX_VALUE_BYTES, MINUTES_OF_AN_HOUR,
};
use crate::reading::{field, field_or};
use crate::refusal::TableRefusal;
use crate::rows::{End, KindWord, UnitList};
use csv::StringRecord;
use rail_base::limits::{MAX_COMPOSITION_UNITS, MAX_UNITS};
use rail_base::name::is_name;
use rail_base::{Minute, Name, NoMemory, UnitNo};
use std::alloc::Global;

/// The number that a text of at most `MAX_VALUE_BYTES` bytes spells, where it has digits alone; 0 of an empty text.
pub fn digits_value(text: &[u8]) -> Option<u64>
    requires { length text.now ≤ MAX_VALUE_BYTES }
    ensures { result ≡ if are_digits text.now then Some (number_of text.now) else None }
{
    let mut value = 0u64;
    for byte in text {
        if !byte.is_ascii_digit() {
            return None;
        }
        value = value * 10 + u64::from(*byte - b'0');
    }
    Some(value)
}

/// The number that a text spells, where it is a number: 1 to `MAX_NUMBER_DIGITS` digits.
pub fn number_of(text: &[u8]) -> Option<u32>
    ensures { result ≡ if is_number text.now then Some (number_of text.now) else None }
{
    if text.is_empty() {
        return None;
    }
    if text.len() > MAX_NUMBER_DIGITS {
        return None;
    }
    let Some(value) = digits_value(text) else {
        return None;
    };
    Some(value as u32)
}

/// A number from `low` to `high`. A text that is no number is `BadNumber`, and another number `OutOfRange`.
pub fn number(
    fields: &StringRecord,
    low: u32,
    high: u32,
    row: u32,
    column: u32,
) -> Result<u32, TableRefusal>
    ensures { Gives is_memory result (number_column low high row column (field (fields_of fields.now) column)) }
{
    number_or("", fields, low, high, row, column)
}

/// A number from `low` to `high`; what is said for a missing one where the row's version has no such column. It is
/// refused as by `number`.
#[tactic(auto, unfolding(crate::specs::Columns::number_column))]
pub fn number_or(
    missing: &str,
    fields: &StringRecord,
    low: u32,
    high: u32,
    row: u32,
    column: u32,
) -> Result<u32, TableRefusal>
    ensures { Gives is_memory result
        (number_column low high row column (field_or missing.now (fields_of fields.now) column)) }
{
    let text = field_or(missing, fields, column as usize);
    let Some(value) = number_of(text.as_bytes()) else {
        return Err(TableRefusal::BadNumber { row, column });
    };
    if value < low {
        return Err(TableRefusal::OutOfRange { row, column });
    }
    if value > high {
        return Err(TableRefusal::OutOfRange { row, column });
    }
    Ok(value)
}

/// The time that a text spells, as the minutes since the first midnight, where it is a time: one or two digits of the
/// hour 0 to 47, a colon, and two digits of the minute 0 to 59.
pub fn time_of(text: &[u8]) -> Option<Minute>
    ensures { result ≡ if is_time text.now then Some (time_of text.now) else None }
{
    if text.len() < 4 {
        return None;
    }
    if text.len() > 5 {
        return None;
    }
    let hour = digits_value(&text[..text.len() - 3])?;
    if text[text.len() - 3] != b':' {
        return None;
    }
    let minute = digits_value(&text[text.len() - 2..])?;
    if hour > LAST_HOUR {
        return None;
    }
    if minute > LAST_MINUTE_OF_AN_HOUR {
        return None;
    }
    Some(Minute((MINUTES_OF_AN_HOUR * hour + minute) as u16))
}

/// A time, as the minutes since the first midnight. Another text is `BadTime`.
#[tactic(auto, unfolding(crate::specs::Columns::time_column))]
pub fn time(fields: &StringRecord, row: u32, column: u32) -> Result<Minute, TableRefusal>
    ensures { Gives is_memory result (time_column row column (field (fields_of fields.now) column)) }
{
    let text = field(fields, column as usize);
    let Some(time) = time_of(text.as_bytes()) else {
        return Err(TableRefusal::BadTime { row, column });
    };
    Ok(time)
}

/// The name that a text is, where it is one: 1 to 64 bytes, no byte below 32, no byte 127, and no space at either end.
/// The error is want of memory.
pub fn name_of(alloc: Global, text: &str) -> Result<Option<Name>, NoMemory>
    ensures { IfOk result (λ name. name ≡ if is_name text.now then Some text.now else None) }
{
    if !is_name(text.as_bytes()) {
        return Ok(None);
    }
    Ok(Some(Name::copy(alloc, text)?))
}

/// A name. Another text is `BadName`, and `NoMemory` is want of memory.
#[tactic(auto, unfolding(crate::specs::Columns::name_column))]
pub fn name(
    alloc: Global,
    fields: &StringRecord,
    row: u32,
    column: u32,
) -> Result<Name, TableRefusal>
    ensures { Gives is_memory result (name_column row column (field (fields_of fields.now) column)) }
{
    let text = field(fields, column as usize);
    let Some(name) = name_of(alloc, text)? else {
        return Err(TableRefusal::BadName { row, column });
    };
    Ok(name)
}

/// A name, or nothing where the field is empty. It is refused as by `name`.
#[tactic(auto, unfolding(crate::specs::Columns::optional_name_column))]
pub fn optional_name(
    alloc: Global,
    fields: &StringRecord,
    row: u32,
    column: u32,
) -> Result<Option<Name>, TableRefusal>
    ensures { Gives is_memory result (optional_name_column row column (field (fields_of fields.now) column)) }
{
    if field(fields, column as usize).is_empty() {
        return Ok(None);
    }
    let name = name(alloc, fields, row, column)?;
    Ok(Some(name))
}

/// One of the words `turn`, `join` and `split`. Another text is `BadWord`.
#[tactic(auto, unfolding(crate::specs::Columns::kind_column))]
pub fn kind(fields: &StringRecord, row: u32, column: u32) -> Result<KindWord, TableRefusal>
    ensures { Gives is_memory result (kind_column row column (field (fields_of fields.now) column)) }
{
    let text = field(fields, column as usize);
    match text {
        "turn" => Ok(KindWord::Turn),
        "join" => Ok(KindWord::Join),
        "split" => Ok(KindWord::Split),
        _ => Err(TableRefusal::BadWord { row, column }),
    }
}

/// One of the words `yes` and `no`. Another text is `BadWord`.
pub fn answer(fields: &StringRecord, row: u32, column: u32) -> Result<bool, TableRefusal>
    ensures { Gives is_memory result (answer_column row column (field (fields_of fields.now) column)) }
{
    answer_or("", fields, row, column)
}

/// One of the words `yes` and `no`; what is said for a missing one where the row's version has no such column. Another
/// text is `BadWord`.
#[tactic(auto, unfolding(crate::specs::Columns::answer_column))]
pub fn answer_or(
    missing: &str,
    fields: &StringRecord,
    row: u32,
    column: u32,
) -> Result<bool, TableRefusal>
    ensures { Gives is_memory result (answer_column row column (field_or missing.now (fields_of fields.now) column)) }
{
    let text = field_or(missing, fields, column as usize);
    match text {
        "yes" => Ok(true),
        "no" => Ok(false),
        _ => Err(TableRefusal::BadWord { row, column }),
    }
}

/// One of the words `none`, `front` and `rear`. Another text is `BadWord`.
#[tactic(auto, unfolding(crate::specs::Columns::end_column))]
pub fn end(fields: &StringRecord, row: u32, column: u32) -> Result<End, TableRefusal>
    ensures { Gives is_memory result (end_column row column (field (fields_of fields.now) column)) }
{
    let text = field(fields, column as usize);
    match text {
        "none" => Ok(End::None),
        "front" => Ok(End::Front),
        "rear" => Ok(End::Rear),
        _ => Err(TableRefusal::BadWord { row, column }),
    }
}

/// The units that the pieces of a text between spaces name, where each piece is a number. The text is not empty.
fn unit_numbers(alloc: Global, text: &str) -> Result<Option<Vec<UnitNo>>, NoMemory>
    requires { 1 ≤ length text.now }
    ensures { IfOk result
        (λ units. option_map (λ v. v.items) units
        ≡ if list_all is_number (pieces_of text.now) then Some (numbers_of text.now) else None) }
{
    let mut units = Vec::new(alloc);
    for piece in text.split(' ') {
        let Some(number) = number_of(piece.as_bytes()) else {
            return Ok(None);
        };
        units.push(UnitNo(number))?;
    }
    Ok(Some(units))
}

/// Whether each number is one that a unit may have.
fn are_units(units: &[UnitNo]) -> bool
    ensures { result ≡ list_all is_unit units.now }
{
    units.iter().all(|unit| unit.0 < MAX_UNITS)
}

/// Units by number, front to rear: nothing, or 1 to 6 numbers 0 to 1,999 with one space between two. A piece that is no
/// number is `BadNumber`; more numbers or a greater one are `OutOfRange`; `NoMemory` is want of memory.
#[tactic(auto, unfolding(crate::specs::Columns::units_column))]
pub fn units(
    alloc: Global,
    fields: &StringRecord,
    row: u32,
    column: u32,
) -> Result<UnitList, TableRefusal>
    ensures { Gives is_memory result (units_column row column (field (fields_of fields.now) column)) }
{
    let text = field(fields, column as usize);
    if text.is_empty() {
        return Ok(UnitList::of(Vec::new(alloc)));
    }
    let Some(units) = unit_numbers(alloc, text)? else {
        return Err(TableRefusal::BadNumber { row, column });
    };
    if units.len() > MAX_COMPOSITION_UNITS {
        return Err(TableRefusal::OutOfRange { row, column });
    }
    if !are_units(units.as_slice()) {
        return Err(TableRefusal::OutOfRange { row, column });
    }
    Ok(UnitList::of(units))
}
