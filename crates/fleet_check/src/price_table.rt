//! The table of prices, read.

ghost use Rattle.std.specs.Prelude.{ℕ, ◌≡◌, ◌≤◌, length, IfOk, IfErr, MatchOption};
ghost use Rattle.csv.specs.Records.{fields_of};
ghost use Rattle.rail_csv.specs.Records.{ReadsOn, records_left};
ghost use Rattle.fleet_check.specs.PriceTables.{AreAllRight, ArePricesOf, IsPriceRefusal, SpellsPrice};
ghost use Rattle.fleet_check.specs.PriceReading.{HasReadHeader, IsHeaderRefusal, IsRowRefusal};

use crate::refusal::PriceRefusal;
use compositions::UnitType;
use csv::{ByteRecord, ByteRecordsIntoIter};
use fleet_boxes::Prices;
use rail_base::TypeNo;
use rail_base::limits::MAX_TABLE_BYTES;
use rail_csv::{field_bytes, is_header, next_record, number_of, records_in};
use std::alloc::Global;
use timetable::Instance;

/// Reads the table of prices of a day. Its columns are `type,cost`, and row k, counted from 1, has the name of type
/// k - 1 and the cost of one unit of it. The bytes are at most `MAX_TABLE_BYTES`.
///
/// Refusals, the first that holds: `WrongHeader`, where the first record is missing or another; `BadRow`, with the
/// first row that does not have two fields, does not name its type, has no number for its cost, or has no type left;
/// `MissingRow`, with the number of the last row, where types are left. `NoMemory` may come at any of them.
pub fn read_prices(alloc: Global, instance: &Instance, bytes: &[u8]) -> Result<Prices, PriceRefusal>
    requires { length bytes.now ≤ MAX_TABLE_BYTES }
    ensures prices { IfOk result (λ prices. ArePricesOf instance.now bytes.now prices) }
    ensures refusal { IfErr result (λ refusal. IsPriceRefusal instance.now bytes.now refusal) }
{
    let mut records = records_in(alloc, bytes);
    read_header(&mut records)?;
    let costs = read_rows(alloc, instance, &mut records)?;
    Ok(Prices::of(costs))
}

/// Reads the header.
fn read_header(records: &mut ByteRecordsIntoIter<&[u8]>) -> Result<(), PriceRefusal>
    requires { ReadsOn records.old }
    ensures ok { IfOk result (λ _. HasReadHeader records.old records.new) }
    ensures err { IfErr result (λ refusal. IsHeaderRefusal records.old refusal) }
{
    let Some(first) = next_record(records)? else {
        return Err(PriceRefusal::WrongHeader);
    };
    if is_header(&["type", "cost"], 2, &first) {
        Ok(())
    } else {
        Err(PriceRefusal::WrongHeader)
    }
}

/// Reads the rows under the header, one for each type.
fn read_rows(
    alloc: Global,
    instance: &Instance,
    records: &mut ByteRecordsIntoIter<&[u8]>,
) -> Result<Vec<u32>, PriceRefusal>
    requires { ReadsOn records.old }
    ensures ok { IfOk result (λ costs. AreAllRight (records_left records.old) instance.now.types costs.items) }
    ensures err { IfErr result (λ refusal. IsRowRefusal instance.now (records_left records.old) refusal) }
{
    let types = instance.types();
    let mut costs = Vec::new(alloc);
    for number in 0..types.len() {
        let Some(found) = next_record(records)? else {
            return Err(PriceRefusal::MissingRow(number));
        };
        let Some(cost) = cost_in(types.get(TypeNo(number)), &found) else {
            return Err(PriceRefusal::BadRow(number + 1));
        };
        costs.push(cost)?;
    }
    match next_record(records)? {
        None => Ok(costs),
        Some(_) => Err(PriceRefusal::BadRow(types.len() + 1)),
    }
}

/// The cost that a record says of a type.
fn cost_in(unit_type: &UnitType, found: &ByteRecord) -> Option<u32>
    ensures { MatchOption result
        ((cost : ℕ) → ¬ SpellsPrice unit_type.now (fields_of found.now) cost)
        (λ cost. SpellsPrice unit_type.now (fields_of found.now) cost) }
{
    if found.len() != 2 {
        return None;
    }
    if field_bytes(found, 0) != unit_type.name.as_str().as_bytes() {
        return None;
    }
    number_of(field_bytes(found, 1))
}
