//! Days that are read with the bytes of their tables.

use crate::day::{BASE_DAY, Day, TWO_TRIPS, folder_with_day_at};
use day_files::{DayWithBytes, day_with_bytes_in};
use std::alloc::Global;
use std::process::Abort;
use std::test::Fail;

/// Asserts that the bytes of a day's tables are its texts.
fn expect_texts(rt: &impl Abort, read: &DayWithBytes, day: &Day) {
    let tables = [
        (read.bytes.types.items(), day.types),
        (read.bytes.stations.items(), day.stations),
        (read.bytes.stock.items(), day.stock),
        (read.bytes.trips.items(), day.trips),
        (read.bytes.links.items(), day.links),
        (read.bytes.weights.items(), day.weights),
    ];
    for (bytes, text) in tables {
        assert!(rt; text.is_some_and(|text| text.as_bytes() == bytes));
    }
}

/// Asserts that a day comes with the bytes of its tables.
fn expect_read(rt: &impl Abort, alloc: Global, day: &Day) -> Result<(), Fail> {
    let mut folder = folder_with_day_at(rt, alloc, "week/2", day)?;
    match day_with_bytes_in(alloc, &mut folder, "week/2") {
        Ok(read) => expect_texts(rt, &read, day),
        Err(_) => return Err(Fail::new("the day is refused")),
    }
    Ok(())
}

const DAYS: &[Day<'static>] = &[TWO_TRIPS, BASE_DAY];

#[test]
fn days_come_with_the_bytes_of_their_tables(rt: HostRuntime) -> Result<(), Fail> {
    for day in DAYS {
        expect_read(&rt, rt.alloc(), day)?;
    }
    Ok(())
}
