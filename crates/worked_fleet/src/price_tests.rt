//! Tables of prices by hand.

use fleet_boxes::Prices;
use fleet_check::read_prices;
use sample_days::{TURN, TWO_TYPES, Texts, day_of, table};
use std::alloc::{AllocError, Global};
use std::process::Abort;
use std::test::Fail;
use timetable::Instance;

/// Tables of prices of a day with the type A alone, and what is read of them.
const ONE_TYPE_READ: &[(&[u8], &str)] = &[
    (b"type,cost\nA,500\n", "500"),
    (b"\xef\xbb\xbftype,cost\n\n\"A\",000999999\n", "999999"),
    (b"type,cost\nA,999999999\n", "999999999"),
    (b"type,cost\nA,0\n", "0"),
    (b"type,cost\r\nA,500\r\n", "500"),
    (b"type,cost\nA,500", "500"),
    (b"type,cost\nA,0000000500\n", "BadRow(1)"),
    (b"type,cost\n\xff,500\n", "BadRow(1)"),
    (b"type,cost\nA,1000000000\n", "BadRow(1)"),
    (b"type,cost\nA,-1\n", "BadRow(1)"),
    (b"type,cost\nA,\n", "BadRow(1)"),
    (b"type,cost\nA\n", "BadRow(1)"),
    (b"type,cost\nA,1,2\n", "BadRow(1)"),
    (b"type,cost\nB,500\n", "BadRow(1)"),
    (b"type,cost\nA,500\nA,500\n", "BadRow(2)"),
    (b"type,cost\n", "MissingRow(0)"),
    (b"type,cost,\nA,500\n", "WrongHeader"),
    (b"cost,type\nA,500\n", "WrongHeader"),
    (b"", "WrongHeader"),
];

/// Those of a day with the types A and B.
const TWO_TYPES_READ: &[(&[u8], &str)] = &[
    (b"type,cost\nA,500\nB,700\n", "500 700"),
    (b"type,cost\nB,700\nA,500\n", "BadRow(1)"),
    (b"type,cost\nA,500\nA,500\n", "BadRow(2)"),
    (b"type,cost\nA,500\n", "MissingRow(1)"),
    (b"type,cost\nB,1\n", "BadRow(1)"),
    (b"type,cost\nA,500\nB,700\nC,1\n", "BadRow(3)"),
];

/// Those of a day without types.
const NO_TYPES_READ: &[(&[u8], &str)] = &[
    (b"type,cost\n", ""),
    (b"type,cost\nA,500\n", "BadRow(1)"),
    (b"", "WrongHeader"),
];

/// The tables of a day without types, and so without units and trips.
const NO_TYPES: Texts<'static> = Texts {
    types: b"type,carriages,seats,metres,family\n",
    stock: b"station,type,start,end\n",
    trips: b"trip,from,departure,to,arrival,km,demand\n",
    links: b"kind,arriving,arriving2,departing,departing2,reverse,uncouple,couple\n",
    ..TURN
};

/// Adds a price, with a space before it unless it is the first.
fn write_price(text: &mut String, cost: u32) -> Result<(), AllocError> {
    if text.is_empty() {
        return write!(text, "{cost}");
    }
    write!(text, " {cost}")
}

/// Prices, in order.
fn text_of(alloc: Global, prices: &Prices) -> Result<String, Fail> {
    let mut text = String::new(alloc);
    for cost in prices.items() {
        write_price(&mut text, *cost)?;
    }
    Ok(text)
}

/// What is read of a table of prices.
fn told(alloc: Global, day: &Instance, text: &[u8]) -> Result<String, Fail> {
    match read_prices(alloc, day, table(text)?) {
        Ok(prices) => text_of(alloc, &prices),
        Err(refusal) => Ok(format!(in alloc; "{refusal:?}")?),
    }
}

/// Whether so much is read of a table of prices.
fn is_read(alloc: Global, day: &Instance, text: &[u8], wanted: &str) -> Result<bool, Fail> {
    let told = told(alloc, day, text)?;
    Ok(told.as_str() == wanted)
}

/// Each table of prices of a day is read as it is to be.
fn are_read(
    rt: &impl Abort,
    alloc: Global,
    day: &Instance,
    cases: &[(&[u8], &str)],
) -> Result<(), Fail> {
    for (text, wanted) in cases {
        assert!(rt; is_read(alloc, day, *text, *wanted)?, "{wanted}");
    }
    Ok(())
}

/// The tables of days, and tables of prices of each.
const READ: &[(Texts<'static>, &[(&[u8], &str)])] = &[
    (TURN, ONE_TYPE_READ),
    (TWO_TYPES, TWO_TYPES_READ),
    (NO_TYPES, NO_TYPES_READ),
];

#[test]
fn prices_are_read(rt: HostRuntime) -> Result<(), Fail> {
    for (texts, cases) in READ {
        let day = day_of(rt.alloc(), texts)?;
        are_read(&rt, rt.alloc(), &day, *cases)?;
    }
    Ok(())
}
