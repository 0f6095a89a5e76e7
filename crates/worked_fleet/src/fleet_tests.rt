//! Fleets of least cost of a small day, by their documents.

ghost use Rattle.std.specs.Prelude.{◌≡◌, length};
ghost use Rattle.timetable.specs.DayTables.{IsDayOfBytes};

use crate::days::{made_of, tables};
use fleet_boxes::Prices;
use fleet_check::{DayOfTables, read_prices};
use fleet_size::{Granted, fleet};
use fleet_text::print_fleet;
use sample_days::table;
use std::alloc::Global;
use std::test::Fail;

/// A search for a fleet, and the first lines of its document.
struct Case {
    /// The most units that may stand at X.
    most: u32,
    /// The table of prices.
    prices: &'static [u8],
    /// How many splits are granted.
    splits: u32,
    /// How its document begins.
    begins: &'static str,
}

const CASES: &[Case] = &[
    // One unit costs 1060 and 500, two cost 120 and 1000.
    Case {
        most: 2,
        prices: b"type,cost\nA,500\n",
        splits: 50,
        begins: "fleet optimal 1120\nsplits 2\nstock 0 0 2\nstock 1 0 0\n",
    },
    Case {
        most: 2,
        prices: b"type,cost\nA,1000\n",
        splits: 50,
        begins: "fleet optimal 2060\nsplits 2\nstock 0 0 1\nstock 1 0 0\n",
    },
    Case {
        most: 2,
        prices: b"type,cost\nA,500\n",
        splits: 0,
        begins: "fleet bounded 120 plan 1120\nsplits 0\nstock 0 0 2\nstock 1 0 0\n",
    },
    Case {
        most: 0,
        prices: b"type,cost\nA,500\n",
        splits: 50,
        begins: "fleet infeasible\nsplits 0\nend\n",
    },
];

/// The document of the fleet that is found.
fn told(alloc: Global, case: &Case) -> Result<Vec<u8>, Fail> {
    let bytes = tables(alloc, case.most)?;
    let instance = made_of(alloc, &bytes)?;
    let prices = read_prices(alloc, &instance, table(case.prices)?)?;
    let day = DayOfTables {
        bytes: &bytes,
        instance: &instance,
    };
    told_of(alloc, &day, &prices, case.splits)
}

/// The document of the fleet that is found with so many splits.
fn told_of(
    alloc: Global,
    day: &DayOfTables<'_>,
    prices: &Prices,
    splits: u32,
) -> Result<Vec<u8>, Fail>
    requires made { IsDayOfBytes day.now.bytes.now day.now.instance.now }
    requires prices { length prices.now ≡ length day.now.instance.now.types }
{
    if splits > 200 {
        return Err(Fail::new("too many splits"));
    }
    let granted = Granted {
        branchings: 50,
        rounds: 0,
        splits,
        evaluations: 0,
    };
    let mut advisors = Vec::new(alloc);
    let found = fleet(alloc, day, prices, granted, &mut advisors)?;
    Ok(print_fleet(alloc, day.instance.types().len(), found)?)
}

#[test]
fn fleets_are_found(rt: HostRuntime) -> Result<(), Fail> {
    for case in CASES {
        let told = told(rt.alloc(), case)?;
        assert!(rt; told.as_slice().starts_with(case.begins.as_bytes()));
    }
    Ok(())
}
