//! Days and plans of which tests are made, from the texts of their tables, and the texts of days that several crates of
//! tests take; and a test whether drawn picks meet what calls require of picks.
#![tactic(auto)]

mod picks;

ghost use Rattle.std.specs.Prelude.{◌≡◌, ◌≤◌, length, IfOk};
ghost use Rattle.timetable.specs.Running.{IsPlan};

pub use picks::may_run;
use rail_base::limits::MAX_TABLE_BYTES;
use std::alloc::Global;
use std::test::Fail;
use timetable::{Instance, NamedPlan, Rows, Tables};

/// The tables of a day but the weights, which are 1, 1 and 100.
#[derive(Clone, Copy)]
pub struct Texts<'a> {
    /// The table of unit types.
    pub types: &'a [u8],
    /// The table of stations.
    pub stations: &'a [u8],
    /// The table of the units that stand at the stations at the start and are wanted there at the end.
    pub stock: &'a [u8],
    /// The table of trips.
    pub trips: &'a [u8],
    /// The table of links.
    pub links: &'a [u8],
}

/// Two units of one type stand at X and are wanted there at the end: a trip from X to Y, and one back ten minutes later
/// by a turn that may uncouple at the rear. The compositions are A and AA.
pub const TURN: Texts<'static> = Texts {
    types: b"type,carriages,seats,metres,family\nA,3,200,80,regional\n",
    stations: b"station,platform,reallocation\nX,200,30\nY,200,30\n",
    stock: b"station,type,start,end\nX,A,2,2\n",
    trips: b"trip,from,departure,to,arrival,km,demand\n\
        T1,X,08:00,Y,09:00,10,300\nT2,Y,09:10,X,10:10,10,150\n",
    links: b"kind,arriving,arriving2,departing,departing2,reverse,uncouple,couple\n\
        turn,T1,,T2,,yes,rear,none\n",
};

/// The same, where one of the two units is wanted at Y at the end.
pub const ONE_LEFT: Texts<'static> = Texts {
    stock: b"station,type,start,end\nX,A,2,1\nY,A,0,1\n",
    ..TURN
};

/// Such a turn with one unit of each of two types at X, of which that of A is wanted at Y at the end. The compositions
/// are A, B, AB, BA and BB.
pub const TWO_TYPES: Texts<'static> = Texts {
    types: b"type,carriages,seats,metres,family\nA,3,200,80,regional\nB,2,100,60,regional\n",
    stations: b"station,platform,reallocation\nX,140,30\nY,140,30\n",
    stock: b"station,type,start,end\nX,A,1,0\nX,B,1,1\nY,A,0,1\n",
    trips: b"trip,from,departure,to,arrival,km,demand\n\
        T1,X,08:00,Y,09:00,10,300\nT2,Y,09:10,X,10:10,10,100\n",
    ..TURN
};

/// A ring of four trips, with three units of one type: the train of T1 is split over T2 and T3, and that of T4 is
/// joined of theirs in the other order. The compositions are A, AA and AAA.
pub const RING: Texts<'static> = Texts {
    stations: b"station,platform,reallocation\nX,240,30\nY,240,30\nZ,240,30\n",
    stock: b"station,type,start,end\nX,A,3,3\n",
    trips: b"trip,from,departure,to,arrival,km,demand\n\
        T1,X,08:00,Y,09:00,10,300\nT2,Y,09:10,Z,10:00,10,300\n\
        T3,Y,09:20,Z,10:10,10,300\nT4,Z,10:30,X,11:30,10,300\n",
    links: b"kind,arriving,arriving2,departing,departing2,reverse,uncouple,couple\n\
        split,T1,,T2,T3,no,none,none\njoin,T3,T2,T4,,no,none,none\n",
    ..TURN
};

/// The bytes of a table, which are no more than a table may have: more of them fail the test.
pub fn table(bytes: &[u8]) -> Result<&[u8], Fail>
    ensures same { IfOk result (λ table. table.now ≡ bytes.now) }
    ensures length { IfOk result (λ table. length table.now ≤ MAX_TABLE_BYTES) }
{
    if bytes.len() as u64 > MAX_TABLE_BYTES {
        return Err(Fail::new("a table is too long"));
    }
    Ok(bytes)
}

/// The day of these tables. A table or a day that is refused fails the test, and so does want of memory.
pub fn day_of(alloc: Global, texts: &Texts<'_>) -> Result<Instance, Fail> {
    let types = rail_csv::types(alloc, table(texts.types)?)?;
    let stations = rail_csv::stations(alloc, table(texts.stations)?)?;
    let stock = rail_csv::stock(alloc, table(texts.stock)?)?;
    let trips = rail_csv::trips(alloc, table(texts.trips)?)?;
    let links = rail_csv::links(alloc, table(texts.links)?)?;
    let weights = rail_csv::weights(alloc, b"carriage,shortage,shunting\n1,1,100\n")?;
    Ok(Instance::build(
        alloc,
        Tables {
            types: Rows::of(types),
            stations: Rows::of(stations),
            stock: Rows::of(stock),
            trips: Rows::of(trips),
            links: Rows::of(links),
            weights,
        },
    )?)
}

/// The plan of a day that a table makes. A table or a plan that is refused fails the test, and so does want of memory.
pub fn plan_of(alloc: Global, instance: &Instance, text: &[u8]) -> Result<NamedPlan, Fail>
    ensures { IfOk result (λ plan. IsPlan instance.now plan) }
{
    let rows = rail_csv::plan(alloc, table(text)?)?;
    Ok(NamedPlan::build(alloc, instance, rows.as_slice())?)
}
