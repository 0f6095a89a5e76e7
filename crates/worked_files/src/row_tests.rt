//! The readers of the tables: how CSV may be written, and which refusal is the first.

ghost use Rattle.std.specs.Prelude.{◌≤◌, length};

use rail_base::limits::MAX_TABLE_BYTES;
use rail_base::{Minute, Name, NoMemory};
use rail_csv::{
    LinkRow, PlanRow, StationRow, StockRow, Table, TableRefusal, TripRow, TypeRow, WeightsRow,
    links, plan, stations, stock, trips, types, weights,
};
use std::alloc::{AllocError, Global};
use std::process::Abort;
use std::test::Fail;

/// The bytes of a table's file, and what they are read as: a line for each row, or why they are refused.
struct File {
    table: Table,
    bytes: &'static [u8],
    told: &'static str,
}

/// How CSV may be written, and the fields of each table.
const FIELDS: &[File] = &[
    File {
        table: Table::Types,
        bytes: b"type,carriages,seats,metres,family\r\n\"A, long\",3,200,80,regional\r\n",
        told: "A, long 3 200 80 regional 0\n",
    },
    // An order mark, blank lines, zeros in front and no newline at the end.
    File {
        table: Table::Stations,
        bytes: b"\xEF\xBB\xBFstation,platform,reallocation\n\nX,240,15\n\nY,0240,000000015",
        told: "X 240 15\nY 240 15\n",
    },
    File {
        table: Table::Stock,
        bytes: b"station,type,start,end\nX,A,0,2000\n",
        told: "X A 0 2000\n",
    },
    File {
        table: Table::Trips,
        bytes: b"trip,from,departure,to,arrival,km,demand\nT,X,7:05,Y,47:59,40,464\n",
        told: "T X 425 Y 2879 40 464 0\n",
    },
    File {
        table: Table::Links,
        bytes: b"kind,arriving,arriving2,departing,departing2,reverse,uncouple,couple\n\
            join,a,b,c,,yes,none,front\n",
        told: "Join a b c - true None Front false\n",
    },
    File {
        table: Table::Weights,
        bytes: b"carriage,shortage,shunting\n1,2,60\n",
        told: "1 2 60\n",
    },
    File {
        table: Table::Weights,
        bytes: b"carriage,shortage,shunting\n",
        told: "NoRow",
    },
    File {
        table: Table::Weights,
        bytes: b"carriage,shortage,shunting\n1,1,60\n1,1,60\n",
        told: "TooManyRows",
    },
];

/// The least and the greatest number that each column takes.
const ENDS: &[File] = &[
    File {
        table: Table::Types,
        bytes: b"type,carriages,seats,metres,family,first\nA,1,1,1,r,0\nB,20,2000,500,r,2000\n",
        told: "A 1 1 1 r 0\nB 20 2000 500 r 2000\n",
    },
    File {
        table: Table::Stations,
        bytes: b"station,platform,reallocation\nX,1,0\nY,1000,600\n",
        told: "X 1 0\nY 1000 600\n",
    },
    File {
        table: Table::Stock,
        bytes: b"station,type,start,end\nX,A,0,0\nY,A,2000,2000\n",
        told: "X A 0 0\nY A 2000 2000\n",
    },
    File {
        table: Table::Trips,
        bytes: b"trip,from,departure,to,arrival,km,demand,first\n\
            T,X,0:00,Y,47:59,1,0,0\nS,X,0:00,Y,47:59,1000,10000,10000\n",
        told: "T X 0 Y 2879 1 0 0\nS X 0 Y 2879 1000 10000 10000\n",
    },
    File {
        table: Table::Weights,
        bytes: b"carriage,shortage,shunting\n0,0,0\n",
        told: "0 0 0\n",
    },
    File {
        table: Table::Weights,
        bytes: b"carriage,shortage,shunting\n10000,10000,10000\n",
        told: "10000 10000 10000\n",
    },
];

/// Lists of units.
const UNITS: &[File] = &[
    File {
        table: Table::Plan,
        bytes: b"trip,units\nT,0 12 1999\n",
        told: "T 0 12 1999\n",
    },
    File {
        table: Table::Plan,
        bytes: b"trip,units\nT,\n",
        told: "T\n",
    },
    File {
        table: Table::Plan,
        bytes: b"trip,units\nT,1 2 3 4 5 6 7\n",
        told: "OutOfRange { row: 1, column: 1 }",
    },
    File {
        table: Table::Plan,
        bytes: b"trip,units\nT,2000\n",
        told: "OutOfRange { row: 1, column: 1 }",
    },
    File {
        table: Table::Plan,
        bytes: b"trip,units\nT,1 2 3 4 5 6 7 x\n",
        told: "BadNumber { row: 1, column: 1 }",
    },
    File {
        table: Table::Plan,
        bytes: b"trip,units\nT,1  2\n",
        told: "BadNumber { row: 1, column: 1 }",
    },
];

/// Tables of two versions.
const VERSIONS: &[File] = &[
    File {
        table: Table::Types,
        bytes: b"type,carriages,seats,metres,family\nA,3,200,80,r\n",
        told: "A 3 200 80 r 0\n",
    },
    File {
        table: Table::Types,
        bytes: b"type,carriages,seats,metres,family,first\nA,3,200,80,r,40\nB,3,200,80,r,040\n",
        told: "A 3 200 80 r 40\nB 3 200 80 r 40\n",
    },
    File {
        table: Table::Types,
        bytes: b"type,carriages,seats,metres,family,first\nA,3,200,80,r,2001\n",
        told: "OutOfRange { row: 1, column: 5 }",
    },
    File {
        table: Table::Trips,
        bytes: b"trip,from,departure,to,arrival,km,demand\nT,X,7:05,Y,8:05,40,464\n",
        told: "T X 425 Y 485 40 464 0\n",
    },
    File {
        table: Table::Trips,
        bytes: b"trip,from,departure,to,arrival,km,demand,first\nT,X,7:05,Y,8:05,40,464,10000\n",
        told: "T X 425 Y 485 40 464 10000\n",
    },
    File {
        table: Table::Trips,
        bytes: b"trip,from,departure,to,arrival,km,demand,first\nT,X,7:05,Y,8:05,40,464,\n",
        told: "BadNumber { row: 1, column: 7 }",
    },
    File {
        table: Table::Links,
        bytes: b"kind,arriving,arriving2,departing,departing2,reverse,uncouple,couple\n\
            turn,a,,b,,no,rear,front\n",
        told: "Turn a - b - false Rear Front false\n",
    },
    File {
        table: Table::Links,
        bytes: b"kind,arriving,arriving2,departing,departing2,reverse,uncouple,couple,exchange\n\
            turn,a,,b,,no,rear,front,yes\n",
        told: "Turn a - b - false Rear Front true\n",
    },
    File {
        table: Table::Links,
        bytes: b"kind,arriving,arriving2,departing,departing2,reverse,uncouple,couple,exchange\n\
            turn,a,,b,,no,rear,front,1\n",
        told: "BadWord { row: 1, column: 8 }",
    },
    // Rows and headers of the other version, or of none.
    File {
        table: Table::Types,
        bytes: b"type,carriages,seats,metres,family\nA,3,200,80,r\nB,3,200,80,r,40\n",
        told: "FieldCount { row: 2, found: 6 }",
    },
    File {
        table: Table::Types,
        bytes: b"type,carriages,seats,metres,family,first\nA,3,200,80,r\n",
        told: "FieldCount { row: 1, found: 5 }",
    },
    File {
        table: Table::Types,
        bytes: b"type,carriages,seats,metres,family,first,second\n",
        told: "WrongHeader",
    },
    File {
        table: Table::Types,
        bytes: b"type,carriages,seats,metres\n",
        told: "WrongHeader",
    },
    File {
        table: Table::Stations,
        bytes: b"station,platform,reallocation,first\n",
        told: "WrongHeader",
    },
    File {
        table: Table::Stock,
        bytes: b"station,type,start\n",
        told: "WrongHeader",
    },
    File {
        table: Table::Trips,
        bytes: b"trip,from,departure,to,arrival,km\n",
        told: "WrongHeader",
    },
    File {
        table: Table::Links,
        bytes: b"kind,arriving,arriving2,departing,departing2,reverse,uncouple\n",
        told: "WrongHeader",
    },
    File {
        table: Table::Weights,
        bytes: b"carriage,shortage\n",
        told: "WrongHeader",
    },
    File {
        table: Table::Plan,
        bytes: b"trip\n",
        told: "WrongHeader",
    },
];

/// Tables that are wrong in more than one way.
const FIRST_WRONG: &[File] = &[
    File {
        table: Table::Trips,
        bytes: b"trip,from,departure,to,arrival,km,demand\nT,X,7:05,Y,48:00,0,464\n",
        told: "BadTime { row: 1, column: 4 }",
    },
    File {
        table: Table::Trips,
        bytes: b"trip,from,departure,to,arrival,km,demand\nT,X,7:05,Y,8:00,0,x\n",
        told: "OutOfRange { row: 1, column: 5 }",
    },
    File {
        table: Table::Links,
        bytes: b"kind,arriving,arriving2,departing,departing2,reverse,uncouple,couple\n\
            turn,a,,b,,no,front,rear\nTurn,a,,b,,no,front,rear\n",
        told: "BadWord { row: 2, column: 0 }",
    },
    File {
        table: Table::Types,
        bytes: b"type,carriages,seats,metres,family\nA,x,200,80,\xFF\n",
        told: "NotUtf8(1)",
    },
    File {
        table: Table::Types,
        bytes: b"type,carriages,seats,metres,family\nA,3,200,80,r\nB,\xFF\n",
        told: "FieldCount { row: 2, found: 2 }",
    },
    File {
        table: Table::Types,
        bytes: b"type,carriages,seats,metres,family\nA,0000000003,200,80,r\n",
        told: "BadNumber { row: 1, column: 1 }",
    },
    File {
        table: Table::Types,
        bytes: b"type,carriages,seats,metres,family\n A,3,200,80,r\n",
        told: "BadName { row: 1, column: 0 }",
    },
    File {
        table: Table::Types,
        bytes: b"",
        told: "WrongHeader",
    },
];

/// What the bytes of a table's file are read as.
fn told(alloc: Global, table: Table, bytes: &[u8]) -> Result<String, AllocError>
    requires { length bytes.now ≤ MAX_TABLE_BYTES }
{
    let mut text = String::new(alloc);
    write_table(&mut text, alloc, table, bytes)?;
    Ok(text)
}

/// Writes what the bytes of a table's file are read as.
fn write_table(
    text: &mut String,
    alloc: Global,
    table: Table,
    bytes: &[u8],
) -> Result<(), AllocError>
    requires { length bytes.now ≤ MAX_TABLE_BYTES }
{
    match table {
        Table::Types => write_rows(text, types(alloc, bytes)),
        Table::Stations => write_rows(text, stations(alloc, bytes)),
        Table::Stock => write_rows(text, stock(alloc, bytes)),
        Table::Trips => write_rows(text, trips(alloc, bytes)),
        Table::Links => write_rows(text, links(alloc, bytes)),
        Table::Weights => write_weights(text, weights(alloc, bytes)),
        Table::Plan => write_rows(text, plan(alloc, bytes)),
    }
}

/// A row of a table, which is told as a line.
trait Line: Drop {
    /// Writes the row as a line.
    fn write_line(&self, text: &mut String) -> Result<(), AllocError>;
}

/// Writes the rows of a table, or why it is refused.
fn write_rows<R: Line>(
    text: &mut String,
    read: Result<Vec<R>, TableRefusal>,
) -> Result<(), AllocError> {
    match read {
        Ok(rows) => write_lines(text, &rows),
        Err(why) => write!(text, "{why:?}"),
    }
}

/// Writes rows, a line for each.
fn write_lines<R: Line>(text: &mut String, rows: &[R]) -> Result<(), AllocError> {
    for row in rows {
        row.write_line(text)?;
    }
    Ok(())
}

impl Line for TypeRow {
    fn write_line(&self, text: &mut String) -> Result<(), AllocError> {
        let (name, family) = (self.name.as_str(), self.family.as_str());
        write!(text, "{name} {} {}", self.carriages, self.seats)?;
        write!(text, " {} {family} {}\n", self.metres, self.first)
    }
}

impl Line for StationRow {
    fn write_line(&self, text: &mut String) -> Result<(), AllocError> {
        let name = self.name.as_str();
        write!(text, "{name} {} {}\n", self.platform, self.reallocation)
    }
}

impl Line for StockRow {
    fn write_line(&self, text: &mut String) -> Result<(), AllocError> {
        let (station, unit_type) = (self.station.as_str(), self.unit_type.as_str());
        write!(text, "{station} {unit_type} {} {}\n", self.start, self.end)
    }
}

/// With minutes as numbers.
impl Line for TripRow {
    fn write_line(&self, text: &mut String) -> Result<(), AllocError> {
        write_moment(text, &self.name, &self.from, self.departure)?;
        let (to, arrival) = (self.to.as_str(), self.arrival.0);
        write!(text, " {to} {arrival} {}", self.km)?;
        write!(text, " {} {}\n", self.demand, self.first)
    }
}

/// Writes a trip, and where and when it departs.
fn write_moment(
    text: &mut String,
    trip: &Name,
    station: &Name,
    minute: Minute,
) -> Result<(), AllocError> {
    let (trip, station) = (trip.as_str(), station.as_str());
    write!(text, "{trip} {station} {}", minute.0)
}

/// With `-` for a trip that is not there.
impl Line for LinkRow {
    fn write_line(&self, text: &mut String) -> Result<(), AllocError> {
        write_ends(text, self)?;
        write!(text, " {} {:?}", self.reverse, self.uncouple)?;
        write!(text, " {:?} {}\n", self.couple, self.exchange)
    }
}

/// Writes the kind of a link and its trips.
fn write_ends(text: &mut String, row: &LinkRow) -> Result<(), AllocError> {
    let (arriving, departing) = (row.arriving.as_str(), row.departing.as_str());
    let (arriving2, departing2) = (name_of(&row.arriving2), name_of(&row.departing2));
    write!(text, "{:?} {arriving} {arriving2}", row.kind)?;
    write!(text, " {departing} {departing2}")
}

/// A name, or `-` where there is none.
fn name_of(name: &Option<Name>) -> &str {
    match name {
        Some(name) => name.as_str(),
        None => "-",
    }
}

impl Line for PlanRow {
    fn write_line(&self, text: &mut String) -> Result<(), AllocError> {
        text.push_str(self.trip.as_str())?;
        for unit in self.units.items() {
            write!(text, " {}", unit.0)?;
        }
        text.push_str("\n")
    }
}

/// Writes the row of weights, or why its table is refused.
fn write_weights(
    text: &mut String,
    read: Result<WeightsRow, TableRefusal>,
) -> Result<(), AllocError> {
    match read {
        Ok(row) => write!(text, "{} {} {}\n", row.carriage, row.shortage, row.shunting),
        Err(why) => write!(text, "{why:?}"),
    }
}

/// Asserts that files are read or refused as is told of them.
fn are_told(rt: &impl Abort, alloc: Global, files: &[File]) -> Result<(), Fail> {
    for file in files {
        assert!(rt; file.bytes.len() as u64 <= MAX_TABLE_BYTES);
        let text = told(alloc, file.table, file.bytes)?;
        assert!(rt; text.as_str() == file.told, "{text}");
    }
    Ok(())
}

#[test]
fn files_are_read_or_refused(rt: HostRuntime) -> Result<(), Fail> {
    for files in [FIELDS, ENDS, UNITS, VERSIONS, FIRST_WRONG] {
        are_told(&rt, rt.alloc(), files)?;
    }
    Ok(())
}

/// Whether the copy of a name is the same.
fn is_copied(alloc: Global, name: &Name) -> Result<bool, NoMemory> {
    let copy = Name::copy(alloc, name.as_str())?;
    Ok(copy.is(name))
}

#[test]
fn a_copied_name_is_the_same(rt: HostRuntime) -> Result<(), Fail> {
    let rows = stock(rt.alloc(), b"station,type,start,end\nX,A,0,2000\n")?;
    for row in &rows {
        assert!(rt; is_copied(rt.alloc(), &row.station)?);
    }
    Ok(())
}
