//! What is refused, and at which place: each text.

use crate::day::{A_DAY, expect_simulated, folder_with_bytes};
use rail_base::NoMemory;
use std::alloc::Global;
use std::process::Abort;

/// The file of a table and its header.
#[derive(Clone, Copy)]
struct File {
    name: &'static str,
    header: &'static str,
}

const TYPES: File = File {
    name: "types.csv",
    header: "type,carriages,seats,metres,family",
};

const STATIONS: File = File {
    name: "stations.csv",
    header: "station,platform,reallocation",
};

const STOCK: File = File {
    name: "stock.csv",
    header: "station,type,start,end",
};

const TRIPS: File = File {
    name: "trips.csv",
    header: "trip,from,departure,to,arrival,km,demand",
};

const LINKS: File = File {
    name: "links.csv",
    header: "kind,arriving,arriving2,departing,departing2,reverse,uncouple,couple",
};

const WEIGHTS: File = File {
    name: "weights.csv",
    header: "carriage,shortage,shunting",
};

const PLAN: File = File {
    name: "plan.csv",
    header: "trip,units",
};

/// Asserts what is written of the day of two trips, which is refused, where one of its files has these bytes.
fn expect_refusal(
    rt: &impl Abort,
    alloc: Global,
    path: &str,
    bytes: &[u8],
    document: &str,
) -> Result<(), NoMemory> {
    let mut folder = folder_with_bytes(rt, alloc, A_DAY, path, bytes)?;
    expect_simulated(rt, alloc, &mut folder, 3, document)
}

/// Asserts that the day of two trips is refused with a text where one of its files has these bytes.
fn expect_bytes_refused(
    rt: &impl Abort,
    alloc: Global,
    file: &str,
    bytes: &[u8],
    text: &str,
) -> Result<(), NoMemory> {
    let path = format!(in alloc; "day/{file}")?;
    let document = format!(in alloc; "refused {file}: {text}\n")?;
    expect_refusal(rt, alloc, path.as_str(), bytes, document.as_str())
}

/// Asserts that the day of two trips is refused where one of its files has these lines under its header.
fn expect_lines_refused(
    rt: &impl Abort,
    alloc: Global,
    file: File,
    lines: [&str; 3],
    text: &str,
) -> Result<(), NoMemory> {
    let header = file.header;
    let [front, rows, back] = lines;
    let table = format!(in alloc; "{header}\n{front}{rows}{back}\n")?;
    expect_bytes_refused(rt, alloc, file.name, table.as_bytes(), text)
}

/// Asserts that the day of two trips is refused where one of its files has under its header the rows of a case, between
/// a front and a back. A case is its rows, an arrow and the text of the refusal.
fn expect_rows_refused(
    rt: &impl Abort,
    alloc: Global,
    file: File,
    front: &str,
    back: &str,
    cases: &[&str],
) -> Result<(), NoMemory> {
    for case in cases {
        let Some((rows, text)) = case.split_once(" => ") else {
            panic!(rt; "a case has an arrow");
        };
        expect_lines_refused(rt, alloc, file, [front, rows, back], text)?;
    }
    Ok(())
}

/// Files with bytes that are refused, and the text of that.
const BYTES: &[(File, &[u8], &str)] = &[
    // A header has its words in order.
    (STATIONS, b"", "wrong header"),
    (STATIONS, b"\n\r\n", "wrong header"),
    (STATIONS, b"X,200,30\nY,200,30\n", "wrong header"),
    (
        STATIONS,
        b"station,platform\nX,200\nY,200\n",
        "wrong header",
    ),
    (
        STATIONS,
        b"station,platform,reallocation,\nX,200,30,\nY,200,30,\n",
        "wrong header",
    ),
    (
        STATIONS,
        b"platform,station,reallocation\n200,X,30\n200,Y,30\n",
        "wrong header",
    ),
    (
        STATIONS,
        b"Station,platform,reallocation\nX,200,30\nY,200,30\n",
        "wrong header",
    ),
    (
        STATIONS,
        b"station, platform,reallocation\nX,200,30\nY,200,30\n",
        "wrong header",
    ),
    (
        STATIONS,
        b"\xEF\xBB\xBF\xEF\xBB\xBFstation,platform,reallocation\nX,200,30\nY,200,30\n",
        "wrong header",
    ),
    (
        STATIONS,
        b"station;platform;reallocation\nX,wide\n",
        "wrong header",
    ),
    // Fields are UTF-8.
    (PLAN, b"trip,units\nT1,0\nT2,\xFF", "row 2 is not UTF-8"),
    (PLAN, b"trip,units\n,x\xFF", "row 1 is not UTF-8"),
    (PLAN, b"trip,units\n\xC3,\xA9", "row 1 is not UTF-8"),
    (PLAN, b"trip,units\nT1,\xFF\nT2", "row 1 is not UTF-8"),
    (PLAN, b"trip,units\nT1,0\n\xFF", "row 2 has 1 fields"),
    (
        PLAN,
        b"trip,units\n,0\nT2,\xFF",
        "row 1, column trip: not a name",
    ),
    (PLAN, b"trip,units\xFF\nT1,\xFF", "wrong header"),
];

#[test]
fn bytes_are_refused(rt: HostRuntime) -> Result<(), NoMemory> {
    for &(file, bytes, text) in BYTES {
        expect_bytes_refused(&rt, rt.alloc(), file.name, bytes, text)?;
    }
    Ok(())
}

/// Tables, what stands before and after the rows of a case, and cases: the rows, an arrow and the text of the refusal.
const ROWS: &[(File, &str, &str, &[&str])] = &[
    (
        TYPES,
        "",
        "",
        &[
            ",3,200,80,r => row 1, column type: not a name",
            "A,three,200,80,r => row 1, column carriages: not a number",
            "A,0,200,80,r => row 1, column carriages: out of range",
            "A,21,200,80,r => row 1, column carriages: out of range",
            "A,3,0,80,r => row 1, column seats: out of range",
            "A,3,2001,80,r => row 1, column seats: out of range",
            "A,3,200,0,r => row 1, column metres: out of range",
            "A,3,200,501,r => row 1, column metres: out of range",
            "A,3,200,80, => row 1, column family: not a name",
            "A,0,x,80, => row 1, column carriages: out of range",
            "A,3,x,0, => row 1, column seats: not a number",
            "A,0,200,80,r\nB\n => row 1, column carriages: out of range",
            "A => row 1 has 1 fields",
            "A,3,200,80 => row 1 has 4 fields",
            "A,3,200,80,r, => row 1 has 6 fields",
            "A,3,200,80,r\n,0,200,80 => row 2 has 4 fields",
            "A,3,9,80,r\nA,3,8,60,s => row 2: repeated name",
        ],
    ),
    (
        TYPES,
        "A,3,9,80,r\nB,3,9,80,r\nC,3,9,80,r\nD,3,9,80,r\nE,3,9,80,r\n",
        "",
        &[
            "F,3,9,80,r\nG,3,9,80,r => too many rows",
            "F,3,9,80,r\n\n,0,x => too many rows",
            "A,3,9,80,r\nA,3,9,80,r => too many rows",
            "F,x,9,80,r\nG,3,9,80,r => row 6, column carriages: not a number",
            "A,3,9,80,r => row 6: repeated name",
        ],
    ),
    (
        STATIONS,
        "",
        "",
        &[
            ",200,30 => row 1, column station: not a name",
            "X,0,30 => row 1, column platform: out of range",
            "X,1001,30 => row 1, column platform: out of range",
            "X,200,601 => row 1, column reallocation: out of range",
            "X,200,-1 => row 1, column reallocation: not a number",
            "X,200 => row 1 has 2 fields",
            "X,200,30\nX,9,0\nY,200,30 => row 2: repeated name",
        ],
    ),
    (
        STOCK,
        "",
        "",
        &[
            "X,,1,1 => row 1, column type: not a name",
            "X,A,2001,1 => row 1, column start: out of range",
            "X,A,1,2001 => row 1, column end: out of range",
            "X,A,1,one => row 1, column end: not a number",
            "Z,B,1,1 => row 1, column station: unknown name",
            "x,A,1,1 => row 1, column station: unknown name",
            "X,B,1,1 => row 1, column type: unknown name",
            "X,A,1 => row 1 has 3 fields",
            "X,A,1,1\nY,A,0,0\nX,A,0,0 => row 3: repeated station and type",
            "X,A,1,1\nX,A,0,0\nZ,A,0,0 => row 2: repeated station and type",
            "X,A,2000,1\nY,A,1,0 => too many units",
            "X,A,2000,1\nY,A,1,0\nX,A,0,0 => row 3: repeated station and type",
        ],
    ),
    (
        TRIPS,
        "",
        "",
        &[
            ",X,8:00,Y,9:00,0,150 => row 1, column trip: not a name",
            "T1,,8:00,,9:00,10,150 => row 1, column from: not a name",
            "T1,X,8:00,,9:00,10,150 => row 1, column to: not a name",
            "T1,X,8h,Y,9h,10,150 => row 1, column departure: not a time",
            "T1,X,8:00,Y,9:00,1001,150 => row 1, column km: out of range",
            "T1,X,8:00,Y,9:00,10,10001 => row 1, column demand: out of range",
            "T1,Z,8:00,Z,8:00,10,150 => row 1, column from: unknown name",
            "T1,X,8:00,Z,8:00,10,150 => row 1, column to: unknown name",
        ],
    ),
    (
        TRIPS,
        "T1,X,8:00,Y,9:00,10,150\n",
        "",
        &[
            "T2,X,9:00,Y,9:00 => row 2 has 5 fields",
            "T1,Z,9:00,Z,9:00,9,9 => row 2: repeated name",
            "T2,X,9:00,X,9:00,9,9 => row 2: same station",
            "T2,X,9:00,Y,9:00,9,9 => row 2: arrival is not after departure",
            "T2,X,9:00,Y,8:59,9,9 => row 2: arrival is not after departure",
            "T2,X,9:00,X,9:01,9,9\nT1,X,9:00,Y,9:01,9,9 => row 2: same station",
            "T1,X,9:00,Y,9:01,9,9\nT3,X,9:00,Y,9:60,9,9 => row 3, column arrival: not a time",
        ],
    ),
    // Fields of links are words and names.
    (
        LINKS,
        "",
        "",
        &[
            "turn,,,T2,,yes,rear,none => row 1, column arriving: not a name",
            "turn,T1, ,T2,,yes,rear,none => row 1, column arriving2: not a name",
            "turn,T1,,,,yes,rear,none => row 1, column departing: not a name",
            "turn,T1,,T2, T2,yes,rear,none => row 1, column departing2: not a name",
            "Turn,T1,,T2,,yes,rear,none => row 1, column kind: not a word of this column",
            ",T1,,T2,,yes,rear,none => row 1, column kind: not a word of this column",
            "turn,T1,,T2,,,rear,none => row 1, column reverse: not a word of this column",
            "turn,T1,,T2,,none,rear,none => row 1, column reverse: not a word of this column",
            "turn,T1,,T2,,yes,both,none => row 1, column uncouple: not a word of this column",
            "turn,T1,,T2,,yes,,none => row 1, column uncouple: not a word of this column",
            "turn,T1,,T2,,yes,rear, => row 1, column couple: not a word of this column",
            "turn,T1,,T2,,no,rear,none  => row 1, column couple: not a word of this column",
            "turn ,T1,,T2,,y,r,n => row 1, column kind: not a word of this column",
            "turn,T1,T2,T2,,yes,none,none => row 1: fields do not fit the kind",
            "turn,T1,,T2,T1,yes,none,none => row 1: fields do not fit the kind",
            "join,T1,,T2,,no,none,none => row 1: fields do not fit the kind",
            "join,T1,T2,T2,T1,no,none,none => row 1: fields do not fit the kind",
            "join,T1,T1,T2,,no,rear,none => row 1: fields do not fit the kind",
            "join,T1,T1,T2,,no,none,front => row 1: fields do not fit the kind",
            "split,T1,T2,T2,T1,no,none,none => row 1: fields do not fit the kind",
            "split,T1,,T2,,no,none,none => row 1: fields do not fit the kind",
            "split,T1,,T2,T2,no,front,none => row 1: fields do not fit the kind",
            "split,T1,,T2,T2,no,none,rear => row 1: fields do not fit the kind",
            "turn,T8,T8,T9,T9,no,none,none => row 1: fields do not fit the kind",
        ],
    ),
    // Links fit their trips.
    (
        LINKS,
        "",
        "",
        &[
            "turn,T9,,T8,,no,none,none => row 1, column arriving: unknown name",
            "join,T1,T9,T8,,no,none,none => row 1, column arriving2: unknown name",
            "join,T1,T1,T9,,no,none,none => row 1, column departing: unknown name",
            "split,T1,,T2,T9,no,none,none => row 1, column departing2: unknown name",
            "join,T1,T1,T2,,no,none,none => row 1: trip used twice",
            "split,T1,,T2,T2,no,none,none => row 1: trip used twice",
            "split,T2,,T2,T2,no,none,none => row 1: trip used twice",
            "turn,T1,,T1,,no,none,none => row 1: trips do not meet at a station",
            "join,T1,T2,T2,,no,none,none => row 1: trips do not meet at a station",
            "split,T1,,T2,T1,no,none,none => row 1: trips do not meet at a station",
            "turn,T2,,T1,,no,none,none => row 1: departure before arrival",
            "turn,T2,,T1,,no,none,none\nturn,T1,,T9,,no,none,none => row 1: departure before arrival",
        ],
    ),
    (
        LINKS,
        "turn,T1,,T2,,no,none,none\n",
        "",
        &[
            "turn,T1,,T1,,no,none,none => row 2: trip used twice",
            "turn,T2,,T2,,no,none,none => row 2: trip used twice",
            "turn,T2,,T1,,no,none,none => row 2: departure before arrival",
        ],
    ),
    (
        WEIGHTS,
        "",
        "",
        &[
            "10001,1,100 => row 1, column carriage: out of range",
            "1,,100 => row 1, column shortage: not a number",
            "1,1,10001 => row 1, column shunting: out of range",
            " => no row",
            "1,1 => row 1 has 2 fields",
            "1,1,100\n1,1,100 => too many rows",
            "1,1,100\n1 => too many rows",
        ],
    ),
    // A plan has the row of each trip.
    (
        PLAN,
        "",
        "",
        &[
            "T1\nT2,0 => row 1 has 1 fields",
            ",x\nT2,0 => row 1, column trip: not a name",
            "T2,0\nT1,0 => row 1: wrong trip",
            "T1,0\nt2,0 => row 2: wrong trip",
            "T1,0\nT2,0\nT3,0 => row 3: wrong trip",
            "T1,0\nT2,0\nT2,0 => row 3: wrong trip",
            "T2,1\nT2,0 => row 1: wrong trip",
            "T1,0 1\nT1,0 => row 1: unknown unit",
            "T1,1999 => row 1: unknown unit",
            "T1,0 1 2 3 4 5 => row 1: unknown unit",
            " => trip missing after row 0",
        ],
    ),
    (
        PLAN,
        "T1,",
        "\nT1,0",
        &[
            "first => row 1, column units: not a number",
            "0  0 => row 1, column units: not a number",
            " 0 => row 1, column units: not a number",
            "0  => row 1, column units: not a number",
            "  => row 1, column units: not a number",
            "2000 1 2 3 4 5 6 x => row 1, column units: not a number",
            "0 2000 => row 1, column units: out of range",
            "0 1 2 3 4 5 6 => row 1, column units: out of range",
        ],
    ),
    // Names have 1 to 64 bytes; those in front are 62.
    (
        STATIONS,
        "ééééééééééééééééééééééééééééééé",
        ",200,30",
        &[
            "ée => row 1, column station: not a name",
            "eee => row 1, column station: not a name",
        ],
    ),
    (
        STATIONS,
        "",
        ",200,30",
        &[
            " => row 1, column station: not a name",
            "\"\" => row 1, column station: not a name",
            "X  => row 1, column station: not a name",
            "\" X\" => row 1, column station: not a name",
            "X\t0 => row 1, column station: not a name",
            "X\u{1f}0 => row 1, column station: not a name",
            "\"X\n0\" => row 1, column station: not a name",
            "X\u{7f} => row 1, column station: not a name",
        ],
    ),
    // Numbers have 1 to 9 digits.
    (
        TRIPS,
        "T1,X,08:00,Y,09:00,",
        ",x",
        &[
            "0000000010 => row 1, column km: not a number",
            "1000000000 => row 1, column km: not a number",
            " => row 1, column km: not a number",
            "+10 => row 1, column km: not a number",
            "-10 => row 1, column km: not a number",
            " 10 => row 1, column km: not a number",
            "10  => row 1, column km: not a number",
            "10.0 => row 1, column km: not a number",
            "1e1 => row 1, column km: not a number",
            "1/0 => row 1, column km: not a number",
            "1:0 => row 1, column km: not a number",
            "\u{661}\u{660} => row 1, column km: not a number",
            "000000000 => row 1, column km: out of range",
            "999999999 => row 1, column km: out of range",
        ],
    ),
    // Times have hours 0 to 47.
    (
        TRIPS,
        "T1,X,08:00,Y,",
        ",0,150",
        &[
            "48:00 => row 1, column arrival: not a time",
            "10:60 => row 1, column arrival: not a time",
            "100:30 => row 1, column arrival: not a time",
            " => row 1, column arrival: not a time",
            "7:5 => row 1, column arrival: not a time",
            "007:05 => row 1, column arrival: not a time",
            "7:005 => row 1, column arrival: not a time",
            ":05 => row 1, column arrival: not a time",
            "7: => row 1, column arrival: not a time",
            "0705 => row 1, column arrival: not a time",
            "-7:05 => row 1, column arrival: not a time",
            " 7:05 => row 1, column arrival: not a time",
            "7:05  => row 1, column arrival: not a time",
            "7:05:00 => row 1, column arrival: not a time",
            "7.05 => row 1, column arrival: not a time",
        ],
    ),
];

#[test]
fn rows_are_refused(rt: HostRuntime) -> Result<(), NoMemory> {
    for &(file, front, back, cases) in ROWS {
        expect_rows_refused(&rt, rt.alloc(), file, front, back, cases)?;
    }
    Ok(())
}

/// A table, a line of it that may stand once, how many rows the table may have, and what is refused of so many.
const MAX_ROWS: &[(File, &str, usize, &str)] = &[
    (TYPES, "A,3,200,80,r", 6, "row 2: repeated name"),
    (STATIONS, "X,200,30", 60, "row 2: repeated name"),
    (STOCK, "X,A,0,0", 360, "row 2: repeated station and type"),
    (
        TRIPS,
        "T1,X,08:00,Y,09:00,10,150",
        400,
        "row 2: repeated name",
    ),
    (
        LINKS,
        "turn,T1,,T2,,no,none,none",
        400,
        "row 2: trip used twice",
    ),
    (PLAN, "T1,0", 400, "row 2: wrong trip"),
];

/// A line so often.
fn repeated(alloc: Global, line: &str, times: usize) -> Result<String, NoMemory> {
    let row = format!(in alloc; "{line}\n")?;
    Ok(row.as_str().repeat(alloc, times)?)
}

/// Asserts that a table with these rows is refused with a text, and for its rows with one line more.
fn expect_full(
    rt: &impl Abort,
    alloc: Global,
    file: File,
    rows: &str,
    line: &str,
    text: &str,
) -> Result<(), NoMemory> {
    expect_lines_refused(rt, alloc, file, [rows, "", ""], text)?;
    expect_lines_refused(rt, alloc, file, [rows, line, ""], "too many rows")
}

/// Asserts that a table in which a line stands so often is refused with a text, and for its rows with one line more.
fn expect_most_rows(
    rt: &impl Abort,
    alloc: Global,
    file: File,
    line: &str,
    most: usize,
    text: &str,
) -> Result<(), NoMemory> {
    let rows = repeated(alloc, line, most)?;
    expect_full(rt, alloc, file, rows.as_str(), line, text)
}

#[test]
fn a_table_has_so_many_rows(rt: HostRuntime) -> Result<(), NoMemory> {
    for &(file, line, most, text) in MAX_ROWS {
        expect_most_rows(&rt, rt.alloc(), file, line, most, text)?;
    }
    Ok(())
}
