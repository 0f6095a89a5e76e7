//! The order in which a day is looked at, and other forms of a day that are accepted.

use crate::day::{BASE_DAY, Day, Simulation, TWO_TRIPS, expect_simulations};
use rail_base::NoMemory;

/// Types of which two have one name.
const REPEATED_TYPES: Option<&str> = Some(
    "type,carriages,seats,metres,family\nA,3,9,80,r\nA,3,9,80,r\n",
);

/// A day whose files are not there or empty.
const EMPTY: Day<'static> = Day {
    types: Some(""),
    stations: None,
    stock: Some(""),
    trips: Some(""),
    links: Some(""),
    weights: Some(""),
    plan: None,
    answer: None,
};

/// Files are read in order, and the rules of their rows are looked at once all tables are read.
const FILES_IN_ORDER: &[Simulation] = &[
    (EMPTY, 3, "refused types.csv: wrong header\n"),
    (
        Day {
            types: None,
            stations: Some(""),
            ..EMPTY
        },
        5,
        "cannot read types.csv\n",
    ),
    (
        Day {
            types: REPEATED_TYPES,
            stations: Some(""),
            ..EMPTY
        },
        3,
        "refused stations.csv: wrong header\n",
    ),
    (
        Day {
            types: REPEATED_TYPES,
            stock: Some(""),
            trips: Some(""),
            links: Some(""),
            weights: Some(""),
            plan: None,
            ..TWO_TRIPS
        },
        3,
        "refused stock.csv: wrong header\n",
    ),
    (
        Day {
            types: REPEATED_TYPES,
            trips: Some(""),
            links: Some(""),
            weights: Some(""),
            plan: None,
            ..TWO_TRIPS
        },
        3,
        "refused trips.csv: wrong header\n",
    ),
    (
        Day {
            types: REPEATED_TYPES,
            links: Some(""),
            weights: Some(""),
            plan: None,
            ..TWO_TRIPS
        },
        3,
        "refused links.csv: wrong header\n",
    ),
    (
        Day {
            types: REPEATED_TYPES,
            weights: Some(""),
            plan: None,
            ..TWO_TRIPS
        },
        3,
        "refused weights.csv: wrong header\n",
    ),
    (
        Day {
            types: REPEATED_TYPES,
            plan: None,
            ..TWO_TRIPS
        },
        3,
        "refused types.csv: row 2: repeated name\n",
    ),
    (
        Day {
            plan: None,
            ..TWO_TRIPS
        },
        5,
        "cannot read plan.csv\n",
    ),
    (
        Day {
            plan: Some(""),
            ..TWO_TRIPS
        },
        3,
        "refused plan.csv: wrong header\n",
    ),
];

/// Types that have too many compositions for the platforms.
const SHORT_TYPES: Option<&str> = Some(
    "type,carriages,seats,metres,family\nA,3,9,10,r\nB,3,9,10,r\nC,3,9,10,r\n",
);

/// Stock of more units than there may be, and at an unknown station.
const WRONG_STOCK: Option<&str> = Some("station,type,start,end\nX,A,2000,1\nZ,A,1,1\n");

/// A trip from a station to the same station.
const WRONG_TRIPS: Option<&str> = Some(
    "trip,from,departure,to,arrival,km,demand\nT1,X,08:00,X,09:00,10,150\n",
);

/// A join of one train.
const WRONG_LINKS: Option<&str> = Some(
    "kind,arriving,arriving2,departing,departing2,reverse,uncouple,couple\njoin,T1,,T2,,no,none,none\n",
);

/// A plan whose first row is of another trip.
const WRONG_PLAN: Option<&str> = Some("trip,units\nT2,0\n");

/// A day whose files can be read, and break a rule each.
const WRONG_ROWS: Day<'static> = Day {
    types: Some("type,carriages,seats,metres,family\nA,3,9,10,r\nA,3,9,10,r\n"),
    stations: Some("station,platform,reallocation\nX,200,30\nX,200,30\n"),
    stock: WRONG_STOCK,
    trips: WRONG_TRIPS,
    links: WRONG_LINKS,
    plan: WRONG_PLAN,
    ..TWO_TRIPS
};

/// The rules of a day come in order.
const RULES_IN_ORDER: &[Simulation] = &[
    (WRONG_ROWS, 3, "refused types.csv: row 2: repeated name\n"),
    (
        Day {
            types: SHORT_TYPES,
            ..WRONG_ROWS
        },
        3,
        "refused stations.csv: row 2: repeated name\n",
    ),
    (
        Day {
            types: SHORT_TYPES,
            stock: WRONG_STOCK,
            trips: WRONG_TRIPS,
            links: WRONG_LINKS,
            plan: WRONG_PLAN,
            ..TWO_TRIPS
        },
        3,
        "refused stock.csv: row 2, column station: unknown name\n",
    ),
    (
        Day {
            types: SHORT_TYPES,
            stock: Some("station,type,start,end\nX,A,2000,1\nY,A,1,1\n"),
            trips: WRONG_TRIPS,
            links: WRONG_LINKS,
            plan: WRONG_PLAN,
            ..TWO_TRIPS
        },
        3,
        "refused stock.csv: too many units\n",
    ),
    (
        Day {
            types: SHORT_TYPES,
            trips: WRONG_TRIPS,
            links: WRONG_LINKS,
            plan: WRONG_PLAN,
            ..TWO_TRIPS
        },
        3,
        "refused types.csv: too many compositions\n",
    ),
    (
        Day {
            trips: WRONG_TRIPS,
            links: WRONG_LINKS,
            plan: WRONG_PLAN,
            ..TWO_TRIPS
        },
        3,
        "refused trips.csv: row 1: same station\n",
    ),
    (
        Day {
            links: WRONG_LINKS,
            plan: WRONG_PLAN,
            ..TWO_TRIPS
        },
        3,
        "refused links.csv: row 1: fields do not fit the kind\n",
    ),
    (
        Day {
            plan: WRONG_PLAN,
            ..TWO_TRIPS
        },
        3,
        "refused plan.csv: row 1: wrong trip\n",
    ),
    (TWO_TRIPS, 0, "runs 60\n"),
    // No composition fits the platforms, which is tested after the times.
    (
        Day {
            stations: Some("station,platform,reallocation\nX,79,30\nY,79,30\n"),
            trips: Some("trip,from,departure,to,arrival,km,demand\nT1,X,09:00,Y,09:00,10,300\n"),
            ..TWO_TRIPS
        },
        3,
        "refused trips.csv: row 1: arrival is not after departure\n",
    ),
];

/// Other forms of a day, which run or stop.
const OTHER_FORMS: &[Simulation] = &[
    (
        Day {
            stock: Some("station,type,start,end\r\nX,A,2000,2000\r\n"),
            weights: Some("\u{feff}\"carriage\",shortage,shunting\n\n00001,1,10000"),
            plan: Some("\u{feff}trip,units\r\nT1,000\r\n\"T2\",\"1999\"\r\n"),
            ..TWO_TRIPS
        },
        1,
        "stops: unit 1999 is not ready for trip 1\n",
    ),
    (
        Day {
            stock: Some("station,type,start,end\r\nX,A,2000,2000\r\n"),
            weights: Some("\u{feff}\"carriage\",shortage,shunting\n\n00001,1,10000"),
            plan: Some("\u{feff}trip,units\r\nT1,000\r\n\"T2\",\"0\"\r\n"),
            ..TWO_TRIPS
        },
        0,
        "runs 60\n",
    ),
    (
        Day {
            trips: Some(
                "trip,from,departure,to,arrival,km,demand\nT1,X,08:00,Y,09:00,10,300\nT2,Y,09:00,X,10:00,10,150\n",
            ),
            ..BASE_DAY
        },
        0,
        "runs 120\n",
    ),
];

/// Numbers have 1 to 9 digits, and times hours 0 to 47.
const NUMBERS: &[Simulation] = &[
    (
        Day {
            trips: Some(
                "trip,from,departure,to,arrival,km,demand\nT1,X,08:00,Y,09:00,0010,150\nT2,Y,09:30,X,10:30,0010,150\n",
            ),
            ..TWO_TRIPS
        },
        0,
        "runs 60\n",
    ),
    (
        Day {
            trips: Some(
                "trip,from,departure,to,arrival,km,demand\nT1,X,08:00,Y,09:00,000000010,150\nT2,Y,09:30,X,10:30,000000010,150\n",
            ),
            ..TWO_TRIPS
        },
        0,
        "runs 60\n",
    ),
    (
        Day {
            trips: Some(
                "trip,from,departure,to,arrival,km,demand\nT1,X,08:00,Y,09:00,\"10\",150\nT2,Y,09:30,X,10:30,\"10\",150\n",
            ),
            ..TWO_TRIPS
        },
        0,
        "runs 60\n",
    ),
    (
        Day {
            trips: Some(
                "trip,from,departure,to,arrival,km,demand\nT1,X,7:05,Y,09:00,10,150\nT2,Y,09:30,X,47:59,10,150\n",
            ),
            ..TWO_TRIPS
        },
        0,
        "runs 60\n",
    ),
    (
        Day {
            trips: Some(
                "trip,from,departure,to,arrival,km,demand\nT1,X,0:00,Y,09:00,10,150\nT2,Y,09:30,X,24:00,10,150\n",
            ),
            ..TWO_TRIPS
        },
        0,
        "runs 60\n",
    ),
    (
        Day {
            trips: Some(
                "trip,from,departure,to,arrival,km,demand\nT1,X,00:00,Y,09:00,10,150\nT2,Y,09:30,X,\"10:30\",10,150\n",
            ),
            ..TWO_TRIPS
        },
        0,
        "runs 60\n",
    ),
];

/// Names have 1 to 64 bytes, as the last two.
const NAMES: &[Simulation] = &[
    (
        Day {
            stations: Some("station,platform,reallocation\n\"X, \"\"Main\"\"\",200,30\nY,200,30\n"),
            stock: Some("station,type,start,end\n\"X, \"\"Main\"\"\",A,1,1\n"),
            trips: Some(
                "trip,from,departure,to,arrival,km,demand\nT1,\"X, \"\"Main\"\"\",08:00,Y,09:00,10,150\nT2,Y,09:30,\"X, \"\"Main\"\"\",10:30,10,150\n",
            ),
            ..TWO_TRIPS
        },
        0,
        "runs 60\n",
    ),
    (
        Day {
            stations: Some("station,platform,reallocation\n\"Y \"\"\",200,30\nY,200,30\n"),
            stock: Some("station,type,start,end\n\"Y \"\"\",A,1,1\n"),
            trips: Some(
                "trip,from,departure,to,arrival,km,demand\nT1,\"Y \"\"\",08:00,Y,09:00,10,150\nT2,Y,09:30,\"Y \"\"\",10:30,10,150\n",
            ),
            ..TWO_TRIPS
        },
        0,
        "runs 60\n",
    ),
    (
        Day {
            stations: Some("station,platform,reallocation\nX  0,200,30\nY,200,30\n"),
            stock: Some("station,type,start,end\nX  0,A,1,1\n"),
            trips: Some(
                "trip,from,departure,to,arrival,km,demand\nT1,X  0,08:00,Y,09:00,10,150\nT2,Y,09:30,X  0,10:30,10,150\n",
            ),
            ..TWO_TRIPS
        },
        0,
        "runs 60\n",
    ),
    (
        Day {
            stations: Some("station,platform,reallocation\n\u{a0},200,30\nY,200,30\n"),
            stock: Some("station,type,start,end\n\u{a0},A,1,1\n"),
            trips: Some(
                "trip,from,departure,to,arrival,km,demand\nT1,\u{a0},08:00,Y,09:00,10,150\nT2,Y,09:30,\u{a0},10:30,10,150\n",
            ),
            ..TWO_TRIPS
        },
        0,
        "runs 60\n",
    ),
    (
        Day {
            stations: Some(
                "station,platform,reallocation\néééééééééééééééééééééééééééééééé,200,30\nY,200,30\n",
            ),
            stock: Some("station,type,start,end\néééééééééééééééééééééééééééééééé,A,1,1\n"),
            trips: Some(
                "trip,from,departure,to,arrival,km,demand\n\
                    T1,éééééééééééééééééééééééééééééééé,08:00,Y,09:00,10,150\n\
                    T2,Y,09:30,éééééééééééééééééééééééééééééééé,10:30,10,150\n",
            ),
            ..TWO_TRIPS
        },
        0,
        "runs 60\n",
    ),
    (
        Day {
            stations: Some(
                "station,platform,reallocation\néééééééééééééééééééééééééééééééee,200,30\nY,200,30\n",
            ),
            stock: Some("station,type,start,end\néééééééééééééééééééééééééééééééee,A,1,1\n"),
            trips: Some(
                "trip,from,departure,to,arrival,km,demand\n\
                    T1,éééééééééééééééééééééééééééééééee,08:00,Y,09:00,10,150\n\
                    T2,Y,09:30,éééééééééééééééééééééééééééééééee,10:30,10,150\n",
            ),
            ..TWO_TRIPS
        },
        0,
        "runs 60\n",
    ),
];

#[test]
fn files_and_their_rules_come_in_order(rt: HostRuntime) -> Result<(), NoMemory> {
    expect_simulations(&rt, rt.alloc(), FILES_IN_ORDER)?;
    expect_simulations(&rt, rt.alloc(), RULES_IN_ORDER)
}

#[test]
fn other_forms_of_a_day_run(rt: HostRuntime) -> Result<(), NoMemory> {
    expect_simulations(&rt, rt.alloc(), OTHER_FORMS)?;
    expect_simulations(&rt, rt.alloc(), NUMBERS)?;
    expect_simulations(&rt, rt.alloc(), NAMES)
}
