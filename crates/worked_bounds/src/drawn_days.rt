//! Small days that are drawn: trips between two stations in one of eight patterns, with stock, platforms, reallocation
//! times and what turns may do by chance.

ghost use Rattle.std.specs.Prelude.{◌≡◌, ◌<◌, ◌≤◌};

use sample_days::{Texts, day_of};
use std::alloc::Global;
use std::marker::Model;
use std::test::Fail;
use timetable::Instance;

/// Numbers by chance, the same ones each time. A contract sees the last of them.
#[derive(Drop)]
pub(crate) struct Draws {
    /// The last number of a linear congruential generator.
    state: u32,
}

impl Model for Draws {
    ghost use Rattle.std.specs.Prelude.{ℕ};

    ghost Value = { ℕ };

    ghost view = { λ a. a.state };
}

impl Draws {
    /// The draws that begin from a seed.
    pub(crate) fn from_seed(seed: u32) -> Draws
        ensures { result ≡ seed }
    {
        Draws { state: seed }
    }

    /// A number below a bound, which is not 0.
    pub(crate) fn below(&mut self, bound: u32) -> u32
        requires { 0 < bound }
        ensures { result < bound }
    {
        self.state = self
            .state
            .wrapping_mul(1_664_525)
            .wrapping_add(1_013_904_223);
        (self.state >> 8) % bound
    }
}

/// Trips, and up to three rows of links between them without what is drawn.
#[derive(Clone, Copy)]
struct Pattern {
    trips: &'static str,
    links: [&'static str; 3],
}

const TWO_TRIPS: &str = "trip,from,departure,to,arrival,km,demand\n\
     T1,X,08:00,Y,09:00,10,300\nT2,Y,09:20,X,10:20,10,300\n";

const THREE_TRIPS: &str = "trip,from,departure,to,arrival,km,demand\n\
     T1,X,08:00,Y,09:00,10,300\nT2,Y,09:10,X,10:10,10,300\nT3,X,10:30,Y,11:30,10,300\n";

const TWO_AND_ONE_BACK: &str = "trip,from,departure,to,arrival,km,demand\n\
     T1,X,08:00,Y,09:00,10,300\nT2,X,08:10,Y,09:10,10,300\nT3,Y,09:30,X,10:30,10,300\n";

const ONE_AND_TWO_BACK: &str = "trip,from,departure,to,arrival,km,demand\n\
     T1,X,08:00,Y,09:00,10,300\nT2,Y,09:10,X,10:10,10,300\nT3,Y,09:20,X,10:20,10,300\n";

const RING: &str = "trip,from,departure,to,arrival,km,demand\n\
     T1,X,08:00,Y,09:00,10,300\nT2,Y,09:10,X,10:10,10,300\nT3,Y,09:20,X,10:20,10,300\n\
     T4,X,10:30,Y,11:30,10,300\n";

const TWO_AND_TWO_BACK: &str = "trip,from,departure,to,arrival,km,demand\n\
     T1,X,08:00,Y,09:00,10,300\nT2,X,08:10,Y,09:10,10,300\nT3,Y,09:20,X,10:20,10,300\n\
     T4,Y,09:30,X,10:30,10,300\n";

const FIVE_TRIPS: &str = "trip,from,departure,to,arrival,km,demand\n\
     T1,X,08:00,Y,09:00,10,300\nT2,Y,09:10,X,10:10,10,300\nT3,Y,09:20,X,10:20,10,300\n\
     T4,X,10:30,Y,11:30,10,300\nT5,Y,11:40,X,12:40,10,300\n";

const SIX_TRIPS: &str = "trip,from,departure,to,arrival,km,demand\n\
     T1,X,08:00,Y,09:00,10,300\nT2,Y,09:10,X,10:10,10,300\nT3,Y,09:20,X,10:20,10,300\n\
     T4,X,10:30,Y,11:30,10,300\nT5,Y,11:40,X,12:40,10,300\nT6,X,10:20,Y,11:20,10,300\n";

/// The patterns but the last one.
const PATTERNS: &[Pattern] = &[
    Pattern {
        trips: TWO_TRIPS,
        links: ["turn,T1,,T2,,", "", ""],
    },
    Pattern {
        trips: THREE_TRIPS,
        links: ["turn,T1,,T2,,", "turn,T2,,T3,,", ""],
    },
    Pattern {
        trips: TWO_AND_ONE_BACK,
        links: ["join,T1,T2,T3,,", "", ""],
    },
    Pattern {
        trips: ONE_AND_TWO_BACK,
        links: ["split,T1,,T2,T3,", "", ""],
    },
    Pattern {
        trips: RING,
        links: ["split,T1,,T2,T3,", "join,T3,T2,T4,,", ""],
    },
    Pattern {
        trips: TWO_AND_TWO_BACK,
        links: ["turn,T1,,T4,,", "turn,T2,,T3,,", ""],
    },
    Pattern {
        trips: FIVE_TRIPS,
        links: ["turn,T1,,T2,,", "join,T2,T3,T4,,", "turn,T4,,T5,,"],
    },
];

/// One of eight patterns.
fn pattern_of(number: u32) -> Pattern {
    match PATTERNS.get(number as usize) {
        Some(pattern) => *pattern,
        None => Pattern {
            trips: SIX_TRIPS,
            links: ["split,T1,,T2,T3,", "turn,T2,,T4,,", "turn,T4,,T5,,"],
        },
    }
}

/// What is drawn of a link: whether it turns trains round, and where a turn may uncouple and couple.
fn words_of(draws: &mut Draws, link: &str) -> &'static str {
    if link.is_empty() {
        return "";
    }
    if link.starts_with("turn") {
        return turn_words(draws.below(8));
    }
    if draws.below(2) == 0 {
        "no,none,none,no\n"
    } else {
        "yes,none,none,no\n"
    }
}

/// What a turn may do.
fn turn_words(number: u32) -> &'static str {
    match number {
        0 => "no,none,none,no\n",
        1 => "yes,rear,none,no\n",
        2 => "no,none,front,no\n",
        3 => "yes,front,front,no\n",
        4 => "no,rear,rear,yes\n",
        5 => "yes,front,rear,yes\n",
        6 => "no,rear,front,yes\n",
        _ => "yes,rear,rear,yes\n",
    }
}

/// Two stations, of which one may have a shorter platform.
fn stations_text(alloc: Global, draws: &mut Draws) -> Result<String, Fail> {
    let (first, second) = (draws.below(3), draws.below(3));
    Ok(format!(in alloc;
        "station,platform,reallocation\nX,{},{}\nY,{},{}\n",
        140 + 20 * first,
        10 * draws.below(3),
        140 + 20 * second,
        10 * draws.below(3)
    )?)
}

/// Two to four units of each of two types, most of them at the first station at the start. Three days in four want as
/// many at each station at the end.
fn stock_text(alloc: Global, draws: &mut Draws) -> Result<String, Fail> {
    let comes_back = draws.below(4) != 0;
    let (a, a_start, a_end) = shares_of(draws, comes_back);
    let (b, b_start, b_end) = shares_of(draws, comes_back);
    Ok(format!(in alloc;
        "station,type,start,end\nX,A,{},{}\nX,B,{},{}\nY,A,{},{}\nY,B,{},{}\n",
        a - a_start,
        a - a_end,
        b - b_start,
        b - b_end,
        a_start,
        a_end,
        b_start,
        b_end
    )?)
}

/// How many units of a type there are, and how many of them stand at the second station at the start and at the end.
fn shares_of(draws: &mut Draws, comes_back: bool) -> (u32, u32, u32)
    ensures start { result.1 ≤ result.0 }
    ensures end { result.2 ≤ result.0 }
    ensures few { result.0 ≤ 4 }
{
    let units = 2 + draws.below(3);
    let start = draws.below(2) * draws.below(2);
    let end = if comes_back {
        start
    } else {
        draws.below(units + 1)
    };
    (units, start, end)
}

/// The links of a pattern, with what is drawn of each.
fn links_text(alloc: Global, draws: &mut Draws, pattern: &Pattern) -> Result<String, Fail> {
    let [first, second, third] = pattern.links;
    Ok(format!(in alloc;
        "kind,arriving,arriving2,departing,departing2,reverse,uncouple,couple,exchange\n{}{}{}{}{}{}",
        first,
        words_of(draws, first),
        second,
        words_of(draws, second),
        third,
        words_of(draws, third)
    )?)
}

/// The tables of a drawn day beside those of its types and trips.
#[derive(Drop)]
struct Drawn {
    stations: String,
    stock: String,
    links: String,
}

/// Draws the tables of a day of a pattern.
fn drawn_tables(alloc: Global, draws: &mut Draws, pattern: &Pattern) -> Result<Drawn, Fail> {
    let stations = stations_text(alloc, draws)?;
    let stock = stock_text(alloc, draws)?;
    Ok(Drawn {
        stations,
        stock,
        links: links_text(alloc, draws, pattern)?,
    })
}

/// Whether one of the tables of a pattern's day is too long to be a drawn one.
fn is_one_long(pattern: &Pattern, drawn: &Drawn) -> bool {
    let longest = drawn
        .stations
        .len()
        .max(drawn.stock.len())
        .max(drawn.links.len())
        .max(pattern.trips.len());
    longest > 4096
}

/// The day of a pattern with drawn tables, or nothing where they are too long to be drawn ones.
fn day_by(alloc: Global, pattern: &Pattern, drawn: &Drawn) -> Result<Option<Instance>, Fail> {
    if is_one_long(pattern, drawn) {
        return Ok(None);
    }
    let texts = Texts {
        types: b"type,carriages,seats,metres,family\nA,3,200,80,regional\nB,2,100,60,regional\n",
        stations: drawn.stations.as_bytes(),
        stock: drawn.stock.as_bytes(),
        trips: pattern.trips.as_bytes(),
        links: drawn.links.as_bytes(),
    };
    Ok(Some(day_of(alloc, &texts)?))
}

/// A day of two to six trips with two types of units, or nothing where its texts are too long to be drawn ones.
pub(crate) fn drawn_day(alloc: Global, draws: &mut Draws) -> Result<Option<Instance>, Fail> {
    let pattern = pattern_of(draws.below(8));
    let drawn = drawn_tables(alloc, draws, &pattern)?;
    day_by(alloc, &pattern, &drawn)
}
