//! Edges of the links of days with one type of unit or two, by hand.

ghost use Rattle.std.specs.Prelude.{◌<◌, length};

use rail_base::{CompNo, LinkNo};
use sample_days::{TURN, Texts, day_of};
use std::alloc::{AllocError, Global};
use std::test::Fail;
use timetable::Instance;
use transitions::{Edge, Graphs};

/// A day of one type on which T1 and T2 arrive before T3 and T4 leave, with one turn. The platforms fit two units.
const FOUR_TRIPS: Texts<'static> = Texts {
    trips: b"trip,from,departure,to,arrival,km,demand\n\
        T1,X,08:00,Y,09:00,10,0\nT2,X,08:30,Y,09:30,10,0\n\
        T3,Y,09:40,X,10:40,10,0\nT4,Y,09:50,X,10:50,10,0\n",
    links: b"kind,arriving,arriving2,departing,departing2,reverse,uncouple,couple\n\
        turn,T1,,T3,,yes,rear,none\n",
    ..TURN
};

/// Two types of one length.
const ALIKE: &[u8] =
    b"type,carriages,seats,metres,family\nA,3,200,80,regional\nB,3,200,80,regional\n";

/// The same day with these two types.
const ALIKE_TYPES: Texts<'static> = Texts {
    types: ALIKE,
    ..FOUR_TRIPS
};

/// Two types of which one is shorter, a turn that may exchange units, and platforms that fit a unit of each type, but
/// not two of A.
const EXCHANGE: Texts<'static> = Texts {
    types: b"type,carriages,seats,metres,family\nA,3,200,80,regional\nB,2,100,60,regional\n",
    stations: b"station,platform,reallocation\nX,140,30\nY,140,30\n",
    links: b"kind,arriving,arriving2,departing,departing2,reverse,uncouple,couple,exchange\n\
        turn,T1,,T3,,yes,rear,rear,yes\n",
    ..FOUR_TRIPS
};

/// A join of trains of up to three units of two types.
const JOIN: Texts<'static> = Texts {
    stations: b"station,platform,reallocation\nX,250,30\nY,250,30\n",
    links: b"kind,arriving,arriving2,departing,departing2,reverse,uncouple,couple\n\
        join,T1,T2,T3,,yes,none,none\n",
    ..ALIKE_TYPES
};

/// What is asked of the only link of a day.
#[derive(Clone, Copy)]
enum Asked {
    /// All its edges.
    Edges,
    /// The shunts from and to these compositions.
    Shunts(&'static [(u32, u32)]),
    /// The edges from and to these compositions.
    Found(&'static [(u32, u32)]),
}

/// A day, what is asked of its link, and the answers, one a line.
struct Row {
    texts: Texts<'static>,
    asked: Asked,
    told: &'static str,
}

const TURNS: &[Row] = &[
    // The compositions are A and AA.
    Row {
        texts: FOUR_TRIPS,
        asked: Asked::Edges,
        told: "0 0 Keep\n1 0 Uncouple { units: 1 }\n1 1 Keep\n",
    },
    // The compositions are A, B, AA, AB, BA and BB. AB turns round into BA, whose rear unit is A.
    Row {
        texts: ALIKE_TYPES,
        asked: Asked::Shunts(&[(3, 1), (3, 4), (3, 0)]),
        told: "Some(Uncouple { units: 1 })\nSome(Keep)\nNone\n",
    },
    // A unit goes from the front or comes to it: A becomes AA or BA, and AB becomes B.
    Row {
        texts: Texts {
            links: b"kind,arriving,arriving2,departing,departing2,reverse,uncouple,couple\n\
                turn,T1,,T3,,no,front,front\n",
            ..ALIKE_TYPES
        },
        asked: Asked::Edges,
        told: "0 0 Keep\n0 2 Couple { units: 1 }\n0 4 Couple { units: 1 }\n\
            1 1 Keep\n1 3 Couple { units: 1 }\n1 5 Couple { units: 1 }\n\
            2 0 Uncouple { units: 1 }\n2 2 Keep\n3 1 Uncouple { units: 1 }\n3 3 Keep\n\
            4 0 Uncouple { units: 1 }\n4 4 Keep\n5 1 Uncouple { units: 1 }\n5 5 Keep\n",
    },
];

const EXCHANGES: &[Row] = &[
    // The compositions are A, B, AB, BA and BB. AB turns round into BA, whose B stays when A goes and another B comes.
    Row {
        texts: EXCHANGE,
        asked: Asked::Edges,
        told: "0 0 Keep\n0 2 Couple { units: 1 }\n\
            1 1 Keep\n1 3 Couple { units: 1 }\n1 4 Couple { units: 1 }\n\
            2 1 Uncouple { units: 1 }\n2 3 Keep\n2 4 Exchange { uncouple: 1, couple: 1 }\n\
            3 0 Uncouple { units: 1 }\n3 2 Keep\n\
            4 1 Uncouple { units: 1 }\n4 3 Exchange { uncouple: 1, couple: 1 }\n4 4 Keep\n",
    },
    // The same turn, which may not exchange units.
    Row {
        texts: Texts {
            links: b"kind,arriving,arriving2,departing,departing2,reverse,uncouple,couple,exchange\n\
                turn,T1,,T3,,yes,rear,rear,no\n",
            ..EXCHANGE
        },
        asked: Asked::Edges,
        told: "0 0 Keep\n0 2 Couple { units: 1 }\n\
            1 1 Keep\n1 3 Couple { units: 1 }\n1 4 Couple { units: 1 }\n\
            2 1 Uncouple { units: 1 }\n2 3 Keep\n\
            3 0 Uncouple { units: 1 }\n3 2 Keep\n\
            4 1 Uncouple { units: 1 }\n4 4 Keep\n",
    },
    Row {
        texts: Texts {
            links: b"kind,arriving,arriving2,departing,departing2,reverse,uncouple,couple,exchange\n\
                turn,T1,,T3,,yes,rear,rear,no\n",
            ..EXCHANGE
        },
        asked: Asked::Shunts(&[(2, 4), (4, 3)]),
        told: "None\nNone\n",
    },
    // A goes from the front of AB, and comes to its rear.
    Row {
        texts: Texts {
            links: b"kind,arriving,arriving2,departing,departing2,reverse,uncouple,couple,exchange\n\
                turn,T1,,T3,,no,front,rear,yes\n",
            ..EXCHANGE
        },
        asked: Asked::Shunts(&[(2, 3), (2, 2)]),
        told: "Some(Exchange { uncouple: 1, couple: 1 })\nSome(Keep)\n",
    },
    // AAB turns round into BAA, and B stays as BB leaves: two units for one. AAAB, composition 15, would give three for
    // one. The platforms fit four units.
    Row {
        texts: Texts {
            types: ALIKE,
            stations: b"station,platform,reallocation\nX,320,30\nY,320,30\n",
            ..EXCHANGE
        },
        asked: Asked::Shunts(&[(7, 5), (9, 10), (15, 5), (15, 1)]),
        told: "Some(Exchange { uncouple: 2, couple: 1 })\nSome(Exchange { uncouple: 2, couple: 2 })\nNone\n\
            Some(Uncouple { units: 3 })\n",
    },
];

const PARTS: &[Row] = &[
    // Composition 7 is AAB: A and then AB, which arrives as BA, composition 4, and turns round.
    Row {
        texts: JOIN,
        asked: Asked::Found(&[(0, 7), (1, 7)]),
        told: "0 7 Keep with 4\nnone\n",
    },
    // The first train arrives as AB and turns round into BA: with A behind it the train is BAA, composition 10, and not
    // ABA, which is composition 8.
    Row {
        texts: JOIN,
        asked: Asked::Found(&[(3, 10), (3, 8), (4, 8)]),
        told: "3 10 Keep with 0\nnone\n4 8 Keep with 0\n",
    },
    // AA is split into A and A.
    Row {
        texts: Texts {
            links: b"kind,arriving,arriving2,departing,departing2,reverse,uncouple,couple\n\
                split,T1,,T3,T4,no,none,none\n",
            ..FOUR_TRIPS
        },
        asked: Asked::Edges,
        told: "1 0 Keep with 0\n",
    },
];

/// What is answered of the only link of the day of these tables.
fn told(alloc: Global, texts: &Texts<'_>, asked: Asked) -> Result<String, Fail> {
    let day = day_of(alloc, texts)?;
    told_of(alloc, &day, asked)
}

/// What is answered of the only link of a day; nothing where there is another number of links.
fn told_of(alloc: Global, day: &Instance, asked: Asked) -> Result<String, Fail> {
    let graphs = Graphs::build(alloc, day)?;
    let mut text = String::new(alloc);
    if day.links() == 1 {
        write_answers(&mut text, &graphs, asked)?;
    }
    Ok(text)
}

/// Writes what is answered of the first link.
fn write_answers(text: &mut String, graphs: &Graphs, asked: Asked) -> Result<(), AllocError>
    requires { 0 < length graphs.now }
{
    match asked {
        Asked::Edges => write_edges(text, graphs.edges(LinkNo(0))),
        Asked::Shunts(pairs) => {
            for (from, to) in pairs {
                let shunt = graphs.allowed(LinkNo(0), CompNo(*from), CompNo(*to));
                write!(text, "{shunt:?}\n")?;
            }
            Ok(())
        }
        Asked::Found(pairs) => {
            for (from, to) in pairs {
                write_found(text, graphs.find(LinkNo(0), CompNo(*from), CompNo(*to)))?;
            }
            Ok(())
        }
    }
}

/// Writes edges.
fn write_edges(text: &mut String, edges: &[Edge]) -> Result<(), AllocError> {
    for edge in edges {
        write_edge(text, *edge)?;
    }
    Ok(())
}

/// Writes an edge, or that none was found.
fn write_found(text: &mut String, found: Option<Edge>) -> Result<(), AllocError> {
    match found {
        Some(edge) => write_edge(text, edge),
        None => text.push_str("none\n"),
    }
}

/// Writes an edge: from where and to where it leads, its shunt, and its part, where there is one.
fn write_edge(text: &mut String, edge: Edge) -> Result<(), AllocError> {
    write!(text, "{} {} {:?}", edge.from.0, edge.to.0, edge.shunt)?;
    if let Some(part) = edge.part {
        write!(text, " with {}", part.0)?;
    }
    text.push_str("\n")
}

#[test]
fn links_have_their_edges(rt: HostRuntime) -> Result<(), Fail> {
    for rows in [TURNS, EXCHANGES, PARTS] {
        for row in rows {
            let text = told(rt.alloc(), &row.texts, row.asked)?;
            assert!(rt; text.as_str() == row.told, "{text}");
        }
    }
    Ok(())
}
