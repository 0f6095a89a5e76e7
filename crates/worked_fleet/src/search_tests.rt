//! Fleets of least cost that are found for small days: what is said, which boxes were split, and that the check finds
//! it valid. On a line whose trip out wants 300 seats and whose trip back wants 150, two units cost 120 and one costs
//! 1060.

ghost use Rattle.std.specs.Prelude.{◌≡◌, length, IfOk};
ghost use Rattle.timetable.specs.DayTables.{IsDayOfBytes};
ghost use Rattle.fleet_size.specs.Found.{IsGranted};

use crate::days::{made_of, tables_in};
use answer_text::Head;
use fleet_boxes::{BoxNode, Prices};
use fleet_check::{Chosen, DayOfTables, Fleet, FleetVerdict, check_fleet, read_prices};
use fleet_size::{Granted, fleet};
use sample_days::{TURN, Texts, table};
use std::alloc::{AllocError, Global};
use std::test::Fail;

/// A day for which a fleet is to be found, and what is found.
#[derive(Clone, Copy)]
struct Case {
    /// What it shows.
    about: &'static str,
    texts: Texts<'static>,
    prices: &'static [u8],
    branchings: u32,
    splits: u32,
    /// What is said, and the chosen stock.
    said: &'static str,
    /// The nodes of the boxes, in order.
    boxes: &'static str,
}

/// Two units at X at the most; one unit costs 1060 and 500, and two cost 120 and 1000.
const TWO_UNITS: Case = Case {
    about: "the box of all fleets is split in the middle, and then its lower part alone",
    texts: TURN,
    prices: b"type,cost\nA,500\n",
    branchings: 50,
    splits: 50,
    said: "optimal 1120, stock 2 0",
    boxes: "split 0 0 1, split 0 0 0, nothing, bound 1060, bound 120",
};

/// Two such lines, from X to Y and from V to W, with two units at X and at V at the most.
const TWO_LINES: Texts<'static> = Texts {
    stations: b"station,platform,reallocation\nX,200,30\nY,200,30\nV,200,30\nW,200,30\n",
    stock: b"station,type,start,end\nX,A,2,2\nV,A,2,2\n",
    trips: b"trip,from,departure,to,arrival,km,demand\n\
        T1,X,08:00,Y,09:00,10,300\nT2,Y,09:10,X,10:10,10,150\n\
        T3,V,08:00,W,09:00,10,300\nT4,W,09:10,V,10:10,10,150\n",
    links: b"kind,arriving,arriving2,departing,departing2,reverse,uncouple,couple\n\
        turn,T1,,T2,,yes,rear,none\nturn,T3,,T4,,yes,rear,none\n",
    ..TURN
};

const CASES: &[Case] = &[
    TWO_UNITS,
    Case {
        about: "one split less than there are fleets, and one branching less than there are choices",
        branchings: 3,
        splits: 2,
        ..TWO_UNITS
    },
    Case {
        about: "the third unit never leaves, and is not in the fleet",
        texts: Texts {
            stock: b"station,type,start,end\nX,A,3,0\n",
            ..TURN
        },
        splits: 0,
        said: "bounded 120 plan 1120, stock 2 0",
        boxes: "bound 120",
        ..TWO_UNITS
    },
    Case {
        about: "the split is where the box is widest, at X and not at Y",
        texts: Texts {
            stock: b"station,type,start,end\nX,A,2,0\nY,A,1,0\n",
            ..TURN
        },
        splits: 1,
        said: "bounded 1060 plan 1120, stock 2 0",
        boxes: "split 0 0 1, bound 1060, bound 120",
        ..TWO_UNITS
    },
    // Two and three units cost 120 and 1000 at the least, which is no less than the price of two.
    Case {
        about: "a part that holds no lower price is not split, though it has two fleets",
        texts: Texts {
            stock: b"station,type,start,end\nX,A,3,0\n",
            ..TURN
        },
        ..TWO_UNITS
    },
    Case {
        about: "the unit that never leaves stands at the first station, and the others move up",
        texts: Texts {
            stations: b"station,platform,reallocation\nY,200,30\nX,200,30\n",
            stock: b"station,type,start,end\nX,A,2,0\nY,A,1,0\n",
            ..TURN
        },
        splits: 0,
        said: "bounded 120 plan 1120, stock 0 2",
        boxes: "bound 120",
        ..TWO_UNITS
    },
    Case {
        about: "the unit that never leaves is of another type",
        texts: Texts {
            types: b"type,carriages,seats,metres,family\nZ,3,20,80,other\nA,3,200,80,regional\n",
            stock: b"station,type,start,end\nX,Z,1,0\nX,A,2,0\n",
            ..TURN
        },
        prices: b"type,cost\nZ,500\nA,500\n",
        splits: 0,
        said: "bounded 120 plan 1120, stock 0 2 0 0",
        boxes: "bound 120",
        ..TWO_UNITS
    },
    // The parts are worth 1060 and 120, and 120 and 120 and 2000. One unit on each line costs 2120 and 2000.
    Case {
        about: "of two open boxes that of lower value is split next",
        texts: TWO_LINES,
        prices: b"type,cost\nA,1000\n",
        splits: 2,
        said: "bounded 2120 plan 4120, stock 1 0 1 0",
        boxes: "split 0 0 1, split 2 0 1, bound 2120, bound 1180, bound 240",
        ..TWO_UNITS
    },
    // Both parts are worth 1180. Two units on each line cost 240 and 1880.
    Case {
        about: "of two open boxes of one value that which was made earlier is split next",
        texts: TWO_LINES,
        prices: b"type,cost\nA,470\n",
        splits: 2,
        said: "bounded 1180 plan 2120, stock 2 0 2 0",
        boxes: "split 0 0 1, split 2 0 1, bound 2120, bound 1180, bound 240",
        ..TWO_UNITS
    },
    // The upper part of the first split and the lower part of the second are both worth 2120.
    Case {
        about: "of two open boxes of one value that which was made earlier is split next, though it is further back",
        texts: TWO_LINES,
        prices: b"type,cost\nA,940\n",
        splits: 3,
        said: "bounded 2120 plan 4000, stock 2 0 2 0",
        boxes: "split 0 0 1, split 2 0 1, bound 2120, bound 1180, split 2 0 1, bound 1180, bound 240",
        ..TWO_UNITS
    },
];

/// What a head says.
fn head_text(alloc: Global, head: &Head) -> Result<String, AllocError> {
    match head {
        Head::Optimal { cost } => format!(in alloc; "optimal {}", cost.0),
        Head::Infeasible => String::from_str(alloc, "infeasible"),
        Head::Bounded { bound } => format!(in alloc; "bounded {}", bound.0),
        Head::BoundedPlan { bound, cost } => format!(in alloc;
            "bounded {} plan {}",
            bound.0, cost.0
        ),
    }
}

/// Adds the chosen stock, where there is one.
fn write_stock(text: &mut String, chosen: &Option<Chosen>) -> Result<(), AllocError> {
    let Some(chosen) = chosen else {
        return Ok(());
    };
    write!(text, ", stock")?;
    for count in chosen.stock.items() {
        write!(text, " {count}")?;
    }
    Ok(())
}

/// What is said, and the chosen stock.
fn said(alloc: Global, found: &Fleet) -> Result<String, Fail> {
    let mut told = head_text(alloc, &found.head)?;
    write_stock(&mut told, &found.chosen)?;
    Ok(told)
}

/// Adds a node, without its tree.
fn write_node(text: &mut String, node: &BoxNode) -> Result<(), AllocError> {
    match node {
        BoxNode::Split {
            station,
            unit_type,
            at,
        } => write!(text, "split {} {} {at}", station.0, unit_type.0),
        BoxNode::Bound { bound, .. } => write!(text, "bound {}", bound.0),
        BoxNode::Nothing { .. } => write!(text, "nothing"),
    }
}

/// Adds a node after those before it.
fn write_next(text: &mut String, node: &BoxNode) -> Result<(), AllocError> {
    if text.is_empty() {
        return write_node(text, node);
    }
    write!(text, ", ")?;
    write_node(text, node)
}

/// The nodes of the boxes, in order, without their trees.
fn boxes(alloc: Global, found: &Fleet) -> Result<String, Fail> {
    let mut told = String::new(alloc);
    for node in found.boxes.items() {
        write_next(&mut told, node)?;
    }
    Ok(told)
}

/// Whether a fleet says what is to be said, with these boxes.
fn is_told(alloc: Global, case: &Case, found: &Fleet) -> Result<bool, Fail> {
    let told = said(alloc, found)?;
    let nodes = boxes(alloc, found)?;
    Ok(told.as_str() == case.said && nodes.as_str() == case.boxes)
}

/// What is granted for a case.
fn granted(case: &Case) -> Result<Granted, Fail>
    ensures { IfOk result IsGranted }
{
    if case.branchings > 200 || case.splits > 200 {
        return Err(Fail::new("too much is granted"));
    }
    Ok(Granted {
        branchings: case.branchings,
        rounds: 0,
        splits: case.splits,
        evaluations: 0,
    })
}

/// Whether what is found of a day under prices is valid, and what is to be found.
fn is_right(
    alloc: Global,
    case: &Case,
    day: &DayOfTables<'_>,
    prices: &Prices,
) -> Result<bool, Fail>
    requires made { IsDayOfBytes day.now.bytes.now day.now.instance.now }
    requires prices { length prices.now ≡ length day.now.instance.now.types }
{
    let granted = granted(case)?;
    let mut advisors = Vec::new(alloc);
    let found = fleet(alloc, day, prices, granted, &mut advisors)?;
    let verdict = check_fleet(alloc, day, prices, &found)?;
    Ok(verdict == FleetVerdict::Valid && is_told(alloc, case, &found)?)
}

/// Whether what is found of a case is valid, and what is to be found.
fn is_found(alloc: Global, case: &Case) -> Result<bool, Fail> {
    let bytes = tables_in(alloc, &case.texts)?;
    let instance = made_of(alloc, &bytes)?;
    let prices = read_prices(alloc, &instance, table(case.prices)?)?;
    let day = DayOfTables {
        bytes: &bytes,
        instance: &instance,
    };
    is_right(alloc, case, &day, &prices)
}

#[test]
fn fleets_are_searched_box_by_box(rt: HostRuntime) -> Result<(), Fail> {
    for case in CASES {
        assert!(rt; is_found(rt.alloc(), case)?, "{}", case.about);
    }
    Ok(())
}
