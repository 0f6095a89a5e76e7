//! What is said of all fleets of a small day, by hand, with each verdict on it. One unit costs 1060 on the day, two
//! cost 120, and none can run; a unit costs 500 more.

ghost use Rattle.std.specs.Prelude.{◌≡◌, length};
ghost use Rattle.timetable.specs.DayTables.{IsDayOfBytes};

use crate::days::{made_of, tables_in, texts};
use answer_text::{Answer, Head};
use day_planner::answer_for;
use fleet_boxes::{BoxNode, Boxes, Prices};
use fleet_check::{Chosen, DayOfTables, Fleet, MAX_BOX_NODES, check_fleet, read_prices};
use fleets::Counts;
use rail_base::{Money, StationNo, TypeNo, UnitNo};
use rail_csv::UnitList;
use sample_days::{TURN, TWO_TYPES, Texts, day_of, table};
use std::alloc::Global;
use std::test::Fail;
use timetable::NamedPlan;

/// A node of the boxes.
#[derive(Clone, Copy)]
enum Given {
    /// A split at a station, of a type, at so many units.
    Split(u32, u32, u32),
    /// The leaf that is proved of so many units at X.
    Leaf(u32),
}

/// A chosen fleet by station and then type, and its plan: the units of each trip, front to rear.
type ChosenOf = (&'static [u32], &'static [&'static [u32]]);

/// What is said of all fleets.
#[derive(Clone, Copy)]
struct Case {
    /// What it shows.
    about: &'static str,
    /// The most units that may stand at X.
    most: u32,
    head: Head,
    splits: u32,
    boxes: &'static [Given],
    chosen: Option<ChosenOf>,
    /// The verdict.
    verdict: &'static str,
}

const BOTH: ChosenOf = (&[2, 0], &[&[0, 1], &[1, 0]]);

/// The boxes of one split at one unit and one of the lower part at none, and the leaves.
const SPLIT_TWICE: &[Given] = &[
    Given::Split(0, 0, 1),
    Given::Split(0, 0, 0),
    Given::Leaf(0),
    Given::Leaf(1),
    Given::Leaf(2),
];

/// Two units are the fleet of least cost.
const BEST: Case = Case {
    about: "two units cost 120 and 1000, and one costs 1060 and 500",
    most: 2,
    head: Head::Optimal { cost: Money(1120) },
    splits: 2,
    boxes: SPLIT_TWICE,
    chosen: Some(BOTH),
    verdict: "Valid",
};

/// No box is split.
const WHOLE: Case = Case {
    about: "with no split the bound is that of two units, and the value that of none",
    head: Head::BoundedPlan {
        bound: Money(120),
        cost: Money(1120),
    },
    splits: 0,
    boxes: &[Given::Leaf(2)],
    ..BEST
};

/// The cases.
const CASES: &[Case] = &[
    BEST,
    Case {
        about: "a price of one less is said",
        head: Head::Optimal { cost: Money(1119) },
        verdict: "PriceDiffers { said: Money(1119), found: Money(1120) }",
        ..BEST
    },
    Case {
        about: "bounded, where no leaf is open",
        head: Head::BoundedPlan {
            bound: Money(1120),
            cost: Money(1120),
        },
        ..BEST
    },
    WHOLE,
    Case {
        about: "a bound with no plan",
        head: Head::Bounded { bound: Money(120) },
        chosen: None,
        ..WHOLE
    },
    Case {
        about: "no unit may be there",
        most: 0,
        head: Head::Infeasible,
        splits: 0,
        boxes: &[Given::Leaf(0)],
        chosen: None,
        ..BEST
    },
    Case {
        about: "a part of the split lacks its tree",
        boxes: &[Given::Split(0, 0, 1), Given::Leaf(1)],
        verdict: "TreeShape(2)",
        ..BEST
    },
    Case {
        about: "no node at all",
        boxes: &[],
        verdict: "TreeShape(0)",
        ..BEST
    },
    Case {
        about: "a node after the tree, which comes before what fails in it",
        boxes: &[Given::Leaf(0), Given::Split(9, 9, 9)],
        verdict: "TreeShape(1)",
        ..BEST
    },
    Case {
        about: "no unit more than the split's number",
        boxes: &[Given::Split(0, 0, 2), Given::Leaf(2), Given::Leaf(2)],
        verdict: "SplitOutside(0)",
        ..BEST
    },
    Case {
        about: "a split at a station that is none, after one that is right",
        boxes: &[
            Given::Split(0, 0, 1),
            Given::Split(2, 0, 0),
            Given::Leaf(0),
            Given::Leaf(0),
            Given::Leaf(2),
        ],
        verdict: "SplitOutside(1)",
        ..BEST
    },
    Case {
        about: "a split of a type that is none",
        boxes: &[Given::Split(0, 1, 0), Given::Leaf(2), Given::Leaf(2)],
        verdict: "SplitOutside(0)",
        ..BEST
    },
    Case {
        about: "a leaf that is proved of the least fleet of its box alone",
        boxes: &[Given::Leaf(0)],
        verdict: "LeafFails(0)",
        ..BEST
    },
    Case {
        about: "a leaf that is proved of another fleet",
        boxes: &[Given::Split(0, 0, 1), Given::Leaf(1), Given::Leaf(1)],
        verdict: "LeafFails(2)",
        ..BEST
    },
    Case {
        about: "a leaf that fails before a split that does not part its box",
        boxes: &[
            Given::Split(0, 0, 1),
            Given::Leaf(0),
            Given::Split(9, 9, 9),
            Given::Leaf(0),
            Given::Leaf(2),
        ],
        verdict: "LeafFails(1)",
        ..BEST
    },
    Case {
        about: "another number of splits is said",
        splits: 3,
        verdict: "SplitsDiffer { said: 3, found: 2 }",
        ..BEST
    },
    Case {
        about: "another number of splits is said, which comes before a plan that is not there",
        splits: 3,
        chosen: None,
        verdict: "SplitsDiffer { said: 3, found: 2 }",
        ..BEST
    },
    Case {
        about: "no plan is there for the price",
        chosen: None,
        verdict: "PlanFails",
        ..BEST
    },
    Case {
        about: "a plan is there for no price",
        head: Head::Infeasible,
        verdict: "PlanFails",
        ..BEST
    },
    Case {
        about: "more units than may be there",
        chosen: Some((&[3, 0], &[&[0, 1], &[1, 0]])),
        verdict: "PlanFails",
        ..BEST
    },
    Case {
        about: "a number for one station alone",
        chosen: Some((&[2], &[&[0, 1], &[1, 0]])),
        verdict: "PlanFails",
        ..BEST
    },
    Case {
        about: "a number for one station too many",
        chosen: Some((&[2, 0, 0], &[&[0, 1], &[1, 0]])),
        verdict: "PlanFails",
        ..BEST
    },
    Case {
        about: "a plan of one trip alone",
        chosen: Some((&[2, 0], &[&[0, 1]])),
        verdict: "PlanFails",
        ..BEST
    },
    Case {
        about: "a plan of one trip too many",
        chosen: Some((&[2, 0], &[&[0, 1], &[1, 0], &[]])),
        verdict: "PlanFails",
        ..BEST
    },
    Case {
        about: "a unit that the fleet lacks",
        chosen: Some((&[1, 0], &[&[0, 1], &[1, 0]])),
        verdict: "PlanFails",
        ..BEST
    },
    Case {
        about: "a plan that stops",
        chosen: Some((&[2, 0], &[&[0], &[1]])),
        verdict: "PlanFails",
        ..BEST
    },
    Case {
        about: "one unit costs more, and a leaf is worth less",
        head: Head::Optimal { cost: Money(1560) },
        chosen: Some((&[1, 0], &[&[0], &[0]])),
        verdict: "HeadFails",
        ..BEST
    },
    Case {
        about: "optimal, where the one leaf is open",
        head: Head::Optimal { cost: Money(1120) },
        verdict: "HeadFails",
        ..WHOLE
    },
    Case {
        about: "infeasible, where a leaf has a bound",
        head: Head::Infeasible,
        chosen: None,
        verdict: "HeadFails",
        ..WHOLE
    },
    Case {
        about: "a bound that is less than all values",
        head: Head::BoundedPlan {
            bound: Money(119),
            cost: Money(1120),
        },
        verdict: "HeadFails",
        ..WHOLE
    },
    Case {
        about: "a bound that is the value of a leaf, but not the least",
        head: Head::BoundedPlan {
            bound: Money(1560),
            cost: Money(1120),
        },
        verdict: "HeadFails",
        ..BEST
    },
    Case {
        about: "a bound where there is no value",
        most: 0,
        head: Head::Bounded { bound: Money(0) },
        splits: 0,
        boxes: &[Given::Leaf(0)],
        chosen: None,
        verdict: "HeadFails",
        ..BEST
    },
];

/// The leaf that an answer proves.
fn leaf_of(answer: Answer) -> BoxNode {
    let Answer {
        head,
        branchings,
        runs: _,
        tree,
    } = answer;
    match head {
        Head::Infeasible => BoxNode::Nothing { branchings, tree },
        Head::Optimal { cost: bound } | Head::Bounded { bound } | Head::BoundedPlan { bound, .. } =>
            BoxNode::Bound {
                bound,
                branchings,
                tree,
            },
    }
}

/// The leaf that is proved of a day.
fn leaf(alloc: Global, texts: &Texts<'_>) -> Result<BoxNode, Fail> {
    let day = day_of(alloc, texts)?;
    let mut advisors = Vec::new(alloc);
    Ok(leaf_of(answer_for(alloc, &day, 50, 0, &mut advisors)?))
}

/// The chosen fleet and its plan.
fn chosen_of(alloc: Global, chosen: ChosenOf) -> Result<Chosen, Fail> {
    let (stock, plan) = chosen;
    Ok(Chosen {
        stock: counts_of(alloc, stock)?,
        plan: named_plan(alloc, plan)?,
    })
}

/// The chosen fleet and its plan, where there is one.
fn chosen_or_none(alloc: Global, chosen: Option<ChosenOf>) -> Result<Option<Chosen>, Fail> {
    match chosen {
        Some(chosen) => Ok(Some(chosen_of(alloc, chosen)?)),
        None => Ok(None),
    }
}

/// A plan of these units, trip by trip.
fn named_plan(alloc: Global, plan: &[&[u32]]) -> Result<NamedPlan, Fail> {
    let mut lists = Vec::new(alloc);
    for units in plan {
        lists.push(units_of(alloc, *units)?)?;
    }
    if lists.len() > 400 {
        return Err(Fail::new("too many trips"));
    }
    Ok(NamedPlan::of(lists))
}

/// A fleet of these numbers.
fn counts_of(alloc: Global, numbers: &[u32]) -> Result<Counts, Fail> {
    let mut counts = Vec::new(alloc);
    counts.extend_from_slice(numbers)?;
    if counts.len() > 360 {
        return Err(Fail::new("too many places"));
    }
    Ok(Counts::of(counts))
}

/// The units of a trip.
fn units_of(alloc: Global, numbers: &[u32]) -> Result<UnitList, Fail> {
    let mut units = Vec::new(alloc);
    for number in numbers {
        units.push(UnitNo(*number))?;
    }
    if units.len() > 6 {
        return Err(Fail::new("too many units"));
    }
    Ok(UnitList::of(units))
}

/// A node of the boxes.
fn node_of(alloc: Global, given: Given) -> Result<BoxNode, Fail> {
    match given {
        Given::Split(station, unit_type, at) => Ok(BoxNode::Split {
            station: StationNo(station),
            unit_type: TypeNo(unit_type),
            at,
        }),
        Given::Leaf(units) => leaf(alloc, &texts(units)),
    }
}

/// The boxes of these nodes.
fn boxes_of(alloc: Global, given: &[Given]) -> Result<Boxes, Fail> {
    let mut nodes = Vec::new(alloc);
    for node in given {
        nodes.push(node_of(alloc, *node)?)?;
    }
    Ok(Boxes::of(nodes))
}

/// What is said of all fleets.
fn fleet_of(alloc: Global, case: &Case) -> Result<Fleet, Fail> {
    Ok(Fleet {
        head: case.head,
        splits: case.splits,
        boxes: boxes_of(alloc, case.boxes)?,
        chosen: chosen_or_none(alloc, case.chosen)?,
    })
}

/// The verdict on what is said of all fleets of a day.
fn told(alloc: Global, texts: &Texts<'_>, prices: &[u8], fleet: &Fleet) -> Result<String, Fail> {
    let bytes = tables_in(alloc, texts)?;
    let instance = made_of(alloc, &bytes)?;
    let prices = read_prices(alloc, &instance, table(prices)?)?;
    let day = DayOfTables {
        bytes: &bytes,
        instance: &instance,
    };
    told_of(alloc, &day, &prices, fleet)
}

/// The verdict on what is said of all fleets of a day of tables.
fn told_of(
    alloc: Global,
    day: &DayOfTables<'_>,
    prices: &Prices,
    fleet: &Fleet,
) -> Result<String, Fail>
    requires made { IsDayOfBytes day.now.bytes.now day.now.instance.now }
    requires prices { length prices.now ≡ length day.now.instance.now.types }
{
    if fleet.boxes.items().len() > MAX_BOX_NODES as usize {
        return Err(Fail::new("too many nodes"));
    }
    let verdict = check_fleet(alloc, day, prices, fleet)?;
    Ok(format!(in alloc; "{verdict:?}")?)
}

/// Whether the verdict on what is said is the one that is to come.
fn has_verdict(alloc: Global, case: &Case) -> Result<bool, Fail> {
    let fleet = fleet_of(alloc, case)?;
    let told = told(alloc, &texts(case.most), b"type,cost\nA,500\n", &fleet)?;
    Ok(told.as_str() == case.verdict)
}

#[test]
fn each_verdict_comes(rt: HostRuntime) -> Result<(), Fail> {
    for case in CASES {
        assert!(rt; has_verdict(rt.alloc(), case)?, "{}", case.about);
    }
    Ok(())
}

/// A fleet with a plan that is said to cost 1 on a day, and what it costs.
struct Costing {
    /// What it shows.
    about: &'static str,
    texts: Texts<'static>,
    prices: &'static [u8],
    chosen: ChosenOf,
    /// The verdict.
    verdict: &'static str,
}

const COSTINGS: &[Costing] = &[
    Costing {
        about: "a unit of each of two types: the day costs 100, and they cost 500 and 700",
        texts: Texts {
            stock: b"station,type,start,end\nX,A,1,1\nX,B,1,1\n",
            ..TWO_TYPES
        },
        prices: b"type,cost\nA,500\nB,700\n",
        chosen: (&[1, 1, 0, 0], &[&[0, 1], &[1, 0]]),
        verdict: "PriceDiffers { said: Money(1), found: Money(1300) }",
    },
    Costing {
        about: "a unit at each of two stations: unit 0 is at X, and runs both trips for 1060",
        texts: Texts {
            stock: b"station,type,start,end\nX,A,1,1\nY,A,1,1\n",
            ..TURN
        },
        prices: b"type,cost\nA,500\n",
        chosen: (&[1, 1], &[&[0], &[0]]),
        verdict: "PriceDiffers { said: Money(1), found: Money(2060) }",
    },
];

/// The boxes that are not split, with the leaf that is proved of a day.
fn one_leaf(alloc: Global, texts: &Texts<'_>) -> Result<Boxes, Fail> {
    let mut nodes = Vec::new(alloc);
    nodes.push(leaf(alloc, texts)?)?;
    Ok(Boxes::of(nodes))
}

/// What is said to cost 1.
fn fleet_at_one(alloc: Global, costing: &Costing) -> Result<Fleet, Fail> {
    Ok(Fleet {
        head: Head::Optimal { cost: Money(1) },
        splits: 0,
        boxes: one_leaf(alloc, &costing.texts)?,
        chosen: Some(chosen_of(alloc, costing.chosen)?),
    })
}

/// Whether the verdict is that it costs so much.
fn does_cost(alloc: Global, costing: &Costing) -> Result<bool, Fail> {
    let fleet = fleet_at_one(alloc, costing)?;
    let told = told(alloc, &costing.texts, costing.prices, &fleet)?;
    Ok(told.as_str() == costing.verdict)
}

#[test]
fn units_cost_by_their_type_and_are_numbered_by_station(rt: HostRuntime) -> Result<(), Fail> {
    for costing in COSTINGS {
        assert!(rt; does_cost(rt.alloc(), costing)?, "{}", costing.about);
    }
    Ok(())
}
