//! Two travel classes: days whose tables are of the second version, and what is refused in them.

use crate::day::{BASE_DAY, Day, Simulation, expect_answered, expect_simulations};
use crate::plan_tests::{Planned, USUAL, expect_answers};
use rail_base::NoMemory;

/// The day of a turn with two classes, which takes 90 and 10 passengers in first class.
const TWO_CLASSES: Day<'static> = Day {
    types: Some("type,carriages,seats,metres,family,first\nA,3,200,80,regional,40\n"),
    trips: Some(
        "trip,from,departure,to,arrival,km,demand,first\nT1,X,08:00,Y,09:00,10,300,90\nT2,Y,09:10,X,10:10,10,150,10\n",
    ),
    ..BASE_DAY
};

/// That day with weights of which no two are the same.
const WEIGHED: Day<'static> = Day {
    weights: Some("carriage,shortage,shunting\n2,3,100\n"),
    ..TWO_CLASSES
};

/// Days on which each class has its own shortage.
const SHORTAGES: &[Simulation] = &[
    (TWO_CLASSES, 0, "runs 220\n"),
    (WEIGHED, 0, "runs 540\n"),
    // One unit stays.
    (
        Day {
            stock: Some("station,type,start,end\nX,A,2,1\nY,A,0,1\n"),
            plan: Some("trip,units\nT1,0 1\nT2,1\n"),
            ..TWO_CLASSES
        },
        0,
        "runs 290\n",
    ),
    // One of the two tables has no classes.
    (
        Day {
            trips: Some(
                "trip,from,departure,to,arrival,km,demand\nT1,X,08:00,Y,09:00,10,300\nT2,Y,09:10,X,10:10,10,150\n",
            ),
            ..TWO_CLASSES
        },
        0,
        "runs 120\n",
    ),
    (
        Day {
            types: Some("type,carriages,seats,metres,family\nA,3,200,80,regional\n"),
            ..TWO_CLASSES
        },
        0,
        "runs 1120\n",
    ),
];

/// Tables that are refused: each has the version of its header.
const WRONG_TABLES: &[Simulation] = &[
    (
        Day {
            types: Some("type,carriages,seats,metres,family,first\nA,3,200,80,regional,2001\n"),
            ..TWO_CLASSES
        },
        3,
        "refused types.csv: row 1, column first: out of range\n",
    ),
    (
        Day {
            types: Some("type,carriages,seats,metres,family,first\nA,3,200,80,regional\n"),
            ..TWO_CLASSES
        },
        3,
        "refused types.csv: row 1 has 5 fields\n",
    ),
    (
        Day {
            types: Some("type,carriages,seats,metres,family\nA,3,200,80,regional,40\n"),
            ..TWO_CLASSES
        },
        3,
        "refused types.csv: row 1 has 6 fields\n",
    ),
    (
        Day {
            types: Some("type,carriages,seats,metres,first,family\nA,3,200,80,40,regional\n"),
            ..TWO_CLASSES
        },
        3,
        "refused types.csv: wrong header\n",
    ),
    (
        Day {
            trips: Some(
                "trip,from,departure,to,arrival,km,demand,first\nT1,X,08:00,Y,09:00,10,300,x\n",
            ),
            ..TWO_CLASSES
        },
        3,
        "refused trips.csv: row 1, column first: not a number\n",
    ),
];

#[test]
fn each_class_has_its_own_shortage(rt: HostRuntime) -> Result<(), NoMemory> {
    expect_simulations(&rt, rt.alloc(), SHORTAGES)?;
    expect_simulations(&rt, rt.alloc(), WRONG_TABLES)
}

const PLANS: &[Planned] = &[(
    TWO_CLASSES,
    USUAL,
    0,
    "optimal 220\nbranchings 0\nrun 0 0 1\nrun 1 1 0\ntree\ncost 220 0\nend\n",
)];

#[test]
fn a_day_of_two_classes_is_planned(rt: HostRuntime) -> Result<(), NoMemory> {
    expect_answers(&rt, rt.alloc(), PLANS)
}

/// A day, an answer to it, and the costs of that.
const COSTS: &[(Day<'static>, &str, &str)] = &[
    (
        TWO_CLASSES,
        "railplan answer 1\noptimal 220\nbranchings 0\nrun 0 0 1\nrun 1 1 0\ntree\ncost 220 0\nend\n",
        "part,amount\ncarriage,120\nshortage,100\nshunting,0\ntotal,220\n",
    ),
    (
        WEIGHED,
        "railplan answer 1\noptimal 540\nbranchings 0\nrun 0 0 1\nrun 1 1 0\ntree\ncost 540 0\nend\n",
        "part,amount\ncarriage,240\nshortage,300\nshunting,0\ntotal,540\n",
    ),
];

#[test]
fn costs_tell_the_shortages_of_both_classes(rt: HostRuntime) -> Result<(), NoMemory> {
    for (day, answer, costs) in COSTS {
        expect_answered(&rt, rt.alloc(), "costs", day, answer, 0, costs)?;
    }
    Ok(())
}
