//! Bounds, settling and slacks of small days, by hand.
//!
//! On the days of two trips with units of one type the indices are those of the departure minute of X, of that of Y, of
//! the end of X and of the end of Y. On the ring, whose chains are T1 and T2, and T3 and T4, indices 0 to 3 are those
//! of the departure minutes, 4 to 6 those of the ends, 7 to 9 those of the split, and 10 to 12 those of the join.

ghost use Rattle.transitions.specs.Edges.{AreGraphs};

use crate::asking::{Bound, bound_of, do_follow, multipliers_of, picks_of, settled, slacks_of};
use crate::changed::bounds_under;
use crate::exchange_days::{EARLY_EXCHANGE, EXCHANGE};
use crate::telling::{write_picks, write_slacks};
use branch_tree::{Cut, Multipliers, Region, Relaxation, Side, Slacks, Weight};
use price_bound::Change;
use rail_base::{CompNo, TripNo, TypeNo};
use sample_days::{ONE_LEFT, RING, TURN, TWO_TYPES, Texts, day_of};
use std::alloc::Global;
use std::process::Abort;
use std::test::Fail;
use timetable::{Instance, Picks};
use transitions::Graphs;

/// The day of a turn, where both units are wanted at Y at the end.
const BOTH_LEFT: Texts<'static> = Texts {
    stock: b"station,type,start,end\nX,A,2,0\nY,A,0,2\n",
    ..TURN
};

/// A unit goes from X to Y, and another trip leaves Y one minute before that unit is ready.
const EARLY_TRIP: Texts<'static> = Texts {
    stock: b"station,type,start,end\nX,A,1,1\n",
    trips: b"trip,from,departure,to,arrival,km,demand\n\
        T1,X,08:00,Y,09:00,10,150\nT2,Y,09:29,X,10:30,10,150\n",
    links: b"kind,arriving,arriving2,departing,departing2,reverse,uncouple,couple\n",
    ..TURN
};

/// A side of a cut, by the numbers in the cut.
#[derive(Clone, Copy)]
enum Kept {
    /// A trip, and the one composition that it has.
    Only(u32, u32),
    /// A trip, and a type of which it has no unit.
    Without(u32, u32),
    /// A trip, and a type of which it has a unit.
    With(u32, u32),
}

/// What is asked of the relaxation of a day.
#[derive(Clone, Copy)]
enum Asked {
    /// The bound of a region, and the picks that it leaves. The region is the root after cuts, of which these sides
    /// are kept. Each multiplier stands behind its index.
    Bound {
        region: &'static [Kept],
        multipliers: &'static [(u32, i64)],
        weight: Weight,
    },
    /// What settling picks that follow answers.
    Settled(&'static [u32]),
    /// Whether there is a pick for each trip, and the picks follow.
    Follow(&'static [u32]),
    /// The slacks of picks that follow, each behind its index.
    Slacks(&'static [u32]),
}

/// What is asked of a day, and the answer as a text.
struct Case {
    /// What the answer is about.
    about: &'static str,
    texts: Texts<'static>,
    /// What it costs to give T2 another composition than A, where this is a change of the day.
    change: Option<u32>,
    asked: Asked,
    told: &'static str,
}

/// Bounds of all picks.
const BOUNDS: &[Case] = &[
    // (AA, AA) costs 120 and misses the ends by one unit; (AA, A) costs 190 and meets them.
    Case {
        about: "no multipliers",
        texts: ONE_LEFT,
        change: None,
        asked: Asked::Bound {
            region: &[],
            multipliers: &[],
            weight: Weight::Cost,
        },
        told: "Value(Money(120)) by 1 1",
    },
    // (AA, AA) costs 120 and the change, and (AA, A) costs 190.
    Case {
        about: "a low change",
        texts: TURN,
        change: Some(7),
        asked: Asked::Bound {
            region: &[],
            multipliers: &[],
            weight: Weight::Cost,
        },
        told: "Value(Money(127)) by 1 1",
    },
    Case {
        about: "a high change",
        texts: TURN,
        change: Some(100),
        asked: Asked::Bound {
            region: &[],
            multipliers: &[],
            weight: Weight::Cost,
        },
        told: "Value(Money(190)) by 1 0",
    },
    Case {
        about: "low prices of ends",
        texts: ONE_LEFT,
        change: None,
        asked: Asked::Bound {
            region: &[],
            multipliers: &[(2, -30), (3, 30)],
            weight: Weight::Cost,
        },
        told: "Value(Money(180)) by 1 1",
    },
    Case {
        about: "prices of ends",
        texts: ONE_LEFT,
        change: None,
        asked: Asked::Bound {
            region: &[],
            multipliers: &[(2, -45), (3, 45)],
            weight: Weight::Cost,
        },
        told: "Value(Money(190)) by 1 0",
    },
    // (AA, A) and (AA, AA) have the same value, and the first has the lower number at the second trip.
    Case {
        about: "the first of two picks of one value",
        texts: ONE_LEFT,
        change: None,
        asked: Asked::Bound {
            region: &[],
            multipliers: &[(3, 70)],
            weight: Weight::Cost,
        },
        told: "Value(Money(190)) by 1 0",
    },
    // At most one unit can be left at Y, where two are wanted.
    Case {
        about: "an end that cannot be met",
        texts: BOTH_LEFT,
        change: None,
        asked: Asked::Bound {
            region: &[],
            multipliers: &[(3, 1)],
            weight: Weight::NoCost,
        },
        told: "Value(Money(1)) by 1 0",
    },
    // At least one unit is back at X, where none is wanted.
    Case {
        about: "an end that is exceeded",
        texts: BOTH_LEFT,
        change: None,
        asked: Asked::Bound {
            region: &[],
            multipliers: &[(2, -1)],
            weight: Weight::NoCost,
        },
        told: "Value(Money(1)) by 1 0",
    },
    // The yard of Y has no unit at 09:29.
    Case {
        about: "a minute at which a yard is short",
        texts: EARLY_TRIP,
        change: None,
        asked: Asked::Bound {
            region: &[],
            multipliers: &[(1, 1)],
            weight: Weight::NoCost,
        },
        told: "Value(Money(1)) by 0 0",
    },
    // The part A of the split costs 500, and T3 earns 500 by A; the part AA of the join earns 470, and T2 pays 470 by
    // AA. The least values of the chains are 1120, by AAA and A or AAA and AA, and 150, by A and AAA or AA and AAA.
    Case {
        about: "chains that hand over",
        texts: RING,
        change: None,
        asked: Asked::Bound {
            region: &[],
            multipliers: &[(7, 500), (11, -470)],
            weight: Weight::Cost,
        },
        told: "Value(Money(1270)) by 2 0 0 2",
    },
];

/// Bounds of regions.
const REGIONS: &[Case] = &[
    // A at T1 and AA at T2 do not follow.
    Case {
        about: "nothing that follows",
        texts: ONE_LEFT,
        change: None,
        asked: Asked::Bound {
            region: &[Kept::Only(0, 0), Kept::Only(1, 1)],
            multipliers: &[(3, 70)],
            weight: Weight::Cost,
        },
        told: "Empty by 1 1",
    },
    // Where T1 has AAA and T2 has A, the split leaves AA, and the region has A alone for T3.
    Case {
        about: "no part",
        texts: RING,
        change: None,
        asked: Asked::Bound {
            region: &[Kept::Only(0, 2), Kept::Only(1, 0), Kept::Only(2, 0)],
            multipliers: &[],
            weight: Weight::NoCost,
        },
        told: "Empty by 1 1 1 1",
    },
    Case {
        about: "picks that miss an end",
        texts: ONE_LEFT,
        change: None,
        asked: Asked::Bound {
            region: &[Kept::Only(0, 1), Kept::Only(1, 1)],
            multipliers: &[(2, -1)],
            weight: Weight::NoCost,
        },
        told: "Value(Money(1)) by 1 1",
    },
    Case {
        about: "a solution",
        texts: ONE_LEFT,
        change: None,
        asked: Asked::Bound {
            region: &[Kept::Only(0, 1), Kept::Only(1, 0)],
            multipliers: &[],
            weight: Weight::Cost,
        },
        told: "Value(Money(190)) by 1 0",
    },
    // Both trips have A, so that two units are at X at the end.
    Case {
        about: "short trains",
        texts: ONE_LEFT,
        change: None,
        asked: Asked::Bound {
            region: &[Kept::Only(0, 0)],
            multipliers: &[(2, -1)],
            weight: Weight::NoCost,
        },
        told: "Value(Money(1)) by 0 0",
    },
    // T1 has no unit of type A: BB for both trips costs 1040 and 40.
    Case {
        about: "no units of a type",
        texts: TWO_TYPES,
        change: None,
        asked: Asked::Bound {
            region: &[Kept::Without(0, 0)],
            multipliers: &[],
            weight: Weight::Cost,
        },
        told: "Value(Money(1080)) by 4 4",
    },
    // T1 has a unit of type A: AB and then BA cost 50 each.
    Case {
        about: "units of a type",
        texts: TWO_TYPES,
        change: None,
        asked: Asked::Bound {
            region: &[Kept::With(0, 0)],
            multipliers: &[],
            weight: Weight::Cost,
        },
        told: "Value(Money(100)) by 2 3",
    },
];

/// What is answered about picks.
const PICKS: &[Case] = &[
    Case {
        about: "a low change",
        texts: TURN,
        change: Some(7),
        asked: Asked::Settled(&[1, 1]),
        told: "Costs(Money(127))",
    },
    Case {
        about: "a high change",
        texts: TURN,
        change: Some(100),
        asked: Asked::Settled(&[1, 1]),
        told: "Costs(Money(220))",
    },
    // The second train has A, and the part that the split leaves for it is AA.
    Case {
        about: "a part that the second trip misses",
        texts: RING,
        change: None,
        asked: Asked::Settled(&[2, 0, 0, 2]),
        told: "Broken { index: 8, sign: 1 }",
    },
    Case {
        about: "parts that the second trips have",
        texts: RING,
        change: None,
        asked: Asked::Settled(&[2, 1, 0, 2]),
        told: "Costs(Money(1270))",
    },
    Case {
        about: "an end that picks miss",
        texts: ONE_LEFT,
        change: None,
        asked: Asked::Settled(&[1, 1]),
        told: "Broken { index: 2, sign: -1 }",
    },
    Case {
        about: "ends that picks meet",
        texts: ONE_LEFT,
        change: None,
        asked: Asked::Settled(&[1, 0]),
        told: "Costs(Money(190))",
    },
    Case {
        about: "a solution of two types",
        texts: TWO_TYPES,
        change: None,
        asked: Asked::Settled(&[2, 1]),
        told: "Costs(Money(170))",
    },
    // The unit that is uncoupled at 09:00 and coupled again is ready at 09:30.
    Case {
        about: "a unit that is ready again",
        texts: EXCHANGE,
        change: None,
        asked: Asked::Settled(&[2, 3]),
        told: "Costs(Money(200))",
    },
    Case {
        about: "a unit that is not ready again",
        texts: EARLY_EXCHANGE,
        change: None,
        asked: Asked::Settled(&[2, 3]),
        told: "Broken { index: 2, sign: 1 }",
    },
    // A turn that couples nothing leads from A to A alone.
    Case {
        about: "picks that do not follow",
        texts: ONE_LEFT,
        change: None,
        asked: Asked::Follow(&[0, 1]),
        told: "false",
    },
    Case {
        about: "picks that follow",
        texts: ONE_LEFT,
        change: None,
        asked: Asked::Follow(&[0, 0]),
        told: "true",
    },
    // Both units are back at X, where one is wanted, and none at Y, where one is wanted.
    Case {
        about: "slacks of ends",
        texts: ONE_LEFT,
        change: None,
        asked: Asked::Slacks(&[1, 1]),
        told: " 2:-1 3:1",
    },
    Case {
        about: "slacks of a solution",
        texts: ONE_LEFT,
        change: None,
        asked: Asked::Slacks(&[1, 0]),
        told: "",
    },
];

/// Asserts that each answer is as it is wanted.
fn expect_all(rt: &impl Abort, alloc: Global, cases: &[Case]) -> Result<(), Fail> {
    for case in cases {
        expect(rt, alloc, case)?;
    }
    Ok(())
}

/// Asserts that an answer is as it is wanted.
fn expect(rt: &impl Abort, alloc: Global, case: &Case) -> Result<(), Fail> {
    let text = told(alloc, case)?;
    assert!(rt; text.as_str() == case.told, "{}: {text}", case.about);
    Ok(())
}

/// What is answered in a case.
fn told(alloc: Global, case: &Case) -> Result<String, Fail> {
    let day = day_of(alloc, &case.texts)?;
    told_on(alloc, &day, case)
}

/// What is answered in a case on its day.
fn told_on(alloc: Global, day: &Instance, case: &Case) -> Result<String, Fail> {
    let graphs = Graphs::build(alloc, day)?;
    match case.change {
        Some(cost) => told_under(alloc, day, &graphs, &[change(cost)], &case.asked),
        None => told_under(alloc, day, &graphs, &[], &case.asked),
    }
}

/// The change by which it costs so much to give T2 another composition than A.
fn change(cost: u32) -> Change {
    Change {
        trip: TripNo(1),
        base: CompNo(0),
        cost,
    }
}

/// What the relaxation of a day under changes answers.
fn told_under(
    alloc: Global,
    day: &Instance,
    graphs: &Graphs,
    changes: &[Change],
    asked: &Asked,
) -> Result<String, Fail>
    requires { AreGraphs day.now graphs.now }
{
    let bounds = bounds_under(alloc, day, graphs, changes)?;
    told_by(alloc, day, bounds, asked)
}

/// What a relaxation of a day answers.
fn told_by<R: Relaxation + Drop>(
    alloc: Global,
    day: &Instance,
    mut bounds: R,
    asked: &Asked,
) -> Result<String, Fail> {
    told_of(alloc, day, &mut bounds, asked)
}

/// What a relaxation of a day answers, which stays.
fn told_of<R: Relaxation>(
    alloc: Global,
    day: &Instance,
    bounds: &mut R,
    asked: &Asked,
) -> Result<String, Fail> {
    match *asked {
        Asked::Bound {
            region,
            multipliers,
            weight,
        } => told_of_bound(
            alloc,
            bounds,
            &region_of(alloc, day, region)?,
            multipliers,
            weight,
        ),
        Asked::Settled(comps) | Asked::Follow(comps) | Asked::Slacks(comps) => {
            told_of_picks(alloc, bounds, &picks_of(alloc, comps)?, asked)
        }
    }
}

/// What a relaxation of a day answers of picks; nothing where a bound is asked for.
fn told_of_picks<R: Relaxation>(
    alloc: Global,
    bounds: &mut R,
    picks: &Picks,
    asked: &Asked,
) -> Result<String, Fail> {
    match *asked {
        Asked::Settled(_) => told_of_settling(alloc, bounds, picks),
        Asked::Follow(_) => told_of_links(alloc, bounds, picks),
        Asked::Slacks(_) => told_of_slacks(alloc, bounds, picks),
        Asked::Bound { .. } => Ok(String::new(alloc)),
    }
}

/// What a bound of a region answers under these multipliers, and the picks that it leaves.
fn told_of_bound<R: Relaxation>(
    alloc: Global,
    bounds: &mut R,
    region: &Region,
    multipliers: &[(u32, i64)],
    weight: Weight,
) -> Result<String, Fail> {
    let multipliers = multipliers_of(alloc, multipliers)?;
    told_under_multipliers(alloc, bounds, region, &multipliers, weight)
}

/// What a bound of a region answers under multipliers, and the picks that it leaves.
fn told_under_multipliers<R: Relaxation>(
    alloc: Global,
    bounds: &mut R,
    region: &Region,
    multipliers: &Multipliers,
    weight: Weight,
) -> Result<String, Fail> {
    let bound = bound_of(alloc, bounds, region, multipliers, weight)?;
    bound_text(alloc, &bound)
}

/// A bound as a text.
fn bound_text(alloc: Global, bound: &Bound) -> Result<String, Fail> {
    let mut text = format!(in alloc; "{:?} by", bound.answer)?;
    write_picks(&mut text, &bound.best)?;
    Ok(text)
}

/// What settling answers for picks that follow.
fn told_of_settling<R: Relaxation>(
    alloc: Global,
    bounds: &mut R,
    picks: &Picks,
) -> Result<String, Fail> {
    let settled = settled(bounds, picks)?;
    Ok(format!(in alloc; "{settled:?}")?)
}

/// Whether there is a pick for each trip, and the picks follow.
fn told_of_links<R: Relaxation>(alloc: Global, bounds: &R, picks: &Picks) -> Result<String, Fail> {
    let follow = do_follow(bounds, picks);
    Ok(format!(in alloc; "{follow}")?)
}

/// The slacks of picks that follow, each after its index.
fn told_of_slacks<R: Relaxation>(
    alloc: Global,
    bounds: &mut R,
    picks: &Picks,
) -> Result<String, Fail> {
    let slacks = slacks_of(alloc, bounds, picks)?;
    slacks_text(alloc, &slacks)
}

/// Slacks as a text.
fn slacks_text(alloc: Global, slacks: &Slacks) -> Result<String, Fail> {
    let mut text = String::new(alloc);
    write_slacks(&mut text, slacks)?;
    Ok(text)
}

/// The root region after cuts, of which these sides are kept.
fn region_of(alloc: Global, day: &Instance, sides: &[Kept]) -> Result<Region, Fail> {
    let mut region = Region::root(alloc, day)?;
    for side in sides {
        keep(&mut region, day, *side)?;
    }
    Ok(region)
}

/// Keeps one side of a cut that is proper.
fn keep(region: &mut Region, day: &Instance, kept: Kept) -> Result<(), Fail> {
    let (cut, side) = cut_of(kept);
    if !region.is_proper(day.catalogue(), &cut) {
        return Err(Fail::new("the cut is not proper"));
    }
    let _before = region.cut(day.catalogue(), &cut, side);
    Ok(())
}

/// A cut, and the side of it that is kept.
fn cut_of(kept: Kept) -> (Cut, Side) {
    match kept {
        Kept::Only(trip, comp) => (only(trip, comp), Side::Left),
        Kept::Without(trip, unit_type) => (none_of(trip, unit_type), Side::Left),
        Kept::With(trip, unit_type) => (none_of(trip, unit_type), Side::Right),
    }
}

/// The cut of a trip by whether it has this composition.
fn only(trip: u32, comp: u32) -> Cut {
    Cut::Only {
        trip: TripNo(trip),
        comp: CompNo(comp),
    }
}

/// The cut of a trip by whether it has no unit of a type.
fn none_of(trip: u32, unit_type: u32) -> Cut {
    Cut::AtMost {
        trip: TripNo(trip),
        unit_type: TypeNo(unit_type),
        count: 0,
    }
}

#[test]
fn bounds_of_small_days(rt: HostRuntime) -> Result<(), Fail> {
    expect_all(&rt, rt.alloc(), BOUNDS)
}

#[test]
fn bounds_of_regions(rt: HostRuntime) -> Result<(), Fail> {
    expect_all(&rt, rt.alloc(), REGIONS)
}

#[test]
fn answers_about_picks(rt: HostRuntime) -> Result<(), Fail> {
    expect_all(&rt, rt.alloc(), PICKS)
}
