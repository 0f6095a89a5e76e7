//! Days, plans and multipliers: days of two stations, and days of four trips with links; what turns keep; and what is
//! refused.

ghost use Rattle.timetable.specs.Running.{IsPlan};

use crate::telling::told;
use rail_base::limits::MAX_COMPOSITION_UNITS;
use rail_base::{LinkNo, Name, NoMemory, StationNo, TripNo, TypeNo, UnitNo};
use rail_csv::{PlanRow, UnitList, plan};
use sample_days::{ONE_LEFT, RING, TURN, TWO_TYPES, Texts, day_of, plan_of, table};
use std::alloc::{AllocError, Global};
use std::process::Abort;
use std::test::Fail;
use timetable::{Instance, NamedPlan, Place, kept_by};

/// A day of four trips, whose links are refused where there are some: T1 and T2 arrive, T3 leaves as T2 arrives, and
/// T4 before it.
const FORK: Texts<'static> = Texts {
    trips: b"trip,from,departure,to,arrival,km,demand\n\
        T1,X,08:00,Y,09:00,10,0\nT2,X,08:30,Y,09:30,10,0\n\
        T3,Y,09:30,X,10:30,10,0\nT4,Y,09:20,X,10:20,10,0\n",
    ..TURN
};

/// Days, and what is told of them.
const DAYS: &[(Texts<'static>, &str)] = &[
    (
        TURN,
        "1 types, shunting 100\nplatform 200, 2 to 2\nplatform 200, 0 to 0\nhomes 0 0\n\
        composition 0\ncomposition 0 0\n\
        trip 0 to 1, None, Some(LinkNo(0)): 0 1\ntrip 1 to 0, Some(LinkNo(0)), None: 0 1\n\
        reverse true\nchain 0 1\n",
    ),
    (
        RING,
        "1 types, shunting 100\nplatform 240, 3 to 3\nplatform 240, 0 to 0\nplatform 240, 0 to 0\nhomes 0 0 0\n\
        composition 0\ncomposition 0 0\ncomposition 0 0 0\n\
        trip 0 to 1, None, Some(LinkNo(0)): 0 1 2\n\
        trip 1 to 2, Some(LinkNo(0)), Some(LinkNo(1)): 0 1 2\n\
        trip 1 to 2, Some(LinkNo(0)), Some(LinkNo(1)): 0 1 2\n\
        trip 2 to 0, Some(LinkNo(1)), None: 0 1 2\n\
        reverse false\nreverse false\nchain 0 1\nchain 2 3\n\
        handover of 0 to 2\nhandover of 1 to 1\n",
    ),
    // The platform of one station has room for one unit.
    (
        Texts {
            stations: b"station,platform,reallocation\nX,200,30\nY,100,30\n",
            ..TURN
        },
        "1 types, shunting 100\nplatform 200, 2 to 2\nplatform 100, 0 to 0\nhomes 0 0\n\
        composition 0\ncomposition 0 0\n\
        trip 0 to 1, None, Some(LinkNo(0)): 0\ntrip 1 to 0, Some(LinkNo(0)), None: 0\n\
        reverse true\nchain 0 1\n",
    ),
    // Both platforms have.
    (
        Texts {
            stations: b"station,platform,reallocation\nX,80,30\nY,80,30\n",
            ..TURN
        },
        "1 types, shunting 100\nplatform 80, 2 to 2\nplatform 80, 0 to 0\nhomes 0 0\n\
        composition 0\n\
        trip 0 to 1, None, Some(LinkNo(0)): 0\ntrip 1 to 0, Some(LinkNo(0)), None: 0\n\
        reverse true\nchain 0 1\n",
    ),
];

/// Tables that make no day.
const REFUSED: &[(Texts<'static>, &str)] = &[
    (
        Texts {
            stations: b"station,platform,reallocation\nX,79,30\nY,79,30\n",
            ..TURN
        },
        "NoComposition(1)",
    ),
    (
        Texts {
            stock: b"station,type,start,end\nX,A,1999,0\nY,A,2,0\n",
            ..TURN
        },
        "TooManyUnits",
    ),
    (
        Texts {
            links: b"kind,arriving,arriving2,departing,departing2,reverse,uncouple,couple\n\
                join,T1,T2,T3,,no,none,none\nturn,T2,,T4,,no,none,none\n",
            ..FORK
        },
        "TripUsedTwice(2)",
    ),
    (
        Texts {
            links: b"kind,arriving,arriving2,departing,departing2,reverse,uncouple,couple\n\
                split,T1,,T3,T3,no,none,none\n",
            ..FORK
        },
        "TripUsedTwice(1)",
    ),
    (
        Texts {
            links: b"kind,arriving,arriving2,departing,departing2,reverse,uncouple,couple\n\
                join,T1,T2,T4,,no,none,none\n",
            ..FORK
        },
        "TooEarly(1)",
    ),
    (
        Texts {
            links: b"kind,arriving,arriving2,departing,departing2,reverse,uncouple,couple\n\
                turn,T1,,T2,,no,none,none\n",
            ..FORK
        },
        "WrongStation(1)",
    ),
    (
        Texts {
            links: b"kind,arriving,arriving2,departing,departing2,reverse,uncouple,couple\n\
                join,T0,T2,T3,,no,none,rear\n",
            ..FORK
        },
        "WrongLinkFields(1)",
    ),
    (
        Texts {
            links: b"kind,arriving,arriving2,departing,departing2,reverse,uncouple,couple\n\
                split,T1,,T8,T9,no,none,none\n",
            ..FORK
        },
        "UnknownName { table: Links, row: 1, column: 3 }",
    ),
];

#[test]
fn days_are_built_or_refused(rt: HostRuntime) -> Result<(), Fail> {
    for days in [DAYS, REFUSED] {
        for (texts, wanted) in days {
            let text = told(rt.alloc(), texts)?;
            assert!(rt; text.as_str() == *wanted, "{text}");
        }
    }
    Ok(())
}

/// Whether the place of each index has this index, and belongs to a departure minute exactly where the index is below
/// the first that may be negative.
fn are_numbered(day: &Instance) -> bool {
    for index in 0..day.indices() {
        let place = day.place(index);
        let may_be_negative = index >= day.free_from();
        if day.index(place) != index || matches!(place, Place::Lambda { .. }) == may_be_negative {
            return false;
        }
    }
    true
}

/// The place of the first index that may be negative.
fn first_free(day: &Instance) -> Option<Place> {
    let index = day.free_from();
    if index < day.indices() {
        Some(day.place(index))
    } else {
        None
    }
}

#[test]
fn multipliers_are_numbered(rt: HostRuntime) -> Result<(), Fail> {
    let day = day_of(rt.alloc(), &RING)?;
    assert!(rt; are_numbered(&day));
    assert!(rt;
        matches!(
            first_free(&day),
            Some(Place::Mu {
                station: StationNo(0),
                unit_type: TypeNo(0),
            })
        )
    );
    Ok(())
}

/// Files of a plan of the day with one turn, and the plan that they make, with a line for each trip, or why they make
/// none.
const PLANS: &[(&[u8], &str)] = &[
    (b"trip,units\nT1,0 1\nT2,1 0\n", "0 1 \n1 0 \n"),
    (b"trip,units\nT1,0\n", "MissingTrip(1)"),
    (b"trip,units\nT1,0\nT2,0\nT2,0\n", "WrongTrip(3)"),
    (b"trip,units\nT2,2\nT1,2\n", "WrongTrip(1)"),
    (b"trip,units\nT1,0\nT2,2\n", "UnknownUnit(2)"),
];

/// The plan of a day that these rows make, or why they make none.
fn built(alloc: Global, day: &Instance, rows: &[PlanRow]) -> Result<String, AllocError> {
    match NamedPlan::build(alloc, day, rows) {
        Ok(plan) => units_told(alloc, &plan),
        Err(why) => format!(in alloc; "{why:?}"),
    }
}

/// The plan of a day that the bytes of a table make, or why they make none.
fn plan_told(alloc: Global, day: &Instance, bytes: &[u8]) -> Result<String, Fail> {
    let rows = plan(alloc, table(bytes)?)?;
    Ok(built(alloc, day, &rows)?)
}

/// The units of each trip.
fn units_told(alloc: Global, plan: &NamedPlan) -> Result<String, AllocError> {
    let mut text = String::new(alloc);
    for trip in 0..plan.trips() {
        write_units(&mut text, plan.units(TripNo(trip)))?;
        text.push_str("\n")?;
    }
    Ok(text)
}

/// Writes units.
fn write_units(text: &mut String, units: &[UnitNo]) -> Result<(), AllocError> {
    for unit in units {
        write!(text, "{} ", unit.0)?;
    }
    Ok(())
}

/// Asserts what the files of a plan make with a day.
fn plans_are_told(rt: &impl Abort, alloc: Global, day: &Instance) -> Result<(), Fail> {
    for (bytes, wanted) in PLANS {
        let text = plan_told(alloc, day, *bytes)?;
        assert!(rt; text.as_str() == *wanted, "{text}");
    }
    Ok(())
}

#[test]
fn plans_are_built_or_refused(rt: HostRuntime) -> Result<(), Fail> {
    let day = day_of(rt.alloc(), &TURN)?;
    plans_are_told(&rt, rt.alloc(), &day)
}

/// A row with a unit that no day has, which no reader gives.
#[tactic(auto, unfolding(rail_base::specs::Names::is_name))]
fn row_past_every_day(alloc: Global) -> Result<PlanRow, NoMemory> {
    let mut units = Vec::new(alloc);
    units.push(UnitNo(5000))?;
    Ok(PlanRow {
        trip: Name::copy(alloc, "T1")?,
        units: UnitList::of(units),
    })
}

/// Rows of which this row is the only one.
fn one_row(alloc: Global) -> Result<Vec<PlanRow>, NoMemory> {
    let mut rows = Vec::new(alloc);
    rows.push(row_past_every_day(alloc)?)?;
    Ok(rows)
}

/// The plan that this row makes with a day, or why it makes none.
fn one_row_told(alloc: Global, day: &Instance) -> Result<String, Fail> {
    let rows = one_row(alloc)?;
    Ok(built(alloc, day, &rows)?)
}

/// The plan that this row makes with the day with one turn, or why it makes none.
fn told_past_every_day(alloc: Global) -> Result<String, Fail> {
    let day = day_of(alloc, &TURN)?;
    one_row_told(alloc, &day)
}

#[test]
fn a_unit_past_every_day_is_refused(rt: HostRuntime) -> Result<(), Fail> {
    let text = told_past_every_day(rt.alloc())?;
    assert!(rt; text.as_str() == "UnknownUnit(1)", "{text}");
    Ok(())
}

/// A day of the types A and B with a turn that may exchange units at the rear.
const EXCHANGE: Texts<'static> = Texts {
    links: b"kind,arriving,arriving2,departing,departing2,reverse,uncouple,couple,exchange\n\
        turn,T1,,T2,,yes,rear,rear,yes\n",
    ..TWO_TYPES
};

/// The same day, where units go from the front and come to the rear.
const ROUND_THE_TRAIN: Texts<'static> = Texts {
    links: b"kind,arriving,arriving2,departing,departing2,reverse,uncouple,couple,exchange\n\
        turn,T1,,T2,,yes,front,rear,yes\n",
    ..TWO_TYPES
};

/// The number of the first type of that day.
const A: u32 = 0;
/// The number of the second one.
const B: u32 = 1;

/// How many units a turn keeps of an arriving list, as it stands after the reversal, where this list departs.
struct Kept {
    arriving: &'static [u32],
    departing: &'static [u32],
    kept: Option<u32>,
}

/// What stays is a front of both lists.
const KEPT_IN_FRONT: &[Kept] = &[
    // A train AB has turned round into BA. All of it stays, or B does.
    Kept {
        arriving: &[B, A],
        departing: &[B, A],
        kept: Some(2),
    },
    Kept {
        arriving: &[B, A],
        departing: &[B, B],
        kept: Some(1),
    },
    // Nothing stays of a train AB that has turned round, where AB departs.
    Kept {
        arriving: &[B, A],
        departing: &[A, B],
        kept: None,
    },
    // A fits, and so does AA, which is longer. Three would go, more than an exchange may uncouple: that is not asked.
    Kept {
        arriving: &[A, A, B, B, B],
        departing: &[A, A, A],
        kept: Some(2),
    },
];

/// What stays is the rear of what arrives, and the front of what departs.
const KEPT_BETWEEN: &[Kept] = &[
    Kept {
        arriving: &[A, A],
        departing: &[A, A],
        kept: Some(2),
    },
    Kept {
        arriving: &[A, B],
        departing: &[B, A],
        kept: Some(1),
    },
    Kept {
        arriving: &[B, A],
        departing: &[B, B],
        kept: None,
    },
];

/// The types of these numbers.
fn types(alloc: Global, numbers: &[u32]) -> Result<Vec<TypeNo>, AllocError> {
    let mut types = Vec::new(alloc);
    for number in numbers {
        types.push(TypeNo(*number))?;
    }
    Ok(types)
}

/// Asserts how many units the only link of a day keeps of one list where another departs.
fn is_kept(
    rt: &impl Abort,
    day: &Instance,
    arriving: &[TypeNo],
    departing: &[TypeNo],
    wanted: Option<u32>,
) {
    assert!(rt; day.links() == 1);
    assert!(rt;
        arriving.len() <= MAX_COMPOSITION_UNITS && departing.len() <= MAX_COMPOSITION_UNITS
    );
    let kept = day.kept(LinkNo(0), arriving, departing);
    assert!(rt; kept == wanted, "{kept:?}");
}

/// Asserts the same of the lists of a row.
fn row_is_kept(rt: &impl Abort, alloc: Global, day: &Instance, row: &Kept) -> Result<(), Fail> {
    let arriving = types(alloc, row.arriving)?;
    let departing = types(alloc, row.departing)?;
    is_kept(rt, day, arriving.as_slice(), departing.as_slice(), row.kept);
    Ok(())
}

/// Asserts the same of the lists of some rows.
fn rows_are_kept(
    rt: &impl Abort,
    alloc: Global,
    day: &Instance,
    rows: &[Kept],
) -> Result<(), Fail> {
    for row in rows {
        row_is_kept(rt, alloc, day, row)?;
    }
    Ok(())
}

/// Asserts the same of the only link of the day of these tables.
fn are_kept(rt: &impl Abort, alloc: Global, texts: &Texts<'_>, rows: &[Kept]) -> Result<(), Fail> {
    let day = day_of(alloc, texts)?;
    rows_are_kept(rt, alloc, &day, rows)
}

#[test]
fn turns_keep_the_longest_list(rt: HostRuntime) -> Result<(), Fail> {
    are_kept(&rt, rt.alloc(), &EXCHANGE, KEPT_IN_FRONT)?;
    are_kept(&rt, rt.alloc(), &ROUND_THE_TRAIN, KEPT_BETWEEN)
}

/// From which trip to which, and the units that stay in the train: of two units the turn of a train that goes round
/// keeps the one that was in the rear.
const STAYING: &[(u32, u32, &str)] = &[(0, 1, "1 "), (1, 0, ""), (0, 0, ""), (0, 7, "")];

/// The units that stay in the train from one trip to another, by the first link of a day.
fn staying_told(
    alloc: Global,
    day: &Instance,
    plan: &NamedPlan,
    from: u32,
    to: u32,
) -> Result<String, AllocError>
    requires { IsPlan day.now plan.now }
{
    let mut text = String::new(alloc);
    if day.links() > 0 {
        let link = day.link(LinkNo(0));
        let kept = kept_by::<UnitNo>(link, day, plan, TripNo(from), TripNo(to));
        write_units(&mut text, kept.as_slice())?;
    }
    Ok(text)
}

/// Asserts which units stay in the trains of a plan of a day.
fn units_stay(rt: &impl Abort, alloc: Global, day: &Instance, plan: &NamedPlan) -> Result<(), Fail>
    requires { IsPlan day.now plan.now }
{
    for (from, to, wanted) in STAYING {
        let text = staying_told(alloc, day, plan, *from, *to)?;
        assert!(rt; text.as_str() == *wanted, "{text}");
    }
    Ok(())
}

#[test]
fn units_stay_in_trains(rt: HostRuntime) -> Result<(), Fail> {
    let day = day_of(rt.alloc(), &ONE_LEFT)?;
    let plan = plan_of(rt.alloc(), &day, b"trip,units\nT1,0 1\nT2,1\n")?;
    units_stay(&rt, rt.alloc(), &day, &plan)
}
