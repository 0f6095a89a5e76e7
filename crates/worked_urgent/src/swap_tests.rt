//! Units swapped by hand: how many urgent ones end the day at the depot, and by which plan.

use rail_base::TripNo;
use sample_days::{TURN, Texts, day_of, plan_of, table};
use std::alloc::Global;
use std::test::Fail;
use urgent_units::{Swapped, UrgentRefusal, Wish, urgent};

const NO_LINKS: &[u8] = b"kind,arriving,arriving2,departing,departing2,reverse,uncouple,couple\n";

/// One trip for one of two units that stand at X.
const ONE_TRIP: Texts<'static> = Texts {
    stock: b"station,type,start,end\nX,A,2,1\nY,A,0,1\n",
    trips: b"trip,from,departure,to,arrival,km,demand\nT1,X,08:00,Y,09:00,10,150\n",
    links: NO_LINKS,
    ..TURN
};

/// A unit of X runs to Y, and one of the two that stand at Y then runs to X.
const THERE_AND_BACK: Texts<'static> = Texts {
    stock: b"station,type,start,end\nX,A,1,1\nY,A,1,1\n",
    trips: b"trip,from,departure,to,arrival,km,demand\nT1,X,08:00,Y,09:00,10,150\nT2,Y,12:00,X,13:00,10,150\n",
    links: NO_LINKS,
    ..TURN
};

/// The same, where the second trip leaves before the first one's unit is ready.
const TOO_EARLY: Texts<'static> = Texts {
    stock: b"station,type,start,end\nX,A,1,1\nY,A,1,1\n",
    trips: b"trip,from,departure,to,arrival,km,demand\nT1,X,08:00,Y,09:00,10,150\nT2,Y,09:05,X,10:00,10,150\n",
    links: NO_LINKS,
    ..TURN
};

/// A day, a plan and a wish, and what is told of the swap.
struct Case {
    day: Texts<'static>,
    plan: &'static [u8],
    wish: &'static [u8],
    told: &'static str,
}

const CASES: &[Case] = &[
    // The urgent unit takes the only trip to the depot.
    Case {
        day: ONE_TRIP,
        plan: b"trip,units\nT1,0\n",
        wish: b"unit,depot\n1,Y\n",
        told: "urgent 1, trips 1",
    },
    // It is there in any case.
    Case {
        day: ONE_TRIP,
        plan: b"trip,units\nT1,0\n",
        wish: b"unit,depot\n1,X\n",
        told: "urgent 1, trips 0",
    },
    // It stays, and the other unit runs in its place.
    Case {
        day: ONE_TRIP,
        plan: b"trip,units\nT1,0\n",
        wish: b"unit,depot\n0,X\n",
        told: "urgent 1, trips 1",
    },
    // The unit comes to the depot, and the one that stood there goes back in its place.
    Case {
        day: THERE_AND_BACK,
        plan: b"trip,units\nT1,0\nT2,0\n",
        wish: b"unit,depot\n0,Y\n",
        told: "urgent 1, trips 0 1",
    },
    // It isn't ready for a trip so soon after the first, so no swap is needed.
    Case {
        day: TOO_EARLY,
        plan: b"trip,units\nT1,0\nT2,1\n",
        wish: b"unit,depot\n1,X\n",
        told: "urgent 1, trips 0 1",
    },
    // Nor can the unit of Y stay there.
    Case {
        day: TOO_EARLY,
        plan: b"trip,units\nT1,0\nT2,1\n",
        wish: b"unit,depot\n1,Y\n",
        told: "urgent 0, trips 0 1",
    },
    // The plan stops.
    Case {
        day: TOO_EARLY,
        plan: b"trip,units\nT1,0\nT2,0\n",
        wish: b"unit,depot\n0,Y\n",
        told: "stops",
    },
];

/// The count of a swap and the first unit of each trip.
fn told_of(alloc: Global, swapped: &Swapped) -> Result<String, Fail> {
    let mut told = format!(in alloc; "urgent {}, trips", swapped.count)?;
    for trip in 0..swapped.plan.trips() {
        if let Some(unit) = swapped.plan.units(TripNo(trip)).first() {
            write!(told, " {}", unit.0)?;
        }
    }
    Ok(told)
}

/// What units are swapped for on a day, from the tables of its plan and of the units that are wanted.
fn swapped_on(
    alloc: Global,
    texts: &Texts<'_>,
    plan: &[u8],
    wish: &[u8],
) -> Result<Result<Swapped, UrgentRefusal>, Fail> {
    let day = day_of(alloc, texts)?;
    let plan = plan_of(alloc, &day, plan)?;
    let wish = Wish::read(alloc, &day, table(wish)?)?;
    Ok(urgent(alloc, &day, &plan, &wish))
}

/// What is told of a case.
fn told(alloc: Global, case: &Case) -> Result<String, Fail> {
    match swapped_on(alloc, &case.day, case.plan, case.wish)? {
        Ok(swapped) => told_of(alloc, &swapped),
        Err(UrgentRefusal::Stops(_)) => Ok(String::from_str(alloc, "stops")?),
        Err(UrgentRefusal::NoMemory) => Err(Fail::new("out of memory")),
    }
}

#[test]
fn units_are_swapped(rt: HostRuntime) -> Result<(), Fail> {
    for case in CASES {
        let told = told(rt.alloc(), case)?;
        assert!(rt; told.as_str() == case.told, "{told}");
    }
    Ok(())
}

/// How many units are brought, where the plan runs.
fn count(alloc: Global, texts: &Texts<'_>, plan: &[u8], wish: &[u8]) -> Result<u32, Fail> {
    let swapped = swapped_on(alloc, texts, plan, wish)??;
    Ok(swapped.count)
}

#[test]
fn one_of_two_is_brought(rt: HostRuntime) -> Result<(), Fail> {
    let plan = b"trip,units\nT1,0\n";
    assert!(rt; count(rt.alloc(), &ONE_TRIP, plan, b"unit,depot\n0,Y\n1,Y\n")? == 1);
    Ok(())
}
