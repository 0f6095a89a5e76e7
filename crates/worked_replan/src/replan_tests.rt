//! Days that are disturbed, and what is found for the rest of each.

use crate::disturbed_days::{Case, told};
use sample_days::{RING, TURN, Texts};
use std::alloc::Global;
use std::process::Abort;
use std::test::Fail;

/// One unit goes out and comes back, which costs 1060. It would cost 120 with two units on both trips, were it free to
/// change them.
const ONE_UNIT: Case = Case {
    about: "changes that cost more than they spare are not made",
    texts: TURN,
    plan: b"trip,units\nT1,0\nT2,0\n",
    minute: 7 * 60,
    cancelled: b"trip\n",
    change: 2000,
    branchings: 200,
    later: TURN,
    told: "optimal 1060\nchanges 0\nrun 0 0\nrun 1 0\nbranchings 0\nruns 1060\n",
};

/// Both units go out, in the order 0 1, and come back in the order 1 0.
const TWO_UNITS: Case = Case {
    about: "the plan that is named anew is the one that was made",
    plan: b"trip,units\nT1,0 1\nT2,1 0\n",
    minute: 8 * 60 + 30,
    change: 0,
    told: "optimal 120\nchanges 0\nrun 0 0 1\nrun 1 1 0\nbranchings 0\nruns 120\n",
    ..ONE_UNIT
};

/// Two such trips in the morning and two at noon. The units go out and come back one by one, and then both together.
const TWICE: Texts<'static> = Texts {
    trips: b"trip,from,departure,to,arrival,km,demand\n\
        T1,X,08:00,Y,09:00,10,300\nT2,Y,09:10,X,10:10,10,150\n\
        T3,X,11:00,Y,12:00,10,300\nT4,Y,12:10,X,13:10,10,150\n",
    links: b"kind,arriving,arriving2,departing,departing2,reverse,uncouple,couple\n\
        turn,T1,,T2,,yes,rear,none\nturn,T3,,T4,,yes,rear,none\n",
    ..TURN
};

/// The same without the second and the third trip, and so without both links.
const FIRST_AND_LAST: Texts<'static> = Texts {
    trips: b"trip,from,departure,to,arrival,km,demand\n\
        T1,X,08:00,Y,09:00,10,300\nT4,Y,12:10,X,13:10,10,150\n",
    links: b"kind,arriving,arriving2,departing,departing2,reverse,uncouple,couple\n",
    ..TURN
};

/// The ring, with the plan that is named for it, once the first half of the train that is split has left.
const HALF_LEFT: Case = Case {
    about: "the other half of a train that was split is not cancelled once the first has left",
    texts: RING,
    plan: b"trip,units\nT1,0 1 2\nT2,0 1\nT3,2\nT4,2 0 1\n",
    minute: 9 * 60 + 15,
    cancelled: b"trip\nT3\n",
    later: RING,
    told: "refused: BadRow(1)\n",
    ..TWO_UNITS
};

/// Days of two trips.
const TURNS: &[Case] = &[
    ONE_UNIT,
    Case {
        about: "changes that spare more than they cost are made",
        change: 100,
        told: "optimal 320\nchanges 2\nrun 0 0 1\nrun 1 1 0\nbranchings 2\nruns 120\n",
        ..ONE_UNIT
    },
    TWO_UNITS,
    Case {
        about: "units that are not brought back are missing at the end",
        cancelled: b"trip\nT2\n",
        told: "infeasible\nchanges 0\nbranchings 0\n",
        ..TWO_UNITS
    },
    Case {
        about: "a trip that has left is not cancelled",
        cancelled: b"trip\nT1\n",
        told: "refused: BadRow(1)\n",
        ..TWO_UNITS
    },
];

/// Days of four trips.
const RINGS: &[Case] = &[
    Case {
        about: "a trip is given what stands there, trips keep their numbers, and a change has its price",
        texts: TWICE,
        plan: b"trip,units\nT1,0\nT2,0\nT3,0 1\nT4,1 0\n",
        minute: 9 * 60,
        cancelled: b"trip\nT3\nT2\n",
        change: 7,
        later: FIRST_AND_LAST,
        told: "optimal 1067\nchanges 1\nrun 0 0\nrun 3 0\nbranchings 0\nruns 1060\n",
        ..TWO_UNITS
    },
    Case {
        about: "the ring goes on as it was planned, with the units that were split",
        cancelled: b"trip\n",
        told: "optimal 1270\nchanges 0\nrun 0 0 1 2\nrun 1 0 1\nrun 2 2\nrun 3 2 0 1\nbranchings 0\nruns 1270\n",
        ..HALF_LEFT
    },
    HALF_LEFT,
    Case {
        about: "a half of a train may be cancelled while both wait, and the other has no unit that is ready",
        minute: 9 * 60 + 5,
        told: "infeasible\nchanges 0\nbranchings 0\n",
        ..HALF_LEFT
    },
];

/// What has happened, where it is not what the rule of naming would give.
const PASTS: &[Case] = &[
    Case {
        about: "what has left keeps its units, and what goes on from it",
        plan: b"trip,units\nT1,1 0\nT2,0 1\n",
        told: "optimal 120\nchanges 0\nrun 0 1 0\nrun 1 0 1\nbranchings 0\nruns 120\n",
        ..TWO_UNITS
    },
    Case {
        about: "a plan that does not run is refused with its first fault",
        plan: b"trip,units\nT1,0\nT2,1\n",
        told: "stops: LinkBroken(LinkNo(0))\n",
        ..TWO_UNITS
    },
    Case {
        about: "with no branching there is a bound on prices, and no plan",
        change: 100,
        branchings: 0,
        told: "bounded 290\nchanges 0\nbranchings 0\n",
        ..ONE_UNIT
    },
];

/// The minute at which a trip leaves, and the next one.
const DEPARTURES: &[Case] = &[
    Case {
        about: "a trip that leaves at the minute has not left",
        minute: 8 * 60,
        change: 100,
        told: "optimal 320\nchanges 2\nrun 0 0 1\nrun 1 1 0\nbranchings 2\nruns 120\n",
        ..ONE_UNIT
    },
    Case {
        about: "a minute later it has",
        minute: 8 * 60 + 1,
        change: 100,
        ..ONE_UNIT
    },
    Case {
        about: "a trip may be cancelled at the minute at which it leaves",
        minute: 8 * 60,
        cancelled: b"trip\nT1\n",
        told: "infeasible\nchanges 0\nbranchings 0\n",
        ..TWO_UNITS
    },
    Case {
        about: "a minute later it may not",
        minute: 8 * 60 + 1,
        cancelled: b"trip\nT1\n",
        told: "refused: BadRow(1)\n",
        ..TWO_UNITS
    },
];

/// A turn as before, where a unit more is wanted at X at the end, which stands at Y and is brought there at noon.
const NOON: Texts<'static> = Texts {
    stock: b"station,type,start,end\nX,A,2,3\nY,A,1,0\n",
    trips: b"trip,from,departure,to,arrival,km,demand\n\
        T1,X,08:00,Y,09:00,10,300\nT2,Y,09:10,X,10:10,10,150\nT3,Y,12:10,X,13:10,10,300\n",
    ..TURN
};

const AT_ARRIVAL: Case = Case {
    about: "a trip is free while the one that turns into it arrives",
    texts: NOON,
    plan: b"trip,units\nT1,0 1\nT2,1 0\nT3,2\n",
    minute: 9 * 60,
    change: 7,
    later: NOON,
    told: "optimal 264\nchanges 2\nrun 0 0 1\nrun 1 1\nrun 2 2 0\nbranchings 2\nruns 250\n",
    ..TWO_UNITS
};

/// The minute at which a trip arrives, and the next one.
const ARRIVALS: &[Case] = &[
    AT_ARRIVAL,
    Case {
        about: "a minute later it keeps its types",
        minute: 9 * 60 + 1,
        told: "optimal 1150\nchanges 0\nrun 0 0 1\nrun 1 1 0\nrun 2 2\nbranchings 1\nruns 1150\n",
        ..AT_ARRIVAL
    },
];

/// The ring, where units are ready as soon as they arrive.
const QUICK_RING: Texts<'static> = Texts {
    stations: b"station,platform,reallocation\nX,240,0\nY,240,0\nZ,240,0\n",
    ..RING
};

/// The same without the third trip, and so without both links.
const QUICK_RING_LEFT: Texts<'static> = Texts {
    trips: b"trip,from,departure,to,arrival,km,demand\n\
        T1,X,08:00,Y,09:00,10,300\nT2,Y,09:10,Z,10:00,10,300\nT4,Z,10:30,X,11:30,10,300\n",
    links: b"kind,arriving,arriving2,departing,departing2,reverse,uncouple,couple\n",
    ..QUICK_RING
};

/// Halves of a train that is split.
const HALVES: &[Case] = &[
    Case {
        about: "a half of a train may be cancelled at the minute at which the other leaves",
        minute: 9 * 60 + 10,
        told: "infeasible\nchanges 0\nbranchings 0\n",
        ..HALF_LEFT
    },
    Case {
        about: "a minute later it may not",
        minute: 9 * 60 + 11,
        ..HALF_LEFT
    },
    Case {
        about: "a trip is free where the link that led to it is gone",
        texts: QUICK_RING,
        minute: 9 * 60 + 5,
        change: 7,
        later: QUICK_RING_LEFT,
        told: "optimal 277\nchanges 1\nrun 0 0 1 2\nrun 1 0 1 2\nrun 3 0 1 2\nbranchings 5\nruns 270\n",
        ..HALF_LEFT
    },
];

/// Each case is told as it is to be.
fn are_told(rt: &impl Abort, alloc: Global, cases: &[Case]) -> Result<(), Fail> {
    for case in cases {
        let text = told(alloc, case)?;
        assert!(rt; text.as_str() == case.told, "{}: {text}", case.about);
    }
    Ok(())
}

#[test]
fn days_of_two_trips_are_planned_anew(rt: HostRuntime) -> Result<(), Fail> {
    are_told(&rt, rt.alloc(), TURNS)
}

#[test]
fn days_of_four_trips_are_planned_anew(rt: HostRuntime) -> Result<(), Fail> {
    are_told(&rt, rt.alloc(), RINGS)
}

#[test]
fn what_has_happened_stays(rt: HostRuntime) -> Result<(), Fail> {
    are_told(&rt, rt.alloc(), PASTS)
}

#[test]
fn trips_have_left_from_the_minute_after_their_departure(rt: HostRuntime) -> Result<(), Fail> {
    are_told(&rt, rt.alloc(), DEPARTURES)
}

#[test]
fn trips_are_frozen_from_the_minute_after_an_arrival(rt: HostRuntime) -> Result<(), Fail> {
    are_told(&rt, rt.alloc(), ARRIVALS)
}

#[test]
fn halves_of_trains_are_cancelled(rt: HostRuntime) -> Result<(), Fail> {
    are_told(&rt, rt.alloc(), HALVES)
}

/// Tables of cancelled trips on the ring at 09:15, and why they are refused.
const REFUSED: &[(&[u8], &str)] = &[
    (b"", "refused: WrongHeader\n"),
    (b"trips\n", "refused: WrongHeader\n"),
    (b"trip,units\nT4,0\n", "refused: WrongHeader\n"),
    (b"trip\nT4,\n", "refused: BadRow(1)\n"),
    (b"trip\n\n\"\"\n", "refused: BadRow(1)\n"),
    (b"trip\nT5\n", "refused: BadRow(1)\n"),
    (b"trip\nT4\nT4\n", "refused: BadRow(2)\n"),
    (b"trip\nT4\nT\xFF\n", "refused: BadRow(2)\n"),
    (b"\xEF\xBB\xBFtrip\r\nT4\r\nT1\r\n", "refused: BadRow(2)\n"),
];

#[test]
fn wrong_tables_are_refused(rt: HostRuntime) -> Result<(), Fail> {
    for (cancelled, wanted) in REFUSED {
        let case = Case {
            cancelled: *cancelled,
            ..HALF_LEFT
        };
        let text = told(rt.alloc(), &case)?;
        assert!(rt; text.as_str() == *wanted, "{wanted}{text}");
    }
    Ok(())
}
