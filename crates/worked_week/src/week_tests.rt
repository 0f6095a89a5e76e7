//! Which days make a week, what is written of it, and that its plan can be run.

use crate::running::run;
use crate::weeks::{Case, days_of, planned, told};
use sample_days::{ONE_LEFT, TURN, TWO_TYPES, Texts};
use std::alloc::Global;
use std::process::Abort;
use std::test::Fail;

/// A turn where a unit may be coupled at the rear.
const FETCHED_LINKS: &[u8] =
    b"kind,arriving,arriving2,departing,departing2,reverse,uncouple,couple\n\
        turn,T1,,T2,,yes,none,rear\n";

/// The day after `ONE_LEFT`: a unit stands at each station, and that at Y is coupled to the train that turns there.
const FETCHED: Texts<'static> = Texts {
    stock: b"station,type,start,end\nX,A,1,2\nY,A,1,0\n",
    links: FETCHED_LINKS,
    ..TURN
};

/// The day after `TWO_TYPES`, likewise.
const FETCHED_TYPE: Texts<'static> = Texts {
    stock: b"station,type,start,end\nX,B,1,1\nX,A,0,1\nY,A,1,0\n",
    links: FETCHED_LINKS,
    ..TWO_TYPES
};

/// A day of one trip to Y late in the evening, after which its unit is ready half an hour past midnight.
const EVENING: Texts<'static> = Texts {
    stock: b"station,type,start,end\nX,A,1,0\nY,A,0,1\n",
    trips: b"trip,from,departure,to,arrival,km,demand\nT1,X,22:30,Y,24:00,10,100\n",
    links: b"kind,arriving,arriving2,departing,departing2,reverse,uncouple,couple\n",
    ..TURN
};

/// The day after it, on which the unit goes back at the minute at which it is ready.
const MORNING: Texts<'static> = Texts {
    stock: b"station,type,start,end\nX,A,0,1\nY,A,1,0\n",
    trips: b"trip,from,departure,to,arrival,km,demand\nT2,Y,00:30,X,01:30,10,100\n",
    ..EVENING
};

/// A day after it without trips.
const REST: Texts<'static> = Texts {
    stock: b"station,type,start,end\nY,A,1,1\n",
    trips: b"trip,from,departure,to,arrival,km,demand\n",
    ..EVENING
};

/// Days on which a third unit is wanted at X in the evening, and then one less.
const THREE_WANTED: Texts<'static> = Texts {
    stock: b"station,type,start,end\nX,A,2,3\n",
    ..TURN
};

const THREE_LEFT: Texts<'static> = Texts {
    stock: b"station,type,start,end\nX,A,3,2\n",
    ..TURN
};

/// Other types, and other stations.
const OTHER_TYPES: Texts<'static> = Texts {
    types: b"type,carriages,seats,metres,family\nA,3,201,80,regional\n",
    ..FETCHED
};

const OTHER_STATIONS: Texts<'static> = Texts {
    stations: b"station,platform,reallocation\nX,200,30\nY,200,31\n",
    ..FETCHED
};

/// Weeks whose plan is known.
const PLANNED: &[Case] = &[
    Case {
        about: "two like days cost twice as much",
        days: &[TURN, TURN],
        branchings: 200,
        told: "week optimal 240\n\
            day 1\nrailplan answer 1\noptimal 120\nbranchings 0\nrun 0 0 1\nrun 1 1 0\ntree\ncost 120 0\nend\n\
            day 2\nrailplan answer 1\noptimal 120\nbranchings 0\nrun 0 0 1\nrun 1 1 0\ntree\ncost 120 0\nend\n\
            names 1 0 1\nnames 2 0 1\nend\n",
    },
    Case {
        about: "the second unit comes back, so that it is the first at X on the next day",
        days: &[ONE_LEFT, FETCHED],
        branchings: 200,
        told: "week optimal 1380\n\
            day 1\nrailplan answer 1\noptimal 190\nbranchings 2\nrun 0 0 1\nrun 1 1\ntree\n\
            only 0 1\nonly 1 1\nray 1 2:-1\ncost 190 0\nray 1 2:-1\nend\n\
            day 2\nrailplan answer 1\noptimal 1190\nbranchings 2\nrun 0 0\nrun 1 0 1\ntree\n\
            only 0 1\nray 1 0:1\nonly 1 0\nray 1 2:1\ncost 1190 0\nend\n\
            names 1 0 1\nnames 2 1 0\nend\n",
    },
    Case {
        about: "units of two types, of which one stays away for a night",
        days: &[TWO_TYPES, FETCHED_TYPE, TWO_TYPES],
        branchings: 200,
        told: "week optimal 2510\n",
    },
    Case {
        about: "a week ends with the first day on which no plan runs",
        days: &[TURN, THREE_WANTED, THREE_LEFT],
        branchings: 200,
        told: "week infeasible\n\
            day 1\nrailplan answer 1\noptimal 120\nbranchings 0\nrun 0 0 1\nrun 1 1 0\ntree\ncost 120 0\nend\n\
            day 2\nrailplan answer 1\ninfeasible\nbranchings 0\ntree\nray 1 2:1\nend\n\
            end\n",
    },
    Case {
        about: "an optimal day counts with its cost in the bound of the week",
        days: &[TURN, ONE_LEFT],
        branchings: 0,
        told: "week bounded 240\n\
            day 1\nrailplan answer 1\noptimal 120\nbranchings 0\nrun 0 0 1\nrun 1 1 0\ntree\ncost 120 0\nend\n\
            day 2\nrailplan answer 1\nbounded 120\nbranchings 0\ntree\ncost 120 0\nend\n\
            end\n",
    },
];

/// The nights of weeks, minute by minute.
const NIGHTS: &[Case] = &[
    Case {
        about: "a unit may be taken at the minute at which it is ready, in the night too",
        days: &[EVENING, MORNING],
        branchings: 200,
        told: "week optimal 60\n",
    },
    Case {
        about: "a minute earlier it is not ready",
        days: &[
            EVENING,
            Texts {
                trips: b"trip,from,departure,to,arrival,km,demand\nT2,Y,00:29,X,01:30,10,100\n",
                ..MORNING
            },
        ],
        branchings: 200,
        told: "refused: LateTrip { day: 2, trip: TripNo(0) }\n",
    },
    Case {
        about: "nor for a trip that is a later row and leaves another station",
        days: &[
            EVENING,
            Texts {
                trips: b"trip,from,departure,to,arrival,km,demand\n\
                    T2,Y,10:00,X,11:00,10,100\nT3,X,00:29,Y,01:30,10,100\n",
                ..MORNING
            },
        ],
        branchings: 200,
        told: "refused: LateTrip { day: 2, trip: TripNo(0) }\n",
    },
    Case {
        about: "which may leave at the minute",
        days: &[
            EVENING,
            Texts {
                trips: b"trip,from,departure,to,arrival,km,demand\n\
                    T2,Y,10:00,X,11:00,10,100\nT3,X,00:30,Y,01:30,10,100\n",
                ..MORNING
            },
        ],
        branchings: 200,
        told: "week infeasible\n",
    },
    Case {
        about: "before a day without trips a unit is ready as it begins",
        days: &[
            Texts {
                trips: b"trip,from,departure,to,arrival,km,demand\nT1,X,22:30,Y,23:30,10,100\n",
                ..EVENING
            },
            REST,
        ],
        branchings: 200,
        told: "week optimal 30\n",
    },
    Case {
        about: "and not a minute later",
        days: &[
            Texts {
                trips: b"trip,from,departure,to,arrival,km,demand\nT1,X,22:30,Y,23:31,10,100\n",
                ..EVENING
            },
            REST,
        ],
        branchings: 200,
        told: "refused: LateTrip { day: 2, trip: TripNo(0) }\n",
    },
    Case {
        about: "of two that are late the first is told, by its number and not by its time",
        days: &[
            Texts {
                trips: b"trip,from,departure,to,arrival,km,demand\n\
                    T1,X,20:00,Y,21:30,10,100\nT3,X,22:40,Y,24:10,10,100\nT4,X,22:30,Y,24:01,10,100\n",
                ..EVENING
            },
            MORNING,
        ],
        branchings: 200,
        told: "refused: LateTrip { day: 2, trip: TripNo(1) }\n",
    },
];

/// Days that make no week, for the first of several reasons.
const REFUSED: &[Case] = &[
    Case {
        about: "types before stations",
        days: &[
            ONE_LEFT,
            FETCHED,
            Texts {
                stations: b"station,platform,reallocation\nX,200,30\nY,200,31\n",
                ..OTHER_TYPES
            },
        ],
        branchings: 200,
        told: "refused: TypesDiffer(3)\n",
    },
    Case {
        about: "stations before the night",
        days: &[TURN, OTHER_STATIONS],
        branchings: 200,
        told: "refused: StationsDiffer(2)\n",
    },
    Case {
        about: "the night by its first station, before a late trip",
        days: &[
            EVENING,
            Texts {
                stock: b"station,type,start,end\nY,A,2,0\nX,A,1,3\n",
                trips: b"trip,from,departure,to,arrival,km,demand\nT2,Y,00:29,X,01:30,10,100\n",
                ..MORNING
            },
        ],
        branchings: 200,
        told: "refused: NightDiffers { day: 2, station: StationNo(0), unit_type: TypeNo(0), end: 0, start: 1 }\n",
    },
    Case {
        about: "the first day that does not go on, whatever is wrong with later ones",
        days: &[ONE_LEFT, ONE_LEFT, OTHER_TYPES],
        branchings: 200,
        told: "refused: NightDiffers { day: 2, station: StationNo(0), unit_type: TypeNo(0), end: 1, start: 2 }\n",
    },
];

/// Whether the text of each case begins with what is told of it.
fn are_told(rt: &impl Abort, alloc: Global, cases: &[Case]) -> Result<(), Fail> {
    for case in cases {
        let text = told(alloc, case)?;
        assert!(rt;
            text.as_slice().starts_with(case.told.as_bytes()),
            "{}",
            case.about
        );
    }
    Ok(())
}

#[test]
fn weeks_are_planned(rt: HostRuntime) -> Result<(), Fail> {
    are_told(&rt, rt.alloc(), PLANNED)
}

#[test]
fn units_are_ready_in_the_morning(rt: HostRuntime) -> Result<(), Fail> {
    are_told(&rt, rt.alloc(), NIGHTS)
}

#[test]
fn days_that_make_no_week_are_refused(rt: HostRuntime) -> Result<(), Fail> {
    are_told(&rt, rt.alloc(), REFUSED)
}

#[test]
fn weeks_run_unit_by_unit(rt: HostRuntime) -> Result<(), Fail> {
    let alloc = rt.alloc();
    for case in PLANNED {
        let days = days_of(alloc, case)?;
        if let Ok(week) = planned(alloc, &days, case.branchings)? {
            if week.head.has_plan() {
                run(alloc, &days, &week)?;
            }
        }
    }
    Ok(())
}
