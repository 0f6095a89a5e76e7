//! Units that are swapped at the desk.

use crate::desk::{Run, expect_runs};
use rail_base::NoMemory;
use sample_days::{TURN, Texts};

/// One trip from X to Y with one of the two units that stand at X.
const ONE_TRIP: Texts<'static> = Texts {
    stock: b"station,type,start,end\nX,A,2,1\nY,A,0,1\n",
    trips: b"trip,from,departure,to,arrival,km,demand\nT1,X,08:00,Y,09:00,10,150\n",
    links: b"kind,arriving,arriving2,departing,departing2,reverse,uncouple,couple\n",
    ..TURN
};

/// The plan in which it is the first of them.
const FIRST_LEAVES: &[u8] = b"trip,units\nT1,0\n";

/// A run with this plan, whose table of urgent units is refused.
const REFUSED: Run<'static> = Run {
    texts: ONE_TRIP,
    more: &[("day/plan.csv", FIRST_LEAVES), ("day/urgent.csv", b"")],
    failing: &[],
    words: &["urgent", "day"],
    status: 3,
    document: "refused urgent.csv\n",
};

/// As many urgent units are brought as can be.
const BROUGHT: &[Run<'static>] = &[
    // The other unit takes the trip. No moment is in the cut: there is one urgent unit.
    Run {
        more: &[
            ("day/plan.csv", FIRST_LEAVES),
            ("day/urgent.csv", b"unit,depot\n1,Y\n"),
        ],
        status: 0,
        document: "urgent 1\nrun 0 1\nend\n",
        ..REFUSED
    },
    // One trip leaves X, so that one of two comes to Y: the cut has all moments of X.
    Run {
        more: &[
            ("day/plan.csv", FIRST_LEAVES),
            ("day/urgent.csv", b"unit,depot\n0,Y\n1,Y\n"),
        ],
        status: 0,
        document: "urgent 1\nrun 0 0\nnear 0 0\nnear 0 1\nnear 0 2\nend\n",
        ..REFUSED
    },
];

/// Tables of urgent units that are refused.
const WRONG_TABLES: &[Run<'static>] = &[
    REFUSED,
    Run {
        more: &[
            ("day/plan.csv", FIRST_LEAVES),
            ("day/urgent.csv", b"depot,unit\n1,Y\n"),
        ],
        ..REFUSED
    },
    Run {
        more: &[
            ("day/plan.csv", FIRST_LEAVES),
            ("day/urgent.csv", b"unit,depot\n"),
        ],
        ..REFUSED
    },
    Run {
        more: &[
            ("day/plan.csv", FIRST_LEAVES),
            ("day/urgent.csv", b"unit,depot\n2,Y\n"),
        ],
        ..REFUSED
    },
    Run {
        more: &[
            ("day/plan.csv", FIRST_LEAVES),
            ("day/urgent.csv", b"unit,depot\n0,Y\n1,X\n"),
        ],
        ..REFUSED
    },
];

/// Plans that are answered first: the table of urgent units would be refused.
const PLANS: &[Run<'static>] = &[
    // It is no table, or no plan of the day.
    Run {
        more: &[("day/plan.csv", b"trip\n"), ("day/urgent.csv", b"")],
        status: 3,
        document: "refused plan.csv\n",
        ..REFUSED
    },
    Run {
        more: &[
            ("day/plan.csv", b"trip,units\nT2,0\n"),
            ("day/urgent.csv", b""),
        ],
        status: 3,
        document: "refused plan.csv\n",
        ..REFUSED
    },
    // It doesn't run: the trip has no units, or too few stay at X.
    Run {
        more: &[
            ("day/plan.csv", b"trip,units\nT1,\n"),
            ("day/urgent.csv", b""),
        ],
        status: 1,
        document: "stops\n",
        ..REFUSED
    },
    Run {
        more: &[
            ("day/plan.csv", b"trip,units\nT1,0 1\n"),
            ("day/urgent.csv", b""),
        ],
        status: 1,
        document: "stops\n",
        ..REFUSED
    },
];

/// A run in which a read fails.
const UNREAD: Run<'static> = Run {
    more: &[
        ("day/plan.csv", FIRST_LEAVES),
        ("day/urgent.csv", b"unit,depot\n1,Y\n"),
    ],
    status: 5,
    ..REFUSED
};

/// A file that can't be read is named.
const FAILED_READS: &[Run<'static>] = &[
    Run {
        failing: &[10],
        document: "cannot read weights.csv\n",
        ..UNREAD
    },
    Run {
        failing: &[12],
        document: "cannot read plan.csv\n",
        ..UNREAD
    },
    Run {
        failing: &[14],
        document: "cannot read urgent.csv\n",
        ..UNREAD
    },
    Run {
        failing: &[15],
        document: "cannot read urgent.csv\n",
        ..UNREAD
    },
];

/// All these runs.
const RUNS: &[&[Run<'static>]] = &[BROUGHT, WRONG_TABLES, PLANS, FAILED_READS];

#[test]
fn urgent_units_are_brought_or_a_file_is_named(rt: HostRuntime) -> Result<(), NoMemory> {
    for runs in RUNS {
        expect_runs(&rt, rt.alloc(), *runs)?;
    }
    Ok(())
}
