//! Which node is branched next, which is not branched any more, and which of two solutions is kept, by hand.

use crate::search_days::{APART, LEVEL, NO_CHEAPER, TWO_ALIKE};
use crate::trials::{Search, expect_all};
use std::test::Fail;

/// Searches without advisors.
const UNADVISED: &[Search] = &[
    // The first branching leaves two open leaves of bound 150, of which the left one was made earlier.
    Search {
        about: "of equal bounds the earlier node is next",
        texts: APART,
        grant: 2,
        rounds: 0,
        scripts: &[],
        told: "bounded 150; only 0 0; only 1 2; ray 1:1; cost 180; cost 150",
    },
    // Then the right one is next, whose left leaf is open with 150. That comes before the leaf with 180, which was made
    // earlier.
    Search {
        about: "the least bound is next",
        texts: APART,
        grant: 3,
        rounds: 0,
        scripts: &[],
        told: "bounded 150; only 0 0; only 1 2; ray 1:1; cost 180; only 0 1; cost 150; ray 0:1",
    },
    Search {
        about: "then the one that was made earlier is next",
        texts: APART,
        grant: 4,
        rounds: 0,
        scripts: &[],
        told: "bounded 180; only 0 0; only 1 2; ray 1:1; cost 180; only 0 1; only 1 2; ray 1:1; cost 180; ray 0:1",
    },
    // Of two leaves of bound 120 on the two sides of the first branching, the one that was made first is branched next.
    Search {
        about: "of equal bounds on two sides the earlier node is next",
        texts: LEVEL,
        grant: 3,
        rounds: 0,
        scripts: &[],
        told: "bounded 120; only 0 0; only 1 1; ray 1:1; cost 120; only 0 1; cost 120; ray 0:1",
    },
    // (AA, AA) is found on the right side of the first branching, and (A, A) of the same cost later, on the left side.
    Search {
        about: "the solution that is found first is kept",
        texts: TWO_ALIKE,
        grant: 2,
        rounds: 0,
        scripts: &[],
        told: "optimal 120 by 1 1; only 0 0; only 1 1; ray 1:1; cost 120; cost 120",
    },
    // The left side is open with 120 when (AA, AA) is found on the right side, which costs 120.
    Search {
        about: "a node without a cheaper plan is not branched",
        texts: NO_CHEAPER,
        grant: 2,
        rounds: 0,
        scripts: &[],
        told: "optimal 120 by 1 1; only 0 0; cost 120; cost 120",
    },
];

#[test]
fn searches_without_advisors(rt: HostRuntime) -> Result<(), Fail> {
    expect_all(&rt, rt.alloc(), UNADVISED)
}
