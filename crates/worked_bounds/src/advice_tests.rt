//! How advisors are asked, and what is made of what they propose, by hand.
//!
//! On the day where one unit is left at Y, with multipliers u, v, w and x at its four indices, (A, A) has the priced
//! value 1060 - u - w + x, (AA, A) has 190 and is a solution, and (AA, AA) has 120 - w + x.

use crate::scripts::{Call, CutNumbers, NO_PROPOSALS};
use crate::search_days::{APART, EARLY_BACK, LEVEL, LEVEL_BACK, TOO_FEW, TWO_ALIKE};
use crate::trials::{Search, expect, expect_all};
use advisors::Word;
use sample_days::{ONE_LEFT, RING};
use std::test::Fail;

/// The root after its evaluation with no multipliers.
const ROOT: &str =
    "round 0; left 2 2; first 120, kept 120, last 120; at; picks 1 1; slacks 2:-1 3:1; free from 2";

/// The root after 30 was proposed at index 3.
const RAISED: &str =
    "round 0; left 2 2; first 120, kept 150, last 150; at 3:30; picks 1 1; slacks 2:-1 3:1; free from 2";

/// The same in the next round.
const RAISED_BEFORE: &str =
    "round 1; left 2 2; first 120, kept 150, last 150; at 3:30; picks 1 1; slacks 2:-1 3:1; free from 2";

/// The node where T1 has AA alone, which inherits that.
const CHILD: &str =
    "round 0; left 1 2; first 120, kept 150, last 150; at 3:30; picks 1 1; slacks 2:-1 3:1; free from 2";

/// The same in the next round.
const CHILD_AGAIN: &str =
    "round 1; left 1 2; first 120, kept 150, last 150; at 3:30; picks 1 1; slacks 2:-1 3:1; free from 2";

/// Proposes 30 at index 3, under which (AA, AA) has 150.
const RAISES: Call = Call {
    puts: &[(3, 30)],
    ..NO_PROPOSALS
};

/// Proposes 70 at index 3, under which both (AA, A) and (AA, AA) have 190.
const CLOSES: Call = Call {
    puts: &[(3, 70)],
    ..NO_PROPOSALS
};

/// The first trip with one unit at most, and with more.
const FIRST_SHORT: CutNumbers = CutNumbers::AtMost(0, 0, 1);

/// What one advisor is shown at the root in four rounds, and then at the node where T1 has AA alone: a lower value is
/// the last one and is not kept, and the picks and their slacks are those of the last evaluation.
const LOOKS: &[Call] = &[
    Call {
        shown: ROOT,
        ..RAISES
    },
    Call {
        shown: RAISED_BEFORE,
        puts: &[(3, 10)],
        ..NO_PROPOSALS
    },
    Call {
        shown: "round 2; left 2 2; first 120, kept 150, last 130; at 3:10; picks 1 1; slacks 2:-1 3:1; free from 2",
        puts: &[(0, 1000)],
        ..NO_PROPOSALS
    },
    Call {
        shown: "round 3; left 2 2; first 120, kept 150, last 60; at 0:1000; picks 0 0; slacks 0:-1 2:-1 3:1; \
            free from 2",
        word: Word::Enough,
        ..NO_PROPOSALS
    },
    Call {
        shown: CHILD,
        ..NO_PROPOSALS
    },
    Call {
        shown: CHILD_AGAIN,
        ..CLOSES
    },
];

/// The first of two advisors, which proposes multipliers and a cut before the other one is asked.
const FIRST: &[Call] = &[
    Call {
        shown: ROOT,
        cut: FIRST_SHORT,
        ..RAISES
    },
    Call {
        shown: "round 1; left 2 2; first 120, kept 150, last 140; at 2:-20; picks 1 1; slacks 2:-1 3:1; free from 2",
        ..NO_PROPOSALS
    },
    Call {
        shown: CHILD,
        word: Word::Enough,
        ..NO_PROPOSALS
    },
];

/// The second one, which has enough of the root, and is asked again at the next node.
const SECOND: &[Call] = &[
    Call {
        shown: RAISED,
        puts: &[(2, -20)],
        word: Word::Enough,
        ..NO_PROPOSALS
    },
    Call {
        shown: CHILD,
        ..CLOSES
    },
];

/// An advisor that proposes a cut in each round, the second one with a multiplier, and in the fourth none.
const CUTS: &[Call] = &[
    Call {
        cut: CutNumbers::Only(1, 0),
        ..NO_PROPOSALS
    },
    Call {
        cut: CutNumbers::Only(1, 1),
        puts: &[(3, 10)],
        ..NO_PROPOSALS
    },
    Call {
        cut: FIRST_SHORT,
        ..NO_PROPOSALS
    },
    NO_PROPOSALS,
    Call {
        cut: CutNumbers::Only(400, 0),
        ..NO_PROPOSALS
    },
];

/// Proposes a cut alone, and has enough of the node.
const CUT_AND_ENOUGH: &[Call] = &[Call {
    cut: CutNumbers::Only(1, 0),
    word: Word::Enough,
    ..NO_PROPOSALS
}];

/// Proposes a cut of T2 at the root, and nothing after it. At the left side, where T2 has A alone, (A, A) is the first
/// of least value: one of the two units stays at X, and at the end both are there.
const SECOND_TRIP_ONCE: &[Call] = &[
    Call {
        cut: CutNumbers::Only(1, 0),
        ..NO_PROPOSALS
    },
    Call {
        shown: "round 0; left 3 1; first 2150, kept 2150, last 2150; at; picks 0 0; slacks 0:-1 2:-1 3:1; free from 2",
        ..NO_PROPOSALS
    },
    NO_PROPOSALS,
];

/// Proposes three multipliers, under which (A, A) has 1125, and both (AA, A) and (AA, AA) have 190.
const THREE: &[Call] = &[Call {
    puts: &[(0, 5), (2, -20), (3, 50)],
    ..NO_PROPOSALS
}];

/// The first of two advisors that are both asked in two rounds, which proposes multipliers in the second one.
const FIRST_IN_EACH_ROUND: &[Call] = &[NO_PROPOSALS, RAISES];

/// The second one, which is shown in the second round what they gave.
const SECOND_IN_EACH_ROUND: &[Call] = &[
    Call {
        shown: ROOT,
        ..NO_PROPOSALS
    },
    Call {
        shown: RAISED_BEFORE,
        ..NO_PROPOSALS
    },
];

/// Closes the node at its first call.
const CLOSING: &[Call] = &[CLOSES];

/// Is never asked, and would quit.
const UNASKED: &[Call] = &[Call {
    word: Word::Quit,
    ..NO_PROPOSALS
}];

/// Quits at its second call with a proposal.
const QUITTING_WITH_MORE: &[Call] = &[
    NO_PROPOSALS,
    Call {
        cut: FIRST_SHORT,
        word: Word::Quit,
        ..CLOSES
    },
];

/// Proposes multipliers under which (AA, AA) has 120, as with none.
const NO_HIGHER: &[Call] = &[Call {
    puts: &[(0, 5)],
    ..NO_PROPOSALS
}];

/// Puts multipliers under which each picks have a positive value without cost, on the day where T2 leaves early.
const RAY: &[Call] = &[Call {
    puts: &[(1, 1), (2, 1)],
    ..NO_PROPOSALS
}];

/// Proposes a cut at the root and a multiplier at its left side, and then nothing.
const LEFT_RAISED: &[Call] = &[
    Call {
        cut: CutNumbers::Only(0, 1),
        ..NO_PROPOSALS
    },
    Call {
        puts: &[(3, 1)],
        ..NO_PROPOSALS
    },
    NO_PROPOSALS,
];

/// Proposes a multiplier and a cut at the root, and then nothing.
const FIRST_AT_100: &[Call] = &[
    Call {
        puts: &[(3, 100)],
        cut: CutNumbers::Only(0, 0),
        ..NO_PROPOSALS
    },
    NO_PROPOSALS,
];

/// Proposes a multiplier at its first call and has enough of that node, and proposes no more.
const ONCE: &[Call] = &[
    Call {
        puts: &[(1, 1)],
        word: Word::Enough,
        ..NO_PROPOSALS
    },
    NO_PROPOSALS,
];

/// What an advisor is shown on the day of two trips without a link: the root, its left side, where T1 has A alone, and
/// its right side.
const SIDES: &[Call] = &[
    Call {
        shown: "round 0; left 3 3; first 150, kept 150, last 150; at; picks 0 2; slacks 0:-1 1:2 2:-3 3:3; \
            free from 2",
        ..NO_PROPOSALS
    },
    Call {
        shown: "round 0; left 1 3; first 150, kept 150, last 150; at; picks 0 2; slacks 0:-1 1:2 2:-3 3:3; \
            free from 2",
        ..NO_PROPOSALS
    },
    Call {
        shown: "round 0; left 2 3; first 150, kept 150, last 150; at; picks 1 2; slacks 1:1 2:-2 3:2; free from 2",
        ..NO_PROPOSALS
    },
];

/// Proposes nothing at its first three calls, and then a multiplier under which (A, A) has 120 and (A, AA) has 160, on
/// the day with two solutions of one cost.
const LATE: &[Call] = &[
    NO_PROPOSALS,
    NO_PROPOSALS,
    NO_PROPOSALS,
    Call {
        puts: &[(1, 70)],
        ..NO_PROPOSALS
    },
];

/// Proposes a multiplier that is a ray by itself.
const LONG_RAY: &[Call] = &[Call {
    puts: &[(2, 1000)],
    word: Word::Enough,
    ..NO_PROPOSALS
}];

/// Proposes 10 at index 3, under which (AA, AAA) alone has the least value, 170, on the day of two trips without a
/// link.
const SECOND_AHEAD: &[Call] = &[Call {
    puts: &[(3, 10)],
    ..NO_PROPOSALS
}];

/// The same, with the cut that leaves T1 A alone, and nothing after it.
const RAY_TO_COME: &[Call] = &[
    Call {
        puts: &[(3, 10)],
        cut: CutNumbers::Only(0, 0),
        ..NO_PROPOSALS
    },
    NO_PROPOSALS,
];

/// Raises the bound of the third node that it is asked about from 120 to 130, on the day where leaves are as low.
const RAISES_THE_RIGHT: &[Call] = &[
    NO_PROPOSALS,
    NO_PROPOSALS,
    Call {
        puts: &[(3, 10)],
        ..NO_PROPOSALS
    },
    NO_PROPOSALS,
];

/// Proposes the cut that leaves the first trip of the ring A alone, and nothing after it. With no multipliers T1 to T4
/// have AAA, AA, AA and AAA: the split leaves A, where T3 has AA, and the join takes A, where T2 has AA.
const FIRST_ALONE: &[Call] = &[
    Call {
        shown: "round 0; left 3 3 3 3; first 300, kept 300, last 300; at; picks 2 1 1 2; slacks 7:1 8:-1 10:1 11:-1; \
            free from 4",
        cut: CutNumbers::Only(0, 0),
        ..NO_PROPOSALS
    },
    Call {
        shown: "round 0; left 2 3 3 3; first 300, kept 300, last 300; at; picks 2 1 1 2; slacks 7:1 8:-1 10:1 11:-1; \
            free from 4",
        ..NO_PROPOSALS
    },
];

/// Proposes multipliers of both hand-overs of the ring, with the cut that leaves T3 A alone, and nothing after it.
///
/// Under them the least values of the chains are 1120 and 150, each of two picks. The first ones are AAA and A, and A
/// and AAA: the split leaves AA, where T3 has A, and the join takes AA, where T2 has A.
const HAND_OVERS: &[Call] = &[
    Call {
        puts: &[(7, 500), (11, -470)],
        cut: CutNumbers::Only(2, 0),
        ..NO_PROPOSALS
    },
    Call {
        shown: "round 1; left 3 3 3 3; first 300, kept 1270, last 1270; at 7:500 11:-470; picks 2 0 0 2; \
            slacks 7:-1 8:1 10:-1 11:1; free from 4",
        ..NO_PROPOSALS
    },
];

/// Searches of that day.
const ADVISED: &[Search] = &[
    Search {
        about: "what an advisor is shown",
        texts: ONE_LEFT,
        grant: 2,
        rounds: 4,
        scripts: &[LOOKS],
        told: "optimal 190 by 1 0; only 0 1; cost 190 3:70; ray 2:-1; asked 6",
    },
    // The second one is shown what the first one's proposal gave, and the cut that the first one proposed stays.
    Search {
        about: "two advisors are asked in turn",
        texts: ONE_LEFT,
        grant: 2,
        rounds: 2,
        scripts: &[FIRST, SECOND],
        told: "optimal 190 by 1 0; most 0 0 1; ray 2:-1; cost 190 3:70; asked 3; asked 2",
    },
    Search {
        about: "none is asked about a node that is closed",
        texts: ONE_LEFT,
        grant: 0,
        rounds: 3,
        scripts: &[CLOSING, UNASKED],
        told: "optimal 190 by 1 0; cost 190 3:70; asked 1; asked 0",
    },
    Search {
        about: "what comes with quitting is not used",
        texts: ONE_LEFT,
        grant: 1,
        rounds: 3,
        scripts: &[QUITTING_WITH_MORE],
        told: "bounded 120; only 0 1; cost 120; ray 2:-1; asked 2, quit",
    },
    Search {
        about: "a cut that comes with enough is taken",
        texts: ONE_LEFT,
        grant: 1,
        rounds: 3,
        scripts: &[CUT_AND_ENOUGH],
        told: "optimal 190 by 1 0; only 1 0; cost 190; ray 2:-1; asked 1",
    },
    Search {
        about: "three multipliers are taken together",
        texts: ONE_LEFT,
        grant: 0,
        rounds: 1,
        scripts: &[THREE],
        told: "optimal 190 by 1 0; cost 190 0:5 2:-20 3:50; asked 1",
    },
    Search {
        about: "two advisors are asked in turn in each round",
        texts: ONE_LEFT,
        grant: 0,
        rounds: 2,
        scripts: &[FIRST_IN_EACH_ROUND, SECOND_IN_EACH_ROUND],
        told: "bounded 150; cost 150 3:30; asked 2; asked 2",
    },
    Search {
        about: "multipliers of no higher value are not kept",
        texts: ONE_LEFT,
        grant: 0,
        rounds: 1,
        scripts: &[NO_HIGHER],
        told: "bounded 120; cost 120; asked 1",
    },
];

/// The advisor that proposes a cut in each round, alone.
const CUTS_ALONE: &[&[Call]] = &[CUTS];

/// Searches of that day with one branching and that advisor: what they show, how many rounds there are, and what is
/// told.
const CUT_ROUNDS: &[(&str, u8, &str)] = &[
    (
        "a cut is taken",
        1,
        "optimal 190 by 1 0; only 1 0; cost 190; ray 2:-1; asked 1",
    ),
    (
        "a later cut is taken in its place",
        2,
        "optimal 190 by 1 0; only 1 1; ray 2:-1; cost 190; asked 2",
    ),
    // The cut of the third round stays where none is proposed, and one that is not proper takes its place and is not
    // taken.
    (
        "the last cut is taken",
        3,
        "bounded 130; most 0 0 1; ray 2:-1; cost 130 3:10; asked 6",
    ),
    (
        "the last cut stays",
        4,
        "bounded 130; most 0 0 1; ray 2:-1; cost 130 3:10; asked 8",
    ),
    (
        "a cut that is not proper is not taken",
        5,
        "bounded 130; only 0 1; cost 130 3:10; ray 2:-1; asked 10",
    ),
];

/// Searches in which it matters by which cut a node is divided, and which node is next.
const ADVISED_ORDER: &[Search] = &[
    // Where T2 has AA and AAA left, T1 has all three; with A on T1 both leave Y with more units than can be there. With
    // A on T2 the least is 2150.
    Search {
        about: "without a proposal the first trip is divided, and not the one with the fewest compositions left",
        texts: APART,
        grant: 2,
        rounds: 1,
        scripts: &[SECOND_TRIP_ONCE],
        told: "bounded 150; only 1 0; cost 2150; only 0 0; ray 1:1; cost 150; asked 4",
    },
    // With no multipliers the least is that of (A, AAA).
    Search {
        about: "the cut goes by the picks of the kept multipliers, and not by those with none",
        texts: APART,
        grant: 1,
        rounds: 1,
        scripts: &[SECOND_AHEAD],
        told: "bounded 170; only 0 1; cost 170 3:10; cost 180 3:10; asked 3",
    },
    Search {
        about: "the least kept bound is next, and not the least first one",
        texts: LEVEL,
        grant: 3,
        rounds: 1,
        scripts: &[RAISES_THE_RIGHT],
        told: "bounded 130; only 0 0; only 1 1; ray 1:1; only 1 2; ray 1:1; ray 2:-1; cost 130 3:10; asked 4",
    },
];

/// Searches of other days.
const ADVISED_ELSEWHERE: &[Search] = &[
    Search {
        about: "multipliers show that there is none",
        texts: EARLY_BACK,
        grant: 2,
        rounds: 3,
        scripts: &[RAY],
        told: "infeasible; ray 1:1 2:1; asked 1",
    },
    // A node whose first bound is as dear as the best solution is closed before it is evaluated under what it inherits.
    Search {
        about: "a node that is closed inherits nothing",
        texts: LEVEL_BACK,
        grant: 2,
        rounds: 1,
        scripts: &[ONCE],
        told: "optimal 120 by 1 1; only 0 0; only 1 1; ray 1:1; cost 120; cost 120; asked 2",
    },
    Search {
        about: "the left side is shown before the right one",
        texts: APART,
        grant: 1,
        rounds: 1,
        scripts: &[SIDES],
        told: "bounded 150; only 0 0; cost 150; cost 150; asked 3",
    },
    // Each side inherits what the root keeps, which is nothing.
    Search {
        about: "the right side doesn't inherit from the left one",
        texts: LEVEL,
        grant: 1,
        rounds: 1,
        scripts: &[LEFT_RAISED],
        told: "bounded 90; only 0 1; cost 121 3:1; cost 90; asked 3",
    },
    // Under 3:100 the least value of the left side is that of (A, A), and 2:-1 is worth one unit of T2 there.
    Search {
        about: "the ray of an inherited evaluation closes a node",
        texts: LEVEL,
        grant: 1,
        rounds: 1,
        scripts: &[FIRST_AT_100],
        told: "bounded 120; only 0 0; ray 2:-1; cost 120; asked 2",
    },
    // T1 with A alone can't be split.
    Search {
        about: "a side that nothing is near is closed as empty",
        texts: RING,
        grant: 1,
        rounds: 1,
        scripts: &[FIRST_ALONE],
        told: "bounded 300; only 0 0; empty; cost 300; asked 2",
    },
    // Of the picks of least value in each chain the first ones don't fit one another.
    Search {
        about: "multipliers of hand-overs raise the bound to the least cost",
        texts: RING,
        grant: 0,
        rounds: 2,
        scripts: &[HAND_OVERS],
        told: "bounded 1270; cost 1270 7:500 11:-470; asked 2",
    },
    // Where T3 has A alone, the split is to leave that: with no multipliers the least is 1240, and under them, where T1
    // and T2 have AAA and AA, it is that of a plan. Where T3 has AA at least, it is 1270 with no multipliers.
    Search {
        about: "inherited multipliers of hand-overs find a plan",
        texts: RING,
        grant: 1,
        rounds: 2,
        scripts: &[HAND_OVERS],
        told: "optimal 1270 by 2 1 0 2; only 2 0; cost 1270 7:500 11:-470; cost 1270; asked 2",
    },
    // With A on T1 fewer units are at Y at the end than are wanted, whatever T2 has. The ray that is named first, 1:1,
    // is none there.
    Search {
        about: "inherited multipliers are tried as a ray before advice is asked",
        texts: APART,
        grant: 1,
        rounds: 1,
        scripts: &[RAY_TO_COME],
        told: "bounded 170; only 0 0; ray 3:10; cost 170 3:10; asked 2",
    },
    // (A, A) is found in the second round of the left side. (AA, AA), which the right side begins with, costs no less.
    Search {
        about: "the right side waits for the rounds of the left one",
        texts: TWO_ALIKE,
        grant: 1,
        rounds: 2,
        scripts: &[LATE],
        told: "optimal 120 by 0 0; only 0 0; cost 120 1:70; cost 120; asked 4",
    },
    // Of two rays the one that is named for the picks comes before the multipliers themselves.
    Search {
        about: "the named ray comes first",
        texts: TOO_FEW,
        grant: 0,
        rounds: 1,
        scripts: &[LONG_RAY],
        told: "infeasible; ray 2:1; asked 1",
    },
];

#[test]
fn advice_on_one_day(rt: HostRuntime) -> Result<(), Fail> {
    expect_all(&rt, rt.alloc(), ADVISED)
}

#[test]
fn cuts_in_some_rounds(rt: HostRuntime) -> Result<(), Fail> {
    for (about, rounds, told) in CUT_ROUNDS {
        let search = Search {
            about: *about,
            texts: ONE_LEFT,
            grant: 1,
            rounds: *rounds,
            scripts: CUTS_ALONE,
            told: *told,
        };
        expect(&rt, rt.alloc(), &search)?;
    }
    Ok(())
}

#[test]
fn advice_and_the_order_of_nodes(rt: HostRuntime) -> Result<(), Fail> {
    expect_all(&rt, rt.alloc(), ADVISED_ORDER)
}

#[test]
fn advice_on_other_days(rt: HostRuntime) -> Result<(), Fail> {
    expect_all(&rt, rt.alloc(), ADVISED_ELSEWHERE)
}
