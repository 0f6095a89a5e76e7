//! Checking an answer: worked documents that are valid, each thing that can be wrong with one, and files that are
//! refused.

use crate::day::{BASE_DAY, BOTH_STAY, Day, ONE_STAYS, RING, STAYING, TWO_TRIPS, expect_answered};
use rail_base::NoMemory;
use run_documents::document::document;
use run_documents::{AnswerError, Outcome};
use std::alloc::Global;
use std::process::Abort;

/// Asserts the status and the line of `check day`, where the folder has this text as its answer.
fn expect_check(
    rt: &impl Abort,
    alloc: Global,
    day: &Day,
    answer: &str,
    status: u8,
    line: &str,
) -> Result<(), NoMemory> {
    expect_answered(rt, alloc, "check", day, answer, status, line)
}

/// Asserts the status and the line for an answer to a day, by what follows its title line.
fn expect_rest(
    rt: &impl Abort,
    alloc: Global,
    day: &Day,
    rest: &str,
    status: u8,
    line: &str,
) -> Result<(), NoMemory> {
    let answer = format!(in alloc; "railplan answer 1\n{rest}")?;
    expect_check(rt, alloc, day, answer.as_str(), status, line)
}

/// Asserts the status for answers to the day on which one unit stays, by what follows their title lines; each has its
/// own line.
fn expect_each(
    rt: &impl Abort,
    alloc: Global,
    cases: &[(&str, &str)],
    status: u8,
) -> Result<(), NoMemory> {
    for (rest, line) in cases {
        expect_rest(rt, alloc, STAYING, rest, status, line)?;
    }
    Ok(())
}

/// Answers that are valid, without their title, and the line for each.
const VALID: &[(&str, &str)] = &[
    (
        "optimal 190\nbranchings 0\nrun 0 0 1\nrun 1 1\ntree\ncost 190 2 2:-45 3:45\nend\n",
        "valid optimal 190\n",
    ),
    (
        "optimal 190\nbranchings 0\nrun 0 0 1\nrun 1 1\ntree\ncost 190 1 3:70\nend\n",
        "valid optimal 190\n",
    ),
    (
        "bounded 120\nbranchings 0\ntree\ncost 120 0\nend\n",
        "valid bounded 120\n",
    ),
    (
        "bounded -80\nbranchings 0\ntree\ncost -80 1 3:-200\nend\n",
        "valid bounded -80\n",
    ),
    (
        "optimal 190\nbranchings 2\nrun 0 0 1\nrun 1 1\ntree\nonly 0 1\nonly 1 1\nray 1 2:-1\ncost 190 0\n\
            ray 1 2:-1\nend\n",
        "valid optimal 190\n",
    ),
];

/// Six units of the last type fit the platforms of this day.
const SIX_TYPES: Day<'static> = Day {
    types: Some(
        "type,carriages,seats,metres,family\nA,3,200,33,a\nB,3,200,33,b\nC,3,200,33,c\nD,3,200,33,d\n\
            E,3,200,33,e\nF,3,200,33,f\n",
    ),
    ..TWO_TRIPS
};

/// Days, answers to them without their title, the status and the line for each.
const ON_OTHER_DAYS: &[(Day<'static>, &str, u8, &str)] = &[
    (
        BASE_DAY,
        "optimal 120\nbranchings 0\nrun 0 0 1\nrun 1 1 0\ntree\ncost 120 0\nend\n",
        0,
        "valid optimal 120\n",
    ),
    // With less than six units of the last type on T2 the trips cost 30 each.
    (
        SIX_TYPES,
        "bounded 60\nbranchings 1\ntree\nmost 1 5 5\ncost 60 0\ncost 210 0\nend\n",
        0,
        "valid bounded 60\n",
    ),
    // No plan runs.
    (
        BOTH_STAY,
        "infeasible\nbranchings 0\ntree\nray 1 2:-1\nend\n",
        0,
        "valid infeasible\n",
    ),
    (
        BOTH_STAY,
        "infeasible\nbranchings 0\ntree\nray 1 3:1\nend\n",
        0,
        "valid infeasible\n",
    ),
    (
        BOTH_STAY,
        "infeasible\nbranchings 0\ntree\nray 0\nend\n",
        1,
        "invalid: ray of node 0 is 0\n",
    ),
    (
        BOTH_STAY,
        "bounded 120\nbranchings 0\ntree\nray 1 2:-1\nend\n",
        1,
        "invalid: bound 120 said, nothing found\n",
    ),
    // Trains are split and joined.
    (
        RING,
        "optimal 1270\nbranchings 0\nrun 0 0 1 2\nrun 1 0 1\nrun 2 2\nrun 3 2 0 1\ntree\n\
            cost 1270 2 7:500 11:-470\nend\n",
        0,
        "valid optimal 1270\n",
    ),
    // With one unit at most on the third trip the chains take 150 and 1090 at least, with more 1120 and 150.
    (
        RING,
        "bounded 1240\nbranchings 1\ntree\nmost 2 0 1\ncost 1240 0\ncost 1270 0\nend\n",
        0,
        "valid bounded 1240\n",
    ),
    (
        RING,
        "bounded 1240\nbranchings 1\ntree\nmost 2 0 3\ncost 1240 0\ncost 1270 0\nend\n",
        1,
        "invalid: node 0 cuts nothing\n",
    ),
    // One unit can't be split, so that nothing is near the left side.
    (
        RING,
        "bounded 5\nbranchings 1\ntree\nonly 0 0\ncost 5 0\nempty\nend\n",
        1,
        "invalid: node 1 says 5, found nothing\n",
    ),
    (
        RING,
        "infeasible\nbranchings 1\ntree\nonly 0 0\nray 1 7:1\nempty\nend\n",
        1,
        "invalid: ray of node 1 is nothing\n",
    ),
];

#[test]
fn answers_to_the_day_on_which_one_unit_stays_are_valid(rt: HostRuntime) -> Result<(), NoMemory> {
    expect_each(&rt, rt.alloc(), VALID, 0)
}

#[test]
fn answers_to_other_days_are_checked(rt: HostRuntime) -> Result<(), NoMemory> {
    for (day, rest, status, line) in ON_OTHER_DAYS {
        expect_rest(&rt, rt.alloc(), day, rest, *status, line)?;
    }
    Ok(())
}

/// Answers whose plan is wrong, without their title, and the line for each.
const WRONG_PLANS: &[(&str, &str)] = &[
    (
        "optimal 190\nbranchings 0\nrun 0 0 1\ntree\ncost 190 1 3:70\nend\n",
        "invalid: 1 runs for 2 trips\n",
    ),
    (
        "optimal 190\nbranchings 0\nrun 0 0 1\nrun 1 1\nrun 2\ntree\ncost 190 1 3:70\nend\n",
        "invalid: 3 runs for 2 trips\n",
    ),
    (
        "optimal 190\nbranchings 0\nrun 0 0 1\nrun 1 2\ntree\ncost 190 1 3:70\nend\n",
        "invalid: run 1 names an unknown unit\n",
    ),
    // The number of runs comes before their units, the first of these before others, and the plan before the tree.
    (
        "optimal 190\nbranchings 0\nrun 0 2\ntree\ncost 190 1 3:70\nend\n",
        "invalid: 1 runs for 2 trips\n",
    ),
    (
        "optimal 190\nbranchings 0\nrun 0 2\nrun 1 2\ntree\ncost 190 1 3:70\nend\n",
        "invalid: run 0 names an unknown unit\n",
    ),
    (
        "optimal 190\nbranchings 1\nrun 0 0 1\nrun 1 0\ntree\ncost 190 1 3:70\nend\n",
        "invalid: link 0 is broken\n",
    ),
    (
        "optimal 190\nbranchings 0\nrun 0\nrun 1 1\ntree\ncost 190 1 3:70\nend\n",
        "invalid: trip 0 has no units\n",
    ),
    (
        "optimal 190\nbranchings 0\nrun 0 0 1\nrun 1 0\ntree\ncost 190 1 3:70\nend\n",
        "invalid: link 0 is broken\n",
    ),
    (
        "optimal 191\nbranchings 0\nrun 0 0 1\nrun 1 1\ntree\ncost 190 1 3:70\nend\n",
        "invalid: cost 191 said, 190 found\n",
    ),
    (
        "optimal -190\nbranchings 0\nrun 0 0 1\nrun 1 1\ntree\ncost 190 1 3:70\nend\n",
        "invalid: cost -190 said, 190 found\n",
    ),
];

/// Answers whose tree is wrong, without their title, and the line for each.
const WRONG_TREES: &[(&str, &str)] = &[
    (
        "bounded 120\nbranchings 1\ntree\nonly 0 1\ncost 120 0\nend\n",
        "invalid: tree breaks at node 2\n",
    ),
    (
        "bounded 120\nbranchings 0\ntree\ncost 120 0\nempty\nend\n",
        "invalid: tree breaks at node 1\n",
    ),
    (
        "bounded 120\nbranchings 1\ntree\ncost 120 0\nend\n",
        "invalid: 1 branchings said, 0 found\n",
    ),
    (
        "bounded 120\nbranchings 1\ntree\nonly 0 2\ncost 120 0\ncost 120 0\nend\n",
        "invalid: node 0 cuts nothing\n",
    ),
    (
        "bounded 120\nbranchings 0\ntree\ncost 120 1 4:1\nend\n",
        "invalid: node 0 has a wrong multiplier\n",
    ),
    (
        "bounded 120\nbranchings 0\ntree\ncost 120 1 0:-1\nend\n",
        "invalid: node 0 has a wrong multiplier\n",
    ),
    (
        "optimal 190\nbranchings 0\nrun 0 0 1\nrun 1 1\ntree\ncost 191 2 2:-45 3:45\nend\n",
        "invalid: node 0 says 191, found 190\n",
    ),
    (
        "bounded 120\nbranchings 0\ntree\ncost 120 1 3:-200\nend\n",
        "invalid: node 0 says 120, found -80\n",
    ),
    (
        "bounded 120\nbranchings 0\ntree\ncost -80 0\nend\n",
        "invalid: node 0 says -80, found 120\n",
    ),
    (
        "infeasible\nbranchings 0\ntree\nempty\nend\n",
        "invalid: node 0 is not empty\n",
    ),
];

/// Answers in which more than one thing is wrong, without their title, and the line for each.
const WRONG_TWICE: &[(&str, &str)] = &[
    // The shape of the tree comes before the number of its branchings.
    (
        "bounded 120\nbranchings 0\ntree\nonly 0 1\ncost 120 0\nend\n",
        "invalid: tree breaks at node 2\n",
    ),
    // Node by node, whatever their kinds.
    (
        "bounded 5\nbranchings 2\ntree\nonly 1 0\ncost 5 0\nonly 0 5\nray 1 4:1\nempty\nend\n",
        "invalid: node 1 says 5, found 190\n",
    ),
    // The nodes come before the cost and the head.
    (
        "optimal 192\nbranchings 0\nrun 0 0 1\nrun 1 1\ntree\ncost 189 2 2:-45 3:45\nend\n",
        "invalid: node 0 says 189, found 190\n",
    ),
    // The first of the leaves, by the numbers of all nodes.
    (
        "infeasible\nbranchings 1\ntree\nonly 1 0\ncost 190 0\ncost 120 0\nend\n",
        "invalid: node 1 is a cost leaf\n",
    ),
    (
        "optimal 190\nbranchings 1\nrun 0 0 1\nrun 1 1\ntree\nonly 1 1\ncost 120 0\ncost 60 1 0:1000\nend\n",
        "invalid: node 1 has bound 120 below 190\n",
    ),
];

/// An answer that says that no plan runs, without its title: so many branchings are said, and its tree has so many
/// branches that cut the first trip to its first composition, after them so many leaves that say they are empty, and
/// after these more.
fn cut_alike(
    alloc: Global,
    branchings: u32,
    branches: usize,
    leaves: usize,
    more: &str,
) -> Result<String, NoMemory> {
    let branches = "only 0 0\n".repeat(alloc, branches)?;
    let leaves = "empty\n".repeat(alloc, leaves)?;
    let text = format!(in alloc;
        "infeasible\nbranchings {branchings}\ntree\n{branches}{leaves}{more}end\n"
    )?;
    Ok(text)
}

/// Asserts the status and the line for such an answer with 4000 branches, to the day on which one unit stays.
fn expect_alike(
    rt: &impl Abort,
    alloc: Global,
    branchings: u32,
    leaves: usize,
    more: &str,
    status: u8,
    line: &str,
) -> Result<(), NoMemory> {
    let rest = cut_alike(alloc, branchings, 4000, leaves, more)?;
    expect_rest(rt, alloc, STAYING, rest.as_str(), status, line)
}

/// How many branchings are said in such an answer, how many leaves and which lines stand after its branches, the status
/// and the line.
const MOST_NODES: &[(u32, usize, &str, u8, &str)] = &[
    (4000, 4001, "", 1, "invalid: node 1 cuts nothing\n"),
    (4000, 4000, "", 1, "invalid: tree breaks at node 8000\n"),
    (0, 4001, "", 1, "invalid: 0 branchings said, 4000 found\n"),
    (4000, 4002, "", 3, "refused answer.txt: too many nodes\n"),
    // The nodes are lines 5 to 8005.
    (4000, 4001, "x\n", 3, "refused answer.txt: line 8006\n"),
];

#[test]
fn trees_of_the_most_nodes(rt: HostRuntime) -> Result<(), NoMemory> {
    for &(branchings, leaves, more, status, line) in MOST_NODES {
        expect_alike(&rt, rt.alloc(), branchings, leaves, more, status, line)?;
    }
    Ok(())
}

/// Answers whose rays are wrong, without their title, and the line for each.
const WRONG_RAYS: &[(&str, &str)] = &[
    (
        "infeasible\nbranchings 0\ntree\nray 1 4:1\nend\n",
        "invalid: node 0 has a wrong multiplier\n",
    ),
    (
        "infeasible\nbranchings 0\ntree\nray 1 0:-1\nend\n",
        "invalid: node 0 has a wrong multiplier\n",
    ),
    (
        "infeasible\nbranchings 0\ntree\nray 1 3:1\nend\n",
        "invalid: ray of node 0 is 0\n",
    ),
    (
        "infeasible\nbranchings 0\ntree\nray 1 3:-1\nend\n",
        "invalid: ray of node 0 is -1\n",
    ),
];

/// Answers whose head is wrong, without their title, and the line for each.
const WRONG_HEADS: &[(&str, &str)] = &[
    (
        "optimal 190\nbranchings 0\nrun 0 0 1\nrun 1 1\ntree\ncost 120 0\nend\n",
        "invalid: node 0 has bound 120 below 190\n",
    ),
    (
        "infeasible\nbranchings 0\ntree\ncost 120 0\nend\n",
        "invalid: node 0 is a cost leaf\n",
    ),
    (
        "bounded 119\nbranchings 0\ntree\ncost 120 0\nend\n",
        "invalid: bound 119 said, 120 found\n",
    ),
    (
        "bounded 121 plan 190\nbranchings 0\nrun 0 0 1\nrun 1 1\ntree\ncost 120 0\nend\n",
        "invalid: bound 121 said, 120 found\n",
    ),
    (
        "bounded 119 plan 190\nbranchings 0\nrun 0 0 1\nrun 1 1\ntree\ncost 120 0\nend\n",
        "invalid: bound 119 said, 120 found\n",
    ),
    (
        "bounded -1\nbranchings 0\ntree\ncost 120 0\nend\n",
        "invalid: bound -1 said, 120 found\n",
    ),
    (
        "bounded 120\nbranchings 0\ntree\ncost -80 1 3:-200\nend\n",
        "invalid: bound 120 said, -80 found\n",
    ),
    (
        "optimal 190\nbranchings 0\nrun 0 0 1\nrun 1 1\ntree\ncost -80 1 3:-200\nend\n",
        "invalid: node 0 has bound -80 below 190\n",
    ),
];

/// Answers with the greatest numbers that their lines may have, without their title, and the line for each.
const GREATEST_NUMBERS: &[(&str, &str)] = &[
    (
        "bounded 100000000000000000000\nbranchings 0\ntree\ncost 120 0\nend\n",
        "invalid: bound 100000000000000000000 said, 120 found\n",
    ),
    (
        "bounded -100000000000000000000\nbranchings 0\ntree\ncost 120 0\nend\n",
        "invalid: bound -100000000000000000000 said, 120 found\n",
    ),
    (
        "optimal 100000000000000000000\nbranchings 0\nrun 0 0 1\nrun 1 1\ntree\ncost 190 1 3:70\nend\n",
        "invalid: cost 100000000000000000000 said, 190 found\n",
    ),
    (
        "optimal 190\nbranchings 0\nrun 0 0 1\nrun 1 1999\ntree\ncost 190 1 3:70\nend\n",
        "invalid: run 1 names an unknown unit\n",
    ),
    (
        "bounded 120\nbranchings 0\ntree\ncost 100000000000000000000 0\nend\n",
        "invalid: node 0 says 100000000000000000000, found 120\n",
    ),
    (
        "bounded 120\nbranchings 0\ntree\ncost 120 1 999999:1000000000000\nend\n",
        "invalid: node 0 has a wrong multiplier\n",
    ),
    (
        "bounded 120\nbranchings 1\ntree\nonly 399 999\ncost 120 0\ncost 120 0\nend\n",
        "invalid: node 0 cuts nothing\n",
    ),
];

/// All answers in which something is wrong, and the line for each.
const WRONG: &[&[(&str, &str)]] = &[
    WRONG_PLANS,
    WRONG_TREES,
    WRONG_TWICE,
    WRONG_RAYS,
    WRONG_HEADS,
    GREATEST_NUMBERS,
];

#[test]
fn what_is_wrong_first_is_told(rt: HostRuntime) -> Result<(), NoMemory> {
    for cases in WRONG {
        expect_each(&rt, rt.alloc(), *cases, 1)?;
    }
    Ok(())
}

/// Answers that break off or go on after their end, without their title, and the line for each.
const WRONG_ENDS: &[(&str, &str)] = &[
    (
        "optimal 190\nbranchings 0\nrun 0 0 1\nrun 1 1\ntree\ncost 190 2 2:-45 3:45\n",
        "refused answer.txt: no end line\n",
    ),
    (
        "optimal 190\nbranchings 0\nrun 0 0 1\nrun 1 1\ntree\ncost 190 2 2:-45 3:45\nend\nend\n",
        "refused answer.txt: line 9 after the end\n",
    ),
    (
        "optimal 190\nbranchings 0\nrun 0 0 1\nrun 1 1\ntree\ncost 190 2 2:-45 3:45\nend\nx",
        "refused answer.txt: line 9 after the end\n",
    ),
    (
        "optimal 190\nbranchings 0\nrun 0 0 1\nrun 1 1\ntree\ncost 190 2 2:-45 3:45\nend",
        "refused answer.txt: line 8\n",
    ),
    (
        "optimal 190\nbranchings 0\nrun 0 0 1\nrun 1 1\ntree\ncost 190 2 2:-45 3:45",
        "refused answer.txt: line 7\n",
    ),
];

/// Days whose answer is an empty file, the status and the line for each.
const EMPTY_ANSWERS: &[(Day<'static>, u8, &str)] = &[
    (ONE_STAYS, 3, "refused answer.txt: no end line\n"),
    (
        Day {
            trips: None,
            ..ONE_STAYS
        },
        5,
        "cannot read trips.csv\n",
    ),
    (
        Day {
            types: Some("type\n"),
            ..ONE_STAYS
        },
        3,
        "refused types.csv: wrong header\n",
    ),
];

#[test]
fn files_that_are_refused(rt: HostRuntime) -> Result<(), NoMemory> {
    for (day, status, line) in EMPTY_ANSWERS {
        expect_check(&rt, rt.alloc(), day, "", *status, line)?;
    }
    expect_each(&rt, rt.alloc(), WRONG_ENDS, 3)
}

/// Answers without their title, and the number of the first line that does not fit, the title counted.
const WRONG_LINES: &[(&str, u32)] = &[
    (
        "optimal 0190\nbranchings 0\nrun 0 0 1\nrun 1 1\ntree\ncost 190 2 2:-45 3:45\nend\n",
        2,
    ),
    (
        "bounded 100000000000000000001\nbranchings 0\ntree\ncost 120 0\nend\n",
        2,
    ),
    ("bounded 120\nbranchings 4001\ntree\ncost 120 0\nend\n", 3),
    // Only an answer with a plan has run lines.
    (
        "bounded 120\nbranchings 0\nrun 0 0 1\ntree\ncost 120 0\nend\n",
        4,
    ),
    (
        "optimal 190\nbranchings 0\nrun 0 0 2000\ntree\ncost 190 0\nend\n",
        4,
    ),
    // A tree has a node.
    ("bounded 120\nbranchings 0\ntree\nend\n", 5),
    (
        "bounded 120\nbranchings 0\ntree\ncost 120 1 1000000:1\nend\n",
        5,
    ),
    (
        "bounded 120\nbranchings 1\ntree\nonly 400 0\ncost 120 0\ncost 120 0\nend\n",
        5,
    ),
    (
        "bounded 120\nbranchings 1\ntree\nonly 0 1000\ncost 120 0\ncost 120 0\nend\n",
        5,
    ),
    (
        "bounded 120\nbranchings 1\ntree\nmost 0 6 0\ncost 120 0\ncost 120 0\nend\n",
        5,
    ),
    (
        "bounded 120\nbranchings 1\ntree\nmost 0 0 6\ncost 120 0\ncost 120 0\nend\n",
        5,
    ),
];

/// Asserts that such an answer is refused for the line of this number.
fn expect_wrong_line(
    rt: &impl Abort,
    alloc: Global,
    rest: &str,
    number: u32,
) -> Result<(), NoMemory> {
    let line = format!(in alloc; "refused answer.txt: line {number}\n")?;
    expect_rest(rt, alloc, STAYING, rest, 3, line.as_str())
}

#[test]
fn lines_that_do_not_fit(rt: HostRuntime) -> Result<(), NoMemory> {
    for &(rest, number) in WRONG_LINES {
        expect_wrong_line(&rt, rt.alloc(), rest, number)?;
    }
    Ok(())
}

#[test]
fn the_line_of_an_answer_that_is_too_long(rt: HostRuntime) -> Result<(), NoMemory> {
    let outcome = Outcome::NoAnswer(AnswerError::TooLong);
    let line = document(rt.alloc(), &outcome)?;
    assert!(rt; line.as_slice() == b"refused answer.txt: too long\n".as_slice());
    Ok(())
}
