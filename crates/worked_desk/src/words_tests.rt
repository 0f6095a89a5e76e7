//! Words that the desk understands, and words that it doesn't.

use crate::desk::expect;
use rail_base::NoMemory;
use sample_days::{TURN, Texts};

/// The day of a turn, to be borrowed.
const DAY: &Texts<'static> = &TURN;

/// Words of the plain form of `plan`, in any order, with numbers at their limits and with zeros in front.
const PLAIN_WORDS: &[&[&str]] = &[
    &["plan", "day"],
    &["plan", "day", "--nodes", "4000", "--rounds", "100"],
    &["plan", "--rounds=0", "day", "--evaluations=100000"],
    &["plan", "--progress", "day"],
    &[
        "plan",
        "--evaluations",
        "0",
        "--progress",
        "day",
        "--nodes=0",
    ],
    &[
        "plan",
        "--nodes",
        "0000000001",
        "--progress",
        "--rounds",
        "1",
        "day",
    ],
];

#[test]
fn words_in_any_order_plan_a_day(rt: HostRuntime) -> Result<(), NoMemory> {
    let answer =
        "railplan answer 1\noptimal 120\nbranchings 0\nrun 0 0 1\nrun 1 1 0\ntree\ncost 120 0\nend\n";
    for words in PLAIN_WORDS {
        expect(&rt, rt.alloc(), DAY, *words, 0, answer)?;
    }
    Ok(())
}

/// Words of no plain form: another command or none, a folder too few or too many, numbers over their limits or none,
/// options given twice, with no value or with one that they don't have, and options of other commands.
const OTHER_WORDS: &[&[&str]] = &[
    &[],
    &["plan"],
    &["plan", ""],
    &["plan", "day", "day"],
    &["plans", "day"],
    &["simulate", "day"],
    &["plan", "day", "--nodes", "4001"],
    &["plan", "day", "--rounds=101"],
    &["plan", "day", "--evaluations", "100001"],
    &["plan", "day", "--evaluations", "00000000000"],
    &["plan", "day", "--evaluations="],
    &["plan", "day", "--evaluations", "-1"],
    &["plan", "day", "--evaluations", "5", "--evaluations=5"],
    &["plan", "day", "--evaluations"],
    &["plan", "day", "--progress", "--progress"],
    &["plan", "day", "--progress=yes"],
    &["plan", "day", "--change", "5"],
    &["plan", "day", "--help"],
    &["urgent"],
    &["urgent", "day", "day"],
    &["urgent", "day", "--nodes", "5"],
    &["urgent", "day", "--progress"],
    &["replan", "day"],
    &["replan", "day", "08:30", "09:30"],
    &["replan", "day", "48:00"],
    &["replan", "day", "8:5"],
    &["replan", "08:30", "day"],
    &["replan", "day", "08:30", "--change", "1000001"],
    &["replan", "day", "08:30", "--nodes", "4001"],
    &["replan", "day", "08:30", "--progress"],
];

#[test]
fn other_words_are_not_understood(rt: HostRuntime) -> Result<(), NoMemory> {
    for words in OTHER_WORDS {
        expect(&rt, rt.alloc(), DAY, *words, 2, "usage\n")?;
    }
    Ok(())
}
