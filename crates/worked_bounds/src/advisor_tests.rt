//! What the advisors that are there propose, and what a proposal refuses.

use advisors::{Advisor, Diver, Look, Proposal, Subgradient};
use branch_tree::{Cut, Entry, Multipliers, Slacks};
use rail_base::{CompNo, Money, NoMemory, TripNo};
use std::alloc::{AllocError, Global};
use std::test::Fail;
use timetable::Picks;

/// The slacks of picks.
#[derive(Clone, Copy)]
enum Slack {
    /// None.
    Absent,
    /// A unit too few at the end of one station, and one too many at that of another.
    TwoEnds,
    /// Three: the first negative, the second positive, the third negative.
    Three,
}

/// A multiplier of each index from one number to before another.
struct Run {
    from: u32,
    to: u32,
    value: i64,
}

/// Rounds of a subgradient at a node, and what is told of them: for each round the word, the cut, how many multipliers
/// are proposed, and their values at some indices; in the end how often the subgradient was asked, and whether it quit.
struct Rounds {
    /// For how many indices it proposes.
    indices: u32,
    /// The multipliers of the evaluation before the first round.
    multipliers: &'static [Run],
    /// Whether the next rounds go on from what was proposed, and not from these too.
    goes_on: bool,
    slacks: Slack,
    /// The number of each round, and the bound with no multipliers.
    rounds: &'static [(u8, i128)],
    /// The indices whose values are told.
    at: &'static [u32],
    told: &'static str,
}

/// The rounds of subgradients.
const ROUNDS: &[Rounds] = &[
    Rounds {
        indices: 4,
        multipliers: &[],
        goes_on: true,
        slacks: Slack::TwoEnds,
        rounds: &[(0, 120), (1, 120)],
        at: &[0, 1, 2, 3],
        told: "More, None, 2: 0 0 -30 30\nMore, None, 2: 0 0 -45 45\n2 false\n",
    },
    // Within their limits.
    Rounds {
        indices: 4,
        multipliers: &[
            Run {
                from: 0,
                to: 1,
                value: 5,
            },
            Run {
                from: 3,
                to: 4,
                value: -7,
            },
        ],
        goes_on: false,
        slacks: Slack::Three,
        rounds: &[(0, i128::MIN), (0, -3)],
        at: &[0, 1, 2, 3],
        told: "More, None, 3: 0 1000000000000 -1000000000000 -7\nMore, None, 4: 4 1 -1 -7\n2 false\n",
    },
    // Without room for all.
    Rounds {
        indices: 2_000,
        multipliers: &[Run {
            from: 4,
            to: 1_004,
            value: 1,
        }],
        goes_on: false,
        slacks: Slack::TwoEnds,
        rounds: &[(0, 120)],
        at: &[0, 1, 2, 3, 1_001, 1_002],
        told: "More, None, 1000: 0 0 -30 30 1 0\n1 false\n",
    },
    // Nothing without slacks.
    Rounds {
        indices: 4,
        multipliers: &[Run {
            from: 3,
            to: 4,
            value: 30,
        }],
        goes_on: false,
        slacks: Slack::Absent,
        rounds: &[(0, 120)],
        at: &[0, 1, 2, 3],
        told: "Enough, None, 0: 0 0 0 0\n1 false\n",
    },
];

/// What an evaluation of a node gave.
#[derive(Drop)]
struct Evaluated {
    multipliers: Multipliers,
    picks: Picks,
    slacks: Slacks,
}

impl Evaluated {
    /// A look in a round at the node, whose bound with no multipliers is `first`. A multiplier may be negative from
    /// index 2 on.
    fn look<'a>(&'a self, round: u8, first: i128, sizes: &'a [u32]) -> Look<'a> {
        Look {
            round,
            sizes,
            first: Money(first),
            kept: Money(first),
            last: Money(first),
            multipliers: &self.multipliers,
            picks: &self.picks,
            slacks: &self.slacks,
            free_from: 2,
        }
    }
}

/// Multipliers of these runs.
fn multipliers_of(alloc: Global, runs: &[Run]) -> Result<Multipliers, Fail> {
    let mut multipliers = Multipliers::new(alloc)?;
    for run in runs {
        for index in run.from..run.to {
            multipliers.put(index, run.value)?;
        }
    }
    Ok(multipliers)
}

/// The slacks of these picks.
fn slacks_of(alloc: Global, slack: Slack) -> Result<Slacks, NoMemory> {
    let mut slacks = Slacks::new(alloc)?;
    match slack {
        Slack::Absent => {}
        Slack::TwoEnds => {
            slacks.put(Entry {
                index: 2,
                value: -1,
            });
            slacks.put(Entry { index: 3, value: 1 });
        }
        Slack::Three => {
            slacks.put(Entry {
                index: 0,
                value: -1,
            });
            slacks.put(Entry { index: 1, value: 1 });
            slacks.put(Entry {
                index: 2,
                value: -1,
            });
        }
    }
    Ok(slacks)
}

/// The evaluation before the first of some rounds.
fn evaluated_before(alloc: Global, row: &Rounds) -> Result<Evaluated, Fail> {
    Ok(Evaluated {
        multipliers: multipliers_of(alloc, row.multipliers)?,
        picks: Picks::new(alloc, 2)?,
        slacks: slacks_of(alloc, row.slacks)?,
    })
}

/// Writes the values of multipliers at these indices.
fn write_values(
    text: &mut String,
    multipliers: &Multipliers,
    indices: &[u32],
) -> Result<(), AllocError> {
    for index in indices {
        write!(text, " {}", multipliers.value(*index))?;
    }
    text.push_str("\n")
}

/// Asks a subgradient, and writes its word.
fn write_word(
    text: &mut String,
    subgradient: &mut Subgradient,
    look: &Look<'_>,
    to: &mut Proposal,
) -> Result<(), Fail> {
    if subgradient.asked() == u64::MAX {
        return Err(Fail::new("it was asked too often"));
    }
    let word = subgradient.advise(look, to)?;
    Ok(write!(text, "{word:?}")?)
}

/// Writes what is proposed: the cut, how many multipliers there are, and their values at these indices.
fn write_proposal(text: &mut String, proposal: &Proposal, at: &[u32]) -> Result<(), AllocError> {
    let multipliers = proposal.multipliers();
    write!(text, ", {:?}, {}:", proposal.asked_cut(), multipliers.len())?;
    write_values(text, multipliers, at)
}

/// Asks a subgradient in these rounds, and writes what is told of them.
fn write_rounds(
    text: &mut String,
    alloc: Global,
    row: &Rounds,
    evaluated: &mut Evaluated,
    proposal: &mut Proposal,
) -> Result<(), Fail> {
    let mut subgradient = Subgradient::new();
    for (round, first) in row.rounds {
        proposal.clear();
        let look = evaluated.look(*round, *first, &[2, 2]);
        write_word(text, &mut subgradient, &look, proposal)?;
        write_proposal(text, proposal, row.at)?;
        if row.goes_on {
            evaluated.multipliers = proposal.multipliers().copy(alloc)?;
        }
    }
    let quit = subgradient.has_quit();
    Ok(write!(text, "{} {quit}\n", subgradient.asked())?)
}

/// What is told of the rounds of a subgradient that begin from an evaluation.
fn told_from(alloc: Global, row: &Rounds, evaluated: &mut Evaluated) -> Result<String, Fail> {
    let mut text = String::new(alloc);
    let mut proposal = Proposal::new(alloc, row.indices, 2)?;
    write_rounds(&mut text, alloc, row, evaluated, &mut proposal)?;
    Ok(text)
}

/// What is told of the rounds of a subgradient.
fn told(alloc: Global, row: &Rounds) -> Result<String, Fail> {
    let mut evaluated = evaluated_before(alloc, row)?;
    told_from(alloc, row, &mut evaluated)
}

#[test]
fn subgradients_are_asked(rt: HostRuntime) -> Result<(), Fail> {
    for row in ROUNDS {
        let text = told(rt.alloc(), row)?;
        assert!(rt; text.as_str() == row.told, "{text}");
    }
    Ok(())
}

/// How many compositions are left for each of four trips, and the cut that a diver proposes.
const DIVES: &[(&[u32], &str)] = &[
    (
        &[1, 3, 2, 2],
        "Some(Only { trip: TripNo(2), comp: CompNo(1) })",
    ),
    (
        &[3, 4, 3, 1],
        "Some(Only { trip: TripNo(0), comp: CompNo(0) })",
    ),
    (&[1, 1, 0, 1], "None"),
];

/// An evaluation of four trips, with no multipliers and no slacks, and with composition 1 for the third trip.
fn evaluated_dive(alloc: Global) -> Result<Evaluated, NoMemory> {
    let mut picks = Picks::new(alloc, 4)?;
    picks.set(TripNo(2), CompNo(1));
    Ok(Evaluated {
        multipliers: Multipliers::new(alloc)?,
        picks,
        slacks: Slacks::new(alloc)?,
    })
}

/// The cut that a diver proposes where it is shown this.
fn dive_at(alloc: Global, look: &Look<'_>) -> Result<Option<Cut>, NoMemory> {
    let mut proposal = Proposal::new(alloc, 4, 2)?;
    Diver::new().advise(look, &mut proposal)?;
    Ok(proposal.asked_cut())
}

/// The cut that a diver proposes where so many compositions are left for each of four trips.
fn dive(alloc: Global, sizes: &[u32]) -> Result<Option<Cut>, NoMemory> {
    let evaluated = evaluated_dive(alloc)?;
    dive_at(alloc, &evaluated.look(0, 120, sizes))
}

/// The cut that a diver proposes, as a text.
fn dive_told(alloc: Global, sizes: &[u32]) -> Result<String, Fail> {
    Ok(format!(in alloc; "{:?}", dive(alloc, sizes)?)?)
}

#[test]
fn cuts_of_the_narrowest_trip(rt: HostRuntime) -> Result<(), Fail> {
    for (sizes, wanted) in DIVES {
        let text = dive_told(rt.alloc(), *sizes)?;
        assert!(rt; text.as_str() == *wanted, "{text}");
    }
    Ok(())
}

/// Values that are put at indices of a proposal, one after another, and what is told of them: what each put answers,
/// and the values at some indices in the end.
struct Puts {
    /// For how many indices it proposes, and the first at which a multiplier may be negative.
    indices: u32,
    free_from: u32,
    /// How many of its first indices have the value 1 before.
    filled: u32,
    puts: &'static [(u32, i64)],
    /// The indices whose values are told.
    at: &'static [u32],
    told: &'static str,
}

/// Puts into proposals.
const PUTS: &[Puts] = &[
    Puts {
        indices: 4,
        free_from: 2,
        filled: 0,
        puts: &[
            (4, -1),
            (1, -1_000_000_000_001),
            (2, -1_000_000_000_001),
            (3, 70),
        ],
        at: &[0, 1, 2, 3],
        told: "Err(NoIndex)\nErr(Negative)\nErr(TooLarge)\nOk(())\n 0 0 0 70\n",
    },
    // No index, and not negative either.
    Puts {
        indices: 2,
        free_from: 4,
        filled: 0,
        puts: &[(3, -1), (1, -1)],
        at: &[1],
        told: "Err(NoIndex)\nErr(Negative)\n 0\n",
    },
    // With as many as there may be.
    Puts {
        indices: 1_001,
        free_from: 2,
        filled: 1_000,
        puts: &[(1_000, 1_000_000_000_001), (1_000, 1), (1_000, 0), (999, 7)],
        at: &[998, 999, 1_000],
        told: "Err(TooLarge)\nErr(Full)\nOk(())\nOk(())\n 1 7 0\n",
    },
];

/// Puts these values, and writes what each put answers.
fn write_puts(
    text: &mut String,
    proposal: &mut Proposal,
    puts: &[(u32, i64)],
) -> Result<(), AllocError> {
    for (index, value) in puts {
        write!(text, "{:?}\n", proposal.put(*index, *value))?;
    }
    Ok(())
}

/// The proposal of a row before its puts.
fn filled_proposal(alloc: Global, row: &Puts) -> Result<Proposal, Fail> {
    let mut proposal = Proposal::new(alloc, row.indices, row.free_from)?;
    for index in 0..row.filled {
        proposal.put(index, 1)?;
    }
    Ok(proposal)
}

/// What is told of the puts.
fn puts_told(alloc: Global, row: &Puts) -> Result<String, Fail> {
    let mut text = String::new(alloc);
    let mut proposal = filled_proposal(alloc, row)?;
    write_puts(&mut text, &mut proposal, row.puts)?;
    write_values(&mut text, proposal.multipliers(), row.at)?;
    Ok(text)
}

#[test]
fn refusals_of_a_proposal(rt: HostRuntime) -> Result<(), Fail> {
    for row in PUTS {
        let text = puts_told(rt.alloc(), row)?;
        assert!(rt; text.as_str() == row.told, "{text}");
    }
    Ok(())
}
