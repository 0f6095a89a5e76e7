//! Printed answers that are read again: as they are, they are valid. Spoiled at a byte or a line, they are valid only
//! where what they say is still true, and else they are refused or found wrong.

use crate::day::{
    AMPLE_ROOM, BASE_DAY, BOTH_STAY, CHEAP_SHUNTING, Day, NORTHPORT, ONE_STAYS, RING, TWO_TRIPS,
    TWO_TYPES, ample_sink, expect_answered, folder_of, folder_with_bytes, status_of,
};
use rail_base::NoMemory;
use rail_io::{MemoryFolder, MemorySink};
use std::alloc::Global;
use std::process::Abort;

/// Words that check the answer of a day.
const CHECK: &[&str] = &["railplan", "check", "day"];

/// The bytes that are put in place of another.
const OTHERS: [u8; 4] = *b"09-\n";

/// A day, and the costs of its plans that run, as they are found by hand; there is none where no plan runs.
#[derive(Clone, Copy)]
struct Known<'a> {
    day: Day<'a>,
    costs: &'a [i64],
}

/// What is written over a folder by these words.
fn written(
    rt: &impl Abort,
    alloc: Global,
    folder: &mut MemoryFolder,
    words: &[&str],
) -> Result<Vec<u8>, NoMemory> {
    let mut out = ample_sink(alloc, 10_000)?;
    status_of(rt, alloc, words, folder, &mut out)?;
    Ok(out.written().to_vec(alloc)?)
}

/// What is written of a day that is planned by these words.
fn printed(rt: &impl Abort, alloc: Global, day: &Day, words: &[&str]) -> Result<Vec<u8>, NoMemory> {
    let mut folder = folder_of(rt, alloc, day, Vec::new(alloc))?;
    written(rt, alloc, &mut folder, words)
}

/// The bytes as a text.
fn text_of<'a>(rt: &impl Abort, bytes: &'a [u8]) -> &'a str {
    let Ok(text) = str::from_utf8(bytes) else {
        panic!(rt; "what is written is a text");
    };
    text
}

/// What is told of an answer that is valid: its second line.
fn told(rt: &impl Abort, alloc: Global, answer: &str) -> Result<String, NoMemory> {
    let Some(head) = answer.lines().nth(1) else {
        panic!(rt; "an answer has a second line");
    };
    Ok(format!(in alloc; "valid {head}\n")?)
}

/// Asserts that an answer to a day is valid when it is read, and that its second line is told.
fn expect_told(rt: &impl Abort, alloc: Global, day: &Day, answer: &str) -> Result<(), NoMemory> {
    let told = told(rt, alloc, answer)?;
    expect_answered(rt, alloc, "check", day, answer, 0, told.as_str())
}

/// Asserts that what is written of a day is valid when it is read again, and that its second line is told.
fn expect_valid(rt: &impl Abort, alloc: Global, day: &Day, words: &[&str]) -> Result<(), NoMemory> {
    let answer = printed(rt, alloc, day, words)?;
    expect_told(rt, alloc, day, text_of(rt, answer.as_slice()))
}

/// Whether no plan that runs costs less than this number.
fn is_bound(costs: &[i64], number: &str) -> bool {
    let Ok(bound) = number.parse::<i64>() else {
        return false;
    };
    for cost in costs {
        if *cost < bound {
            return false;
        }
    }
    true
}

/// Whether some plan that runs costs this number.
fn is_cost(costs: &[i64], number: &str) -> bool {
    match number.parse::<i64>() {
        Ok(cost) => costs.contains(&cost),
        Err(_) => false,
    }
}

/// Whether the second line of an answer is true of plans that have these costs.
fn is_true(costs: &[i64], head: &str) -> bool {
    if head == "infeasible" {
        return costs.is_empty();
    }
    if let Some(cost) = head.strip_prefix("optimal ") {
        return is_bound(costs, cost) && is_cost(costs, cost);
    }
    let Some(bounds) = head.strip_prefix("bounded ") else {
        return false;
    };
    match bounds.split_once(" plan ") {
        Some((bound, cost)) => is_bound(costs, bound) && is_cost(costs, cost),
        None => is_bound(costs, bounds),
    }
}

/// Whether a line says that an answer is valid, and what it says of the answer is true.
fn is_valid_and_true(costs: &[i64], line: &str) -> bool {
    let Some(head) = line.strip_prefix("valid ") else {
        return false;
    };
    match head.strip_suffix("\n") {
        Some(head) => is_true(costs, head),
        None => false,
    }
}

/// Whether the status and the line of a check say that an answer is refused, or is invalid, or says what is true of
/// plans that have these costs.
fn says_nothing_false(costs: &[i64], status: u8, line: &str) -> bool {
    match status {
        0 => is_valid_and_true(costs, line),
        1 => line.starts_with("invalid: "),
        3 => line.starts_with("refused answer.txt: "),
        _ => false,
    }
}

/// Asserts that the answer in a folder is refused, or is invalid, or says what is true of plans that have these costs.
fn expect_nothing_false_in(
    rt: &impl Abort,
    alloc: Global,
    costs: &[i64],
    folder: &mut MemoryFolder,
) -> Result<(), NoMemory> {
    let mut out = ample_sink(alloc, AMPLE_ROOM)?;
    expect_nothing_false_into(rt, alloc, costs, folder, &mut out)
}

/// Asserts likewise, over a sink.
fn expect_nothing_false_into(
    rt: &impl Abort,
    alloc: Global,
    costs: &[i64],
    folder: &mut MemoryFolder,
    out: &mut MemorySink,
) -> Result<(), NoMemory> {
    let status = status_of(rt, alloc, CHECK, folder, out)?;
    assert!(rt; says_nothing_false(costs, status, text_of(rt, out.written())));
    Ok(())
}

/// Asserts that bytes are refused as an answer to a day, or are invalid, or say what is true.
fn expect_nothing_false(
    rt: &impl Abort,
    alloc: Global,
    known: &Known,
    answer: &[u8],
) -> Result<(), NoMemory> {
    let mut folder = folder_with_bytes(rt, alloc, &known.day, "day/answer.txt", answer)?;
    expect_nothing_false_in(rt, alloc, known.costs, &mut folder)
}

/// The parts of an answer, one after another.
fn joined(alloc: Global, parts: [&[u8]; 3]) -> Result<Vec<u8>, NoMemory> {
    let mut answer = Vec::new(alloc);
    for part in parts {
        answer.extend_from_slice(part)?;
    }
    Ok(answer)
}

/// Asserts that an answer says nothing false which has other bytes in place of one.
fn expect_spoiled_byte(
    rt: &impl Abort,
    alloc: Global,
    known: &Known,
    front: &[u8],
    others: &[u8],
    back: &[u8],
) -> Result<(), NoMemory> {
    let answer = joined(alloc, [front, others, back])?;
    expect_nothing_false(rt, alloc, known, answer.as_slice())
}

/// Asserts that an answer says nothing false where any one byte is another, or is left out.
fn expect_spoiled_bytes(
    rt: &impl Abort,
    alloc: Global,
    known: &Known,
    answer: &[u8],
) -> Result<(), NoMemory> {
    for place in 0..answer.len() {
        let (front, rest) = answer.split_at(place);
        let Some((_, back)) = rest.split_first() else {
            return Ok(());
        };
        for other in OTHERS {
            expect_spoiled_byte(rt, alloc, known, front, &[other], back)?;
        }
        expect_spoiled_byte(rt, alloc, known, front, &[], back)?;
    }
    Ok(())
}

/// The answer of these lines, of which the one at a place stands so often.
fn with_repeated_line(
    alloc: Global,
    lines: &[&str],
    place: usize,
    times: u32,
) -> Result<String, NoMemory> {
    let mut answer = String::new(alloc);
    for (at, line) in lines.iter().enumerate() {
        let times = if at == place { times } else { 1 };
        for _ in 0..times {
            write!(&mut answer, "{line}\n")?;
        }
    }
    Ok(answer)
}

/// Asserts that an answer says nothing false where the line at a place stands so often.
fn expect_repeated_line(
    rt: &impl Abort,
    alloc: Global,
    known: &Known,
    lines: &[&str],
    place: usize,
    times: u32,
) -> Result<(), NoMemory> {
    let answer = with_repeated_line(alloc, lines, place, times)?;
    expect_nothing_false(rt, alloc, known, answer.as_bytes())
}

/// The place of the line that stands at a place where two lines are exchanged.
fn exchanged(at: usize, one: usize, other: usize) -> usize {
    if at == one {
        other
    } else if at == other {
        one
    } else {
        at
    }
}

/// The answer of these lines, of which two stand at one another's places.
fn with_exchanged_lines(
    alloc: Global,
    lines: &[&str],
    one: usize,
    other: usize,
) -> Result<String, NoMemory> {
    let mut answer = String::new(alloc);
    for (at, line) in lines.iter().enumerate() {
        let line = lines.get(exchanged(at, one, other)).unwrap_or(line);
        write!(&mut answer, "{line}\n")?;
    }
    Ok(answer)
}

/// Asserts that an answer says nothing false where two lines stand at one another's places.
fn expect_exchanged_lines(
    rt: &impl Abort,
    alloc: Global,
    known: &Known,
    lines: &[&str],
    one: usize,
    other: usize,
) -> Result<(), NoMemory> {
    let answer = with_exchanged_lines(alloc, lines, one, other)?;
    expect_nothing_false(rt, alloc, known, answer.as_bytes())
}

/// The lines of a text.
fn lines_of<'a>(alloc: Global, text: &'a str) -> Result<Vec<&'a str>, NoMemory> {
    let mut lines = Vec::new(alloc);
    for line in text.lines() {
        lines.push(line)?;
    }
    Ok(lines)
}

/// Asserts that an answer says nothing false where the line at a place is left out or stands twice, and where it and
/// one before it stand at one another's places.
fn expect_spoiled_line(
    rt: &impl Abort,
    alloc: Global,
    known: &Known,
    lines: &[&str],
    one: usize,
) -> Result<(), NoMemory> {
    expect_repeated_line(rt, alloc, known, lines, one, 0)?;
    expect_repeated_line(rt, alloc, known, lines, one, 2)?;
    for other in 0..one {
        expect_exchanged_lines(rt, alloc, known, lines, one, other)?;
    }
    Ok(())
}

/// Asserts that an answer says nothing false where any one line is left out or stands twice, and where any two lines
/// stand at one another's places.
fn expect_spoiled_lines(
    rt: &impl Abort,
    alloc: Global,
    known: &Known,
    answer: &str,
) -> Result<(), NoMemory> {
    let lines = lines_of(alloc, answer)?;
    for one in 0..lines.len() {
        expect_spoiled_line(rt, alloc, known, lines.as_slice(), one)?;
    }
    Ok(())
}

/// Asserts that an answer begins with this line under its title.
fn expect_head(rt: &impl Abort, alloc: Global, answer: &[u8], head: &str) -> Result<(), NoMemory> {
    let front = format!(in alloc; "railplan answer 1\n{head}\n")?;
    assert!(rt; answer.starts_with(front.as_bytes()));
    Ok(())
}

/// Asserts that an answer begins with this line under its title, and says nothing false however it is spoiled.
fn expect_spoiled_answer(
    rt: &impl Abort,
    alloc: Global,
    known: &Known,
    answer: &[u8],
    head: &str,
) -> Result<(), NoMemory> {
    expect_head(rt, alloc, answer, head)?;
    expect_spoiled_bytes(rt, alloc, known, answer)?;
    expect_spoiled_lines(rt, alloc, known, text_of(rt, answer))
}

/// Asserts that what is written of a day begins with this line under its title, and says nothing false however it is
/// spoiled.
fn expect_spoiled(
    rt: &impl Abort,
    alloc: Global,
    known: &Known,
    words: &[&str],
    head: &str,
) -> Result<(), NoMemory> {
    let answer = printed(rt, alloc, &known.day, words)?;
    expect_spoiled_answer(rt, alloc, known, answer.as_slice(), head)
}

/// Words that grant what is usual.
const USUAL: &[&str] = &["railplan", "plan", "day"];

/// Words that grant one branching alone.
const FEW: &[&str] = &["railplan", "plan", "day", "--nodes", "1", "--rounds", "0"];

/// Days and the words that plan them.
const PRINTED: &[(Day<'static>, &[&str])] = &[
    (BASE_DAY, USUAL),
    (ONE_STAYS, USUAL),
    (BOTH_STAY, USUAL),
    (TWO_TRIPS, USUAL),
    (TWO_TYPES, USUAL),
    (RING, USUAL),
    (NORTHPORT, USUAL),
    (ONE_STAYS, FEW),
    (BOTH_STAY, FEW),
    (CHEAP_SHUNTING, FEW),
    (NORTHPORT, FEW),
];

#[test]
fn printed_answers_are_valid(rt: HostRuntime) -> Result<(), NoMemory> {
    for (day, words) in PRINTED {
        expect_valid(&rt, rt.alloc(), day, *words)?;
    }
    Ok(())
}

/// Days with what is known of them, the words that plan them, and the second line of the answer.
const SPOILED: &[(Known<'static>, &[&str], &str)] = &[
    (
        Known {
            day: ONE_STAYS,
            costs: &[190],
        },
        USUAL,
        "optimal 190",
    ),
    (
        Known {
            day: CHEAP_SHUNTING,
            costs: &[120, 1060],
        },
        FEW,
        "bounded 100 plan 1060",
    ),
    (
        Known {
            day: BOTH_STAY,
            costs: &[],
        },
        USUAL,
        "infeasible",
    ),
];

#[test]
fn spoiled_answers_say_nothing_false(rt: HostRuntime) -> Result<(), NoMemory> {
    for (known, words, head) in SPOILED {
        expect_spoiled(&rt, rt.alloc(), known, *words, head)?;
    }
    Ok(())
}
