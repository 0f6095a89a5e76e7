//! The text of the answer to a week, line by line.

ghost use Rattle.std.specs.Prelude.{◌≡◌, ◌++◌, ◌∷◌, [], IfOk, OnOk, string_bytes, unwrap_or};
ghost use Rattle.answer_text.specs.Lines.{Adds, text_of_lines};
ghost use Rattle.week_text.specs.WeekLines.{answers_lines, day_line, day_lines, names_lines, names_of_day};
ghost use Rattle.week_text.specs.WeekLines.{week_line, week_text};

use answer_text::{Answer, Head, print, write_head};
use rail_base::{NoMemory, UnitNo};
use std::alloc::Global;
use week_plan::Week;
use week_units::{UnitNames, WeekNames};

/// The document of the answer to a week: what it says of all week plans; for each day that has an answer, its number,
/// counted from 1, and the document of its answer; where there is a plan, for each day which unit of the week each unit
/// of the day is, by the numbers of the day's units; and `end`. The error is want of memory.
pub fn print_week(alloc: Global, week: &Week) -> Result<Vec<u8>, NoMemory>
    ensures { IfOk result (λ text. text.items ≡ week_text week.now) }
{
    let mut text = said_line(alloc, &week.head)?;
    write_answers(alloc, &mut text, week.days.items())?;
    write_named(alloc, &mut text, &week.named)?;
    text.extend_from_slice(b"end\n")?;
    Ok(text)
}

/// The line that tells what the answer says.
fn said_line(alloc: Global, head: &Head) -> Result<Vec<u8>, NoMemory>
    ensures { IfOk result (λ text. text.items ≡ text_of_lines (week_line head.now ∷ [])) }
{
    let mut line = String::from_str(alloc, "week ")?;
    write_head(&mut line, head)?;
    Ok(line.into_bytes())
}

/// Adds the answers to the days, one after another.
fn write_answers(alloc: Global, text: &mut Vec<u8>, answers: &[Answer]) -> Result<(), NoMemory>
    ensures { OnOk result (Adds text.old.items text.new.items (answers_lines 1 answers.now)) }
{
    for place in 0..answers.len() {
        write_answer(alloc, text, place + 1, &answers[place])?;
    }
    Ok(())
}

/// Adds the answer to the day of this number.
fn write_answer(
    alloc: Global,
    text: &mut Vec<u8>,
    day: usize,
    answer: &Answer,
) -> Result<(), NoMemory>
    ensures { OnOk result (Adds text.old.items text.new.items (day_lines day answer.now)) }
{
    let line = day_line(alloc, day)?;
    let document = print(alloc, answer)?;
    text.extend_from_slice(line.as_slice())?;
    text.extend_from_slice(document.as_slice())?;
    Ok(())
}

/// The line of a day's number.
fn day_line(alloc: Global, day: usize) -> Result<Vec<u8>, NoMemory>
    ensures { IfOk result (λ text. text.items ≡ text_of_lines (day_line day ∷ [])) }
{
    Ok(format!(in alloc; "day {day}\n")?.into_bytes())
}

/// Adds the names of the units on each day, where they have some.
fn write_named(alloc: Global, text: &mut Vec<u8>, named: &Option<WeekNames>) -> Result<(), NoMemory>
    ensures { OnOk result (Adds text.old.items text.new.items (names_lines 1 (unwrap_or named.now []))) }
{
    match named {
        Some(named) => write_names(alloc, text, named.items()),
        None => Ok(()),
    }
}

/// Adds the names of the units on these days.
fn write_names(alloc: Global, text: &mut Vec<u8>, days: &[UnitNames]) -> Result<(), NoMemory>
    ensures { OnOk result (Adds text.old.items text.new.items (names_lines 1 days.now)) }
{
    for place in 0..days.len() {
        let line = names_line(alloc, place + 1, days[place].items())?;
        text.extend_from_slice(line.as_slice())?;
    }
    Ok(())
}

/// The line of the names of the units on the day of this number.
fn names_line(alloc: Global, day: usize, names: &[UnitNo]) -> Result<Vec<u8>, NoMemory>
    ensures { IfOk result (λ text. text.items ≡ text_of_lines (names_of_day day names.now)) }
{
    let mut line = format!(in alloc; "names {day}")?;
    for name in names {
        write!(line, " {}", name.0)?;
    }
    line.push_str("\n")?;
    Ok(line.into_bytes())
}
