//! The command that the words of a command line make.

ghost use Rattle.std.specs.Prelude.{ℕ, List, ◌≡◌, ◌≤◌, IfOk, codes, length, map};
ghost use Rattle.plain_words.specs.Commands.{Reads};
ghost use Rattle.plain_words.specs.Items.{positional_in, times};
ghost use Rattle.desk_commands.specs.PlainForm.{IsFleetPlanning, IsPlainForm, IsPlanning, IsReplanning, IsSwapping};
ghost use Rattle.desk_commands.specs.PlainForm.{IsWeekPlanning, fleet_form, folder_form, plan_form, replan_form};
ghost use Rattle.desk_commands.specs.PlainForm.{week_form};
ghost use Rattle.desk_commands.specs.Reading.{ReadsAs, ReadsCommand, SaysAs};

use crate::command::Command;
use crate::fleet_planning::{
    FleetPlanning, MAX_NODES_OF_FLEET, MAX_SPLITS_OF_FLEET, USUAL_EVALUATIONS_OF_FLEET,
    USUAL_NODES_OF_FLEET, USUAL_ROUNDS_OF_FLEET, USUAL_SPLITS_OF_FLEET,
};
use crate::planning::{
    MAX_EVALUATIONS, Planning, USUAL_EVALUATIONS_OF_PLAN, USUAL_NODES_OF_PLAN, USUAL_ROUNDS_OF_PLAN,
};
use crate::replanning::{
    Replanning, USUAL_CHANGE, USUAL_EVALUATIONS_OF_REPLAN, USUAL_NODES_OF_REPLAN,
    USUAL_ROUNDS_OF_REPLAN,
};
use crate::swapping::Swapping;
use crate::week_planning::{
    MAX_DAYS_OF_WEEK, USUAL_EVALUATIONS_OF_WEEK, USUAL_NODES_OF_WEEK, USUAL_ROUNDS_OF_WEEK,
    WeekPlanning,
};
use plain_words::{Form, GivenWords, Text, WordsRefusal, number, read_form, words_after};
use rail_base::limits::{MAX_BRANCHINGS, MAX_CHANGE, MAX_ROUNDS};
use rail_base::{NoMemory, Words};
use rail_csv::time_of;
use std::alloc::Global;

/// Reads the words of a command line, of which the first stands for the program's name and is not looked at.
///
/// After it comes the command word, and after that, in any mixture, its positional words in their order, which are not
/// empty and don't begin with `-`, and each of its options at most once; one that has a value as two words
/// (`--nodes 5`) or as one (`--nodes=5`). Numbers are 1 to 10 digits.
///
/// - `plan DIR [--nodes N] [--rounds K] [--evaluations E] [--progress]`. N is at most 4,000, and 200 where it is not
///   given; K is at most 100, and else 0; E is at most 100,000, and else 500.
/// - `urgent DIR`.
/// - `replan DIR NOW [--change W] [--nodes N] [--rounds K] [--evaluations E]`. NOW is a time: one or two digits of the
///   hour 0 to 47, a colon, and two digits of the minute. W is at most 1,000,000, and 0 where it is not given; N is at
///   most 4,000, and else 200; K is at most 100, and else 20; E is at most 100,000, and else 0.
/// - `week DIR DAYS [--nodes N] [--rounds K] [--evaluations E]`. DAYS is a number from 1 to 7; N is at most 4,000, and
///   200 where it is not given; K is at most 100, and else 20; E is at most 100,000, and else 0.
/// - `fleet DIR [--nodes N] [--rounds K] [--splits S] [--evaluations E]`. N is at most 200, and 50 where it is not
///   given; K is at most 100, and else 20; S is at most 200, and else 50; E is at most 100,000, and else 0.
///
/// `NotUnderstood` comes exactly where the words are not of this form; `NoMemory` is want of memory.
pub fn read_words(alloc: Global, words: &Words) -> Result<Command, WordsRefusal>
    ensures { Reads IsPlainForm words.now result }
{
    if words.len() < 2 {
        return Err(WordsRefusal::NotUnderstood);
    }
    let rest = words_after(alloc, words, 2)?;
    command_of(alloc, words.at(1), rest.as_slice())
}

/// The command of a command word and the words after it.
fn command_of(alloc: Global, word: &str, rest: &[&str]) -> Result<Command, WordsRefusal>
    ensures { ReadsCommand word.now (map (λ word. word.now) rest.now) result }
{
    match word {
        "plan" => plan(alloc, rest),
        "urgent" => urgent(alloc, rest),
        "replan" => replan(alloc, rest),
        "week" => week(alloc, rest),
        "fleet" => fleet(alloc, rest),
        _ => Err(WordsRefusal::NotUnderstood),
    }
}

/// The command `plan` of the words after it.
fn plan(alloc: Global, rest: &[&str]) -> Result<Command, WordsRefusal>
    ensures { ReadsCommand (codes "plan") (map (λ word. word.now) rest.now) result }
{
    match planning(alloc, rest)? {
        Some(planning) => Ok(Command::Plan(planning)),
        None => Err(WordsRefusal::NotUnderstood),
    }
}

/// The command `urgent` of the words after it.
fn urgent(alloc: Global, rest: &[&str]) -> Result<Command, WordsRefusal>
    ensures { ReadsCommand (codes "urgent") (map (λ word. word.now) rest.now) result }
{
    match swapping(alloc, rest)? {
        Some(swapping) => Ok(Command::Urgent(swapping)),
        None => Err(WordsRefusal::NotUnderstood),
    }
}

/// The command `replan` of the words after it.
fn replan(alloc: Global, rest: &[&str]) -> Result<Command, WordsRefusal>
    ensures { ReadsCommand (codes "replan") (map (λ word. word.now) rest.now) result }
{
    match replanning(alloc, rest)? {
        Some(replanning) => Ok(Command::Replan(replanning)),
        None => Err(WordsRefusal::NotUnderstood),
    }
}

/// The command `week` of the words after it.
fn week(alloc: Global, rest: &[&str]) -> Result<Command, WordsRefusal>
    ensures { ReadsCommand (codes "week") (map (λ word. word.now) rest.now) result }
{
    match week_planning(alloc, rest)? {
        Some(planning) => Ok(Command::Week(planning)),
        None => Err(WordsRefusal::NotUnderstood),
    }
}

/// The command `fleet` of the words after it.
fn fleet(alloc: Global, rest: &[&str]) -> Result<Command, WordsRefusal>
    ensures { ReadsCommand (codes "fleet") (map (λ word. word.now) rest.now) result }
{
    match fleet_planning(alloc, rest)? {
        Some(planning) => Ok(Command::Fleet(planning)),
        None => Err(WordsRefusal::NotUnderstood),
    }
}

/// How a day is to be planned, by the words after `plan`; nothing where they are not of its form. The error is want of
/// memory.
fn planning(alloc: Global, rest: &[&str]) -> Result<Option<Planning>, NoMemory>
    ensures { IfOk result (ReadsAs plan_form IsPlanning (map (λ word. word.now) rest.now)) }
{
    let form = Form {
        places: 1,
        valued: &["--nodes", "--rounds", "--evaluations"],
        flags: &["--progress"],
    };
    let Some(given) = read_form(alloc, &form, rest)? else {
        return Ok(None);
    };
    planning_of(alloc, &given)
}

/// How a day is to be planned, by words that were taken apart; nothing where a number is none or over its limit. The
/// error is want of memory.
fn planning_of(alloc: Global, given: &GivenWords<'_>) -> Result<Option<Planning>, NoMemory>
    requires places { length (positional_in given.now) ≡ 1 }
    requires once { (name : List ℕ) → times name given.now ≤ 1 }
    ensures { IfOk result (SaysAs IsPlanning given.now) }
{
    let Some(dir) = given.positional(0) else {
        return Ok(None);
    };
    let Some(nodes) = given.number("--nodes", USUAL_NODES_OF_PLAN, MAX_BRANCHINGS) else {
        return Ok(None);
    };
    let Some(rounds) = given.number("--rounds", USUAL_ROUNDS_OF_PLAN, MAX_ROUNDS) else {
        return Ok(None);
    };
    let usual = USUAL_EVALUATIONS_OF_PLAN;
    let Some(evaluations) = given.number("--evaluations", usual, MAX_EVALUATIONS) else {
        return Ok(None);
    };
    Ok(Some(Planning {
        dir: Text::copy(alloc, dir)?,
        nodes,
        rounds: rounds as u8,
        evaluations,
        tells_progress: given.has("--progress"),
    }))
}

/// Of which day the units are to be swapped, by the words after `urgent`; nothing where they are not of its form. The
/// error is want of memory.
fn swapping(alloc: Global, rest: &[&str]) -> Result<Option<Swapping>, NoMemory>
    ensures { IfOk result (ReadsAs folder_form IsSwapping (map (λ word. word.now) rest.now)) }
{
    let form = Form {
        places: 1,
        valued: &[],
        flags: &[],
    };
    let Some(given) = read_form(alloc, &form, rest)? else {
        return Ok(None);
    };
    swapping_of(alloc, &given)
}

/// Of which day the units are to be swapped, by words that were taken apart. The error is want of memory.
fn swapping_of(alloc: Global, given: &GivenWords<'_>) -> Result<Option<Swapping>, NoMemory>
    requires places { length (positional_in given.now) ≡ 1 }
    ensures { IfOk result (SaysAs IsSwapping given.now) }
{
    let Some(dir) = given.positional(0) else {
        return Ok(None);
    };
    let dir = Text::copy(alloc, dir)?;
    Ok(Some(Swapping { dir }))
}

/// How the rest of a day is to be planned, by the words after `replan`; nothing where they are not of its form. The
/// error is want of memory.
fn replanning(alloc: Global, rest: &[&str]) -> Result<Option<Replanning>, NoMemory>
    ensures { IfOk result (ReadsAs replan_form IsReplanning (map (λ word. word.now) rest.now)) }
{
    let form = Form {
        places: 2,
        valued: &["--change", "--nodes", "--rounds", "--evaluations"],
        flags: &[],
    };
    let Some(given) = read_form(alloc, &form, rest)? else {
        return Ok(None);
    };
    replanning_of(alloc, &given)
}

/// How the rest of a day is to be planned, by words that were taken apart; nothing where the second of them is no time,
/// or a number is none or over its limit. The error is want of memory.
fn replanning_of(alloc: Global, given: &GivenWords<'_>) -> Result<Option<Replanning>, NoMemory>
    requires places { length (positional_in given.now) ≡ 2 }
    requires once { (name : List ℕ) → times name given.now ≤ 1 }
    ensures { IfOk result (SaysAs IsReplanning given.now) }
{
    let Some(dir) = given.positional(0) else {
        return Ok(None);
    };
    let Some(word) = given.positional(1) else {
        return Ok(None);
    };
    let Some(minute) = time_of(word.as_bytes()) else {
        return Ok(None);
    };
    let Some(change) = given.number("--change", USUAL_CHANGE, MAX_CHANGE) else {
        return Ok(None);
    };
    let Some(nodes) = given.number("--nodes", USUAL_NODES_OF_REPLAN, MAX_BRANCHINGS) else {
        return Ok(None);
    };
    let Some(rounds) = given.number("--rounds", USUAL_ROUNDS_OF_REPLAN, MAX_ROUNDS) else {
        return Ok(None);
    };
    let usual = USUAL_EVALUATIONS_OF_REPLAN;
    let Some(evaluations) = given.number("--evaluations", usual, MAX_EVALUATIONS) else {
        return Ok(None);
    };
    Ok(Some(Replanning {
        dir: Text::copy(alloc, dir)?,
        minute,
        change,
        nodes,
        rounds: rounds as u8,
        evaluations,
    }))
}

/// How a week is to be planned, by the words after `week`; nothing where they are not of its form. The error is want of
/// memory.
fn week_planning(alloc: Global, rest: &[&str]) -> Result<Option<WeekPlanning>, NoMemory>
    ensures { IfOk result (ReadsAs week_form IsWeekPlanning (map (λ word. word.now) rest.now)) }
{
    let form = Form {
        places: 2,
        valued: &["--nodes", "--rounds", "--evaluations"],
        flags: &[],
    };
    let Some(given) = read_form(alloc, &form, rest)? else {
        return Ok(None);
    };
    week_planning_of(alloc, &given)
}

/// How a week is to be planned, by words that were taken apart; nothing where the second of them is no number of days
/// that a week may have, or a number is none or over its limit. The error is want of memory.
fn week_planning_of(alloc: Global, given: &GivenWords<'_>) -> Result<Option<WeekPlanning>, NoMemory>
    requires places { length (positional_in given.now) ≡ 2 }
    requires once { (name : List ℕ) → times name given.now ≤ 1 }
    ensures { IfOk result (SaysAs IsWeekPlanning given.now) }
{
    let Some(dir) = given.positional(0) else {
        return Ok(None);
    };
    let Some(word) = given.positional(1) else {
        return Ok(None);
    };
    let Some(days) = number(word.as_bytes(), MAX_DAYS_OF_WEEK) else {
        return Ok(None);
    };
    if days == 0 {
        return Ok(None);
    }
    let Some(nodes) = given.number("--nodes", USUAL_NODES_OF_WEEK, MAX_BRANCHINGS) else {
        return Ok(None);
    };
    let Some(rounds) = given.number("--rounds", USUAL_ROUNDS_OF_WEEK, MAX_ROUNDS) else {
        return Ok(None);
    };
    let usual = USUAL_EVALUATIONS_OF_WEEK;
    let Some(evaluations) = given.number("--evaluations", usual, MAX_EVALUATIONS) else {
        return Ok(None);
    };
    Ok(Some(WeekPlanning {
        dir: Text::copy(alloc, dir)?,
        days,
        nodes,
        rounds: rounds as u8,
        evaluations,
    }))
}

/// How the fleet of least cost is to be found, by the words after `fleet`; nothing where they are not of its form. The
/// error is want of memory.
fn fleet_planning(alloc: Global, rest: &[&str]) -> Result<Option<FleetPlanning>, NoMemory>
    ensures { IfOk result (ReadsAs fleet_form IsFleetPlanning (map (λ word. word.now) rest.now)) }
{
    let form = Form {
        places: 1,
        valued: &["--nodes", "--rounds", "--splits", "--evaluations"],
        flags: &[],
    };
    let Some(given) = read_form(alloc, &form, rest)? else {
        return Ok(None);
    };
    fleet_planning_of(alloc, &given)
}

/// How the fleet of least cost is to be found, by words that were taken apart; nothing where a number is none or over
/// its limit. The error is want of memory.
fn fleet_planning_of(
    alloc: Global,
    given: &GivenWords<'_>,
) -> Result<Option<FleetPlanning>, NoMemory>
    requires places { length (positional_in given.now) ≡ 1 }
    requires once { (name : List ℕ) → times name given.now ≤ 1 }
    ensures { IfOk result (SaysAs IsFleetPlanning given.now) }
{
    let Some(dir) = given.positional(0) else {
        return Ok(None);
    };
    let Some(nodes) = given.number("--nodes", USUAL_NODES_OF_FLEET, MAX_NODES_OF_FLEET) else {
        return Ok(None);
    };
    let Some(rounds) = given.number("--rounds", USUAL_ROUNDS_OF_FLEET, MAX_ROUNDS) else {
        return Ok(None);
    };
    let most_splits = MAX_SPLITS_OF_FLEET;
    let Some(splits) = given.number("--splits", USUAL_SPLITS_OF_FLEET, most_splits) else {
        return Ok(None);
    };
    let usual = USUAL_EVALUATIONS_OF_FLEET;
    let Some(evaluations) = given.number("--evaluations", usual, MAX_EVALUATIONS) else {
        return Ok(None);
    };
    Ok(Some(FleetPlanning {
        dir: Text::copy(alloc, dir)?,
        nodes,
        rounds: rounds as u8,
        splits,
        evaluations,
    }))
}
