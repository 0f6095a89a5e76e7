//! The command that the words of a command line make.

ghost use Rattle.std.specs.Prelude.{◌≡◌, map};
ghost use Rattle.std.specs.Option.{ok_or};
ghost use Rattle.rail_base.specs.Answers.{Gives};
ghost use Rattle.command_line.specs.Parts.{parts_of};
ghost use Rattle.command_line.specs.Texts.{texts_in};
ghost use Rattle.plain_words.specs.declared.refusal.WordsRefusal.TheVariants.{NotUnderstood};
ghost use Rattle.plain_words.specs.Commands.{Reads, is_memory};
ghost use Rattle.commands.specs.PlainForm.{IsPlainForm};
ghost use Rattle.commands.specs.Commands.{command_of, day_of, form_of, in_folder, named};
ghost use Rattle.commands.specs.Commands.{named_plain, nodes_of, plan_command, rounds_of, trial_command, trips_of};

use crate::command::{Command, MAX_SEED, USUAL_NODES, USUAL_ROUNDS};
use command_line::{Form, GivenTexts, is_plain, take_apart};
use plain_words::{Text, WordsRefusal, number, option_number, words_after};
use rail_base::Words;
use rail_base::limits::{MAX_BRANCHINGS, MAX_ROUNDS, MAX_TRIPS};
use std::alloc::Global;

/// Reads the words of a command line, of which the first stands for the program's name and is not looked at.
///
/// After it comes the command word, and after that, in any mixture, its positional words in their order, which are not
/// empty and don't begin with `-`, and each of its options at most once, as two words (`--nodes 5`) or as one
/// (`--nodes=5`). Numbers are 1 to 10 digits.
///
/// | Words | Numbers |
/// |---|---|
/// | `plan DIR [--nodes N] [--rounds K]` | N at most 4,000, K at most 100 |
/// | `simulate DIR`, `check DIR`, `duties DIR`, `yards DIR`, `costs DIR` | none |
/// | `trial SEED TRIPS [--nodes N] [--rounds K]` | SEED at most 4,294,967,295; TRIPS even, 2 to 400; N, K as above |
///
/// Where N is not given it is 200, and K is 20.
///
/// `NotUnderstood` comes exactly where the words are not of this form; `NoMemory` is want of memory.
pub fn read_words(alloc: Global, words: &Words) -> Result<Command, WordsRefusal>
    ensures { Reads IsPlainForm words.now result }
{
    command(alloc, words)
}

/// The command of the words.
fn command(alloc: Global, words: &Words) -> Result<Command, WordsRefusal>
    ensures { Gives is_memory result (ok_or (command_of words.now) NotUnderstood) }
{
    if words.len() < 2 {
        return Err(WordsRefusal::NotUnderstood);
    }
    let rest = words_after(alloc, words, 2)?;
    plain_command(alloc, words.at(1), rest.as_slice())
}

/// The command of a command word and the words after it, of which `clap` takes apart those that are of the plain form.
fn plain_command<'a>(
    alloc: Global,
    word: &str,
    rest: &'a [&'a str],
) -> Result<Command, WordsRefusal>
    ensures { Gives is_memory result
        (ok_or (named_plain word.now (parts_of (map (λ word. word.now) rest.now))) NotUnderstood) }
{
    let form = form_of(word);
    if !is_plain(form, rest) {
        return Err(WordsRefusal::NotUnderstood);
    }
    let taken = take_apart(alloc, form, rest)?;
    named(alloc, word, taken)
}

/// What is to come after a command word.
fn form_of(word: &str) -> Form
    ensures { result ≡ form_of word.now }
{
    match word {
        "plan" => Form::FolderSearch,
        "trial" => Form::DaySearch,
        _ => Form::Folder,
    }
}

/// The command of a command word and the texts after it.
fn named(alloc: Global, word: &str, taken: GivenTexts<'_>) -> Result<Command, WordsRefusal>
    ensures { Gives is_memory result (ok_or (named word.now (texts_in taken.entry)) NotUnderstood) }
{
    if word == "plan" {
        return plan(alloc, taken);
    }
    if word == "trial" {
        return trial(taken);
    }
    match taken.first {
        Some(dir) => in_folder(alloc, word, dir),
        None => Err(WordsRefusal::NotUnderstood),
    }
}

/// A command that has a folder and no options.
fn in_folder(alloc: Global, word: &str, dir: &str) -> Result<Command, WordsRefusal>
    ensures { Gives is_memory result (ok_or (in_folder word.now dir.now) NotUnderstood) }
{
    let dir = Text::copy(alloc, dir)?;
    match word {
        "simulate" => Ok(Command::Simulate { dir }),
        "check" => Ok(Command::Check { dir }),
        "duties" => Ok(Command::Duties { dir }),
        "yards" => Ok(Command::Yards { dir }),
        "costs" => Ok(Command::Costs { dir }),
        _ => Err(WordsRefusal::NotUnderstood),
    }
}

/// The command `plan DIR`.
fn plan(alloc: Global, taken: GivenTexts<'_>) -> Result<Command, WordsRefusal>
    ensures { Gives is_memory result (ok_or (plan_command (texts_in taken.entry)) NotUnderstood) }
{
    let Some(dir) = taken.first else {
        return Err(WordsRefusal::NotUnderstood);
    };
    let Some(nodes) = nodes_of(taken) else {
        return Err(WordsRefusal::NotUnderstood);
    };
    let Some(rounds) = rounds_of(taken) else {
        return Err(WordsRefusal::NotUnderstood);
    };
    let dir = Text::copy(alloc, dir)?;
    Ok(Command::Plan { dir, nodes, rounds })
}

/// The command `trial SEED TRIPS`.
fn trial(taken: GivenTexts<'_>) -> Result<Command, WordsRefusal>
    ensures { result ≡ ok_or (trial_command (texts_in taken.entry)) NotUnderstood }
{
    let Some((seed, trips)) = day(taken) else {
        return Err(WordsRefusal::NotUnderstood);
    };
    let Some(nodes) = nodes_of(taken) else {
        return Err(WordsRefusal::NotUnderstood);
    };
    let Some(rounds) = rounds_of(taken) else {
        return Err(WordsRefusal::NotUnderstood);
    };
    Ok(Command::Trial {
        seed,
        trips,
        nodes,
        rounds,
    })
}

/// The branchings that are granted.
fn nodes_of(taken: GivenTexts<'_>) -> Option<u32>
    ensures { result ≡ nodes_of (texts_in taken.entry) }
{
    option_number(taken.nodes, USUAL_NODES, MAX_BRANCHINGS)
}

/// The rounds of advice at each node.
fn rounds_of(taken: GivenTexts<'_>) -> Option<u8>
    ensures { result ≡ rounds_of (texts_in taken.entry) }
{
    match option_number(taken.rounds, USUAL_ROUNDS, MAX_ROUNDS) {
        Some(rounds) => Some(rounds as u8),
        None => None,
    }
}

/// What a trial day is made from, and its trips.
fn day(taken: GivenTexts<'_>) -> Option<(u32, u32)>
    ensures { result ≡ day_of (texts_in taken.entry) }
{
    let Some(seed) = taken.first else {
        return None;
    };
    let Some(trips) = taken.second else {
        return None;
    };
    let Some(seed) = number(seed.as_bytes(), MAX_SEED) else {
        return None;
    };
    let Some(trips) = trips_of(trips) else {
        return None;
    };
    Some((seed, trips))
}

/// The trips of a trial day: an even number from 2 to 400.
fn trips_of(word: &str) -> Option<u32>
    ensures { result ≡ trips_of word.now }
{
    let Some(trips) = number(word.as_bytes(), MAX_TRIPS as u32) else {
        return None;
    };
    if trips < 2 {
        return None;
    }
    if trips % 2 != 0 {
        return None;
    }
    Some(trips)
}
