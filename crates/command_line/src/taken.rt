//! The words after a command word, taken apart by `clap`.

ghost use Rattle.std.specs.Prelude.{◌≡◌, IfOk, map, true};
ghost use Rattle.clap.specs.Words.{found_of, matches_of, rows_of};
ghost use Rattle.command_line.specs.Apps.{app};
ghost use Rattle.command_line.specs.Parts.{fits, parts_of};
ghost use Rattle.command_line.specs.Forms.{ArePlain, SaysItems};
ghost use Rattle.command_line.specs.Texts.{texts_in, texts_of};

use crate::form::Form;
use crate::options::{command, first_id};
use clap::ArgMatches;
use clap::error::ErrorKind;
use rail_base::NoMemory;
use std::alloc::Global;

/// The texts of a command line: positional words, and the values of options.
#[derive(Clone, Copy)]
pub struct GivenTexts<'a> {
    /// The first positional word: a folder, or what a day is made from.
    pub first: Option<&'a str>,
    /// The second positional word: the trips of a day.
    pub second: Option<&'a str>,
    /// The value of `--nodes`.
    pub nodes: Option<&'a str>,
    /// The value of `--rounds`.
    pub rounds: Option<&'a str>,
}

/// Takes apart words of the form. The error is want of memory.
pub fn take_apart<'a>(
    alloc: Global,
    form: Form,
    words: &'a [&'a str],
) -> Result<GivenTexts<'a>, NoMemory>
    requires { ArePlain form (map (λ word. word.now) words.now) }
    ensures value { IfOk result (λ taken. texts_in taken ≡ texts_of (parts_of (map (λ word. word.now) words.now))) }
    ensures meaning { IfOk result (λ taken. SaysItems form (map (λ word. word.now) words.now) (texts_in taken)) }
{
    let matches = matches(alloc, form, words)?;
    Ok(GivenTexts {
        first: matches.get_str(first_id(form)),
        second: matches.get_str("trips"),
        nodes: matches.get_str("nodes"),
        rounds: matches.get_str("rounds"),
    })
}

/// What `clap` finds in words of the form. The error is want of memory.
fn matches<'a>(alloc: Global, form: Form, words: &'a [&'a str]) -> Result<ArgMatches<'a>, NoMemory>
    requires { fits form (parts_of (map (λ word. word.now) words.now)) ≡ true }
    ensures { IfOk result (λ found.
        rows_of (found_of found) ≡ matches_of (app form) (map (λ word. word.now) words.now)) }
{
    let command = command(alloc, form)?;
    match command.try_get_matches_from(words) {
        Ok(found) => Ok(found),
        Err(error) => match error.kind() {
            ErrorKind::OutOfMemory => Err(NoMemory),
            _ => unreachable!(),
        },
    }
}
