//! The commands, as `clap` reads them.

ghost use Rattle.std.specs.Prelude.{◌≡◌, IfOk};
ghost use Rattle.clap.specs.Words.{app_of, with_rule};
ghost use Rattle.command_line.specs.Apps.{app, first_id, nodes_rule, rounds_rule, words_alone};

use crate::form::Form;
use clap::{Arg, Command};
use std::alloc::{AllocError, Global};

/// The command of a form.
pub(crate) fn command<'a>(alloc: Global, form: Form) -> Result<Command<'a>, AllocError>
    ensures { IfOk result (λ command. app_of command ≡ app form) }
{
    let first = words_alone(alloc).arg(Arg::new(alloc, first_id(form)))?;
    match form {
        Form::Folder => Ok(first),
        Form::FolderSearch => with_options(alloc, first),
        Form::DaySearch => with_options(alloc, first.arg(Arg::new(alloc, "trips"))?),
    }
}

/// The name of the first positional word.
pub(crate) fn first_id<'a>(form: Form) -> &'a str
    ensures { result.now ≡ first_id form }
{
    match form {
        Form::Folder => "dir",
        Form::FolderSearch => "dir",
        Form::DaySearch => "seed",
    }
}

/// A command with nothing of its own: no name before the words, and no word that asks for help.
fn words_alone<'a>(alloc: Global) -> Command<'a>
    ensures { app_of result ≡ words_alone }
{
    Command::new(alloc, "words")
        .no_binary_name(true)
        .disable_help_flag(true)
}

/// The command with `--nodes` and `--rounds`.
fn with_options<'a>(alloc: Global, command: Command<'a>) -> Result<Command<'a>, AllocError>
    ensures { IfOk result (λ r. app_of r ≡ with_rule (with_rule (app_of command.entry) nodes_rule) rounds_rule) }
{
    command
        .arg(Arg::new(alloc, "nodes").long("nodes"))?
        .arg(Arg::new(alloc, "rounds").long("rounds"))
}
