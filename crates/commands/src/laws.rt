//! What words are held to, as numbers, and which words make a command.
//!
//! A law is the contract of a function that does nothing.

ghost use Rattle.std.specs.Prelude.{◌≡◌, ◌↔◌, Some};
ghost use Rattle.plain_words.specs.Items.{WordList};
ghost use Rattle.commands.specs.declared.command.Command.{Command};
ghost use Rattle.commands.specs.Commands.{command_of};
ghost use Rattle.commands.specs.Limits.{AreWordLimits};
ghost use Rattle.commands.specs.PlainForm.{IsPlainForm};

/// The limits of words and of the numbers in them, the most trips of a trial among them, and what an option is that is
/// not given, as numbers.
pub fn word_limits_are_these()
    ensures words { AreWordLimits }
{}

/// For all words and every command: the command that is computed from the words is this one exactly where the words are
/// its plain form. So no words are the plain form of two commands, and where none is computed they are that of none.
pub fn words_are_plain_forms()
    ensures plain { (words : WordList) (command : Command)
        → (command_of words ≡ Some command) ↔ IsPlainForm words command }
{}
