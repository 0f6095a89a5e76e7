//! What words are held to, as numbers, and that they make one command at most.
//!
//! A law is the contract of a function that does nothing.

ghost use Rattle.desk_commands.specs.Laws.{AreWordLimits, WordsMakeOneCommand};

/// The limits of the numbers in words, and what an option of a command is that is not given, as numbers.
pub fn word_limits_are_these()
    ensures words { AreWordLimits }
{}

/// Words are the plain form of one command at most.
pub fn words_make_one_command()
    ensures one { WordsMakeOneCommand }
{}
