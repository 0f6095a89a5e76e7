//! The commands of the program, and the words of a command line that make them.
#![tactic(auto)]

pub mod command;
pub mod command_words;
pub mod laws;

pub use command::Command;
pub use command_words::read_words;
