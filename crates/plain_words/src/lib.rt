//! The words of a program: the plain form of what stands after a command word, with options of any names, taken apart;
//! and what words are read as.
#![tactic(auto)]

pub mod form;
pub mod given;
pub mod numbers;
pub mod program;
pub mod reading;
pub mod refusal;
pub mod text;

pub use form::Form;
pub use given::GivenWords;
pub use numbers::{MAX_WORD_DIGITS, number, option_number};
pub use program::program_words;
pub use reading::{read_form, words_after};
pub use refusal::WordsRefusal;
pub use text::Text;
