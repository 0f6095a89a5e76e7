//! The words of a command line after its command word: whether they are of the plain form, and what they say.
#![tactic(auto)]

pub mod form;
mod options;
pub mod plain;
pub mod taken;

pub use form::{Form, OptionName};
pub use plain::is_plain;
pub use taken::{GivenTexts, take_apart};
