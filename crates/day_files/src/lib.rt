//! Reading a folder: a day and a plan of it, or the first file that is refused.
#![tactic(auto)]

pub mod errors;
pub mod files;
pub mod inputs;
pub mod laws;
pub mod lines;
mod names;
mod tables;
mod texts;

pub use errors::{ReadError, Refusal};
pub use files::{file_in, path_in};
pub use inputs::{
    DayWithBytes, Inputs, InputsWithBytes, day_in, day_with_bytes_in, inputs_in,
    inputs_with_bytes_in,
};
pub use lines::{file_refused_alone_line, file_refused_line, file_unread_line};
pub use names::file_name;
