//! The statuses.

/// What the words ask for was found, holds, or was written.
pub const SUCCESS: u8 = 0;
/// There is nothing such as the words ask for, or it doesn't hold.
pub const FAILURE: u8 = 1;
/// The words are none of the program's commands.
pub const USAGE: u8 = 2;
/// A file is refused.
pub const REFUSED: u8 = 3;
/// The search came to its end with what was granted, and something is left open.
pub const BOUNDED: u8 = 4;
/// A file could not be read.
pub const UNREAD: u8 = 5;
/// The document could not be written whole.
pub const UNWRITTEN: u8 = 6;
/// Memory ran out, and nothing was written.
pub const NO_MEMORY: u8 = 7;
