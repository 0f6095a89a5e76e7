//! The command `urgent`.

use plain_words::Text;

/// Of which day the units are to be swapped, by the command `urgent`.
#[derive(Drop)]
pub struct Swapping {
    /// The folder with the tables of the day, its plan and the table of urgent units.
    pub dir: Text,
}
