//! The time of day as a traveller reads it.

ghost use Rattle.std.specs.Prelude.{◌≡◌, ◌<◌};
ghost use Rattle.rail_base.specs.Times.{clock_text};

use crate::Minute;
use crate::limits::MAX_MINUTES;

/// The minute, which is below 2,880, as the two digits of its hour, a colon and the two digits of its minute. The hours
/// of the second day go on from 24 to 47.
pub fn clock(minute: Minute) -> [u8; 5]
    requires { minute < MAX_MINUTES }
    ensures { result ≡ clock_text minute }
{
    let hour = minute.0 / 60;
    let past = minute.0 % 60;
    [
        b'0' + (hour / 10) as u8,
        b'0' + (hour % 10) as u8,
        b':',
        b'0' + (past / 10) as u8,
        b'0' + (past % 10) as u8,
    ]
}
