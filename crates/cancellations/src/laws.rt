//! What is so of every table of cancelled trips.
//!
//! A law is the contract of a function that does nothing.

ghost use Rattle.cancellations.specs.Laws.{TablesAreDecided};

/// On a day whose names are apart, as those of every accepted day are, a table cancels at most one list of trips, and
/// is then refused for nothing; and it is refused for at most one thing, but for want of memory.
pub fn tables_are_decided()
    ensures law { TablesAreDecided }
{}
