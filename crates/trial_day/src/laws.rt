//! What is so of every trial day.
//!
//! A law is the contract of a function that does nothing.

ghost use Rattle.trial_day.specs.AcceptedTables.{TrialDaysAreAccepted};

/// The tables of every trial day make a day: their rows are within the limits of the tables, and no test fails on
/// them.
pub fn trial_days_are_accepted()
    ensures law { TrialDaysAreAccepted }
{}
