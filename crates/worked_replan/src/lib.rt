//! Worked disturbed days, as tests: which trips may be cancelled, and what is found for the rest of a day.
#![tactic(auto)]

#[cfg(test)]
mod disturbed_days;
#[cfg(test)]
mod replan_tests;
#[cfg(test)]
mod telling;
