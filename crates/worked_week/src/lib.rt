//! Worked weeks, as tests: which days make a week, what is written of one, and that its plan, as it is written, can be
//! run unit by unit.
#![tactic(auto)]

#[cfg(test)]
mod running;
#[cfg(test)]
mod week_tests;
#[cfg(test)]
mod weeks;
