//! The improver of days, asked as a search would ask it, as tests.
#![tactic(auto)]

#[cfg(test)]
mod improver_tests;
#[cfg(test)]
mod search_tests;
