//! Worked yards, bounds and searches, as tests: the first fault of the yards for picks, plans of named units, and
//! duties; what bounds, settling and slacks of days answer; regions, multipliers, trees and advisors; and what branch
//! and bound finds on small days, how it asks its advisors, and what it makes of what they propose. Beside these, a
//! relaxation in small.
#![tactic(auto)]

#[cfg(test)]
mod advice_tests;
#[cfg(test)]
mod advisor_tests;
#[cfg(test)]
mod asking;
#[cfg(test)]
mod changed;
#[cfg(test)]
mod drawn_days;
#[cfg(test)]
mod drawn_picks;
#[cfg(test)]
mod drawn_questions;
#[cfg(test)]
mod drawn_tests;
#[cfg(test)]
mod drawn_yards_tests;
#[cfg(test)]
mod duty_tests;
#[cfg(test)]
mod exchange_days;
#[cfg(test)]
mod ledger_tests;
#[cfg(test)]
mod link_rule;
#[cfg(test)]
mod listing;
pub mod lone_picks;
#[cfg(test)]
mod order_tests;
#[cfg(test)]
mod plain_slacks;
#[cfg(test)]
mod row_tests;
#[cfg(test)]
mod scripts;
#[cfg(test)]
mod search_days;
#[cfg(test)]
mod telling;
#[cfg(test)]
mod tree_tests;
#[cfg(test)]
mod trials;
