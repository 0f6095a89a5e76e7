//! Fleets by hand: tables of prices, and what is said of all fleets with each verdict on it, as tests.
#![tactic(auto)]

#[cfg(test)]
mod days;
#[cfg(test)]
mod fleet_tests;
#[cfg(test)]
mod price_tests;
#[cfg(test)]
mod search_tests;
#[cfg(test)]
mod verdict_tests;
