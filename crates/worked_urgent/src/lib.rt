//! Worked wishes: tables of urgent units, legs and cuts by hand, and what units are swapped for, as tests.
#![tactic(auto)]

#[cfg(test)]
mod drawn_tests;
#[cfg(test)]
mod swap_tests;
#[cfg(test)]
mod wish_tests;
