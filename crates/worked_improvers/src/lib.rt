//! Worked searches with an improver, as tests: what it is shown, and what is made of what it proposes.
#![tactic(auto)]

#[cfg(test)]
mod improver_tests;
#[cfg(test)]
mod proposals;
#[cfg(test)]
mod scripts;
