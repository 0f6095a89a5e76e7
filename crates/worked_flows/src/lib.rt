//! Worked networks: largest flows through networks by hand and through drawn ones, as tests.
#![tactic(auto)]

#[cfg(test)]
mod flow_tests;
