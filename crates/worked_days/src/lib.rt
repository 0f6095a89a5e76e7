//! Worked days: the top call over folders and sinks in memory, and the three reports by single calls, as tests.
#![tactic(auto)]

#[cfg(test)]
mod advised_tests;
#[cfg(test)]
mod byte_tests;
#[cfg(test)]
mod check_tests;
#[cfg(test)]
mod class_tests;
#[cfg(test)]
mod day;
#[cfg(test)]
mod exchange_tests;
#[cfg(test)]
mod failure_tests;
#[cfg(test)]
mod link_tests;
#[cfg(test)]
mod order_tests;
#[cfg(test)]
mod plan_tests;
#[cfg(test)]
mod refusal_tests;
#[cfg(test)]
mod report_call_tests;
#[cfg(test)]
mod report_tests;
#[cfg(test)]
mod simulate_tests;
#[cfg(test)]
mod spoiled_tests;
