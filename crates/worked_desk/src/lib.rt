//! The planner's desk at work: words, folders and sinks in memory, and what a run over them comes to, as tests.
#![tactic(auto)]

#[cfg(test)]
mod desk;
#[cfg(test)]
mod fleet_tests;
#[cfg(test)]
mod line_tests;
#[cfg(test)]
mod plan_tests;
#[cfg(test)]
mod progress_tests;
#[cfg(test)]
mod replan_tests;
#[cfg(test)]
mod urgent_tests;
#[cfg(test)]
mod week_tests;
#[cfg(test)]
mod words_tests;
