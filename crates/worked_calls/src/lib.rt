//! Worked calls: examples of the public calls on days, costs and trial days, worked edges of links, and worked days
//! event by event, as tests.
#![tactic(auto)]

#[cfg(test)]
mod cost_tests;
#[cfg(test)]
mod edge_tests;
#[cfg(test)]
mod machine_tests;
#[cfg(test)]
mod telling;
#[cfg(test)]
mod timetable_tests;
#[cfg(test)]
mod trial_tests;
