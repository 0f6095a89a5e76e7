//! Worked answers, as tests: to a day of which one trip keeps its composition and another costs more with any but one,
//! and to days whose search asks an improver; and what answers and plans come to on other days, and with other units.
#![tactic(auto)]

#[cfg(test)]
mod improved_tests;
#[cfg(test)]
mod kept;
#[cfg(test)]
mod kept_tests;
#[cfg(test)]
mod other_days;
#[cfg(test)]
mod ready_tests;
#[cfg(test)]
mod region_naming;
#[cfg(test)]
mod telling;
