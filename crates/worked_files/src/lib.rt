//! Worked files: examples of the public calls on files, the disk, the standard output, rows of tables, compositions and
//! days that bytes make, as tests.
#![tactic(auto)]

#[cfg(test)]
mod composition_tests;
#[cfg(test)]
mod day_tests;
#[cfg(test)]
mod file_tests;
#[cfg(test)]
mod record_tests;
#[cfg(test)]
mod row_tests;
#[cfg(test)]
mod system_tests;
#[cfg(test)]
mod word_tests;
