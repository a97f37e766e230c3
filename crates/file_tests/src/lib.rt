//! Tests of the crates that read and print files and records, a file for each crate.
//!
//! They show what no contract says, as `policy_tests` do.
#![tactic(auto)]

#[cfg(test)]
mod cell_file_tests;
#[cfg(test)]
mod cell_make_tests;
#[cfg(test)]
mod record_text_reading_tests;
#[cfg(test)]
mod record_text_tests;
#[cfg(test)]
mod same;
#[cfg(test)]
mod shift_checker_tests;
#[cfg(test)]
mod shift_file_tests;
