//! Tests of the outside, in memory and real, and of the crates that keep grants on it, a file for each crate.
//!
//! They show what no contract says, as `policy_tests` do.
#![tactic(auto)]

#[cfg(test)]
mod cell_lock_tests;
#[cfg(test)]
mod cell_sessions_tests;
#[cfg(test)]
mod durable_cell_tests;
#[cfg(test)]
mod entry_codec_tests;
#[cfg(test)]
mod input_lines_tests;
#[cfg(test)]
mod job;
#[cfg(test)]
mod live_cell_tests;
#[cfg(test)]
mod outside_io_disk_tests;
#[cfg(test)]
mod outside_io_tests;
#[cfg(test)]
mod real_outside_tests;
#[cfg(test)]
mod same;
#[cfg(test)]
mod shift_recovery_tests;
#[cfg(test)]
mod standby_link_tests;
#[cfg(test)]
mod torn_sink_tests;
