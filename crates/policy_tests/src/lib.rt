//! Tests of the crates of the model and the policy, a file for each crate.
//!
//! They show what no contract says: that a call succeeds with memory at hand, and printed text. They use public calls alone, and stand
//! here since a crate that has tests of its own is proved twice.
#![tactic(auto)]

#[cfg(test)]
mod admission_core_tests;
#[cfg(test)]
mod banker_check_tests;
#[cfg(test)]
mod cell_base_tests;
#[cfg(test)]
mod drain_planner_tests;
#[cfg(test)]
mod neighborhood_counts_tests;
#[cfg(test)]
mod order_advisor_tests;
#[cfg(test)]
mod part_table_tests;
#[cfg(test)]
mod refusal_reason_tests;
#[cfg(test)]
mod route_table_tests;
#[cfg(test)]
mod same;
#[cfg(test)]
mod test_fixtures_tests;
#[cfg(test)]
mod upstream_sets_tests;
#[cfg(test)]
mod wait_board_tests;
#[cfg(test)]
mod wait_queue_tests;
