//! Tests of commands over objects in memory, and of the line in plain words after a refusal, a file for each crate.
//!
//! They show what no contract says, as `policy_tests` do. `conversations` has whole calls of every command as data.
#![tactic(auto)]

#[cfg(test)]
mod call_end;
#[cfg(test)]
mod carry_commands_tests;
#[cfg(test)]
mod hints_tests;
#[cfg(test)]
mod make_command_tests;
#[cfg(test)]
mod same;
#[cfg(test)]
mod serve_command_tests;
#[cfg(test)]
mod standby_commands_tests;
#[cfg(test)]
mod stopped_conversations_tests;
