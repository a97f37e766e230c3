//! The commands with their words: what the words of a command line ask for, the journal that they name, and the line that lists them all;
//! how a call with such words ends, and in `specs/Calls` what every one promises.
//!
//! What each command then does stands above, in `cell_program`. A command is a line in each table of `specs/Words`, and in `commands` a variant,
//! an arm of the parser, and its place in the line of them all.
//!
//! ```text
//! let Some(Command::Plan { cell, journal }) = command_of(words) else { .. };
//! ```
#![tactic(auto)]

mod commands;
mod ended;
mod served;

pub use commands::{Command, Journal, command_of, journal_in, usage};
pub use ended::Ended;
pub use served::{Served, served_in};
