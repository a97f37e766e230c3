//! Commands on a cell, and what they have in common: the cell file is read, the command answers, and its answer is printed; or the
//! early end that came in its place.
//!
//! A command says what differs: its walk from the cell on, what it answers, and how that is printed. `drive` goes the whole walk, and its
//! clause `Ends` says that what was put is an outcome that the walk allows.
//!
//! ```text
//! let CommandEnd { status, disk } = drive(&Plan, alloc, &mut files, &mut out, "cell.toml", disk);
//! ```
#![tactic(auto)]

mod command;
mod driving;

pub use command::Command;
pub use driving::drive;
