//! What the commands share: every text beside records, and the tests of files and words with their readers. Records are printed by
//! `record_printer`, and what needs a journal stands in `journal_texts`.
//!
//! A reader gives what a file stands for, or the end of the command in its place, with the line that says why.
//!
//! ```text
//! match read_cell(alloc, &mut files, "cell.toml") {
//!     Ok(held) => print_left(&mut out, Core::open(alloc, held.cell)?),
//!     Err(end) => finish_early(&mut out, end),
//! }
//! ```
#![tactic(auto)]

mod fault_codes;
mod lines;
mod made;
mod printing;
mod readers;
mod refusals;

pub use fault_codes::FaultCode;
pub use lines::job_line;
pub use made::{Answered, Made};
pub use printing::{print_lines, print_usage};
pub use readers::{CellFile, CommandEnd, read_cell, read_named, read_shift};
pub use refusals::{at_fault_code, at_record_fault, at_step_fault};
