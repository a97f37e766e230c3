//! The program: what the words of a command line ask for is done over given files, sink and disk.
//!
//! `cell_main` is the top call. It answers a status and hands back the disk. What it promises stands in `cell_walks`, once for every
//! command: of the walk of the command that the words are. Which that is says `command_words`, and its walk `specs/Walks`, one line each. What
//! that says of the commands that add to a journal is told fact by fact in `specs/Headline`, and why a command ends with each status in
//! `specs/Causes`. `serve`, which alone has an input, has a top call of its own, in `serve_program`.
//!
//! ```rust
//! let mut files = files_of(rt, words)?;
//! let mut out = MemSink::new(alloc, List::new(alloc));
//! // with the words of a command, and the disk of its journal
//! let Ended { status, disk } = cell_main(rt, alloc, words, &mut files, &mut out, disk, &FreePace);
//! ```
#![tactic(auto)]

mod top;

pub use command_words::{
    Command, Ended, Journal, Served, command_of, journal_in, served_in, usage,
};
pub use top::cell_main;
