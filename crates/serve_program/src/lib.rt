//! `serve`: what the words of a command line ask for is served, over given files and disk, to the program at the other end.
//!
//! `serve_main` is the top call of the one command that reads an input while it answers; all others have that of `cell_program`. What it
//! promises of the walk of `serve` stands in `cell_walks`, once for every command, and what it promises of each moment in `serve_command`.
//!
//! ```text
//! let Ended { status, disk } = serve_main(rt, alloc, words, &mut files, &mut peer, disk);
//! ```
#![tactic(auto)]

mod serving;

pub use serving::serve_main;
