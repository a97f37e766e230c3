//! `make NUMBER`: large valid input from a number, and what comes of it.
//!
//! A cell and a shift are drawn from the number, the sessions of the shift ask in rounds on the empty cell, and four lines tell of it.
//! The command is a walk in `specs/Make`, and its function goes that walk: its clause `Ends` says that what was put is an outcome that
//! the walk allows. With status 0 the numbers that are printed are those of the one history in rounds, and of the plan after it.
//!
//! ```text
//! let CommandEnd { status, disk } = run_make(alloc, &files, &mut out, "1", b"usage: make NUMBER\n", disk);
//! ```
#![tactic(auto)]

pub mod laws;
mod make;
mod printing;
mod summary;

pub use make::run_make;
pub use summary::Summary;
