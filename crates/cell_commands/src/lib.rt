//! The commands that need no session, one module each: its walk stands in `specs/`, and `cell_driver::drive` goes it.
//!
//! ```text
//! let CommandEnd { status, disk } = run_plan(alloc, &mut files, &mut out, "cell.toml", disk);
//! ```
#![tactic(auto)]

mod check;
mod drain;
mod plan;
mod show;
mod verdicts;
mod why;

pub use check::run_check;
pub use drain::run_drain;
pub use plan::run_plan;
pub use show::run_show;
pub use why::run_why;
