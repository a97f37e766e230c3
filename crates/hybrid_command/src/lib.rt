//! The command `hybrid`: a shift in rounds, as `solo` runs it, under the hybrid policy.
//!
//! A load or a move is granted where the policy admits the next state, or where the parts could run to their ends in some order. A refusal
//! in the place of a saturation has the reason `blocked`. The command is a walk in `specs/Hybrid`, which `cell_driver::drive` goes.
//!
//! ```text
//! let CommandEnd { status, disk } = run_hybrid(alloc, &mut files, &mut out, "cell.toml", "shift.toml", disk);
//! ```
#![tactic(auto)]

mod command;
mod lines;
mod planning;
mod printing;

pub use command::run_hybrid;
