//! The command `queue`: the sessions of a shift ask a board in rounds, so that a saturated request waits until a grant makes room.
//!
//! It is a walk in `specs/`, which `cell_driver::drive` goes.
#![tactic(auto)]

mod lines;
mod printing;
mod queue;

pub use queue::run_queue;
