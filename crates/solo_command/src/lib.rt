//! `solo`: a shift on the empty cell, its sessions in rounds on one thread.
//!
//! It is a walk in `specs/`, and a function that goes it: its clause `Ends` says that what was put is an outcome that the walk allows, and
//! that the disk is left as it was. It stands on no journal, so it is the first command that can be built.
//!
//! ```text
//! let CommandEnd { status, disk } = run_solo(alloc, &mut files, &mut out, "cell.toml", "shift.toml", disk);
//! ```
#![tactic(auto)]

mod playing;
mod solo;

pub use solo::run_solo;
