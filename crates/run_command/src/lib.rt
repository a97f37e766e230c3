//! `run`: a shift after the grants of a journal, each of its sessions on a thread of its own.
//!
//! It is a walk in `specs/`, and a function that goes it: its clause `Ends` says that what was put, and what was done to the disk, is an
//! outcome that the walk allows.
#![tactic(auto)]

mod run;
mod sessions;

pub use run::run_on_journal;
