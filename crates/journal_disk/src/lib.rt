//! The file of a journal as a disk: locked and added to, or looked at beside whoever adds to it.
//!
//! Proved is that its calls are safe and return, and that a call answers a failure only where the count of faults rose. It tells nothing
//! of what it holds, since no proof knows what a file does: that is tested, by `journal_tests` and by `checks/real-outside`.
//!
//! ```text
//! let disk = FileDisk::new(&rt, rt.alloc(), "journal", Purpose::ToAdd, false);
//! ```
#![tactic(auto)]

mod file_disk;
mod grant_count;
mod journal_file;
mod look;

pub use file_disk::FileDisk;
pub use journal_file::Purpose;
