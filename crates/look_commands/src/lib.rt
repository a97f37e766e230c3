//! The commands that look into a journal: `grants` lists it as a record, and `parts` tells where the parts stand after it.
//!
//! Each is a walk in `specs/`, which `cell_driver::drive` goes. `laws` says that `check` finds right what `grants` prints.
//!
//! ```text
//! let CommandEnd { status, disk } = run_grants(alloc, &mut files, &mut out, "cell.toml", disk);
//! ```
#![tactic(auto)]

mod grants;
pub mod laws;
mod listing;
mod locating;
mod parts;

pub use grants::run_grants;
pub use parts::run_parts;
