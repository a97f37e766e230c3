//! The commands of a standby: `feed` puts the grants of a journal as frames, and `follow` takes frames into a journal.
//!
//! Each is a walk in `specs/`, which `cell_driver::drive` goes from the cell on. `laws` says that frames of one list of grants, lost,
//! repeated or in another order, are all taken.
//!
//! ```text
//! let CommandEnd { status, disk } = run_follow(alloc, &mut files, &mut out, "cell.toml", "frames", disk);
//! ```
#![tactic(auto)]

mod feed;
mod follow;
mod following;
mod frames;
mod printing;
mod refusals;

pub use feed::run_feed;
pub use follow::{Follow, run_follow};
