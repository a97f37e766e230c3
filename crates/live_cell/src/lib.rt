//! A cell whose grants are on a disk, without a history: requests are decided one by one, and made stable in groups.
//!
//! ```text
//! let mut live = match LiveCell::open(alloc, cell, cell_text, disk, room, 512, Discard) {
//!     Ok(OpenedLive { live, .. }) => live,         // after the grants that stand on the disk
//!     Err(OpenError { disk, why }) => ..,          // the file is refused, the device failed, or there was no memory
//! };
//! let first = live.ask(session, &request)?;       // decided, and if it is granted not yet stable
//! let second = live.ask(other_session, &request)?;
//! live.commit()?;                                 // both are stable, and may be told
//! ```
//!
//! `open` recovers what stands on the disk, replays it and hands each grant on as it is read, takes all memory, and last makes
//! a journal where there is none. `ask` decides a request by the core, after all that were asked before it; a grant is applied
//! and stays pending until `commit`, which writes all pending grants by as many calls of the device as one takes. At each
//! moment of a commit each image that a crash may leave has all of them or none, and from its `Ok` on each image has them all,
//! whatever comes later. An answer is to be told only after the commit. Where a commit fails nobody knows whether the pending
//! grants are on the disk: none was told, and nothing more may be asked until the disk is opened again.
//!
//! What was asked is not kept, so memory doesn't grow: the clauses speak of the grants for which the disk stands as the caller
//! knows them. A request is turned away only where it would be granted and the journal has no room for one grant more.
#![tactic(auto)]

mod fault;
mod laws;
mod live;
mod opening;
mod parted;

pub use fault::JournalFull;
pub use laws::{acknowledged_law, live_law};
pub use live::LiveCell;
pub use opening::OpenedLive;
pub use parted::LiveParts;
