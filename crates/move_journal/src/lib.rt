//! The journal of a cell on a disk: the grants in their order, each of which a crash leaves whole or not at all.
//!
//! A disk that holds no journal is a `Blank`. `clear` makes its first byte stable, so that no crash can open the file's
//! gate by itself; the `Cleared` disk is made a journal of no grants by `create`; `append` adds one grant to a `Journal`,
//! and `append_all` all grants of a `Group` by as many calls of the device. Each state owns the disk, and a call that fails
//! hands it back:
//!
//! ```rust
//! let Ok(cleared) = blank.clear() else {
//!     bail!("not cleared");                                // Err(disk): the device failed
//! };
//! match cleared.create(CELL) {
//!     Ok(journal) => Ok(journal),
//!     Err(_) => bail!("not created"),
//! }
//! // for each grant
//! Ok(journal.append(&grant))                               // at Ok every crash leaves the grant
//! ```
//!
//! A record is written after a gate that is stable and closed, together with the closed gate after it; only when both
//! are stable does a write of its own open the gate before it. So at each moment since the start of an `append` every
//! image that a crash may leave stands for the grants before it, or for these and the new one; of a group, for these and all
//! of it. After a fault of the device the journal answers `Halted` until the disk is opened again.
//!
//! `head_write` has the bytes of a head and `entry_write` those of a record after its gate, and both say why each step
//! is safe.
#![tactic(auto)]

mod blank;
mod cleared;
mod entry_write;
mod group;
mod head_write;
mod journal;
mod stable_write;

pub use blank::Blank;
pub use cleared::{Cleared, MAX_CELL_TEXT};
pub use group::{Group, MAX_GROUP};
pub use journal::{AppendFault, Journal};
pub use journal_format::{BlankForm, NAME, TEXT_AT};
