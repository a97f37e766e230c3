//! What stands on a disk after a stop: nothing yet, a journal with its grants, or a file that is refused.
//!
//! ```text
//! match recover(alloc, disk, cell_text, room) {
//!     Opened::Fresh(blank) => ..,                   // no journal: `blank.clear()`, and then `create`
//!     Opened::Found { journal, grants } => ..,      // `journal.append(..)` goes on after the grants
//!     Opened::Refused { disk, why } => ..,          // another file, another cell, damage, or too many grants
//!     Opened::Device { disk } => ..,
//!     Opened::Memory { disk } => ..,
//! }
//! ```
//!
//! `recover` begins with a sync, so that what it reads is what a later crash leaves. Then it reads the file once, in
//! pieces, from its start on, and writes nothing. What it finds is `read_as` of `journal_format`, a definition over the whole file. On what
//! a crash may leave of a journal's calls it never answers one of the four faults of `JournalFault`, where the cell text
//! is the same and there is room.
//!
//! `scan` is the same for grants that need not be kept: it hands each one to a `GrantVisitor` as it is read, so that a journal of any
//! length takes the memory of a few pieces. Where nothing stands that could be gone on with, it answers an `OpenError`, the disk with
//! the cause, as each opening above does.
#![tactic(auto)]

mod gates;
mod heads;
mod open_error;
mod pieces;
mod recoveries;
mod scans;
mod stop;
mod texts;
mod visitors;
mod walks;

pub use journal_format::JournalFault;
pub use open_error::{OpenError, OpenFault};
pub use recoveries::{Opened, recover};
pub use scans::{Scanned, scan};
pub use visitors::{Discard, GrantVisitor};
