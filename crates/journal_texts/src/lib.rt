//! What the commands with a journal share: the journal opened to be added to, read for the state after its grants, or refused; and the
//! record of what was asked after them.
//!
//! A reader gives what a journal stands for, or the end of the command in its place, and hands the disk back.
//!
//! ```text
//! let Made { made, disk } = read_journal(alloc, held, disk);
//! match made {
//!     Ok(AfterGrants { core, .. }) => print_left(&mut Printer::new(&mut out), core),
//!     Err(end) => finish_early(&mut out, end),
//! }
//! ```
#![tactic(auto)]

mod opening;
mod readers;
mod recorded;
mod refusals;

pub use opening::{open_journal, open_journal_with};
pub use readers::{AfterGrants, Found, find_grants, read_journal};
pub use recorded::{Asked, Recorded, give_back, print_record, print_recorded, record_of};
pub use refusals::{at_journal_fault, at_open_fault, at_other_shift};
