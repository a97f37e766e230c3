//! What the bytes of a journal's file stand for: no grants yet, grants in their order, or nothing that can be gone on with.
//!
//! The definitions beside the code say it in two ways. By `StandsFor` a file is blank, or it has a head with the cell text, after open gates
//! the records of the grants, and then a closed gate. By `read_as` the bytes are read from their start on to the grants, or to the first
//! fault. The lemmas show that no file stands for two lists, and that what stands for grants is read as these, where there is room.
//! `opened_as` also replays the grants, each in its turn, by the policy.
//!
//! `move_journal` writes such files, and `shift_recovery` reads them.
#![tactic(auto)]

mod blank;
mod fault;
mod head;

pub use blank::{BlankForm, NAME};
pub use fault::JournalFault;
pub use head::{Head, TEXT_AT};
