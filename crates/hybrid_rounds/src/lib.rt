//! Sessions that ask a hybrid in rounds, on one thread.
//!
//! In each round every session that has not ended asks its present step once, in the order of their numbers, as sessions ask a core. A
//! grant brings a session to its next step; a refusal, and so a block too, counts towards its patience. The history is the one of the
//! definition `IsHybridRoundRobin`; `laws` says that there is no other. No memory is taken: the caller brings a shelf with room for
//! all asks.
//!
//! ```text
//! let mut history = Shelf::with_room(alloc, MAX_ASKS)?;
//! ask_in_rounds(&mut hybrid, &shift, &mut history);
//! ```
#![tactic(auto)]

mod entries;
pub mod laws;
mod rounds;

pub use entries::{HybridEntry, taken, taken_reply};
pub use rounds::ask_in_rounds;
