//! Lists whose contracts show their elements, and want of memory as an answer.
//!
//! A push to a `List` may find no memory, and the list then stays as it was. A `Shelf` takes its room beforehand, so that a push to it
//! takes none.
//!
//! What `specs/` defines is what the two are in contracts, and `proofs/` has facts about lists in general: what stands in one, what is
//! found in it, and how one grows that is made from a function of the index.
#![tactic(auto)]

mod list;
mod shelf;

pub use list::{List, NoMemory};
pub use shelf::Shelf;
