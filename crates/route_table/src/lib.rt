//! The stages of a cell as a flat table, by their numbers.
//!
//! A stage is a place of the route of a type. The stages are numbered from 0, types in the order of the cell, and places
//! upward within a type. A `StageTable` keeps its cell, a copy by `new` and the caller's own by `of`, with an entry for each stage,
//! so that each look-up reads a fixed number of entries, however long the routes are. Contracts see it as the cell. It takes memory
//! when it is made and never after. Whoever needs the cell for longer holds it too, by `shared`.
//!
//! ```text
//! let table = StageTable::new(alloc, &cell)?;
//! if let Some(stage) = table.stage_of(TypeId(0), 2) {
//!     let machine = table.resource_of(stage);
//!     let next = table.next_of(stage, 0);              // None at a last stage
//!     let steps = table.remaining(stage, false);       // until a part that is not done there is out
//! }
//! ```
//!
//! That each stage has one number and each number one stage is `numbering_law` of `policy_laws`.
#![tactic(auto)]

mod entries;
mod laws;
mod stage_table;

pub use laws::table_law;
pub use stage_table::{StageNo, StageTable};
