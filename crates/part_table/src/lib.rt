//! The parts of a cell in the order of arrival at their present stages.
//!
//! A contract sees the list of parts, how many more may arrive, and the cell of which the table was told, if of one. Memory is taken
//! once, by `with_room` and `told_of`, and by no later call but `listed`, which makes a list.
//!
//! ```text
//! let mut parts = Parts::with_room(alloc, 8)?.told_of(alloc, &table)?;
//! parts.arrive(part);
//! if let Some(job) = parts.first_waiting(&table, machine) {
//!     parts.finish(job);
//!     parts.advance(job, place, false);
//! }
//! ```
//!
//! The parts stand in a log: an arrival is a new entry at its end, a part that moves or leaves only marks its old entry as
//! gone, and the entries that stay are moved together when there are four times as many entries as parts, or the log is full:
//! so a few parts stand in a few lines of memory, whatever the room is. A hash table leads from a job to its slot, which it keeps
//! while its part is there, and the slot to the entry: so the table is written as a job comes in, and neither as its part goes on
//! nor as entries are moved. A table that was told of a cell keeps the resource of each of its stages in a byte, and each part on the
//! lane of its resource: an entry leads to the next one of its lane, be it gone or not, and each lane to its first entry that stays, to
//! its first that stays and is not done, and to its last. So `get`, `find_on`, `first_waiting`, `finish`, `finish_first`, `len` and
//! `spare` take a step or two, and `arrive`, `advance` and `depart` a few. Where the first part of a lane goes, the next one is found
//! along these links, by one step for each entry that is gone. `nth` goes through the log, and so do `listed`, once for all parts, and
//! `first_waiting` of a table that was told of no cell, all of whose parts are on one lane.
//!
//! `find` and `find_on` give a hint beside the part. `advance_found` and `depart_found` take both, and find the part without a look-up by
//! its job. They do what `advance` and `depart` do, whatever the hint is.
#![tactic(auto)]

mod arrivals;
mod chain;
mod found;
mod lanes;
mod link;
mod log;
mod parts;
mod slots;
mod standing;

pub use found::{Found, PositionHint};
pub use parts::Parts;
