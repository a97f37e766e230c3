//! Large valid input from a number: a cell and a shift, drawn by a generator that anybody can compute again.
//!
//! A number gives a sequence of draws. From it `make` draws sixteen resources, eight types with their routes, and the types of
//! 48 jobs. The shift brings the 48 jobs through the cell: each has a session of its own, and each machine has one that works as
//! often as the jobs have work for it. `specs/` has the draws as definitions, and the contract of `make` says that its cell and its
//! shift are the ones of the definitions, and that both fit.
//!
//! ```text
//! let Made { cell, shift } = make(alloc, 1)?;
//! let core = Core::open(alloc, cell)?;                      // the shift fits the core's cell
//! ```
#![tactic(auto)]

mod cells;
mod draws;
mod made;
mod names;
mod shifts;

pub use made::{Made, make};
