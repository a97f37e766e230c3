//! A standing cell moved to a new cell file: `carry` prints the parts of a journal as a start file of the new cell, and `begin` makes a
//! journal of a start file. The walk of each stands in `specs/`, and `cell_driver::drive` goes it.
//!
//! ```text
//! let CommandEnd { status, disk } = run_carry(alloc, &mut files, &mut out, "cell.toml", "new-cell.toml", disk);
//! let CommandEnd { status, disk } = run_begin(alloc, &mut files, &mut out, "new-cell.toml", "start", new_disk);
//! ```
#![tactic(auto)]

mod asking;
mod begin;
mod carry;
mod carrying;
mod compared;
pub mod laws;
mod placing;
mod refusals;
mod starts;

pub use begin::{Begin, run_begin};
pub use carry::{Carry, run_carry};
pub use refusals::{CarryFault, StartFault, Uncarried};
