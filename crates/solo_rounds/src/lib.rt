//! The sessions of a shift that go through their scripts in rounds, on one thread.
//!
//! In each round of `solo` every session that has not ended asks its present step once, in the order of the sessions' numbers. A grant
//! brings a session to its next step; at `patience` refusals of one step, or after its last step, it ends. The history that is made is
//! the one that the definition `IsRoundRobin` has room for, and the core is left in the state after it. No memory is taken: the caller
//! brings a shelf with room for all asks. `run_rounds` takes this room and an empty core, and then plays a shift so.
//!
//! `Rounds` are the same, one ask at a time: whoever wants each entry as it is told, and no history, asks them until they give none.
//!
//! A session's `Progress` is the number of its present step and how often that was refused: whoever lets sessions ask in another way goes
//! on by it too.
//!
//! ```text
//! let SoloRun { core, number, history } = run_rounds(alloc, cell, &shift)?;
//!
//! let mut rounds = Rounds::begin();
//! while let Some(entry) = rounds.ask(&mut core, &shift) { .. }
//! ```
#![tactic(auto)]

mod counts;
mod progress;
mod rounds;
mod runs;

pub use counts::{asks_of, steps_of};
pub use progress::Progress;
pub use rounds::Rounds;
pub use runs::{SoloRun, run_rounds, solo};
