//! A durable cell that several threads share. Each asks in its turn, and there is one history of all that they asked.
//!
//! A lock is opened over a durable cell, for one shift and for as many passes as there are sessions. A pass is the right to
//! ask under its number; it may go to a thread of its own. An ask waits for the turn, decides the request on the one cell
//! and gives up the turn. What the pass then knows: the history that it sees begins with all that it saw before, is one that
//! a single thread could have made from the state of the opening, and has the pass's own entries and no others under its
//! number. Closing the lock with all of its passes gives the durable cell back, whose history begins with what every pass
//! saw and has, number by number, just the entries that the passes have as their own. And whatever a pass has seen granted, with
//! any of its answers, is on each image that a crash may leave, at each moment since that answer.
//!
//! ```rust
//! match SharedCell::open(alloc, durable, 1, 1) {
//!     Ok((cell, passes)) => use_lock(rt, alloc, cell, passes, step, request),
//!     Err(_) => bail!("no memory"),
//! }
//! // on any thread that has a pass
//! let step = cell.peek_plan_step(rt, pass);
//! (step, cell.ask(rt, pass, request))
//! // with all passes
//! Ok(cell.close(passes))
//! ```
//!
//! The lock stands on a table of two words and a slot. Word 0 is the turn, word 1 the length of the history, and the slot is
//! the durable cell's home. The rule of the table (`specs/Law`) ties what each pass knows to the one history.
#![tactic(auto)]

mod board;
mod pass;
mod plays;
mod sending;
mod setting;
mod shared_cell;
mod steps;

pub use board::Opening;
pub use pass::Pass;
pub use shared_cell::SharedCell;
