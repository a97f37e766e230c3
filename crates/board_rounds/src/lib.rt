//! Sessions that ask a board in rounds, on one thread.
//!
//! In each round the sessions 1, 2, .. ask their present step once, in this order, where they have neither ended nor wait. A grant brings a
//! session to its next step, at once or at the end of a wait; a refusal counts towards its patience; that it waits counts for nothing. The
//! rounds end after one in which none asks: then each session has ended or waits. The history is the one of the definition `queue_run`.
//! No memory is taken: the board brings it.
//!
//! ```text
//! let mut board = Board::open(alloc, core, shift.scripts.len() as u16, 2 * MAX_ASKS)?;
//! ask_in_rounds(&mut board, &shift);
//! ```
#![tactic(auto)]

mod progress;
mod rounds;

pub use rounds::ask_in_rounds;
