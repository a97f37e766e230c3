//! The lines of what is read, out of pieces that begin and end anywhere.
//!
//! Bytes come from a peer in pieces. `InputLines` gives the whole lines in them one by one, whatever the pieces are: a line that
//! begins in one piece and ends in a later one is one line, and what stands after the last newline is none. Of a line the first
//! `LINE_KEPT` bytes are kept, so that a line of fewer bytes is given whole, and a longer one is known to be longer. All memory is taken
//! by `new`:
//!
//! ```text
//! let mut lines = InputLines::new(alloc)?;
//! while lines.fill(&mut peer, &disk)? > 0 {
//!     while lines.next_line() {
//!         answer(lines.line());
//!     }
//! }
//! ```
#![tactic(auto)]

mod input_lines;

pub use input_lines::{InputLines, LINE_KEPT};
