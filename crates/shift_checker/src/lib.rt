//! Whether a record tells what the policy answers, line by line.
//!
//! `check` recounts the parts at every line of the blocks that `read_record` gives, and has none of the controller's
//! code. It answers exactly what `judge` of `specs/Judging` says, which judges each line by itself:
//!
//! ```rust
//! match read_record(alloc, &cell, text) {
//!     Ok(blocks) => Ok(Some(check(alloc, &cell, &blocks)?)),      // yes, or the first line that fails, and why
//!     Err(_) => Ok(None),
//! }
//! ```
//!
//! `check_text` does both at once, line by line as the text is read, and so takes the memory of the parts alone.
//!
//! The state is empty before the first block. A shift that was halted at a request leaves open whether it was written:
//! it was where the head of the next block names one more grant. The steps of a plan are tried, and change nothing.
//! `laws` says that the record of a legal shift and its plan is right.
#![tactic(auto)]

mod block_lines;
mod checking;
pub mod laws;
mod replies;
mod verdict;
mod walk;

pub use checking::{check, check_text};
pub use verdict::{Verdict, Why};
