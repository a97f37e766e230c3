//! What stands between the whole program and whoever calls it: standard input and output as the two ends of a conversation, and what a person
//! at a terminal is told on standard error.
//!
//! ```text
//! let manner = Manner::of(&rt, rt.stderr().is_terminal());
//! // runs the command, and then
//! if manner.gives_hints {
//!     let failure = failure_of(status, &files, &disk, &out);
//!     tell(&rt, usage(), &words, status, line, failure);
//! }
//! ```
//!
//! It stands on no command, so it is proved beside them. Proved of each call is that it is safe and returns, and of a source and a peer that a
//! failure comes only where their count of faults rose. What they tell a person is tested, by `checks/hints` and `checks/served-lines`.
#![tactic(auto)]

mod absence;
mod gathered;
mod hinting;
mod manner;
mod watched;

pub use absence::absence_line;
pub use gathered::Gathered;
pub use hinting::{Fails, failure_of, tell};
pub use manner::Manner;
pub use watched::Watched;
