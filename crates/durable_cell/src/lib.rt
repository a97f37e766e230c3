//! A cell whose grants are on a disk: the core and the journal in one type, so that neither is ahead of the other.
//!
//! ```rust
//! match Durable::open(alloc, cell, b"cell", disk, 8, 5) {
//!     Opening::Open(durable) => Ok(durable),  // after the grants that stand on the disk
//!     Opening::Refused { .. } => Err(Fail::from("no journal of this cell")),
//!     Opening::Device { .. } => Err(Fail::from("the device failed")),
//!     Opening::Memory { .. } => Err(Fail::from("no memory")),
//! }
//! // for each request, of a session in a shift
//! let reply = durable.ask(1, 2, request);            // a grant is stable before it is answered
//! // in the end
//! let finished = durable.finish();                   // the disk, the core, the history and the grants
//! ```
//!
//! `open` recovers what stands on the disk, replays it, takes all memory, and last makes a journal where there is none. `ask`
//! decides a request by the core; a request that is granted is written to the journal, and only then is it applied and
//! answered. So whatever moment a crash comes at, from the one at which the disk was found, what it leaves stands for the
//! grants of the opening and a prefix of those since, and each grant that was answered is among them; `open` finds these again.
//! Where nothing is granted the disk is not touched. Where the writing fails the history ends with a halt: nobody knows whether
//! that one grant is on the disk, the core goes on without it, and every later `ask` is answered `Halted`, until the disk is
//! opened again.
//!
//! `resume` is the first half of `open`: it reads a disk and replays its grants, and writes nothing. Both hand each grant on as it is
//! read, and keep no list of them: an opened cell knows how many there are, and contracts alone know which.
#![tactic(auto)]

mod durable;
mod fault;
mod finished;
mod laws;
mod marks;
mod opening;
mod recalled;
mod recalling;
mod replays;
mod resumed;
mod stored;

pub use durable::Durable;
pub use fault::AskFault;
pub use finished::Finished;
pub use laws::durable_law;
pub use opening::{Heard, Opening};
pub use recalled::{Recall, Recalled};
pub use replays::{MAX_BEFORE_DRAIN, MAX_ROOM};
pub use resumed::{Resumed, resume};
pub use stored::Stored;
