//! Requests that wait for room, in the order of their arrival.
//!
//! A `WaitQueue` holds the sessions whose requests the policy refused for a full neighborhood. Each waiter watches one resource: a full
//! neighborhood that its request would enter. While that neighborhood stays full the request can't be granted, whatever else happens, so
//! nobody has to look at the waiter. It is the rule of the watched literals of a satisfiability solver (Moskewicz, Madigan, Zhao, Zhang and
//! Malik, "Chaff: Engineering an Efficient SAT Solver", 2001): a look is owed only where what is watched changes, and then another resource
//! is watched, or the waiter is ready. A grant also changes what the requests of its own job come to; a table of how many waiters there are
//! of each job tells whether there are any, and one of the sessions whether one waits.
//!
//! ```text
//! waiters.push(waiter, at);                            // refused: the neighborhood of `at` is full
//! ..
//! waiters.note(&request);                              // a request was granted
//! while let Some(waiter) = waiters.take_ready(core) {  // the first in order that is no longer refused for want of room
//!     ..                                               // its request is asked, and it is told
//! }
//! ```
//!
//! The queue knows nothing of who decides: `serve` runs the loop above over a core, and who keeps a core under more than that runs the same
//! loop over its own calls. Only `with_room` takes memory.
#![tactic(auto)]

mod in_turn;
mod key_counts;
pub mod laws;
mod looking;
mod queue;
mod serving;
mod waiter;

pub use queue::WaitQueue;
pub use serving::{ask, serve};
pub use waiter::Waiter;
