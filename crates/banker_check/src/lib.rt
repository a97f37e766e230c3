//! The Banker's test beside the neighborhoods: a cell that grants whatever leaves it in a state that the policy admits, or
//! in one whose parts can run to their ends in some order.
//!
//! The parts of a state are **ordered** where no resource holds more of them than it has units, and they can be listed so that each one
//! finds a unit left on every resource of its way while those after it stay where they are: the Banker's test of Dijkstra (1965), over
//! the first-branch ways of the parts. `Hybrid` grants a load or a move where the policy admits the next state or its parts are ordered.
//! It finds that by greed: a part that is not held up is taken out, again and again, and what is left at last is the largest set of parts
//! that are stuck. That greed loses nothing is one of the `laws`.
//!
//! ```text
//! let mut hybrid = Hybrid::open(alloc, cell)?;
//! match hybrid.ask(&request) {
//!     HybridReply::Granted => ..,                                       // and done
//!     HybridReply::Refused(why) => ..,                                  // never for a full neighborhood
//!     HybridReply::Blocked { at, count, capacity, stuck } => ..,        // `stuck` parts could never go on
//! }
//! let order = hybrid.order(alloc)?;                                     // whose part may run to its end first, second, ..
//! ```
//!
//! The neighborhoods are counted as the parts change, so that the policy's test of a load or a move looks once at each resource, and
//! at no part but the one that is asked for. The Banker's test is asked only where the policy would refuse. It looks at each part once
//! for each round of greed, whatever its way: the way of a stage is a mask, made by one sweep, and a part is held up exactly where
//! `way & (full & !own | over)` is not 0. The next round depends on which resources are full and which hold more than their units. Each
//! of both ends once for a resource, so there are at most two rounds for each resource, and two; mostly there are two or three. A job is
//! found, and a part taken out of the list, by one look along the list; a step of the plan looks at each part once or twice.
//! Only `open` and `order` take memory.
#![tactic(auto)]

mod changes;
mod counts;
mod deciding;
mod fullness;
mod held;
mod hybrid;
pub mod laws;
mod ordering;
mod parts;
mod planning;
mod replies;
mod rounds;
mod stage_masks;
mod tally;
mod ways;

pub use hybrid::Hybrid;
pub use replies::HybridReply;
