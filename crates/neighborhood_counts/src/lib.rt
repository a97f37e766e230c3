//! How many parts the neighborhood of each resource holds, kept as running numbers.
//!
//! A mask has one bit for each resource. `first_full` tells the lowest resource of a mask that takes no more, and `enter`,
//! `leave` and `shift` change exactly the counts that a mask names, by one each:
//!
//! ```text
//! let mut counts = Counts::new(alloc, &capacities)?;
//! if counts.first_full(to & !from).is_none() {
//!     counts.shift(from, to);
//! }
//! ```
//!
//! The resources that are full are a mask of their own, so the look-up is one operation, and a change takes one step for
//! each bit that is set. No call but `new` takes memory.
#![tactic(auto)]

mod counts;

pub use counts::Counts;
