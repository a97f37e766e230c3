//! Why a request is refused, and which stages a neighborhood has.
//!
//! A request that is refused for a full neighborhood is told the resource and two numbers. `explain` names the jobs that
//! stand in that neighborhood, as many as the resource has units; each other refusal needs no job. `show_text` shows the
//! resources of a core's cell, each with the stages of its neighborhood:
//!
//! ```text
//! if let Reply::Refused(why) = core.decide(&request) {
//!     let jobs = explain(alloc, &core, &why)?;
//! }
//! let text = show_text(alloc, &core)?;     // "resource M1 capacity 1 order 1", "stage A 0", "stage Z 1", .., each on a line
//! ```
#![tactic(auto)]

pub mod laws;
mod reasons;
mod shown;

pub use reasons::{explain, leads};
pub use shown::show_text;
