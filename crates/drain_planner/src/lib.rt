//! The plan that empties a cell, step by step.
//!
//! A `Drainer` takes a core over and gives the steps of its plan in turn, each one applied, until no part is left. Each step
//! is granted, and there are exactly as many as the parts need together: from every state that the policy admits. Only `plan`,
//! which lists all steps, takes memory.
//!
//! ```text
//! let mut drainer = Drainer::new(core);
//! println!(rt; "plan {}", drainer.length())?;
//! while let Some(step) = drainer.next() {
//!     print_step(drainer.cell(), &step)?;
//! }
//! let core = drainer.into_core();    // no part is left
//! ```
#![tactic(auto)]

mod drainer;
mod plans;

pub use drainer::Drainer;
pub use plans::plan;
