//! Records printed over a `Printer`, each line by itself: the history of a shift, the parts that it left in a core, and the plan that takes
//! them out. It takes no memory.
//!
//! ```text
//! let mut printer = Printer::new(out);
//! print_block(&mut printer, core, 1, 0, &entries);
//! printer.status(Status::Done)
//! ```
#![tactic(auto)]

mod printing;
pub mod records;

pub use printing::print_left;
