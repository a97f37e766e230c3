//! Lines on their way to a sink, up to the first that it doesn't take.
//!
//! A printer keeps the first failure of its sink, so that whoever prints goes straight on, and the status is asked for once, at the end.
//! What it does with some lines is one relation, `Prints`; the laws of how lines follow one another stand in `proofs/Sequences`.
//!
//! ```text
//! let mut printer = Printer::new(out);
//! printer.line(&head_line(1, 0));
//! print_left(&mut printer, core);
//! printer.status(Status::Done)
//! ```
#![tactic(auto)]

mod printer;

pub use printer::Printer;
