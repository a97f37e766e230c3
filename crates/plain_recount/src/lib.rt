//! The parts of a cell and the policy's answers, each found by a look at every part.
//!
//! A `Recount` stands for the parts that requests have brought into a cell, from the empty state on. `ask` gives the reply to
//! a request by the definition, and makes its change where it is granted; `decide` leaves the parts. Nothing is
//! remembered but the parts: each answer counts them anew. It shares no code with the controller, so that one can be
//! checked by the other:
//!
//! ```text
//! let mut recount = Recount::new(alloc, &cell)?;
//! recount.ask(&load);      // Reply::Granted; recount.parts_left() is 1
//! recount.keep();
//! recount.ask(&unload);    // Reply::Refused(Refusal::NotProcessed)
//! recount.go_back();       // the parts are those of before
//! ```
#![tactic(auto)]

mod changes;
mod counts;
mod mask;
mod parts;
mod recount;
mod replies;
mod stage_masks;
mod sweep;

pub use recount::Recount;
