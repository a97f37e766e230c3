//! Small cells and a sink that fails, for the tests of other crates.
//!
//! `cell_of_one` is the least cell there is. `crossing` is the least one in which two parts can stand in each other's way, as a value
//! and, as `CROSSING`, as the text of its file. Others are made of machines and types one by one. Each of them fits the limits. A
//! `TornSink` takes a first part of a piece and fails then.
//!
//! ```text
//! let cell = crossing(rt.alloc())?;
//! assert!(rt; cell_fits(&cell));
//! ```
//!
//! ```rust
//! let mut out = TornSink::new(rt.alloc(), 1);
//! assert!(rt; out.put(b"whole\n").is_ok());
//! assert!(rt; out.put(b"torn\n").is_err());
//! assert!(rt; out.bytes() == b"whole\nto".as_slice());
//! ```
#![tactic(auto)]

mod cells;
mod files;
mod torn_sink;

pub use cells::{add_machine, add_type, cell_of_one, crossing};
pub use files::CROSSING;
pub use torn_sink::TornSink;
