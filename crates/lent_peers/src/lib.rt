//! A peer with the disk that is lent to each of its puts, which is a sink like any other.
//!
//! So the lines of a live controller are printed as all others are, and what was put at each moment is still told with what a crash then may
//! leave. A function that is generic over its sink prints:
//!
//! ```text
//! let printed = print_lines(&mut Lent::new(peer, disk), lines);
//! ```
#![tactic(auto)]

mod lent;

pub use lent::Lent;
