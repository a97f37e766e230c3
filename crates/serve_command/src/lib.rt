//! `serve CELL JOURNAL`: one step at a time, durably, for software that asks while it runs.
//!
//! The command reads lines and answers each by one line, or by a list, in turn. A step that is granted is on the disk before its answer is
//! put. The lines that are there when it reads are answered as one group, up to 512 of them: they are decided in turn, their grants are made
//! stable by one pair of syncs, and then the answers are put. All memory is taken before the first line is put, and none after:
//!
//! ```text
//! shift 0 after 12          // ready, after twelve grants
//! 7 load 3 A                // in
//! 7 load 3 A granted        // out
//! 7 grants                  // in
//! 7 grants 1                // out
//! ```
//!
//! A step that is asked with `wait` stays with the server where there is no room for it, and is served as soon as a grant has made room: it is
//! decided in the group of that grant, and on the disk with it. After each line nobody waits whose step could be granted.
#![tactic(auto)]

mod asks;
mod beside;
mod command;
mod counts;
mod deciding;
mod first_grant;
pub mod laws;
mod listings;
mod questions;
mod replies;
mod rounds;
mod said_lines;
mod server;
mod serving;
mod session_request;
mod waiting;

pub use asks::{Ask, MAX_ASK_BYTES, MAX_SESSION, read_ask};
pub use beside::print_usage_beside;
pub use command::{MAX_SERVED, run_serve};
