//! A line of text, made word by word on the stack, with no memory.
//!
//! ```text
//! let mut line = Line::of_word(b"cell");
//! line.word(b"refused");
//! line.number(7u32);
//! line.end()              // "cell refused 7" and a newline
//! ```
#![tactic(auto)]

mod line;

pub use line::{LINE_BYTES, Line};
