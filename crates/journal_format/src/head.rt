//! The head of a file. `L` is the length of the cell text:
//!
//! | Offset | Content |
//! |---|---|
//! | 0 | the file's gate: 1 is open, any other value is closed |
//! | 1 to 8 | the name, `RUNCELL1` |
//! | 9 to 12 | `L`, big-endian |
//! | 13 to 12 + L | the cell text, byte for byte the cell file |
//! | 13 + L | the gate of the first record |

use crate::{BlankForm, JournalFault};

/// Where the cell text begins, in bytes.
pub const TEXT_AT: u64 = 13;

/// What the head of a file shows.
#[derive(Clone, Copy)]
pub enum Head {
    Blank(BlankForm),
    Faulty(JournalFault),
    /// The file's gate is open, and the stored text has so many bytes.
    Open(u32),
}
