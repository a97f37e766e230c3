//! The sixteen bytes by which a journal keeps a grant.
//!
//! Every grant has one record, but a move by a branch that no place has; a record is read as its grant,
//! and no other bytes are read as one. So a journal that is read and written again has the same bytes.
//! Both calls take no memory:
//!
//! ```text
//! let record = encode(&grant);       // [u8; 16]
//! match decode(&record) {
//!     Some(again) => ..,             // the same grant
//!     None => ..,                    // the bytes are no record: here this can't come
//! }
//! ```
#![tactic(auto)]

mod decoder;
mod encoder;

pub use decoder::decode;
pub use encoder::{ENTRY_SIZE, encode};
