//! A part as it stands.
use cell_base::{Part, ResId};

/// A part and the resource on which it stands.
#[derive(Clone, Copy, Debug, PartialEq, Eq)]
pub struct Standing {
    pub part: Part,
    pub on: ResId,
}

/// A part as it came, whether it still stands so, and the slot of its job.
#[derive(Clone, Copy, Debug, PartialEq, Eq)]
pub struct Entry {
    pub item: Standing,
    pub stays: bool,
    pub slot: u32,
}
