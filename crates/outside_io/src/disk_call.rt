//! The calls of a disk, by kind and number.

/// The kinds of a disk's calls.
#[derive(Clone, Copy, Debug, PartialEq, Eq)]
pub enum CallKind {
    Len,
    Read,
    Write,
    Sync,
}

/// One call of a disk: the `nth` of its kind, from 1.
#[derive(Clone, Copy, Debug, PartialEq, Eq)]
pub struct DiskCall {
    pub kind: CallKind,
    pub nth: u64,
}
