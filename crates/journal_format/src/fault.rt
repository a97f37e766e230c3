//! Why a file is refused.

/// Why a disk is refused.
#[derive(Clone, Copy, Debug, PartialEq, Eq)]
pub enum JournalFault {
    /// The name of a journal doesn't stand after the first byte.
    NotAJournal,
    /// The stored cell text and the given one differ at this byte, or the shorter of them ends there.
    OtherCell { at: u64 },
    /// The head ends early (`at` is 9), or the gate at this offset of the file is missing, or it is open and no whole record
    /// stands after it.
    Damaged { at: u64 },
    /// There are more grants than room; `len` is one more than the room.
    Long { len: u64 },
}
