//! The grants that went to a disk, counted by the calls that brought them there.
//!
//! A journal writes records after a closed gate, and a gate after each, makes them stable, opens the gate before them by a write of one
//! byte, and makes that stable. The file's first byte is no such gate.

use entry_codec::ENTRY_SIZE;

/// How many grants are stable, and how many the next write of a gate and the next sync are about.
#[derive(Clone, Copy, Debug, Default)]
pub(crate) struct GrantCount {
    written: u64,
    opened: u64,
    stable: u64,
}

impl GrantCount {
    /// So many bytes were written at an offset.
    pub(crate) fn write(&mut self, at: u64, bytes: u64) {
        if bytes == 1 && at > 0 {
            self.opened = self.written;
        } else {
            self.written = bytes / ENTRY_SIZE;
        }
    }

    /// What was written is stable. It answers how many grants are, where there are more than before.
    pub(crate) fn sync(&mut self) -> Option<u64> {
        if self.opened == 0 {
            return None;
        }
        self.stable = self.stable.saturating_add(self.opened);
        self.opened = 0;
        Some(self.stable)
    }
}
