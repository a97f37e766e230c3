//! How a call over objects in memory ended.
use cell_texts::CommandEnd;
use outside_io::{MemDisk, MemSink};

/// The exit status, what was printed, and the disk after it.
#[derive(Drop)]
pub struct CallEnd {
    status: u8,
    out: MemSink,
    disk: MemDisk,
}

impl CallEnd {
    /// What a command left, and what it put.
    pub fn new(end: CommandEnd<MemDisk>, out: MemSink) -> CallEnd {
        CallEnd {
            status: end.status.number(),
            out,
            disk: end.disk,
        }
    }

    /// The exit status, and what was printed.
    pub fn told(&self) -> (u8, &[u8]) {
        (self.status, self.out.bytes())
    }

    /// The bytes of the journal.
    pub fn journal(&self) -> &[u8] {
        self.disk.bytes()
    }
}
