//! How a call ended, and how it is compared.

use anyhow::{Result, bail};
use cell_program::Ended;
use outside_io::{Files, MemDisk, MemFiles};
use std::alloc::Global;

/// How a call ended: its status, all that the sink took, and the disk of its journal; and the files that it read.
#[derive(Drop)]
pub struct CallEnd {
    pub status: u8,
    pub text: Vec<u8>,
    pub disk: MemDisk,
    files: MemFiles,
}

impl CallEnd {
    /// The end of a call whose sink took these bytes.
    pub fn new(
        alloc: Global,
        ended: Ended<MemDisk>,
        taken: &[u8],
        files: MemFiles,
    ) -> Result<CallEnd> {
        let Ended { status, disk } = ended;
        let text = taken.to_vec(alloc)?;
        Ok(CallEnd {
            status,
            text,
            disk,
            files,
        })
    }

    /// Whether the next read of a file fails: where one was listed that the call didn't come to.
    pub fn fails_next_read(&mut self, alloc: Global) -> Result<bool> {
        if self.files.add("", &[]).is_err() {
            bail!("no memory");
        }
        let read = self.files.read_file(alloc, "", 0, &mut Vec::new(alloc));
        Ok(read.is_err())
    }

    /// What it left of the journal.
    pub fn left(&self) -> &[u8] {
        self.disk.bytes()
    }

    /// How many lines were printed.
    pub fn lines(&self) -> u64 {
        self.text.iter().filter(|byte| **byte == b'\n').count() as u64
    }

    /// How many lines end with a grant.
    pub fn grants(&self) -> u64 {
        let lines = self.text.split_inclusive(|byte| *byte == b'\n');
        lines.filter(|line| line.ends_with(b" granted\n")).count() as u64
    }

    /// Whether it ended like this.
    pub fn is(&self, status: u8, text: &[u8], left: &[u8]) -> bool {
        self.status == status && self.text.as_slice() == text && self.left() == left
    }

    /// It as a text.
    pub fn written(&self, alloc: Global) -> Result<String> {
        written(alloc, self.status, self.text.as_slice(), self.left())
    }
}

/// An end with this status, text and journal as a text.
pub fn written(alloc: Global, status: u8, text: &[u8], left: &[u8]) -> Result<String> {
    let text = String::from_utf8_lossy(alloc, text)?;
    let left = hex::encode(alloc, left)?;
    Ok(format!(in alloc; "{text}= {status}, left {left}\n")?)
}
