//! A journal's file that is only read, beside whoever writes it.
//!
//! A look takes no lock. It ends at the length that the file had when it began, and reads the pieces later, so more may stand there by
//! then. A journal's gate is opened only when the record after it and the next gate are in the file, and it is never closed again. So what
//! is read, piece by piece from the start on, is a prefix of the journal, but for one gate: the last one within the length. By the time
//! that it is read its record may stand there, beyond the length. So where the file has grown, that gate is read as closed. The journal's
//! closed gate stood there or before it when the length was asked, so the grants before it are all that there were then, and perhaps more.
//! Where the head wasn't whole within the length, the last gate is the file's own, and the look finds a blank file, as it was then.
//!
//! A file that hasn't grown is read as it is, and so is one that is no journal: what is wrong with it is told.
use entry_codec::ENTRY_SIZE;
use journal_format::{NAME, TEXT_AT};
use std::fs::File;
use std::io::{self, Error, ErrorKind};
use std::os::unix::fs::{FileExt, MetadataExt};
use std::rt::Files;

/// An open file, and the length at which the look ends.
#[derive(Drop)]
pub(crate) struct Look {
    file: File,
    length: u64,
}

impl Look {
    /// A look at an open file whose length wasn't asked yet.
    pub(crate) fn new(file: File) -> Look {
        Look { file, length: 0 }
    }

    /// The number of bytes, at which the look ends from now on.
    pub(crate) fn len(&mut self) -> io::Result<u64> {
        self.length = self.file.metadata()?.len();
        Ok(self.length)
    }

    /// Fills `out` with the bytes from `at` on. An end that is met before `out` is full is an error. The length is asked after the bytes
    /// are read: where it is what it was, they are those of a file that had not grown.
    pub(crate) fn read_at(&self, at: u64, out: &mut [u8]) -> io::Result<()> {
        self.file.read_exact_at(out, at)?;
        let now = self.length_now()?;
        if now > self.length && now >= TEXT_AT {
            self.close_last_gate(at, out)?;
        }
        Ok(())
    }

    /// Makes stable what was read. It is an error where another file has the name by now.
    pub(crate) fn sync<R: Files<File = File>>(&self, rt: &R, name: &str) -> io::Result<()> {
        self.file.sync_data()?;
        self.length_now()?;
        let (own, named) = (self.file.metadata()?, rt.metadata(name)?);
        if own.dev() == named.dev() && own.ino() == named.ino() {
            Ok(())
        } else {
            Err(Error::new(ErrorKind::NotFound, "another file has its name"))
        }
    }

    // The length by now. No journal is cut shorter.
    fn length_now(&self) -> io::Result<u64> {
        let now = self.file.metadata()?.len();
        if now < self.length {
            return Err(Error::new(ErrorKind::UnexpectedEof, "it was cut shorter"));
        }
        Ok(now)
    }

    // Closes the last gate within the length, where a journal stands there, and it is among the bytes from `at` on.
    fn close_last_gate(&self, at: u64, out: &mut [u8]) -> io::Result<()> {
        let mut head = [0; TEXT_AT as usize];
        self.file.read_exact_at(&mut head, 0)?;
        if let Some(gate) = last_gate(&head, self.length) {
            if let Some(index) = gate.checked_sub(at) {
                if let Some(byte) = out.get_mut(index as usize) {
                    *byte = 0;
                }
            }
        }
        Ok(())
    }
}

// The last gate within so many bytes of a journal that begins so.
fn last_gate(head: &[u8; 13], length: u64) -> Option<u64> {
    if head[0] != 1 || &head[1..9] != NAME.as_slice() {
        return None;
    }
    let size = u32::from_be_bytes([head[9], head[10], head[11], head[12]]);
    let first = TEXT_AT + u64::from(size);
    if length <= first {
        return Some(0);
    }
    let last = length - 1;
    Some(last - (last - first) % ENTRY_SIZE)
}
