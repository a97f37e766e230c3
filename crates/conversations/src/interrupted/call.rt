//! A command of the controller, over objects in memory.

use crate::in_memory::disk_with;
use anyhow::{Context, Result, bail};
use cell_program::{Ended, cell_main};
use lists::List;
use outside_io::{FreePace, MemDisk, MemFiles, MemSink, Pace};
use std::alloc::Global;
use std::sync::Wait;
use std::thread::Threads;
use test_fixtures::CROSSING;

/// How a command ended: its status, what it printed, and the disk after it.
#[derive(Drop)]
pub struct CallEnd {
    pub status: u8,
    pub text: String,
    pub disk: MemDisk,
}

impl CallEnd {
    /// The end of a call that printed these bytes.
    pub fn new(alloc: Global, ended: Ended<MemDisk>, printed: &[u8]) -> Result<CallEnd> {
        let Ended { status, disk } = ended;
        let text = String::from_utf8_lossy(alloc, printed)?;
        Ok(CallEnd { status, text, disk })
    }

    /// Ends with what was told in place of this.
    pub fn is_to_be(&self, status: u8, text: &str) -> Result<()> {
        if self.status != status || self.text.as_str() != text {
            let (told, printed) = (self.status, self.text.as_str());
            bail!("{printed}= {told}\nin place of\n{text}= {status}");
        }
        Ok(())
    }
}

/// Runs a shift on a journal, at a pace.
pub fn run<R: Threads + Wait + Sync, P: Pace + Sync>(
    rt: &R,
    alloc: Global,
    shift: &str,
    disk: MemDisk,
    pace: &P,
) -> Result<CallEnd> {
    call(
        rt,
        alloc,
        &["run", "cell", "file", "journal"],
        shift.as_bytes(),
        disk,
        pace,
    )
}

/// Prints the plan after a journal.
pub fn plan<R: Threads + Wait + Sync>(rt: &R, alloc: Global, disk: MemDisk) -> Result<CallEnd> {
    call(
        rt,
        alloc,
        &["plan", "cell", "journal"],
        b"",
        disk,
        &FreePace,
    )
}

/// Hands frames to a standby.
pub fn follow<R: Threads + Wait + Sync>(
    rt: &R,
    alloc: Global,
    frames: &[u8],
    disk: MemDisk,
) -> Result<CallEnd> {
    call(
        rt,
        alloc,
        &["follow", "cell", "file", "journal"],
        frames,
        disk,
        &FreePace,
    )
}

/// The frames of a journal's grants.
pub fn feed<R: Threads + Wait + Sync>(rt: &R, alloc: Global, disk: MemDisk) -> Result<Vec<u8>> {
    let words = owned(alloc, &["feed", "cell", "journal", "0"])?;
    let mut files = files_with(alloc, b"")?;
    let mut out = MemSink::new(alloc, List::new(alloc));
    let Ended { status, .. } = cell_main(rt, alloc, &words, &mut files, &mut out, disk, &FreePace);
    if status != 0 {
        bail!("no frames, status {status}");
    }
    Ok(out.bytes().to_vec(alloc)?)
}

/// Judges a record.
pub fn check<R: Threads + Wait + Sync>(rt: &R, alloc: Global, record: &str) -> Result<CallEnd> {
    let disk = blank_disk(alloc)?;
    call(
        rt,
        alloc,
        &["check", "cell", "file"],
        record.as_bytes(),
        disk,
        &FreePace,
    )
}

/// A disk without bytes.
pub fn blank_disk(alloc: Global) -> Result<MemDisk> {
    disk_with(alloc, b"", None)
}

/// A disk that a crash leaves of this one.
pub fn crash(alloc: Global, disk: &MemDisk, pick: u64) -> Result<MemDisk> {
    disk.crash(alloc, pick).ok().context("no memory")
}

// Calls the controller with these words. `cell` is the cell, and `file` has these bytes.
fn call<R: Threads + Wait + Sync, P: Pace + Sync>(
    rt: &R,
    alloc: Global,
    words: &[&str],
    file: &[u8],
    disk: MemDisk,
    pace: &P,
) -> Result<CallEnd> {
    let words = owned(alloc, words)?;
    let mut files = files_with(alloc, file)?;
    let mut out = MemSink::new(alloc, List::new(alloc));
    let ended = cell_main(rt, alloc, &words, &mut files, &mut out, disk, pace);
    CallEnd::new(alloc, ended, out.bytes())
}

/// Words, as a command line has them.
pub fn owned(alloc: Global, words: &[&str]) -> Result<Vec<String>> {
    let mut owned = Vec::new(alloc);
    for word in words {
        owned.push(String::from_str(alloc, word)?)?;
    }
    Ok(owned)
}

/// The cell as `cell`, and these bytes as `file`.
pub fn files_with(alloc: Global, file: &[u8]) -> Result<MemFiles> {
    let mut files = MemFiles::new(alloc, List::new(alloc));
    if files.add("cell", CROSSING).is_err() || files.add("file", file).is_err() {
        bail!("no memory");
    }
    Ok(files)
}
