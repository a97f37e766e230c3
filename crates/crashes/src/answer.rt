//! What recovery answers, as a value that is compared and printed.

use crate::sample::{CELL, grant_at};
use crate::silent_disk::SilentDisk;
use anyhow::{Context, Result, bail};
use cell_base::{Grant, List};
use outside_io::{Disk, MemDisk};
use shift_recovery::{JournalFault, Opened, recover};
use std::alloc::Global;

/// What stands on a disk.
#[derive(Clone, Copy, Debug, PartialEq, Eq)]
pub enum Answer {
    /// No journal.
    Blank,
    /// The first so many grants.
    Grants(u64),
    /// Other grants.
    OtherGrants,
    NotAJournal,
    OtherCell(u64),
    Damaged(u64),
    Long(u64),
    Device,
    Memory,
}

/// What recovery answers of a disk.
pub fn answer_on<D: Disk + Drop>(alloc: Global, disk: D, text: &[u8], room: u64) -> Answer {
    answer_of(&recover(alloc, disk, text, room))
}

/// What was answered.
pub fn answer_of<D: Disk>(opened: &Opened<D>) -> Answer {
    match opened {
        Opened::Fresh(_) => Answer::Blank,
        Opened::Found { journal, grants } => {
            if journal.len() == grants.len() && are_first(grants.as_slice()) {
                Answer::Grants(grants.len())
            } else {
                Answer::OtherGrants
            }
        }
        Opened::Refused { why, .. } => refusal(*why),
        Opened::Device { .. } => Answer::Device,
        Opened::Memory { .. } => Answer::Memory,
    }
}

fn refusal(why: JournalFault) -> Answer {
    match why {
        JournalFault::NotAJournal => Answer::NotAJournal,
        JournalFault::OtherCell { at } => Answer::OtherCell(at),
        JournalFault::Damaged { at } => Answer::Damaged(at),
        JournalFault::Long { len } => Answer::Long(len),
    }
}

// Whether the grants are a prefix of all.
fn are_first(grants: &[Grant]) -> bool {
    for (index, grant) in grants.iter().enumerate() {
        if *grant != grant_at(index as u64) {
            return false;
        }
    }
    true
}

/// Ends with both answers where they differ.
pub fn same(answer: Answer, wanted: Answer) -> Result<()> {
    if answer != wanted {
        bail!("{answer:?} in place of {wanted:?}");
    }
    Ok(())
}

/// Recovers these bytes from a disk that tells them, and from one that doesn't.
pub fn check_bytes(alloc: Global, bytes: &[u8], room: u64, wanted: Answer) -> Result<()> {
    check_text(alloc, bytes, CELL, room, wanted)
}

/// The same with a cell text.
pub fn check_text(
    alloc: Global,
    bytes: &[u8],
    text: &[u8],
    room: u64,
    wanted: Answer,
) -> Result<()> {
    let disk = disk_with(alloc, bytes)?;
    same(answer_on(alloc, disk, text, room), wanted)?;
    let disk = SilentDisk::new(disk_with(alloc, bytes)?, alloc);
    same(answer_on(alloc, disk, text, room), wanted).context("on a silent disk")
}

/// A disk with these bytes, of which no call is to fail.
pub fn disk_with(alloc: Global, bytes: &[u8]) -> Result<MemDisk> {
    MemDisk::new(alloc, bytes, List::new(alloc))
        .ok()
        .context("no memory")
}
