//! A large journal, recovered from memory and timed.

use anyhow::{Context, Result};
use cell_base::List;
use outside_io::MemDisk;
use shift_recovery::{Opened, recover};
use std::alloc::Global;
use std::rt::Clock;
use std::time::Instant;

// The text of the cell. Recovery compares it, and reads nothing in it.
const CELL: &[u8] = b"a cell";

// The head of its journal, with the first gate and the length of the text before the text.
const HEAD: &[u8] = b"\x01RUNCELL1\x00\x00\x00\x06a cell";

// A gate, and the record of a grant: session 1 of shift 1 unloads job 7.
const ENTRY: &[u8] = b"\x01\x04\x00\x00\x01\x00\x00\x00\x01\x00\x00\x00\x07\x00\x00\x00\x00";

/// Recovers a journal of so many grants with room for so many, and prints how many were found and how long that took.
pub fn recover_large<R: Clock + Print + AllocGlobal>(rt: &R, grants: u64, room: u64) -> Result<()> {
    let disk = large_disk(rt.alloc(), grants)?;
    let start = Instant::now(rt)?;
    let opened = recover(rt.alloc(), disk, CELL, room);
    let taken = start.elapsed(rt)?;
    let found = match opened {
        Opened::Found { grants, .. } => grants.len(),
        _ => 0,
    };
    let (seconds, micros) = (taken.as_secs(), taken.subsec_micros());
    println!(rt; "{found} grants in {seconds}.{micros:06} s")?;
    Ok(())
}

// A disk with a journal of so many grants.
fn large_disk(alloc: Global, grants: u64) -> Result<MemDisk> {
    let mut bytes = HEAD.to_vec(alloc)?;
    for _ in 0..grants {
        bytes.extend_from_slice(ENTRY)?;
    }
    bytes.push(0)?;
    MemDisk::new(alloc, &bytes, List::new(alloc))
        .ok()
        .context("no memory")
}
