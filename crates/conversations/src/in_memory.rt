//! The outside of a call in memory, of which one call may be made to fail.

use anyhow::{Context, Result, bail};
use lists::List;
use outside_io::{DiskCall, MemDisk};
use std::alloc::Global;

/// The list of a call that is to fail, or of none.
pub fn listed<T: Drop>(alloc: Global, call: Option<T>) -> Result<List<T>> {
    let mut calls = List::new(alloc);
    if let Some(call) = call {
        if calls.try_push(call).is_err() {
            bail!("no memory");
        }
    }
    Ok(calls)
}

/// A disk with these bytes, of which this call fails, or none.
pub fn disk_with(alloc: Global, bytes: &[u8], failing: Option<DiskCall>) -> Result<MemDisk> {
    let disk = MemDisk::new(alloc, bytes, listed(alloc, failing)?);
    disk.ok().context("no memory")
}
