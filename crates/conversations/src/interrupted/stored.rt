//! The grants that stand on a disk.

use anyhow::{Result, bail};
use cell_base::Grant;
use lists::List;
use outside_io::Disk;
use shift_recovery::{Opened, recover};
use std::alloc::Global;
use test_fixtures::CROSSING;

// More grants than any shift here has.
const ROOM: u64 = 100;

/// Recovers a disk. One without a journal has no grants.
pub fn grants_on<D: Disk + Drop>(alloc: Global, disk: D) -> Result<List<Grant>> {
    match recover(alloc, disk, CROSSING, ROOM) {
        Opened::Fresh(_) => Ok(List::new(alloc)),
        Opened::Found { grants, .. } => Ok(grants),
        _ => bail!("neither blank nor a journal"),
    }
}
