//! Looks at the plan under a lock, on the empty cell and after a load.

use crate::interrupted::call::{blank_disk, run};
use crate::interrupted::sample::LOAD;
use crate::interrupted::under_lock::check_look;
use anyhow::{Context, Result};
use cell_base::{JobId, Request, ResId, TypeId};
use outside_io::FreePace;
use std::alloc::Global;
use std::sync::Wait;
use std::thread::Threads;

const LOAD_PART: Request = Request::Load {
    job: JobId(7),
    kind: TypeId(0),
};

const WORK: Request = Request::Process { machine: ResId(0) };

/// Looks at an empty cell, in which no step is planned and a part is loaded then; and at one with that part, whose work is planned and
/// done then.
pub fn check_looks<R: Threads + Wait + Sync>(rt: &R, alloc: Global) -> Result<()> {
    let blank = blank_disk(alloc)?;
    check_look(rt, alloc, blank, None, LOAD_PART).context("on a blank disk")?;
    let blank = blank_disk(alloc)?;
    let loaded = run(rt, alloc, LOAD, blank, &FreePace)?;
    check_look(rt, alloc, loaded.disk, Some(WORK), WORK).context("after a load")
}
