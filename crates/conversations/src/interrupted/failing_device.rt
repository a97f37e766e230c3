//! A device of which a sync fails within the second grant of a shift.
//!
//! The syncs of a run on a blank disk are the one of recovery, three that make the journal, and two a grant: the record
//! after its closed gate is made stable by the first, and the opened gate by the second.

use crate::in_memory::disk_with;
use crate::interrupted::call::{CallEnd, crash, plan, run};
use crate::interrupted::sample::TWO_STEPS;
use anyhow::{Context, Result, bail};
use outside_io::{CallKind, DiskCall, FreePace, MemDisk};
use std::alloc::Global;
use std::sync::Wait;
use std::thread::Threads;

// The shift up to the grant whose writing failed.
const HALTED: &str = "shift 1 after 0\n1 load 7 A granted\n1 process M1 halted\n";

/// How many disks that a crash leaves have one grant, and how many have two.
#[derive(Clone, Copy)]
pub struct Left {
    pub one: u64,
    pub two: u64,
}

/// Runs a shift of two steps on a blank disk whose sync of this number fails, and opens what each crash leaves.
pub fn check_failing_sync<R: Threads + Wait + Sync>(
    rt: &R,
    alloc: Global,
    nth: u64,
) -> Result<Left> {
    let failing = DiskCall {
        kind: CallKind::Sync,
        nth,
    };
    let disk = disk_with(alloc, b"", Some(failing))?;
    let told = run(rt, alloc, TWO_STEPS, disk, &FreePace)?;
    told.is_to_be(7, HALTED)?;
    count_crashes(rt, alloc, &told)
}

fn count_crashes<R: Threads + Wait + Sync>(rt: &R, alloc: Global, told: &CallEnd) -> Result<Left> {
    let mut left = Left { one: 0, two: 0 };
    for pick in 0..4u64 {
        let grants = planned_after(rt, alloc, crash(alloc, &told.disk, pick)?);
        match grants.context(format_args!("image {pick}"))? {
            1 => left.one = left.one.wrapping_add(1),
            2 => left.two = left.two.wrapping_add(1),
            other => bail!("image {pick} has {other} grants"),
        }
    }
    Ok(left)
}

// The number of grants after which a plan is made for a disk.
fn planned_after<R: Threads + Wait + Sync>(rt: &R, alloc: Global, disk: MemDisk) -> Result<u64> {
    let told = plan(rt, alloc, disk)?;
    let text = told.text.as_str();
    if told.status != 0 {
        bail!("no plan: {text}");
    }
    let head = text.lines().next().context("no line")?;
    let after = head.strip_prefix("shift 0 after ").context("no head")?;
    after.parse().context("no number")
}
